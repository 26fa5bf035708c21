// What the check of a plot list answers: the list, and the fact that it is accepted.
ghost use Rattle.std.specs.Prelude.{◌≡◌, true, ◌≤◌, ◌^◌, ltb, length};
ghost use Rattle.hybit_core.specs.Answer.{accepted};
ghost use Rattle.lent.specs.Lists.{every};
ghost use Rattle.csr32.specs.Csr.{csr_answer};
ghost use Rattle.csr32.specs.Matrix.{lent_csr};

use crate::Csr32Matrix;

#[derive(Clone, Copy)]
pub struct CheckedCsr32<'a> {
    pub matrix: Csr32Matrix<'a>,
    pub ghost valid: { csr_answer (lent_csr matrix) ≡ accepted },
}

// A row of a plot list of `ncols` columns: the columns of its entries, and their values.
#[derive(Clone, Copy)]
pub struct CsrRow<'a> {
    pub ncols: usize,
    pub cols: &'a [u32],
    pub vals: &'a [f64],
    pub ghost few: { ncols ≤ 2 ^ 20 },
    pub ghost inside: { every (λ c. ltb c ncols) cols.now ≡ true },
    pub ghost paired: { length vals.now ≡ length cols.now },
}
