// csr32.rs: `LinearOperator::apply` of `Csr32Matrix`, the product of a plot list.
#![tactic(auto)]

ghost use Rattle.std.specs.Prelude.{◌≡◌, ◌*◌, ◌<◌, ◌≤◌, length, get_or};
ghost use Rattle.hybit_core.specs.Answer.{accepted};
ghost use Rattle.hybit_core.specs.Floats.{zero64};
ghost use Rattle.hybit_core.specs.Table.{told};
ghost use Rattle.lent.specs.Lent.{kept};
ghost use Rattle.csr32.specs.Csr.{csr_answer, entries, row_product, apply_answer, product};
ghost use Rattle.csr32.specs.Sums.{between, added_to, product_at, Places};
ghost use Rattle.csr32.specs.Matrix.{lent_csr};

use csr32::Csr32Matrix;
use hybit_core::HybitError;

// Three sums made side by side.
#[derive(Clone, Copy)]
struct Three {
    first: f64,
    second: f64,
    third: f64,
}

// A plot list and the x that it is applied to, both checked.
#[derive(Clone, Copy)]
struct Operands<'a> {
    matrix: Csr32Matrix<'a>,
    x: &'a [f64],
    ghost valid: { csr_answer (lent_csr matrix) ≡ accepted },
    ghost columns: { length x.now ≡ matrix.ncols },
}

// The product of the entry at place p.
fn term(operands: Operands, p: usize) -> f64
    requires { p < length operands.matrix.col_idx.now }
    ensures { result ≡ product_at operands.entry.matrix.col_idx.now operands.entry.matrix.values.now operands.entry.x.now p }
{
    let matrix = operands.matrix;
    let c = matrix.col_idx[p] as usize;
    matrix.values[p] * operands.x[c]
}

// A sum, and the products of the entries from one place up to another added to it in stored order.
fn add_entries(operands: Operands, from: usize, to: usize, start: f64) -> f64
    requires { Places (length operands.matrix.col_idx.now) from to }
    ensures { result ≡ added_to start (between operands.entry.matrix.col_idx.now operands.entry.matrix.values.now from to) operands.entry.x.now }
{
    let mut sum = start;
    for p in from..to {
        sum = sum + term(operands, p);
    }
    sum
}

// The sums of three parts. A sum adds its products one after the other, and an addition waits for the one before it; three sums side
// by side, as far as the shortest part goes, don't wait for each other. Four took more registers than there are.
fn sum_three(
    operands: Operands,
    a: usize,
    a_end: usize,
    b: usize,
    b_end: usize,
    c: usize,
    c_end: usize,
) -> Three
    requires first { Places (length operands.matrix.col_idx.now) a a_end }
    requires second { Places (length operands.matrix.col_idx.now) b b_end }
    requires third { Places (length operands.matrix.col_idx.now) c c_end }
    ensures { (result.first ≡ added_to zero64 (between operands.entry.matrix.col_idx.now operands.entry.matrix.values.now a a_end) operands.entry.x.now) × (result.second ≡ added_to zero64 (between operands.entry.matrix.col_idx.now operands.entry.matrix.values.now b b_end) operands.entry.x.now) × (result.third ≡ added_to zero64 (between operands.entry.matrix.col_idx.now operands.entry.matrix.values.now c c_end) operands.entry.x.now) }
{
    let n = (a_end - a).min(b_end - b).min(c_end - c);
    let mut first: f64 = 0.0;
    let mut second: f64 = 0.0;
    let mut third: f64 = 0.0;
    for i in 0..n {
        first = first + term(operands, a + i);
        second = second + term(operands, b + i);
        third = third + term(operands, c + i);
    }
    Three {
        first: add_entries(operands, a + n, a_end, first),
        second: add_entries(operands, b + n, b_end, second),
        third: add_entries(operands, c + n, c_end, third),
    }
}

// Without the test of `lent::pointer`: this is read in the product's loop.
fn pointer(row_ptr: &[u32], row: usize) -> usize
    requires { row < length row_ptr.now }
    ensures { result ≡ get_or row_ptr.now row 0 }
{
    row_ptr[row] as usize
}

// The Rust's `dot_row_unchecked` of three rows.
fn three_rows(operands: Operands, a: usize, b: usize, c: usize) -> Three
    requires { (a < operands.matrix.nrows) × (b < operands.matrix.nrows) × (c < operands.matrix.nrows) }
    ensures { (result.first ≡ row_product (entries (lent_csr operands.entry.matrix) a) operands.entry.x.now) × (result.second ≡ row_product (entries (lent_csr operands.entry.matrix) b) operands.entry.x.now) × (result.third ≡ row_product (entries (lent_csr operands.entry.matrix) c) operands.entry.x.now) }
{
    let row_ptr = operands.matrix.row_ptr;
    let pa = pointer(row_ptr, a);
    let ea = pointer(row_ptr, a + 1);
    let pb = pointer(row_ptr, b);
    let eb = pointer(row_ptr, b + 1);
    let pc = pointer(row_ptr, c);
    let ec = pointer(row_ptr, c + 1);
    sum_three(operands, pa, ea, pb, eb, pc, ec)
}

fn third_of(n: usize) -> usize
    ensures { (result ≤ n) × (n ≤ 3 * result) }
{
    n.div_ceil(3)
}

// The row, or the last one where there is no such row.
fn row_or_last(row: usize, nrows: usize) -> usize
    requires { 0 < nrows }
    ensures { (result < nrows) × (row < nrows → result ≡ row) }
{
    if row < nrows { row } else { nrows - 1 }
}

// The rows of the three thirds side by side: rows far from each other are read as long streams, which memory serves better than
// neighbouring rows. Where the thirds reach past the end, the last row is made again.
fn fill_product(operands: Operands, y: &mut [f64])
    requires { length y.old ≡ operands.matrix.nrows }
    ensures { y.new ≡ product (lent_csr operands.entry.matrix) operands.entry.x.now }
{
    let third = third_of(operands.matrix.nrows);
    for row in 0..third {
        let b = row_or_last(row + third, operands.matrix.nrows);
        let c = row_or_last(row + 2 * third, operands.matrix.nrows);
        let s = three_rows(operands, row, b, c);
        y[row] = s.first;
        y[b] = s.second;
        y[c] = s.third;
    }
}

fn examine_apply(csr: Csr32Matrix, x: &[f64], ny: usize) -> Result<(), HybitError>
    ensures { told result ≡ apply_answer (lent_csr csr.entry) x.now ny }
{
    csr.check()?;
    // By hand and by no helper: the fields say which of the two lengths is expected.
    if x.len() != csr.ncols {
        return Err(HybitError::DimensionMismatch {
            expected: csr.ncols,
            actual: x.len(),
        });
    }
    if ny != csr.nrows {
        return Err(HybitError::DimensionMismatch {
            expected: csr.nrows,
            actual: ny,
        });
    }
    Ok(())
}

// The row products; a refused call leaves y as it was.
pub fn apply(csr: Csr32Matrix, x: &[f64], y: &mut [f64]) -> Result<(), HybitError>
    ensures answer { told result ≡ apply_answer (lent_csr csr.entry) x.now (length y.old) }
    ensures target { y.new ≡ kept (apply_answer (lent_csr csr.entry) x.now (length y.old)) (product (lent_csr csr.entry) x.now) y.old }
{
    examine_apply(csr, x, y.len())?;
    fill_product(Operands { matrix: csr, x }, y);
    Ok(())
}
