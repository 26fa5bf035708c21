// What the three routes of demand 3 ask first, of any input: the records, the thresholds in the route by tiles, and the question to a
// row. The crates demand_routes and demand_tiled run the routes.
// csr, mask, x and row stay parameters: each route replaces list or mask on its way, so a struct would be taken apart again.
#![tactic(auto)]

ghost use Rattle.std.specs.Prelude.{◌≡◌};
ghost use Rattle.hybit_core.specs.Answer.{accepted, ◌and_then◌};
ghost use Rattle.hybit_core.specs.Table.{told};
ghost use Rattle.abtm.specs.Calls.{threshold_answer};
ghost use Rattle.demand_examine.specs.Calls.{records_answer, question_answer};
ghost use Rattle.csr32.specs.Matrix.{lent_csr};
ghost use Rattle.mask.specs.Dof.{lent_mask};

use abtm::AbtmConfig;
use csr32::Csr32Matrix;
use hybit_core::HybitError;
use mask::DofMask;

// restricted_csr32 begins with these checks too, and goes on with others: a call for three lines would be no plainer.
fn examine_records(csr: Csr32Matrix, mask: DofMask) -> Result<(), HybitError>
    ensures { told result ≡ records_answer (lent_csr csr.entry) (lent_mask mask.entry) }
{
    if !hybit_core::dimension_fits(mask.len) {
        return Err(HybitError::SizeOverflow);
    }
    csr.check()?;
    mask.check()
}

// The two mismatches stand beside their tests: a function that takes both numbers and answers them would be no plainer.
fn examine_question(
    csr: Csr32Matrix,
    mask: DofMask,
    x: &[f64],
    row: usize,
) -> Result<(), HybitError>
    requires { records_answer (lent_csr csr) (lent_mask mask) ≡ accepted }
    ensures { told result ≡ question_answer (lent_csr csr.entry) (lent_mask mask.entry) x.now row }
{
    if mask.len != csr.ncols {
        return Err(HybitError::DimensionMismatch {
            expected: csr.ncols,
            actual: mask.len,
        });
    }
    if x.len() != csr.ncols {
        return Err(HybitError::DimensionMismatch {
            expected: csr.ncols,
            actual: x.len(),
        });
    }
    if row >= csr.nrows {
        return Err(HybitError::NoSuchPlace);
    }
    metadata_first_merge::check(csr)
}

pub fn examine(csr: Csr32Matrix, mask: DofMask, x: &[f64], row: usize) -> Result<(), HybitError>
    ensures { told result ≡ (records_answer (lent_csr csr.entry) (lent_mask mask.entry) and_then question_answer (lent_csr csr.entry) (lent_mask mask.entry) x.now row) }
{
    examine_records(csr, mask)?;
    examine_question(csr, mask, x, row)
}

pub fn examine_tiled(
    csr: Csr32Matrix,
    mask: DofMask,
    config: AbtmConfig,
    x: &[f64],
    row: usize,
) -> Result<(), HybitError>
    ensures { told result ≡ (records_answer (lent_csr csr.entry) (lent_mask mask.entry) and_then threshold_answer config and_then question_answer (lent_csr csr.entry) (lent_mask mask.entry) x.now row) }
{
    examine_records(csr, mask)?;
    config.validate()?;
    examine_question(csr, mask, x, row)
}
