// metadata_first.rs: what the pruned dots ask of their operands before they read a row.
// Three parameters, as document 01's calls have them: metadata_first_dot makes them one once they are accepted.
#![tactic(auto)]

ghost use Rattle.std.specs.Prelude.{◌≡◌};
ghost use Rattle.hybit_core.specs.Table.{told};
ghost use Rattle.mask.specs.Dof.{lent_mask};
ghost use Rattle.metadata_first.specs.Matrix.{lent_store};
ghost use Rattle.metadata_first.specs.Dot.{operands_answer, dot_answer};
ghost use Rattle.metadata_first_operands.specs.Checks.{rows_answer};

use hybit_core::HybitError;
use mask::DofMask;
use metadata_first::AbtmMetadataFirstMatrix;

// The checks that every dot makes. Other calls have records of other types, and sizes of their own.
pub fn examine_operands(
    packed: AbtmMetadataFirstMatrix,
    mask: DofMask,
    x: &[f64],
) -> Result<(), HybitError>
    ensures { told result ≡ operands_answer (lent_store packed.entry) (lent_mask mask.entry) x.now }
{
    if !hybit_core::dimension_fits(mask.len) {
        return Err(HybitError::SizeOverflow);
    }
    packed.check()?;
    mask.check()?;
    // By hand and by no helper: the fields say which of the two lengths is expected.
    if mask.len != packed.topology.ncols {
        return Err(HybitError::DimensionMismatch {
            expected: packed.topology.ncols,
            actual: mask.len,
        });
    }
    if x.len() != packed.topology.ncols {
        return Err(HybitError::DimensionMismatch {
            expected: packed.topology.ncols,
            actual: x.len(),
        });
    }
    Ok(())
}

// Those of a row's dot.
pub fn examine_row(
    packed: AbtmMetadataFirstMatrix,
    mask: DofMask,
    x: &[f64],
    row: usize,
) -> Result<(), HybitError>
    ensures { told result ≡ dot_answer (lent_store packed.entry) (lent_mask mask.entry) x.now row }
{
    examine_operands(packed, mask, x)?;
    if row >= packed.topology.nrows {
        return Err(HybitError::NoSuchPlace);
    }
    Ok(())
}

// Those of every row's dot, into lists of so many places. Two numbers and no struct: this is the one test of them.
pub fn examine_rows(
    packed: AbtmMetadataFirstMatrix,
    mask: DofMask,
    x: &[f64],
    sums: usize,
    counts: usize,
) -> Result<(), HybitError>
    ensures { told result ≡ rows_answer (lent_store packed.entry) (lent_mask mask.entry) x.now sums counts }
{
    examine_operands(packed, mask, x)?;
    if sums < packed.topology.nrows {
        return Err(HybitError::ShortList);
    }
    if counts < packed.topology.nrows {
        return Err(HybitError::ShortList);
    }
    Ok(())
}
