// restricted.rs: `PreparedColumnRestrictedCsrOperator::from_csr32`. The entries in active columns are counted before anything is
// written, so that a list that is too short is known at once.
// Lists that are written stay apart in all functions: a struct would have to name each in every contract.
// Three lists are cleared by three calls: one call that stands for them would name the three again.
#![tactic(auto)]

ghost use Rattle.std.specs.Prelude.{◌≡◌, ◌+◌, ◌≤◌, length};
ghost use mathlib.Core.List.{map};
ghost use Rattle.hybit_core.specs.Answer.{accepted, answers};
ghost use Rattle.hybit_core.specs.Floats.{zero64};
ghost use Rattle.hybit_core.specs.Table.{told, given};
ghost use Rattle.lent.specs.Lent.{Appended, built};
ghost use Rattle.mask.specs.Mask.{active};
ghost use Rattle.csr32.specs.Csr.{Entry};
ghost use Rattle.csr32.specs.Made.{entries_in, as_csr_room, room_of};
ghost use Rattle.restricted.specs.Restricted.{restricted, restrict_answer, restriction_of};
ghost use Rattle.csr32.specs.Matrix.{lent_csr};
ghost use Rattle.csr32.specs.Row.{entries_of};
ghost use Rattle.mask.specs.Dof.{lent_mask};

use csr32::{CheckedCsr32, Csr32Matrix, CsrCapacity, CsrRow};
use hybit_core::HybitError;
use mask::DofMask;
use restricted::ColumnRestriction;

// Appends a row's entries in active columns, in stored order, from place `from` on; answers the next place.
fn keep_row(
    row: CsrRow,
    mask: DofMask,
    from: usize,
    out_col_idx: &mut [u32],
    out_values: &mut [f64],
) -> usize
    requires columns { from + length (entries_in (active (lent_mask mask)) (entries_of row)) ≤ length out_col_idx.old }
    requires values { from + length (entries_in (active (lent_mask mask)) (entries_of row)) ≤ length out_values.old }
    ensures columns { Appended (map (λ (e : Entry). e.0) (entries_in (active (lent_mask mask.entry)) (entries_of row.entry))) from result out_col_idx.old out_col_idx.new }
    ensures values { Appended (map (λ (e : Entry). e.1) (entries_in (active (lent_mask mask.entry)) (entries_of row.entry))) from result out_values.old out_values.new }
{
    let mut at = from;
    // What is kept is fewer than what is read: the place is a count of its own.
    for (place, column) in row.cols.iter().enumerate() {
        if mask.is_member(*column as usize) {
            out_col_idx[at] = *column;
            out_values[at] = row.vals[place];
            at += 1;
        }
    }
    at
}

// The rows of an accepted build; answers how many entries were kept.
fn fill_rows(
    csr: Csr32Matrix,
    mask: DofMask,
    out_row_ptr: &mut [u32],
    out_col_idx: &mut [u32],
    out_values: &mut [f64],
) -> usize
    requires { restrict_answer (lent_csr csr) (lent_mask mask) (as_csr_room (length out_row_ptr.old) (length out_col_idx.old) (length out_values.old)) ≡ accepted }
    ensures kept { result ≡ length (restricted (lent_csr csr.entry) (lent_mask mask.entry)).val }
    ensures pointers { Appended (restricted (lent_csr csr.entry) (lent_mask mask.entry)).ptr 0 (csr.entry.nrows + 1) out_row_ptr.old out_row_ptr.new }
    ensures columns { Appended (restricted (lent_csr csr.entry) (lent_mask mask.entry)).col 0 result out_col_idx.old out_col_idx.new }
    ensures values { Appended (restricted (lent_csr csr.entry) (lent_mask mask.entry)).val 0 result out_values.old out_values.new }
{
    let checked = CheckedCsr32 { matrix: csr };
    let mut at: usize = 0;
    for row in 0..csr.nrows {
        out_row_ptr[row] = hybit_core::narrow(at);
        at = keep_row(checked.row(row), mask, at, out_col_idx, out_values);
    }
    out_row_ptr[csr.nrows] = hybit_core::narrow(at);
    at
}

// The mismatch stands beside its test: a function for it would be no plainer.
// restricted_abtm asks the same of tiles, demand_examine of a list with its question: the record or what follows differs.
fn examine(csr: Csr32Matrix, mask: DofMask, capacity: CsrCapacity) -> Result<(), HybitError>
    ensures { told result ≡ restrict_answer (lent_csr csr.entry) (lent_mask mask.entry) (room_of capacity) }
{
    if !hybit_core::dimension_fits(mask.len) {
        return Err(HybitError::SizeOverflow);
    }
    csr.check()?;
    mask.check()?;
    if mask.len != csr.ncols {
        return Err(HybitError::DimensionMismatch {
            expected: csr.ncols,
            actual: mask.len,
        });
    }
    let kept = restricted::count_active(csr.col_idx, mask);
    if !capacity.holds(csr.nrows, kept) {
        return Err(HybitError::ShortList);
    }
    Ok(())
}

// The entries in active columns, in `out_row_ptr`, `out_col_idx` and `out_values`: the used parts are nrows + 1 pointers and as many
// columns and values as are kept.
pub fn from_csr32(
    csr: Csr32Matrix,
    mask: DofMask,
    out_row_ptr: &mut [u32],
    out_col_idx: &mut [u32],
    out_values: &mut [f64],
) -> Result<ColumnRestriction, HybitError>
    ensures answer { given result ≡ answers (restrict_answer (lent_csr csr.entry) (lent_mask mask.entry) (as_csr_room (length out_row_ptr.old) (length out_col_idx.old) (length out_values.old))) (restriction_of (lent_csr csr.entry) (lent_mask mask.entry)) }
    ensures pointers { out_row_ptr.new ≡ built 0 (length out_row_ptr.old) (restrict_answer (lent_csr csr.entry) (lent_mask mask.entry) (as_csr_room (length out_row_ptr.old) (length out_col_idx.old) (length out_values.old))) (restricted (lent_csr csr.entry) (lent_mask mask.entry)).ptr }
    ensures columns { out_col_idx.new ≡ built 0 (length out_col_idx.old) (restrict_answer (lent_csr csr.entry) (lent_mask mask.entry) (as_csr_room (length out_row_ptr.old) (length out_col_idx.old) (length out_values.old))) (restricted (lent_csr csr.entry) (lent_mask mask.entry)).col }
    ensures values { out_values.new ≡ built zero64 (length out_values.old) (restrict_answer (lent_csr csr.entry) (lent_mask mask.entry) (as_csr_room (length out_row_ptr.old) (length out_col_idx.old) (length out_values.old))) (restricted (lent_csr csr.entry) (lent_mask mask.entry)).val }
{
    let capacity = CsrCapacity::of(out_row_ptr, out_col_idx, out_values);
    let v = examine(csr, mask, capacity);
    if let Err(e) = v {
        lent::clear_from(out_row_ptr, 0);
        lent::clear_from(out_col_idx, 0);
        lent::clear_from(out_values, 0);
        return Err(e);
    }
    let kept = fill_rows(csr, mask, out_row_ptr, out_col_idx, out_values);
    lent::clear_from(out_row_ptr, csr.nrows + 1);
    lent::clear_from(out_col_idx, kept);
    lent::clear_from(out_values, kept);
    Ok(ColumnRestriction {
        nrows: csr.nrows,
        ncols: csr.ncols,
        source_nnz: csr.values.len(),
        retained_nnz: kept,
    })
}
