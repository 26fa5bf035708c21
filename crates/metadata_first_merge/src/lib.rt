// metadata_first.rs: the merging of `AbtmMetadataFirstMatrix::from_csr32`. Whether every merged value of a plot list is finite,
// found through a window of local sums, without a list to write to: a list that is too short must not hide refusal 4.
// The sums are written, so contracts say that they are zeros: a struct of them would have to name the list in every contract.
// Rows go through a loop and no `all`: its closure would write the sums, whose zeros are asked at each turn. Rows of words and of
// tiles are of other types.
#![tactic(auto)]

ghost use Rattle.std.specs.Prelude.{◌≡◌, true, ◌+◌, ◌≤◌, ◌<◌, ◌^◌, length, replicate};
ghost use Rattle.hybit_core.specs.Floats.{zero64, finite};
ghost use Rattle.hybit_core.specs.Table.{told};
ghost use Rattle.lent.specs.Lists.{each, every};
ghost use Rattle.csr32.specs.Csr.{merged};
ghost use Rattle.csr32.specs.Matrix.{lent_csr};
ghost use Rattle.csr32.specs.Row.{entries_of};
ghost use Rattle.csr32.specs.Window.{Outside};
ghost use Rattle.metadata_first_merge.specs.Merge.{row_values, merged_finite, merge_answer};
ghost use Rattle.metadata_first_merge.specs.Window.{sums_finite, window_finite};

use csr32::{CheckedCsr32, Csr32Matrix, CsrRow};
use hybit_core::HybitError;

// Adds the row's entries of the window, in stored order.
fn add_window(row: CsrRow, base: usize, sums: &mut [f64])
    requires { sums.old ≡ replicate (length sums.old) zero64 }
    ensures { sums.new ≡ each (λ i. merged (entries_of row.entry) (base + i)) (length sums.old) }
{
    let width = sums.len();
    for (k, col) in row.cols.iter().enumerate() {
        if let Some(i) = csr32::place_in_window(*col, base, width) {
            sums[i] = sums[i] + row.vals[k];
        }
    }
}

// Whether the sums of the row's columns in the window are finite.
fn sums_hold(cols: &[u32], base: usize, sums: &[f64]) -> bool
    ensures { result ≡ sums_finite base sums.now cols.now }
{
    for col in cols {
        let Some(i) = csr32::place_in_window(*col, base, sums.len()) else {
            continue;
        };
        if !hybit_core::is_finite(sums[i]) {
            return false;
        }
    }
    true
}

// Makes the window 0.0 again, at the row's columns. abtm_build takes marks away as well.
fn clear_window(cols: &[u32], base: usize, sums: &mut [f64])
    requires { Outside cols.now base sums.old }
    ensures { sums.new ≡ replicate (length sums.old) zero64 }
{
    let width = sums.len();
    for col in cols {
        if let Some(i) = csr32::place_in_window(*col, base, width) {
            sums[i] = 0.0;
        }
    }
}

// Whether the row's merged values in the window are finite; the window is 0.0 again.
fn window_holds(row: CsrRow, base: usize, sums: &mut [f64]) -> bool
    requires { sums.old ≡ replicate (length sums.old) zero64 }
    ensures answer { result ≡ window_finite base (length sums.old) row.entry.cols.now row.entry.vals.now }
    ensures window { sums.new ≡ replicate (length sums.old) zero64 }
{
    add_window(row, base, sums);
    let holds = sums_hold(row.cols, base, sums);
    clear_window(row.cols, base, sums);
    holds
}

// Whether the row's merged values are finite, window after window.
fn row_holds(row: CsrRow, sums: &mut [f64]) -> bool
    requires sizes { (0 < length sums.old) × (length sums.old ≤ 2 ^ 20) }
    requires window { sums.old ≡ replicate (length sums.old) zero64 }
    ensures answer { result ≡ every finite (row_values row.entry.ncols (entries_of row.entry)) }
    ensures window { sums.new ≡ replicate (length sums.old) zero64 }
{
    let width = sums.len();
    for base in (0..row.ncols).step_by(width) {
        if !window_holds(row, base, sums) {
            return false;
        }
    }
    true
}

fn rows_hold(csr: CheckedCsr32, sums: &mut [f64]) -> bool
    requires sizes { (0 < length sums.old) × (length sums.old ≤ 2 ^ 20) }
    requires window { sums.old ≡ replicate (length sums.old) zero64 }
    ensures { result ≡ merged_finite (lent_csr csr.entry.matrix) }
{
    for row in 0..csr.matrix.nrows {
        if !row_holds(csr.row(row), sums) {
            return false;
        }
    }
    true
}

// The same through 256 KiB of local sums: a row is read once for each 32,768 columns of the matrix.
fn merged_finite(csr: CheckedCsr32) -> bool
    ensures { result ≡ merged_finite (lent_csr csr.entry.matrix) }
{
    // The library has no heap: a window of 32,768 columns, and several for a matrix that has more.
    let mut sums = [0.0f64; 32768];
    rows_hold(csr, &mut sums[..32768])
}

// The checks of a plot list that is to be packed: those of csr32, and 4 for an infinite merged value.
pub fn check(csr: Csr32Matrix) -> Result<(), HybitError>
    ensures { told result ≡ merge_answer (lent_csr csr.entry) }
{
    if !merged_finite(csr.checked()?) {
        return Err(HybitError::NotFinite);
    }
    Ok(())
}
