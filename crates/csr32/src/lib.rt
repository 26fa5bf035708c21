// csr32.rs: `Csr32Matrix`, the plot list. Its lists are lent by the caller, and every call checks them.
#![tactic(auto)]

ghost use Rattle.std.specs.Prelude.{◌≡◌, true, cond, ◌&&◌, ◌-◌, leb, ltb, length};
ghost use Rattle.hybit_core.specs.Answer.{answers, on_given};
ghost use Rattle.hybit_core.specs.Domain.{few};
ghost use Rattle.hybit_core.specs.Floats.{finite};
ghost use Rattle.hybit_core.specs.Table.{told, given};
ghost use Rattle.lent.specs.Lists.{every, rises, part};
ghost use Rattle.csr32.specs.Matrix.{lent_csr};
ghost use Rattle.csr32.specs.Window.{in_window};
ghost use Rattle.csr32.specs.Made.{as_csr_room, room_of};
ghost use Rattle.csr32.specs.Csr.{framed, framed_lists, csr_answer, csr_metadata_bytes, csr_storage_bytes};

use hybit_core::HybitError;

mod capacity;
mod checked;
mod matrix;

pub use capacity::CsrCapacity;
pub use checked::{CheckedCsr32, CsrRow};
pub use matrix::Csr32Matrix;

// The scans below keep a flag and never leave early: so they compile to vector code, and a good list is read whole anyway.

// Whether no pointer is below the one before it.
fn no_fall(row_ptr: &[u32]) -> bool
    ensures { result ≡ rises 0 row_ptr.now }
{
    let mut good = true;
    let mut last: u32 = 0;
    for next in row_ptr {
        good &= last <= *next;
        last = *next;
    }
    good
}

// Whether these are pointers of `nrows` rows into `places` places, for any lists: the rule that every store shares.
pub fn pointers_hold(nrows: usize, row_ptr: &[u32], places: usize) -> bool
    ensures { result ≡ framed nrows row_ptr.now places }
{
    if row_ptr.len() <= nrows {
        return false;
    }
    if row_ptr.len() != nrows + 1 {
        return false;
    }
    if row_ptr[0] != 0 {
        return false;
    }
    if row_ptr[nrows] as usize != places {
        return false;
    }
    no_fall(row_ptr)
}

// The same for two lists side by side.
pub fn lists_hold(nrows: usize, row_ptr: &[u32], left: usize, right: usize) -> bool
    ensures { result ≡ framed_lists nrows row_ptr.now left right }
{
    if left != right {
        return false;
    }
    pointers_hold(nrows, row_ptr, right)
}

// The limit has the width of a column, since there is no vector comparison of 64 bits.
fn columns_below(col_idx: &[u32], limit: u32) -> bool
    ensures { result ≡ every (λ c. ltb c limit) col_idx.now }
{
    let mut good = true;
    for col in col_idx {
        good &= *col < limit;
    }
    good
}

fn columns_inside(col_idx: &[u32], ncols: usize) -> bool
    requires { few ncols ≡ true }
    ensures { result ≡ every (λ c. ltb c ncols) col_idx.now }
{
    columns_below(col_idx, hybit_core::narrow(ncols))
}

fn each_finite(values: &[f64]) -> bool
    ensures { result ≡ every finite values.now }
{
    let mut good = true;
    for each_value in values {
        good &= hybit_core::is_finite(*each_value);
    }
    good
}

// Whether every value of four lists of one length is finite.
fn four_finite(first: &[f64], second: &[f64], third: &[f64], fourth: &[f64]) -> bool
    requires { (length second.now ≡ length first.now) × (length third.now ≡ length first.now) × (length fourth.now ≡ length first.now) }
    ensures { result ≡ (((every finite first.now && every finite second.now) && every finite third.now) && every finite fourth.now) }
{
    let mut a = true;
    let mut b = true;
    let mut c = true;
    let mut d = true;
    for i in 0..first.len() {
        a &= hybit_core::is_finite(first[i]);
        b &= hybit_core::is_finite(second[i]);
        c &= hybit_core::is_finite(third[i]);
        d &= hybit_core::is_finite(fourth[i]);
    }
    a & b & c & d
}

// Whether every value is finite, for any list: stores ask it of theirs. Four parts are read side by side: memory serves four streams
// better than one.
// `abtm_values::count_solid` has the same quarters: one function for both would take the scan of a part as a closure, no plainer.
pub fn all_finite(values: &[f64]) -> bool
    ensures { result ≡ every finite values.now }
{
    let q = values.len() / 4;
    let most = four_finite(
        &values[0..q],
        &values[q..2 * q],
        &values[2 * q..3 * q],
        &values[3 * q..4 * q],
    );
    most & each_finite(&values[4 * q..])
}

// The place of a column among the `width` columns from `base` on; None before and past them.
pub fn place_in_window(column: u32, base: usize, width: usize) -> Option<usize>
    ensures { result ≡ cond (in_window base width column) (Some (column - base)) None }
{
    let c = column as usize;
    if c < base {
        return None;
    }
    let place = c - base;
    if place >= width {
        return None;
    }
    Some(place)
}

impl CsrCapacity {
    // Its parameters are what the struct tells of: a caller's three lists have no other use together.
    pub fn of(row_ptr: &[u32], col_idx: &[u32], values: &[f64]) -> CsrCapacity
        ensures { room_of result ≡ as_csr_room (length row_ptr.now) (length col_idx.now) (length values.now) }
    {
        CsrCapacity {
            row_ptr: row_ptr.len(),
            col_idx: col_idx.len(),
            values: values.len(),
        }
    }

    // Whether so many rows with so many entries in all fit.
    pub fn holds(self, nrows: usize, entries: usize) -> bool
        ensures { result ≡ (ltb nrows self.row_ptr && leb entries self.col_idx && leb entries self.values) }
    {
        nrows < self.row_ptr && entries <= self.col_idx && entries <= self.values
    }
}

impl<'a> Csr32Matrix<'a> {
    // The Rust's `new` and `validate`.
    pub fn check(self) -> Result<(), HybitError>
        ensures { told result ≡ csr_answer (lent_csr self.entry) }
    {
        if !hybit_core::sizes_fit(
            self.nrows,
            self.ncols,
            self.col_idx.len(),
            self.values.len(),
        ) {
            return Err(HybitError::SizeOverflow);
        }
        if !lists_hold(
            self.nrows,
            self.row_ptr,
            self.col_idx.len(),
            self.values.len(),
        ) {
            return Err(HybitError::BadFrame);
        }
        if !columns_inside(self.col_idx, self.ncols) {
            return Err(HybitError::OutsideColumn);
        }
        if !all_finite(self.values) {
            return Err(HybitError::NotFinite);
        }
        Ok(())
    }

    // `check`, which hands back the list that it accepts. A build that clears its lists where it refuses, and a call after another
    // call's check, make the struct themselves.
    pub fn checked(self) -> Result<CheckedCsr32<'a>, HybitError>
        ensures { on_given (λ c. lent_csr c.matrix) (given result) ≡ answers (csr_answer (lent_csr self.entry)) (lent_csr self.entry) }
    {
        self.check()?;
        Ok(CheckedCsr32 { matrix: self })
    }

    pub fn metadata_bytes(self) -> Result<usize, HybitError>
        ensures { given result ≡ answers (csr_answer (lent_csr self.entry)) (csr_metadata_bytes (lent_csr self.entry)) }
    {
        self.check()?;
        Ok(4 * self.row_ptr.len() + 4 * self.col_idx.len())
    }

    pub fn storage_bytes(self) -> Result<usize, HybitError>
        ensures { given result ≡ answers (csr_answer (lent_csr self.entry)) (csr_storage_bytes (lent_csr self.entry)) }
    {
        self.check()?;
        Ok(4 * self.row_ptr.len() + 4 * self.col_idx.len() + 8 * self.values.len())
    }
}

impl<'a> CheckedCsr32<'a> {
    // The entries of a row, none past the last one. Its pointers are read once for both lists, with no test beside the row's own:
    // lent::part would compare them for each.
    pub fn row(self, row: usize) -> CsrRow<'a>
        ensures ncols { result.ncols ≡ self.entry.matrix.ncols }
        ensures cols { result.cols.now ≡ part self.entry.matrix.row_ptr.now self.entry.matrix.col_idx.now row }
        ensures vals { result.vals.now ≡ part self.entry.matrix.row_ptr.now self.entry.matrix.values.now row }
    {
        let matrix = self.matrix;
        let ncols = matrix.ncols;
        if row >= matrix.nrows {
            return CsrRow {
                ncols,
                cols: &matrix.col_idx[..0],
                vals: &matrix.values[..0],
            };
        }
        let start = matrix.row_ptr[row] as usize;
        let end = matrix.row_ptr[row + 1] as usize;
        let cols = &matrix.col_idx[start..end];
        let vals = &matrix.values[start..end];
        CsrRow { ncols, cols, vals }
    }
}
