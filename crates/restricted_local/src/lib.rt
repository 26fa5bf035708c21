// restricted.rs: `PreparedLocalCsrOperator`: the rows and columns of a region, numbered anew. Its product is csr32_apply's `apply`.
// The Rust finds a local number in a table of all columns; here it is the count of members in the words before, kept in a local
// list, and of the ones below in the column's word.
// Lists that are written stay apart in all functions, and facts of them too: a struct would have to name each in every contract.
// Each list is cleared by its own call: one call that stands for them would name them all again.
// What is kept is fewer than what is read: where a loop writes it, the place is a count of its own.
#![tactic(auto)]

ghost use Rattle.std.specs.Prelude.{◌≡◌, true, ◌+◌, ◌*◌, ◌^◌, ◌≤◌, ◌<◌, ltb, length};
ghost use mathlib.Core.List.{map};
ghost use Rattle.hybit_core.specs.Answer.{answers};
ghost use Rattle.hybit_core.specs.Floats.{zero64};
ghost use Rattle.hybit_core.specs.Table.{told, given};
ghost use Rattle.lent.specs.Lists.{each, every};
ghost use Rattle.lent.specs.Lent.{Appended, padded, built};
ghost use Rattle.word.specs.Bits.{count};
ghost use Rattle.mask.specs.Mask.{active, bit_at};
ghost use Rattle.csr32.specs.Csr.{Entry};
ghost use Rattle.csr32.specs.Made.{entries_in, as_csr_room, room_of, fits_csr};
ghost use Rattle.restricted.specs.Local.{region_members, renumbered, local_list, local_answer, region_of};
ghost use Rattle.restricted_local.specs.Region.{region_checks, region_answer, Region, Numbered};
ghost use Rattle.csr32.specs.Matrix.{lent_csr};
ghost use Rattle.csr32.specs.Row.{entries_of};
ghost use Rattle.mask.specs.Dof.{lent_mask};

use csr32::{CheckedCsr32, Csr32Matrix, CsrCapacity, CsrRow};
use hybit_core::HybitError;
use mask::DofMask;
use restricted::LocalRegion;

// The numbers that a region gives its columns: `counts` has, for each word, the members in the words before it.
#[derive(Clone, Copy)]
struct Numbering<'a> {
    region: DofMask<'a>,
    counts: &'a [u32],
    ghost numbered: { Numbered (lent_mask region) counts.now },
}

// What an accepted build reads: the plot list, the region, and its members.
#[derive(Clone, Copy)]
struct LocalRows<'a> {
    csr: Csr32Matrix<'a>,
    region: DofMask<'a>,
    members: &'a [u32],
    ghost accepted: { Region (lent_csr csr) (lent_mask region) },
    ghost listed: { members.now ≡ region_members (lent_mask region) },
}

// The region's numbers: its members, their entries in the region's columns, and all their entries.
fn count_region(csr: Csr32Matrix, region: DofMask) -> LocalRegion
    requires { Region (lent_csr csr) (lent_mask region) }
    ensures { result ≡ region_of (lent_csr csr.entry) (lent_mask region.entry) }
{
    let checked = CheckedCsr32 { matrix: csr };
    let mut nodes: usize = 0;
    let mut kept: usize = 0;
    let mut source: usize = 0;
    for row in 0..csr.nrows {
        if region.is_member(row) {
            let cols = checked.row(row).cols;
            nodes += 1;
            kept += restricted::count_active(cols, region);
            source += cols.len();
        }
    }
    LocalRegion {
        global_size: csr.nrows,
        local_nodes: nodes,
        local_nnz: kept,
        source_row_nnz: source,
    }
}

// The mismatch stands beside its test: a function that takes both numbers and answers them would be no plainer.
fn examine_region(csr: Csr32Matrix, region: DofMask) -> Result<(), HybitError>
    ensures { told result ≡ region_checks (lent_csr csr.entry) (lent_mask region.entry) }
{
    if !hybit_core::dimension_fits(region.len) {
        return Err(HybitError::SizeOverflow);
    }
    csr.check()?;
    region.check()?;
    if csr.nrows != csr.ncols {
        return Err(HybitError::NotSquare);
    }
    if region.len != csr.nrows {
        return Err(HybitError::DimensionMismatch {
            expected: csr.nrows,
            actual: region.len,
        });
    }
    Ok(())
}

// All checks, and the region's numbers where they find nothing: 13 is known before anything is written.
fn examine(
    csr: Csr32Matrix,
    region: DofMask,
    member_room: usize,
    capacity: CsrCapacity,
) -> Result<LocalRegion, HybitError>
    ensures { given result ≡ region_answer (lent_csr csr.entry) (lent_mask region.entry) member_room (room_of capacity) }
{
    examine_region(csr, region)?;
    let s = count_region(csr, region);
    if member_room < s.local_nodes {
        return Err(HybitError::ShortList);
    }
    if !capacity.holds(s.local_nodes, s.local_nnz) {
        return Err(HybitError::ShortList);
    }
    Ok(s)
}

// Writes the members, ascending; answers how many.
fn put_members(region: DofMask, out: &mut [u32]) -> usize
    requires { (region.len ≤ 2 ^ 20) × (length (region_members (lent_mask region)) ≤ length out.old) }
    ensures { Appended (region_members (lent_mask region.entry)) 0 result out.old out.new }
{
    let mut at: usize = 0;
    for row in 0..region.len {
        if region.is_member(row) {
            out[at] = hybit_core::narrow(row);
            at += 1;
        }
    }
    at
}

// The same, with zeros past them.
fn write_members(region: DofMask, members: &mut [u32]) -> usize
    requires { (region.len ≤ 2 ^ 20) × (length (region_members (lent_mask region)) ≤ length members.old) }
    ensures count { result ≡ length (region_members (lent_mask region.entry)) }
    ensures list { members.new ≡ padded 0 (length members.old) (region_members (lent_mask region.entry)) }
{
    let nodes = put_members(region, members);
    lent::clear_from(members, nodes);
    nodes
}

// For each word, how many ones stand in the words before it.
fn count_words(words: &[u64], counts: &mut [u32])
    requires { (length words.now ≤ 2 ^ 14) × (length words.now ≤ length counts.old) }
    ensures { Appended (each (λ w. count (bit_at words.now) (64 * w)) (length words.now)) 0 (length words.now) counts.old counts.new }
{
    let mut ones: usize = 0;
    for (place, bits) in words.iter().enumerate() {
        counts[place] = hybit_core::narrow(ones);
        ones += word::popcount(*bits);
    }
}

// The new number of a column: how many members lie below it.
fn local_number(numbering: Numbering, c: usize) -> u32
    requires { c < numbering.region.len }
    ensures { result ≡ count (active (lent_mask numbering.entry.region)) c }
{
    let w = c / 64;
    let before = numbering.counts[w] as usize;
    hybit_core::narrow(before + word::ones_below(numbering.region.words[w], c % 64))
}

// Appends a row's entries in the region's columns, with their new numbers, in stored order, from place `from` on; answers the next
// place.
fn keep_row(
    row: CsrRow,
    numbering: Numbering,
    from: usize,
    out_col_idx: &mut [u32],
    out_values: &mut [f64],
) -> usize
    requires inside { every (λ c. ltb c numbering.region.len) row.cols.now ≡ true }
    requires columns { from + length (entries_in (active (lent_mask numbering.region)) (entries_of row)) ≤ length out_col_idx.old }
    requires values { from + length (entries_in (active (lent_mask numbering.region)) (entries_of row)) ≤ length out_values.old }
    ensures columns { Appended (map (λ (e : Entry). e.0) (map (renumbered (lent_mask numbering.entry.region)) (entries_in (active (lent_mask numbering.entry.region)) (entries_of row.entry)))) from result out_col_idx.old out_col_idx.new }
    ensures values { Appended (map (λ (e : Entry). e.1) (map (renumbered (lent_mask numbering.entry.region)) (entries_in (active (lent_mask numbering.entry.region)) (entries_of row.entry)))) from result out_values.old out_values.new }
{
    let mut at = from;
    for (place, column) in row.cols.iter().enumerate() {
        let c = *column as usize;
        if numbering.region.is_member(c) {
            out_col_idx[at] = local_number(numbering, c);
            out_values[at] = row.vals[place];
            at += 1;
        }
    }
    at
}

// The rows of an accepted build; answers how many entries were kept.
fn fill_rows(
    rows: LocalRows,
    counts: &[u32],
    out_row_ptr: &mut [u32],
    out_col_idx: &mut [u32],
    out_values: &mut [f64],
) -> usize
    requires numbered { Numbered (lent_mask rows.region) counts.now }
    requires fits { fits_csr (local_list (lent_csr rows.csr) (lent_mask rows.region)) (as_csr_room (length out_row_ptr.old) (length out_col_idx.old) (length out_values.old)) ≡ true }
    ensures pointers { Appended (local_list (lent_csr rows.entry.csr) (lent_mask rows.entry.region)).ptr 0 (length rows.entry.members.now + 1) out_row_ptr.old out_row_ptr.new }
    ensures columns { Appended (local_list (lent_csr rows.entry.csr) (lent_mask rows.entry.region)).col 0 result out_col_idx.old out_col_idx.new }
    ensures values { Appended (local_list (lent_csr rows.entry.csr) (lent_mask rows.entry.region)).val 0 result out_values.old out_values.new }
{
    let numbering = Numbering {
        region: rows.region,
        counts,
    };
    let checked = CheckedCsr32 { matrix: rows.csr };
    let mut at: usize = 0;
    for (i, member) in rows.members.iter().enumerate() {
        let row = *member as usize;
        out_row_ptr[i] = hybit_core::narrow(at);
        at = keep_row(checked.row(row), numbering, at, out_col_idx, out_values);
    }
    out_row_ptr[rows.members.len()] = hybit_core::narrow(at);
    at
}

// The three lists, with zeros past them; `counts` is room for the running counts.
fn fill(
    rows: LocalRows,
    counts: &mut [u32],
    out_row_ptr: &mut [u32],
    out_col_idx: &mut [u32],
    out_values: &mut [f64],
)
    requires room { 2 ^ 14 ≤ length counts.old }
    requires fits { fits_csr (local_list (lent_csr rows.csr) (lent_mask rows.region)) (as_csr_room (length out_row_ptr.old) (length out_col_idx.old) (length out_values.old)) ≡ true }
    ensures pointers { out_row_ptr.new ≡ padded 0 (length out_row_ptr.old) (local_list (lent_csr rows.entry.csr) (lent_mask rows.entry.region)).ptr }
    ensures columns { out_col_idx.new ≡ padded 0 (length out_col_idx.old) (local_list (lent_csr rows.entry.csr) (lent_mask rows.entry.region)).col }
    ensures values { out_values.new ≡ padded zero64 (length out_values.old) (local_list (lent_csr rows.entry.csr) (lent_mask rows.entry.region)).val }
{
    count_words(rows.region.words, counts);
    let kept = fill_rows(rows, counts, out_row_ptr, out_col_idx, out_values);
    lent::clear_from(out_row_ptr, rows.members.len() + 1);
    lent::clear_from(out_col_idx, kept);
    lent::clear_from(out_values, kept);
}

// The same, with the room for 2^20 columns in 64s.
fn write_lists(
    rows: LocalRows,
    out_row_ptr: &mut [u32],
    out_col_idx: &mut [u32],
    out_values: &mut [f64],
)
    requires { fits_csr (local_list (lent_csr rows.csr) (lent_mask rows.region)) (as_csr_room (length out_row_ptr.old) (length out_col_idx.old) (length out_values.old)) ≡ true }
    ensures pointers { out_row_ptr.new ≡ padded 0 (length out_row_ptr.old) (local_list (lent_csr rows.entry.csr) (lent_mask rows.entry.region)).ptr }
    ensures columns { out_col_idx.new ≡ padded 0 (length out_col_idx.old) (local_list (lent_csr rows.entry.csr) (lent_mask rows.entry.region)).col }
    ensures values { out_values.new ≡ padded zero64 (length out_values.old) (local_list (lent_csr rows.entry.csr) (lent_mask rows.entry.region)).val }
{
    // The library has no heap: the room is that of the largest input.
    let mut counts = [0u32; 16384];
    fill(
        rows,
        &mut counts[..16384],
        out_row_ptr,
        out_col_idx,
        out_values,
    );
}

// The region's rows and columns, in `members`, `out_row_ptr`, `out_col_idx` and `out_values`: the used parts are as many members as
// the region has, one pointer more, and as many columns and values as are kept.
pub fn from_csr32(
    csr: Csr32Matrix,
    region: DofMask,
    members: &mut [u32],
    out_row_ptr: &mut [u32],
    out_col_idx: &mut [u32],
    out_values: &mut [f64],
) -> Result<LocalRegion, HybitError>
    ensures answer { given result ≡ answers (local_answer (lent_csr csr.entry) (lent_mask region.entry) (length members.old) (as_csr_room (length out_row_ptr.old) (length out_col_idx.old) (length out_values.old))) (region_of (lent_csr csr.entry) (lent_mask region.entry)) }
    ensures members { members.new ≡ built 0 (length members.old) (local_answer (lent_csr csr.entry) (lent_mask region.entry) (length members.old) (as_csr_room (length out_row_ptr.old) (length out_col_idx.old) (length out_values.old))) (region_members (lent_mask region.entry)) }
    ensures pointers { out_row_ptr.new ≡ built 0 (length out_row_ptr.old) (local_answer (lent_csr csr.entry) (lent_mask region.entry) (length members.old) (as_csr_room (length out_row_ptr.old) (length out_col_idx.old) (length out_values.old))) (local_list (lent_csr csr.entry) (lent_mask region.entry)).ptr }
    ensures columns { out_col_idx.new ≡ built 0 (length out_col_idx.old) (local_answer (lent_csr csr.entry) (lent_mask region.entry) (length members.old) (as_csr_room (length out_row_ptr.old) (length out_col_idx.old) (length out_values.old))) (local_list (lent_csr csr.entry) (lent_mask region.entry)).col }
    ensures values { out_values.new ≡ built zero64 (length out_values.old) (local_answer (lent_csr csr.entry) (lent_mask region.entry) (length members.old) (as_csr_room (length out_row_ptr.old) (length out_col_idx.old) (length out_values.old))) (local_list (lent_csr csr.entry) (lent_mask region.entry)).val }
{
    let capacity = CsrCapacity::of(out_row_ptr, out_col_idx, out_values);
    let v = examine(csr, region, members.len(), capacity);
    if let Err(e) = v {
        lent::clear_from(members, 0);
        lent::clear_from(out_row_ptr, 0);
        lent::clear_from(out_col_idx, 0);
        lent::clear_from(out_values, 0);
        return Err(e);
    }
    let nodes = write_members(region, members);
    let rows = LocalRows {
        csr,
        region,
        members: &members[..nodes],
    };
    write_lists(rows, out_row_ptr, out_col_idx, out_values);
    v
}
