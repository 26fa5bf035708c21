// restricted.rs: `PreparedColumnRestrictedCsrOperator::from_abtm`. The entries are written while there is room for them, and counted
// on; the tests of what is kept come after that, and a refused call clears its lists.
// A place past `room` is the answer that the lists are too short: the count is wanted to the end (4 and 1 come before 13).
// Lists that are written stay apart in all functions, and facts of them too: a struct would have to name each in every contract.
#![tactic(auto)]

ghost use Rattle.std.specs.Prelude.{ℕ, Ok, ◌≡◌, true, ◌+◌, ◌*◌, ◌≤◌, ◌<◌, ◌^◌, length, take};
ghost use mathlib.Core.List.{map, zip};
ghost use Rattle.hybit_core.specs.Answer.{accepted, answers, demand, ◌and_then◌};
ghost use Rattle.hybit_core.specs.Domain.{many};
ghost use Rattle.hybit_core.specs.Floats.{zero64, finite};
ghost use Rattle.hybit_core.specs.Table.{told, given};
ghost use Rattle.lent.specs.Lists.{every};
ghost use Rattle.lent.specs.Lent.{Appended, built, padded};
ghost use Rattle.word.specs.Bits.{members};
ghost use Rattle.csr32.specs.Csr.{Entry};
ghost use Rattle.csr32.specs.Made.{as_csr_room, room_of};
ghost use Rattle.abtm.specs.Tiles.{word_in};
ghost use Rattle.restricted.specs.Restricted.{restricted_tiles, restrict_tiles_answer, tile_restriction_of};
ghost use Rattle.restricted_abtm.specs.Kept.{place_in, value_in, kept_all, kept_count, kept_answer, bits_inside, tile_ready, records_answer, last_answer, Restriction};
ghost use Rattle.abtm.specs.Matrix.{lent_tiles};
ghost use Rattle.abtm.specs.Row.{listed_of};
ghost use Rattle.mask.specs.Dof.{lent_mask};

use abtm::{AbtmMatrix, TileDesc, TileRow};
use csr32::CsrCapacity;
use hybit_core::HybitError;
use mask::DofMask;
use restricted::ColumnRestriction;

// What a restriction reads of tiles, a row's or all of them: their lists, the values, and the words of the mask. The values of each
// tile and its word lie in them.
#[derive(Clone, Copy)]
struct ReadyTiles<'a> {
    tiles: TileRow<'a>,
    values: &'a [f64],
    mask: &'a [u64],
    ghost ready: { every (tile_ready (length values.now) (length mask.now)) (listed_of tiles) ≡ true },
}

// The place of a tile's column among its values: the column's own in a Dense tile, its rank among the tile's columns in any other.
// Two of a tile's three numbers, so no `TileDesc`.
fn place_in(meta: u32, mask: u64, bit: usize) -> usize
    ensures { result ≡ place_in meta mask bit }
{
    if abtm::is_dense(meta) {
        return bit;
    }
    word::ones_below(mask, bit)
}

// Appends a tile's entries in the columns of `bits`, ascending, from place `from` on, those that lie below `room`; answers the next
// place.
fn keep_tile(
    bits: u64,
    tile: TileDesc,
    values: &[f64],
    from: usize,
    room: usize,
    out_col_idx: &mut [u32],
    out_values: &mut [f64],
) -> usize
    requires base { 64 * word_in tile.meta ≤ 2 ^ 20 }
    requires inside { bits_inside (length values.now) bits tile.mask tile.value_offset tile.meta ≡ true }
    requires room { (room ≤ length out_col_idx.old) × (room ≤ length out_values.old) }
    requires few { from ≤ 2 ^ 40 }
    ensures next { result ≡ from + length (members bits) }
    ensures columns { result ≤ room → Appended (map (λ i. 64 * word_in tile.meta + i) (members bits)) from result out_col_idx.old out_col_idx.new }
    ensures values { result ≤ room → Appended (map (value_in values.now tile.mask tile.value_offset tile.meta) (members bits)) from result out_values.old out_values.new }
{
    let base = tile.base_col();
    let mut next = from;
    let mut rest = bits;
    // The set bits of a word, lowest first: an iterator of our own would be a type more, for two lines.
    while rest != 0 {
        let at = next;
        let bit = word::lowest(rest);
        next += 1;
        rest = word::without_lowest(rest);
        if at < room {
            let place = tile.value_offset as usize + place_in(tile.meta, tile.mask, bit);
            out_col_idx[at] = hybit_core::narrow(base + bit);
            out_values[at] = values[place];
        }
    }
    next
}

// Appends the entries of a row's tiles in active columns, those that lie below `room`. Most tiles have none where few columns are
// active.
fn keep_row(
    listed: ReadyTiles,
    from: usize,
    room: usize,
    out_col_idx: &mut [u32],
    out_values: &mut [f64],
) -> usize
    requires words { length listed.mask.now ≤ 2 ^ 14 }
    requires room { (room ≤ length out_col_idx.old) × (room ≤ length out_values.old) }
    requires few { from + 64 * length listed.tiles.masks.now ≤ 2 ^ 31 }
    ensures next { result ≡ from + length (kept_all listed.entry.values.now listed.entry.mask.now (listed_of listed.entry.tiles)) }
    ensures columns { result ≤ room → Appended (map (λ (e : Entry). e.0) (kept_all listed.entry.values.now listed.entry.mask.now (listed_of listed.entry.tiles))) from result out_col_idx.old out_col_idx.new }
    ensures values { result ≤ room → Appended (map (λ (e : Entry). e.1) (kept_all listed.entry.values.now listed.entry.mask.now (listed_of listed.entry.tiles))) from result out_values.old out_values.new }
{
    let mut at = from;
    for (k, columns) in listed.tiles.masks.iter().enumerate() {
        // By hand: a public function asks nothing, so one for a tile would test the place.
        let tile = TileDesc {
            mask: *columns,
            value_offset: listed.tiles.value_offsets[k],
            meta: listed.tiles.metas[k],
        };
        let word = abtm::word_in(tile.meta) as usize;
        let bits = word::intersection(tile.mask, listed.mask[word]);
        at = keep_tile(bits, tile, listed.values, at, room, out_col_idx, out_values);
    }
    at
}

// The proofs know of a list that a call answers that its numbers have 64 bits, as they know it of a parameter, but not of a field.
fn masks_of<'a>(tiles: AbtmMatrix<'a, 'a, 'a, 'a>) -> &'a [u64]
    ensures { result.now ≡ tiles.entry.masks.now }
{
    tiles.masks
}

// The rows of accepted tiles and mask, the entries that lie below `room`; answers how many are kept.
// A row's pointers are read once for its three parts: lent::part would read and compare them for each.
fn fill_rows<'a>(
    tiles: AbtmMatrix<'a, 'a, 'a, 'a>,
    mask: DofMask<'a>,
    room: usize,
    out_row_ptr: &mut [u32],
    out_col_idx: &mut [u32],
    out_values: &mut [f64],
) -> usize
    requires accepted { records_answer (lent_tiles tiles) (lent_mask mask) ≡ accepted }
    requires pointers { tiles.nrows < length out_row_ptr.old }
    requires room { (room ≤ length out_col_idx.old) × (room ≤ length out_values.old) }
    ensures kept { result ≡ length (restricted_tiles (lent_tiles tiles.entry) (lent_mask mask.entry)).val }
    ensures pointers { Appended (restricted_tiles (lent_tiles tiles.entry) (lent_mask mask.entry)).ptr 0 (tiles.entry.nrows + 1) out_row_ptr.old out_row_ptr.new }
    ensures columns { result ≤ room → Appended (restricted_tiles (lent_tiles tiles.entry) (lent_mask mask.entry)).col 0 result out_col_idx.old out_col_idx.new }
    ensures values { result ≤ room → Appended (restricted_tiles (lent_tiles tiles.entry) (lent_mask mask.entry)).val 0 result out_values.old out_values.new }
{
    let masks = masks_of(tiles);
    let mut at: usize = 0;
    for row in 0..tiles.nrows {
        out_row_ptr[row] = hybit_core::narrow(at);
        let start = tiles.row_tile_ptr[row] as usize;
        let end = tiles.row_tile_ptr[row + 1] as usize;
        let listed = ReadyTiles {
            tiles: TileRow {
                masks: &masks[start..end],
                value_offsets: &tiles.value_offsets[start..end],
                metas: &tiles.metas[start..end],
            },
            values: tiles.values,
            mask: mask.words,
        };
        at = keep_row(listed, at, room, out_col_idx, out_values);
    }
    out_row_ptr[tiles.nrows] = hybit_core::narrow(at);
    at
}

// Whether a tile's values in the columns of `bits` are finite.
fn tile_finite(bits: u64, tile: TileDesc, values: &[f64]) -> bool
    requires { bits_inside (length values.now) bits tile.mask tile.value_offset tile.meta ≡ true }
    ensures { result ≡ every (λ i. finite (value_in values.now tile.mask tile.value_offset tile.meta i)) (members bits) }
{
    let mut rest = bits;
    // The set bits of a word, lowest first: an iterator of our own would be a type more, for two lines.
    while rest != 0 {
        let place = tile.value_offset as usize + place_in(tile.meta, tile.mask, word::lowest(rest));
        if !hybit_core::is_finite(values[place]) {
            return false;
        }
        rest = word::without_lowest(rest);
    }
    true
}

// Whether the values of tiles in active columns are finite.
fn active_finite(listed: ReadyTiles) -> bool
    ensures { result ≡ every (λ (e : Entry). finite e.1) (kept_all listed.entry.values.now listed.entry.mask.now (listed_of listed.entry.tiles)) }
{
    for (k, columns) in listed.tiles.masks.iter().enumerate() {
        // By hand: a public function asks nothing, so one for a tile would test the place.
        let tile = TileDesc {
            mask: *columns,
            value_offset: listed.tiles.value_offsets[k],
            meta: listed.tiles.metas[k],
        };
        let word = abtm::word_in(tile.meta) as usize;
        let tested = word::intersection(tile.mask, listed.mask[word]);
        if !tile_finite(tested, tile, listed.values) {
            return false;
        }
    }
    true
}

// The same: where all values are finite, the active ones are.
fn kept_finite(listed: ReadyTiles) -> bool
    ensures { result ≡ every (λ (e : Entry). finite e.1) (kept_all listed.entry.values.now listed.entry.mask.now (listed_of listed.entry.tiles)) }
{
    if csr32::all_finite(listed.values) {
        return true;
    }
    active_finite(listed)
}

// How many present columns of the tiles are active.
fn count_kept(listed: ReadyTiles) -> usize
    requires { length listed.tiles.masks.now ≤ 2 ^ 24 }
    ensures { result ≡ kept_count listed.entry.mask.now (zip listed.entry.tiles.masks.now listed.entry.tiles.metas.now) }
{
    let mut kept: usize = 0;
    for (k, columns) in listed.tiles.masks.iter().enumerate() {
        let word = abtm::word_in(listed.tiles.metas[k]) as usize;
        kept += word::popcount(word::intersection(*columns, listed.mask[word]));
    }
    kept
}

// The tests of what is kept: 4, 1, 13.
fn examine_kept(nrows: usize, listed: ReadyTiles, capacity: CsrCapacity) -> Result<(), HybitError>
    requires { length listed.tiles.masks.now ≤ 2 ^ 24 }
    ensures { told result ≡ kept_answer nrows (kept_all listed.entry.values.now listed.entry.mask.now (listed_of listed.entry.tiles)) (room_of capacity) }
{
    if !kept_finite(listed) {
        return Err(HybitError::NotFinite);
    }
    let kept = count_kept(listed);
    if !hybit_core::entries_fit(kept) {
        return Err(HybitError::SizeOverflow);
    }
    if !capacity.holds(nrows, kept) {
        return Err(HybitError::ShortList);
    }
    Ok(())
}

// The checks of the records and of their lengths: 1; 12; 5; 6.
// restricted_csr32 asks the same of another record. The mismatch stands beside its test: a function for it would be no plainer.
fn examine(tiles: AbtmMatrix, mask: DofMask) -> Result<(), HybitError>
    ensures { told result ≡ records_answer (lent_tiles tiles.entry) (lent_mask mask.entry) }
{
    if !hybit_core::dimension_fits(mask.len) {
        return Err(HybitError::SizeOverflow);
    }
    abtm_check::check(tiles)?;
    mask.check()?;
    if mask.len != tiles.ncols {
        return Err(HybitError::DimensionMismatch {
            expected: tiles.ncols,
            actual: mask.len,
        });
    }
    Ok(())
}

// The tests of entries that have all been written: 4, 1.
fn examine_written(written: &[f64]) -> Result<(), HybitError>
    ensures { told result ≡ demand (every finite written.now) 4 and_then demand (many (length written.now)) 1 }
{
    if !csr32::all_finite(written) {
        return Err(HybitError::NotFinite);
    }
    if !hybit_core::entries_fit(written.len()) {
        return Err(HybitError::SizeOverflow);
    }
    Ok(())
}

// Writes the entries of accepted tiles and mask. Where all of them fit, the values that were written are tested; where they don't, the
// active ones are, since an infinite one is refused before a list that is too short.
fn fill<'a>(
    tiles: AbtmMatrix<'a, 'a, 'a, 'a>,
    mask: DofMask<'a>,
    out_row_ptr: &mut [u32],
    out_col_idx: &mut [u32],
    out_values: &mut [f64],
) -> Result<usize, HybitError>
    requires { records_answer (lent_tiles tiles) (lent_mask mask) ≡ accepted }
    ensures answer { given result ≡ answers (last_answer (lent_tiles tiles.entry) (lent_mask mask.entry) (as_csr_room (length out_row_ptr.old) (length out_col_idx.old) (length out_values.old))) (length (restricted_tiles (lent_tiles tiles.entry) (lent_mask mask.entry)).val) }
    ensures lists { (kept : ℕ) → result ≡ Ok kept → Restriction (lent_tiles tiles.entry) (lent_mask mask.entry) kept out_row_ptr.old out_row_ptr.new out_col_idx.old out_col_idx.new out_values.old out_values.new }
{
    let masks = masks_of(tiles);
    let listed = ReadyTiles {
        tiles: TileRow {
            masks,
            value_offsets: tiles.value_offsets,
            metas: tiles.metas,
        },
        values: tiles.values,
        mask: mask.words,
    };
    let capacity = CsrCapacity::of(out_row_ptr, out_col_idx, out_values);
    if out_row_ptr.len() <= tiles.nrows {
        examine_kept(tiles.nrows, listed, capacity)?;
        return Err(HybitError::ShortList);
    }
    let room = out_col_idx.len().min(out_values.len());
    let kept = fill_rows(tiles, mask, room, out_row_ptr, out_col_idx, out_values);
    if room < kept {
        examine_kept(tiles.nrows, listed, capacity)?;
        return Err(HybitError::ShortList);
    }
    examine_written(&out_values[..kept])?;
    Ok(kept)
}

// Zeros in the lists from these places on. topology clears lists of words so, of other types; restricted_csr32 its own in place.
fn clear_lists(
    out_row_ptr: &mut [u32],
    out_col_idx: &mut [u32],
    out_values: &mut [f64],
    pointers: usize,
    entries: usize,
)
    ensures pointers { out_row_ptr.new ≡ padded 0 (length out_row_ptr.old) (take pointers out_row_ptr.old) }
    ensures columns { out_col_idx.new ≡ padded 0 (length out_col_idx.old) (take entries out_col_idx.old) }
    ensures values { out_values.new ≡ padded zero64 (length out_values.old) (take entries out_values.old) }
{
    lent::clear_from(out_row_ptr, pointers);
    lent::clear_from(out_col_idx, entries);
    lent::clear_from(out_values, entries);
}

// The entries of accepted tiles in active columns, in `out_row_ptr`, `out_col_idx` and `out_values`: the used parts are nrows + 1
// pointers and as many columns and values as are kept.
pub fn from_abtm(
    tiles: AbtmMatrix,
    mask: DofMask,
    out_row_ptr: &mut [u32],
    out_col_idx: &mut [u32],
    out_values: &mut [f64],
) -> Result<ColumnRestriction, HybitError>
    ensures answer { given result ≡ answers (restrict_tiles_answer (lent_tiles tiles.entry) (lent_mask mask.entry) (as_csr_room (length out_row_ptr.old) (length out_col_idx.old) (length out_values.old))) (tile_restriction_of (lent_tiles tiles.entry) (lent_mask mask.entry)) }
    ensures pointers { out_row_ptr.new ≡ built 0 (length out_row_ptr.old) (restrict_tiles_answer (lent_tiles tiles.entry) (lent_mask mask.entry) (as_csr_room (length out_row_ptr.old) (length out_col_idx.old) (length out_values.old))) (restricted_tiles (lent_tiles tiles.entry) (lent_mask mask.entry)).ptr }
    ensures columns { out_col_idx.new ≡ built 0 (length out_col_idx.old) (restrict_tiles_answer (lent_tiles tiles.entry) (lent_mask mask.entry) (as_csr_room (length out_row_ptr.old) (length out_col_idx.old) (length out_values.old))) (restricted_tiles (lent_tiles tiles.entry) (lent_mask mask.entry)).col }
    ensures values { out_values.new ≡ built zero64 (length out_values.old) (restrict_tiles_answer (lent_tiles tiles.entry) (lent_mask mask.entry) (as_csr_room (length out_row_ptr.old) (length out_col_idx.old) (length out_values.old))) (restricted_tiles (lent_tiles tiles.entry) (lent_mask mask.entry)).val }
{
    let v = examine(tiles, mask);
    if let Err(e) = v {
        clear_lists(out_row_ptr, out_col_idx, out_values, 0, 0);
        return Err(e);
    }
    match fill(tiles, mask, out_row_ptr, out_col_idx, out_values) {
        Err(e) => {
            clear_lists(out_row_ptr, out_col_idx, out_values, 0, 0);
            Err(e)
        }
        Ok(kept) => {
            clear_lists(out_row_ptr, out_col_idx, out_values, tiles.nrows + 1, kept);
            Ok(ColumnRestriction {
                nrows: tiles.nrows,
                ncols: tiles.ncols,
                source_nnz: tiles.matrix_nnz,
                retained_nnz: kept,
            })
        }
    }
}
