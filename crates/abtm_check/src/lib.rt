// abtm.rs: the check of tiles that are handed in. Their lists are lent by the caller, and every call on a record checks it: 1, 12.
#![tactic(auto)]

ghost use Rattle.std.specs.Prelude.{◌≡◌, ◌+◌, ◌-◌, ◌%◌, ◌^◌, ◌<◌, ◌≤◌, true, not, ◌&&◌, leb, map, length, drop, if◌then◌else◌, ◌==◌, nat_eq, nat_le, slice_index_or};
ghost use Rattle.std.specs.Bool.{then_some};
ghost use Rattle.std.specs.Float.{nan};
ghost use Rattle.hybit_core.specs.Table.{told};
ghost use Rattle.lent.specs.Lists.{part, every, only, climbs};
ghost use Rattle.word.specs.Bits.{has, members, word_of};
ghost use Rattle.csr32.specs.Csr.{framed};
ghost use Rattle.topology.specs.Words.{row_rule, row_rules, set_bits};
ghost use Rattle.abtm_values.specs.Values.{solid, plus_zero};
ghost use Rattle.abtm.specs.Tiles.{Listed, word_in, kind_in, is_dense, places, stored, tile_at, value_rule, gapless, tile_words, tiles_rules, tiles_answer};
ghost use Rattle.abtm.specs.Matrix.{lent_tiles, all_listed};

use abtm::{AbtmMatrix, TileDesc, TileRow};
use hybit_core::HybitError;

// The absent places of a Dense tile; none of another.
fn absent_in(mask: u64, meta: u32) -> u64
    ensures { result ≡ (if is_dense meta then word_of (λ i. has (2 ^ 64 - 1) i && not (has mask i)) else 0) }
{
    if abtm::is_dense(meta) {
        return word::and_not(u64::MAX, mask);
    }
    0
}

// Whether the places of a word hold +0.0.
fn all_plus_zero(places: u64, values: &[f64]) -> bool
    requires { length values.now ≡ 64 }
    ensures { result ≡ every (λ i. plus_zero (slice_index_or values.now i nan)) (members places) }
{
    let mut rest = places;
    // The set bits of a word, lowest first: an iterator of our own would be a type more, for two lines.
    while rest != 0 {
        if !abtm_values::is_plus_zero(values[word::lowest(rest)]) {
            return false;
        }
        rest = word::without_lowest(rest);
    }
    true
}

// How many of the first `upto` values are neither NaN nor zero.
#[derive(Clone, Copy)]
struct Counted {
    upto: usize,
    solid: usize,
}

// The count up to place `end` at least: some 32,000 values more, where it has not come as far.
fn count_ahead(values: &[f64], done: Counted, end: usize) -> Counted
    requires inside { (done.upto ≤ length values.now) × (end ≤ length values.now) }
    requires counted { length (only solid values.now) ≡ done.solid + length (only solid (drop done.upto values.now)) }
    ensures { (result.upto ≤ length values.now) × (length (only solid values.now) ≡ result.solid + length (only solid (drop result.upto values.now))) }
{
    let from = done.upto;
    if end <= from {
        return done;
    }
    let to = (end + 32704).min(values.len());
    Counted {
        upto: to,
        solid: done.solid + abtm_values::count_solid(&values[from..to]),
    }
}

// Tiles with an offset and a meta for each mask, and pointers of their rows.
#[derive(Clone, Copy)]
struct PairedTiles<'a> {
    matrix: AbtmMatrix<'a, 'a, 'a, 'a>,
    ghost offsets_paired: { length matrix.value_offsets.now ≡ length matrix.masks.now },
    ghost metas_paired: { length matrix.metas.now ≡ length matrix.masks.now },
    ghost rows_framed: { framed matrix.nrows matrix.row_tile_ptr.now (length matrix.masks.now) ≡ true },
}

impl<'a> PairedTiles<'a> {
    // The row's pointers are read once for its three parts: lent::part would read and compare them for each.
    fn row(self, row: usize) -> TileRow<'a>
        requires { row < self.matrix.nrows }
        ensures masks { result.masks.now ≡ part self.entry.matrix.row_tile_ptr.now self.entry.matrix.masks.now row }
        ensures metas { result.metas.now ≡ part self.entry.matrix.row_tile_ptr.now self.entry.matrix.metas.now row }
    {
        let start = self.matrix.row_tile_ptr[row] as usize;
        let end = self.matrix.row_tile_ptr[row + 1] as usize;
        let masks = &self.matrix.masks[start..end];
        let value_offsets = &self.matrix.value_offsets[start..end];
        let metas = &self.matrix.metas[start..end];
        TileRow {
            masks,
            value_offsets,
            metas,
        }
    }

    fn tile(self, place: usize) -> TileDesc
        requires { place < length self.matrix.masks.now }
        ensures mask { result.mask ≡ slice_index_or self.entry.matrix.masks.now place 0 }
        ensures offset { result.value_offset ≡ slice_index_or self.entry.matrix.value_offsets.now place 0 }
        ensures meta { result.meta ≡ slice_index_or self.entry.matrix.metas.now place 0 }
    {
        TileDesc {
            mask: self.matrix.masks[place],
            value_offset: self.matrix.value_offsets[place],
            meta: self.matrix.metas[place],
        }
    }
}

// The rule of each value. Where the absent places of Dense tiles hold +0.0, the present ones of all tiles hold neither NaN nor zero
// exactly if as many values as there are present places hold neither. The count goes ahead of the walk by what the cache holds.
fn values_hold(tiles: PairedTiles) -> bool
    requires no_gap { gapless 0 (length tiles.matrix.values.now) (all_listed tiles.matrix) ≡ true }
    requires total { tiles.matrix.matrix_nnz ≡ set_bits tiles.matrix.masks.now }
    ensures { result ≡ every (λ (e : Listed). every (value_rule e.0) (stored (tile_at tiles.entry.matrix.values.now e))) (all_listed tiles.entry.matrix) }
{
    let values = tiles.matrix.values;
    let mut done = Counted { upto: 0, solid: 0 };
    for i in 0..tiles.matrix.masks.len() {
        let tile = tiles.tile(i);
        let absent = absent_in(tile.mask, tile.meta);
        if absent == 0 {
            continue;
        }
        let at = tile.value_offset as usize;
        done = count_ahead(values, done, at + 64);
        if !all_plus_zero(absent, &values[at..at + 64]) {
            return false;
        }
    }
    done.solid + abtm_values::count_solid(&values[done.upto..]) == tiles.matrix.matrix_nnz
}

// The test runs to the end, without a branch on what it finds. topology's is of numbers, this one of metas that hold them.
fn numbers_climb(metas: &[u32]) -> bool
    ensures { result ≡ climbs 0 (map word_in metas.now) }
{
    let mut holds = true;
    for i in 1..metas.len() {
        holds &= abtm::word_in(metas[i - 1]) < abtm::word_in(metas[i]);
    }
    holds
}

// No mask is 0. Where the word numbers climb, no word before the last reaches the column count, and the last mask is read only where
// the column count cuts its word.
fn row_holds(ncols: usize, row: TileRow) -> bool
    requires { every (λ m. not (m == 0)) row.masks.now ≡ true }
    ensures { result ≡ row_rule ncols (map word_in row.entry.metas.now) row.entry.masks.now }
{
    let masks = row.masks;
    let metas = row.metas;
    if metas.len() == 0 {
        return true;
    }
    if !numbers_climb(metas) {
        return false;
    }
    let last = metas.len() - 1;
    let index = abtm::word_in(metas[last]);
    if 64 * index as usize + 64 <= ncols {
        return true;
    }
    topology::word_holds(ncols, index, masks[last])
}

// topology has this walk over rows of words. A loop, since a closure for `all` would have to be told that no mask is 0.
fn rows_hold(tiles: PairedTiles) -> bool
    requires { every (λ m. not (m == 0)) tiles.matrix.masks.now ≡ true }
    ensures { result ≡ row_rules (tile_words (lent_tiles tiles.entry.matrix)) }
{
    for row in 0..tiles.matrix.nrows {
        if !row_holds(tiles.matrix.ncols, tiles.row(row)) {
            return false;
        }
    }
    true
}

// Whether a Sparse or Bitmap tile has a column, and its values end at `next`. No test waits for another and the kind stays a number,
// so that the pass below compiles to vector code; the times stand in docs/DESIGN-PASS.md under Speed.
fn compact_holds(tile: TileDesc, next: usize) -> bool
    ensures { result ≡ ((not (tile.mask == 0) && nat_le (kind_in tile.meta) 1) && tile.value_offset + length (places tile.mask tile.meta) == next) }
{
    (tile.mask != 0)
        & (tile.meta / abtm::KIND_STEP <= 1)
        & (tile.value_offset as usize + word::popcount(tile.mask) == next)
}

// Whether no mask is 0, no tile is Dense or of kind 3, the first tile's values start at 0, each tile's end where the next one's start,
// and the last one's end with the list: one pass for most records. It runs to the end, without a branch on what it finds.
fn compact_follow(tiles: PairedTiles) -> bool
    ensures { result ≡ ((every (λ m. not (m == 0)) tiles.entry.matrix.masks.now && every (λ m. leb (kind_in m) 1) tiles.entry.matrix.metas.now) && gapless 0 (length tiles.entry.matrix.values.now) (all_listed tiles.entry.matrix)) }
{
    let value_offsets = tiles.matrix.value_offsets;
    let count = tiles.matrix.masks.len();
    let end = tiles.matrix.values.len();
    if count == 0 {
        return end == 0;
    }
    let mut holds = value_offsets[0] == 0;
    for i in 1..count {
        holds &= compact_holds(tiles.tile(i - 1), value_offsets[i] as usize);
    }
    holds & compact_holds(tiles.tile(count - 1), end)
}

// The same, of tiles with as many values as `matrix_nnz` alone: those of Dense tiles are more, and the pass is spared.
fn all_compact(tiles: PairedTiles) -> bool
    ensures { result ≡ (nat_eq tiles.entry.matrix.matrix_nnz (length tiles.entry.matrix.values.now) && ((every (λ m. not (m == 0)) tiles.entry.matrix.masks.now && every (λ m. leb (kind_in m) 1) tiles.entry.matrix.metas.now) && gapless 0 (length tiles.entry.matrix.values.now) (all_listed tiles.entry.matrix))) }
{
    tiles.matrix.matrix_nnz == tiles.matrix.values.len() && compact_follow(tiles)
}

// `compact_holds` of a tile of any kind.
fn tile_holds(tile: TileDesc, next: usize) -> bool
    ensures { result ≡ ((not (tile.mask == 0) && nat_le (kind_in tile.meta) 2) && tile.value_offset + length (places tile.mask tile.meta) == next) }
{
    (tile.mask != 0)
        & abtm::kind_in(tile.meta).is_some()
        & (tile.value_offset as usize + abtm::slot_count(tile.mask, tile.meta) == next)
}

// How many bits are set, where no mask is 0, no kind is 3 and the values follow: one pass over tiles of any kinds.
fn mixed_follow(tiles: PairedTiles) -> Option<usize>
    ensures { result ≡ then_some ((every (λ m. not (m == 0)) tiles.entry.matrix.masks.now && every (λ m. leb (kind_in m) 2) tiles.entry.matrix.metas.now) && gapless 0 (length tiles.entry.matrix.values.now) (all_listed tiles.entry.matrix)) (set_bits tiles.entry.matrix.masks.now % 2 ^ 64) }
{
    let value_offsets = tiles.matrix.value_offsets;
    let count = tiles.matrix.masks.len();
    let end = tiles.matrix.values.len();
    if count == 0 {
        return (end == 0).then_some(0);
    }
    let mut holds = value_offsets[0] == 0;
    let mut bits: usize = 0;
    for i in 1..count {
        let tile = tiles.tile(i - 1);
        bits = bits.wrapping_add(word::popcount(tile.mask));
        holds &= tile_holds(tile, value_offsets[i] as usize);
    }
    let last = tiles.tile(count - 1);
    bits = bits.wrapping_add(word::popcount(last.mask));
    holds &= tile_holds(last, end);
    holds.then_some(bits)
}

// Without a Dense tile there is a value for each set bit and no other, so the bits are not counted.
fn rules_hold(matrix: AbtmMatrix) -> bool
    requires { length matrix.masks.now ≤ 2 ^ 24 }
    ensures { result ≡ tiles_rules (lent_tiles matrix.entry) }
{
    if !csr32::lists_hold(
        matrix.nrows,
        matrix.row_tile_ptr,
        matrix.metas.len(),
        matrix.masks.len(),
    ) {
        return false;
    }
    if matrix.value_offsets.len() != matrix.metas.len() {
        return false;
    }
    let tiles = PairedTiles { matrix };
    if all_compact(tiles) {
        return rows_hold(tiles) && abtm_values::count_solid(matrix.values) == matrix.matrix_nnz;
    }
    let Some(bits) = mixed_follow(tiles) else {
        return false;
    };
    if bits != matrix.matrix_nnz {
        return false;
    }
    rows_hold(tiles) && values_hold(tiles)
}

// The rules that the Rust's private fields keep.
pub fn check(tiles: AbtmMatrix) -> Result<(), HybitError>
    ensures { told result ≡ tiles_answer (lent_tiles tiles.entry) }
{
    if !hybit_core::sizes_fit(
        tiles.nrows,
        tiles.ncols,
        tiles.masks.len(),
        tiles.metas.len(),
    ) {
        return Err(HybitError::SizeOverflow);
    }
    if !hybit_core::entries_fit(tiles.value_offsets.len()) {
        return Err(HybitError::SizeOverflow);
    }
    if !rules_hold(tiles) {
        return Err(HybitError::BadStore);
    }
    Ok(())
}
