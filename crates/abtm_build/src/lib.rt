// abtm.rs: `AbtmMatrix::from_csr32`. The Rust keeps a row's values in a map of maps. Here a row is summed in a window of local sums,
// one for each of 32,768 columns, with marks of the words and of the blocks of 64 words that have one; its tiles come out
// ascending, and the next window starts at the row's next column. What the tiles take is counted to the end even where the lists
// are full: only then is it known whether the result fits, since merged zeros take no place.
// Places past the lists are the answer that they are too short: what all tiles take is known at the end alone, so no early `Err`.
// Lists that are written stay apart in all functions, and facts of them too: a struct would have to name each in every contract.
#![tactic(auto)]

ghost use Rattle.std.specs.Prelude.{◌≡◌, true, not, cond, ◌||◌, ◌+◌, ◌*◌, ◌≤◌, ◌<◌, ◌^◌, eqb, length, take, replicate, set, get_or};
ghost use mathlib.Core.List.{map};
ghost use Rattle.std.specs.Float.{nan, binary64};
ghost use Rattle.std.specs.Float.Ieee.{add};
ghost use Rattle.hybit_core.specs.Answer.{answers};
ghost use Rattle.hybit_core.specs.Floats.{zero64};
ghost use Rattle.hybit_core.specs.Table.{told, given};
ghost use Rattle.lent.specs.Lists.{each};
ghost use Rattle.lent.specs.Lent.{Appended, padded, built};
ghost use Rattle.word.specs.Bits.{has, below, members, word_of};
ghost use Rattle.csr32.specs.Window.{Outside};
ghost use Rattle.abtm_values.specs.Values.{is_zero, merged_nonzero};
ghost use Rattle.abtm.specs.Tiles.{places_of, row_tiles_of};
ghost use Rattle.abtm_build.specs.Build.{tiles_from, as_tile_room, before_answer, tile_answer, used_tiles};
ghost use Rattle.abtm_build.specs.Window.{tiles_between, window_value, Marked, Sized, Next};
ghost use Rattle.abtm_build.specs.Written.{Wrote, Bounded, Lists, row_of, Rows};
ghost use Rattle.csr32.specs.Matrix.{lent_csr};
ghost use Rattle.csr32.specs.Row.{entries_of};
ghost use Rattle.abtm.specs.Calls.{kind_number};

use abtm::{AbtmConfig, TileKind};
use csr32::{CheckedCsr32, Csr32Matrix, CsrRow};
use hybit_core::HybitError;

// How many tiles there are, the places that they take in the values, and the values that are not zero. Of a build
// under way: the next places of its lists, and the values so far.
#[derive(Clone, Copy)]
pub struct TilesSize {
    pub tiles: usize,
    pub value_slots: usize,
    pub matrix_nnz: usize,
}

// 64 values for each of `MAX_ENTRIES` tiles: as many as tiles can take.
const MAX_SLOTS: usize = 1073741824;

// Adds a value at a place of the window, and marks its word and its block.
fn add_at(i: usize, v: f64, sums: &mut [f64], words: &mut [u64], blocks: &mut [u64])
    requires fact_1 { i < length sums.old }
    requires fact_2 { Sized (length sums.old) (length words.old) (length blocks.old) }
    requires fact_3 { Marked 64 sums.old words.old }
    requires fact_4 { Marked 4096 sums.old blocks.old }
    ensures sums { sums.new ≡ set sums.old i (add binary64 (get_or sums.old i nan) v) }
    ensures words { Marked 64 sums.new words.new }
    ensures blocks { Marked 4096 sums.new blocks.new }
{
    sums[i] = sums[i] + v;
    words[i / 64] = 1;
    blocks[i / 4096] = 1;
}

// Adds the row's nonzero values of the window, in stored order; answers the least column with one past the window, or `past`.
// `past`, no `Option`: the least of columns is one `min`, and the caller's loop ends at any number past them.
fn gather(
    row: CsrRow,
    base: usize,
    past: usize,
    sums: &mut [f64],
    words: &mut [u64],
    blocks: &mut [u64],
) -> usize
    requires window { base + length sums.old ≤ past }
    requires sized { Sized (length sums.old) (length words.old) (length blocks.old) }
    requires zeros { sums.old ≡ replicate (length sums.old) zero64 }
    ensures sums { sums.new ≡ each (λ i. merged_nonzero (entries_of row.entry) (base + i)) (length sums.old) }
    ensures words { Marked 64 sums.new words.new }
    ensures blocks { Marked 4096 sums.new blocks.new }
    ensures next { (result ≤ past) × Next (entries_of row.entry) (base + length sums.old) result }
{
    let width = sums.len();
    let mut next = past;
    for (k, column) in row.cols.iter().enumerate() {
        // First the column: the value of an entry before the window is not read.
        let c = *column as usize;
        if c < base {
            continue;
        }
        let value = row.vals[k];
        if abtm_values::is_zero(value) {
            continue;
        }
        if let Some(i) = csr32::place_in_window(*column, base, width) {
            add_at(i, value, sums, words, blocks);
            continue;
        }
        // Past the window.
        next = next.min(c);
    }
    next
}

// Makes the window 0.0 again and takes the marks away, at the row's columns.
fn clear_window(cols: &[u32], base: usize, sums: &mut [f64], words: &mut [u64], blocks: &mut [u64])
    requires fact_1 { Outside cols.now base sums.old }
    requires fact_2 { Sized (length sums.old) (length words.old) (length blocks.old) }
    ensures { sums.new ≡ replicate (length sums.old) zero64 }
{
    let width = sums.len();
    for col in cols {
        if let Some(i) = csr32::place_in_window(*col, base, width) {
            sums[i] = 0.0;
            words[i / 64] = 0;
            blocks[i / 4096] = 0;
        }
    }
}

fn also_marked(mask: u64, i: usize, v: f64) -> u64
    ensures { result ≡ cond (is_zero v) mask (word_of (λ j. has mask j || eqb j i)) }
{
    if abtm_values::is_zero(v) {
        return mask;
    }
    word::with_bit(mask, i)
}

// The sums of a word's 64 columns.
#[derive(Clone, Copy)]
struct WordSums<'a> {
    list: &'a [f64],
    ghost long: { length list.now ≡ 64 },
}

// The places of a word's 64 sums that are not zero. The loop is over 64 places, not over the list, so that its length is known. A call
// of its own: inlined, the loop has long registers, and where its jump ends on 32 bytes a processor of the Skylake kind takes half as
// long again.
#[inline(never)]
fn word_mask(sums: WordSums) -> u64
    ensures { result ≡ word_of (λ i. not (is_zero (get_or sums.entry.list.now i nan))) }
{
    let mut mask: u64 = 0;
    for i in 0..64 {
        mask = also_marked(mask, i, sums.list[i]);
    }
    mask
}

// The value of a Dense tile's place: +0.0 where the sum is a zero.
fn dense_value(v: f64) -> f64
    ensures { result ≡ cond (not (is_zero v)) v zero64 }
{
    if abtm_values::is_zero(v) {
        return 0.0;
    }
    v
}

// The same 64 places, as in `word_mask`.
fn write_dense(sums: WordSums, from: usize, values: &mut [f64])
    requires { from + 64 ≤ length values.old }
    ensures { Appended (map (λ i. cond (not (is_zero (get_or sums.entry.list.now i nan))) (get_or sums.entry.list.now i nan) zero64) (below (λ i. true) 64)) from (from + 64) values.old values.new }
{
    for i in 0..64 {
        values[from + i] = dense_value(sums.list[i]);
    }
}

fn write_present(mask: u64, sums: WordSums, from: usize, values: &mut [f64])
    requires { from + length (members mask) ≤ length values.old }
    ensures { Appended (map (λ i. get_or sums.entry.list.now i nan) (members mask)) from (from + length (members mask)) values.old values.new }
{
    let mut rest = mask;
    let mut at = from;
    // The set bits of a word, lowest first, and the values beside: an iterator of our own would be a type more, for three lines.
    while rest != 0 {
        values[at] = sums.list[word::lowest(rest)];
        at += 1;
        rest = word::without_lowest(rest);
    }
}

// The values of a tile of this mask and kind, from place `from` on.
fn write_slots(kind: TileKind, mask: u64, sums: WordSums, from: usize, values: &mut [f64])
    requires mask { mask ≡ word_of (λ i. not (is_zero (get_or sums.list.now i nan))) }
    requires room { from + length (places_of (kind_number kind) mask) ≤ length values.old }
    ensures { Appended (map (λ i. cond (has mask i) (get_or sums.entry.list.now i nan) zero64) (places_of (kind_number kind) mask)) from (from + length (places_of (kind_number kind) mask)) values.old values.new }
{
    match kind {
        TileKind::Dense => write_dense(sums, from, values),
        TileKind::Sparse | TileKind::Bitmap => write_present(mask, sums, from, values),
    }
}

// The tile of one word, if it has a value; answers the next places.
fn emit_word(
    number: usize,
    sums: WordSums,
    config: AbtmConfig,
    at: TilesSize,
    masks: &mut [u64],
    value_offsets: &mut [u32],
    metas: &mut [u32],
    values: &mut [f64],
) -> TilesSize
    requires number { number < 2 ^ 30 }
    requires lists { Bounded (2 ^ 40) at × Lists (length masks.old) (length value_offsets.old) (length metas.old) (length values.old) }
    ensures { Wrote (tiles_between config (window_value (64 * number) sums.entry.list.now) number (number + 1)) at result masks.old masks.new value_offsets.old value_offsets.new metas.old metas.new values.old values.new }
{
    let mask = word_mask(sums);
    if mask == 0 {
        return at;
    }
    let nnz = word::popcount(mask);
    let kind = config.kind_of(nnz);
    let meta = u32::from(kind) * abtm::KIND_STEP + hybit_core::narrow(number);
    let next = TilesSize {
        tiles: at.tiles + 1,
        value_slots: at.value_slots + abtm::slot_count(mask, meta),
        matrix_nnz: at.matrix_nnz + nnz,
    };
    if next.tiles > masks.len() {
        return next;
    }
    if next.value_slots > values.len() {
        return next;
    }
    let tile = at.tiles;
    masks[tile] = mask;
    value_offsets[tile] = hybit_core::narrow(at.value_slots);
    metas[tile] = meta;
    write_slots(kind, mask, sums, at.value_slots, values);
    next
}

// The tiles of a block of 64 words of the window, which starts at word `first`.
fn emit_block(
    first: usize,
    block: usize,
    sums: &[f64],
    words: &[u64],
    config: AbtmConfig,
    from: TilesSize,
    masks: &mut [u64],
    value_offsets: &mut [u32],
    metas: &mut [u32],
    values: &mut [f64],
) -> TilesSize
    requires fact_1 { (length sums.now ≡ 64 * length words.now) × (64 * block + 64 ≤ length words.now) × (first + length words.now ≤ 2 ^ 30) }
    requires fact_2 { Marked 64 sums.now words.now }
    requires fact_3 { Bounded (2 ^ 39) from × Lists (length masks.old) (length value_offsets.old) (length metas.old) (length values.old) }
    ensures { Wrote (tiles_between config (window_value (64 * first) sums.now) (first + 64 * block) (first + 64 * block + 64)) from result masks.old masks.new value_offsets.old value_offsets.new metas.old metas.new values.old values.new }
{
    let mut at = from;
    let end = 64 * block + 64;
    for w in 64 * block..end {
        if words[w] == 0 {
            continue;
        }
        at = emit_word(
            first + w,
            WordSums {
                list: &sums[64 * w..64 * w + 64],
            },
            config,
            at,
            masks,
            value_offsets,
            metas,
            values,
        );
    }
    at
}

// The tiles of a window.
fn emit_window(
    first: usize,
    sums: &[f64],
    words: &[u64],
    blocks: &[u64],
    config: AbtmConfig,
    from: TilesSize,
    masks: &mut [u64],
    value_offsets: &mut [u32],
    metas: &mut [u32],
    values: &mut [f64],
) -> TilesSize
    requires fact_1 { Sized (length sums.now) (length words.now) (length blocks.now) }
    requires fact_2 { first ≤ 2 ^ 20 }
    requires fact_3 { Marked 64 sums.now words.now }
    requires fact_4 { Marked 4096 sums.now blocks.now }
    requires fact_5 { Bounded (2 ^ 38) from × Lists (length masks.old) (length value_offsets.old) (length metas.old) (length values.old) }
    ensures { Wrote (tiles_between config (window_value (64 * first) sums.now) first (first + length words.now)) from result masks.old masks.new value_offsets.old value_offsets.new metas.old metas.new values.old values.new }
{
    let mut at = from;
    for b in 0..blocks.len() {
        if blocks[b] == 0 {
            continue;
        }
        at = emit_block(
            first,
            b,
            sums,
            words,
            config,
            at,
            masks,
            value_offsets,
            metas,
            values,
        );
    }
    at
}

// The tiles of a row, window after window: the next one starts at the row's next column.
fn fill_row(
    row: CsrRow,
    sums: &mut [f64],
    words: &mut [u64],
    blocks: &mut [u64],
    config: AbtmConfig,
    from: TilesSize,
    masks: &mut [u64],
    value_offsets: &mut [u32],
    metas: &mut [u32],
    values: &mut [f64],
) -> TilesSize
    requires sized { Sized (length sums.old) (length words.old) (length blocks.old) }
    requires zeros { sums.old ≡ replicate (length sums.old) zero64 }
    requires lists { Bounded (2 ^ 36) from × Lists (length masks.old) (length value_offsets.old) (length metas.old) (length values.old) }
    ensures tiles { Wrote (row_tiles_of config row.entry.ncols (λ c. not (is_zero (merged_nonzero (entries_of row.entry) c))) (merged_nonzero (entries_of row.entry))) from result masks.old masks.new value_offsets.old value_offsets.new metas.old metas.new values.old values.new }
    ensures window { sums.new ≡ replicate (length sums.old) zero64 }
{
    let past = row.ncols + sums.len();
    let mut at = from;
    let mut next: usize = 0;
    // Each window says where the next one starts, so there is no range to go over.
    while next < row.ncols {
        let first = next / 64;
        next = gather(row, 64 * first, past, sums, words, blocks);
        at = emit_window(
            first,
            sums,
            words,
            blocks,
            config,
            at,
            masks,
            value_offsets,
            metas,
            values,
        );
        clear_window(row.cols, 64 * first, sums, words, blocks);
    }
    at
}

// All rows, and where each starts; answers the places that they take.
// Lists that are written stay apart: a struct of them would have to name each in every contract.
fn fill_rows(
    csr: CheckedCsr32,
    sums: &mut [f64],
    words: &mut [u64],
    blocks: &mut [u64],
    config: AbtmConfig,
    row_tile_ptr: &mut [u32],
    masks: &mut [u64],
    value_offsets: &mut [u32],
    metas: &mut [u32],
    values: &mut [f64],
) -> TilesSize
    requires sized { Sized (length sums.old) (length words.old) (length blocks.old) }
    requires zeros { sums.old ≡ replicate (length sums.old) zero64 }
    requires pointers { csr.matrix.nrows ≤ length row_tile_ptr.old }
    requires lists { Lists (length masks.old) (length value_offsets.old) (length metas.old) (length values.old) }
    ensures { Rows (row_of (lent_csr csr.entry.matrix) config) csr.entry.matrix.nrows result row_tile_ptr.new masks.new value_offsets.new metas.new values.new }
{
    let mut at = TilesSize {
        tiles: 0,
        value_slots: 0,
        matrix_nnz: 0,
    };
    for row in 0..csr.matrix.nrows {
        row_tile_ptr[row] = hybit_core::narrow(at.tiles);
        at = fill_row(
            csr.row(row),
            sums,
            words,
            blocks,
            config,
            at,
            masks,
            value_offsets,
            metas,
            values,
        );
    }
    at
}

// The rows of an accepted plot list, through 260 KiB of local sums and marks.
// Lists that are written stay apart: a struct of them would have to name each in every contract.
fn build(
    csr: CheckedCsr32,
    config: AbtmConfig,
    row_tile_ptr: &mut [u32],
    masks: &mut [u64],
    value_offsets: &mut [u32],
    metas: &mut [u32],
    values: &mut [f64],
) -> TilesSize
    requires pointers { csr.matrix.nrows ≤ length row_tile_ptr.old }
    requires lists { Lists (length masks.old) (length value_offsets.old) (length metas.old) (length values.old) }
    ensures { Rows (row_of (lent_csr csr.entry.matrix) config) csr.entry.matrix.nrows result row_tile_ptr.new masks.new value_offsets.new metas.new values.new }
{
    // The library has no heap: a window of 32,768 columns on the stack. A row that goes further takes several.
    let mut sums = [0.0f64; 32768];
    let mut words = [0u64; 512];
    let mut blocks = [0u64; 8];
    fill_rows(
        csr,
        &mut sums[..32768],
        &mut words[..512],
        &mut blocks[..8],
        config,
        row_tile_ptr,
        masks,
        value_offsets,
        metas,
        values,
    )
}

// Zeros in the pointers from place `rows` on, in the tile lists from place `tiles` on, in the values from place `slots` on.
// Lists that are written stay apart: a struct of them would have to name each in every contract.
fn clear_past(
    rows: usize,
    tiles: usize,
    slots: usize,
    row_tile_ptr: &mut [u32],
    masks: &mut [u64],
    value_offsets: &mut [u32],
    metas: &mut [u32],
    values: &mut [f64],
)
    ensures pointers { row_tile_ptr.new ≡ padded 0 (length row_tile_ptr.old) (take rows row_tile_ptr.old) }
    ensures bits { masks.new ≡ padded 0 (length masks.old) (take tiles masks.old) }
    ensures offsets { value_offsets.new ≡ padded 0 (length value_offsets.old) (take tiles value_offsets.old) }
    ensures metas { metas.new ≡ padded 0 (length metas.old) (take tiles metas.old) }
    ensures values { values.new ≡ padded zero64 (length values.old) (take slots values.old) }
{
    lent::clear_from(row_tile_ptr, rows);
    lent::clear_from(masks, tiles);
    lent::clear_from(value_offsets, tiles);
    lent::clear_from(metas, tiles);
    lent::clear_from(values, slots);
}

// The checks before the build: the plot list, the thresholds, and the room for the pointers, which needs no build.
fn examine(csr: Csr32Matrix, config: AbtmConfig, pointers: usize) -> Result<(), HybitError>
    ensures { told result ≡ before_answer (lent_csr csr.entry) config pointers }
{
    csr.check()?;
    config.validate()?;
    if pointers <= csr.nrows {
        return Err(HybitError::ShortList);
    }
    Ok(())
}

// The tiles of a plot list with the values `entries`: the used parts are nrows + 1 pointers, as many masks, offsets and metas as
// the answer's tiles, and as many values as its slots.
// Lists that are written stay apart: a struct of them would have to name each in every contract.
pub fn from_csr32(
    csr: Csr32Matrix,
    config: AbtmConfig,
    row_tile_ptr: &mut [u32],
    masks: &mut [u64],
    value_offsets: &mut [u32],
    metas: &mut [u32],
    values: &mut [f64],
) -> Result<TilesSize, HybitError>
    ensures answer { given result ≡ answers (tile_answer (lent_csr csr.entry) config (as_tile_room (length row_tile_ptr.old) (length masks.old) (length value_offsets.old) (length metas.old) (length values.old))) (used_tiles (tiles_from (lent_csr csr.entry) config)) }
    ensures pointers { row_tile_ptr.new ≡ built 0 (length row_tile_ptr.old) (tile_answer (lent_csr csr.entry) config (as_tile_room (length row_tile_ptr.old) (length masks.old) (length value_offsets.old) (length metas.old) (length values.old))) (tiles_from (lent_csr csr.entry) config).ptr }
    ensures bits { masks.new ≡ built 0 (length masks.old) (tile_answer (lent_csr csr.entry) config (as_tile_room (length row_tile_ptr.old) (length masks.old) (length value_offsets.old) (length metas.old) (length values.old))) (tiles_from (lent_csr csr.entry) config).mask }
    ensures offsets { value_offsets.new ≡ built 0 (length value_offsets.old) (tile_answer (lent_csr csr.entry) config (as_tile_room (length row_tile_ptr.old) (length masks.old) (length value_offsets.old) (length metas.old) (length values.old))) (tiles_from (lent_csr csr.entry) config).offset }
    ensures metas { metas.new ≡ built 0 (length metas.old) (tile_answer (lent_csr csr.entry) config (as_tile_room (length row_tile_ptr.old) (length masks.old) (length value_offsets.old) (length metas.old) (length values.old))) (tiles_from (lent_csr csr.entry) config).meta }
    ensures values { values.new ≡ built zero64 (length values.old) (tile_answer (lent_csr csr.entry) config (as_tile_room (length row_tile_ptr.old) (length masks.old) (length value_offsets.old) (length metas.old) (length values.old))) (tiles_from (lent_csr csr.entry) config).vals }
{
    let v = examine(csr, config, row_tile_ptr.len());
    if let Err(e) = v {
        clear_past(0, 0, 0, row_tile_ptr, masks, value_offsets, metas, values);
        return Err(e);
    }
    let room = masks
        .len()
        .min(value_offsets.len())
        .min(metas.len().min(hybit_core::MAX_ENTRIES));
    let places = values.len().min(MAX_SLOTS);
    // `examine` has checked the list; `checked` would check it again.
    let at = build(
        CheckedCsr32 { matrix: csr },
        config,
        row_tile_ptr,
        &mut masks[..room],
        &mut value_offsets[..room],
        &mut metas[..room],
        &mut values[..places],
    );
    if room < at.tiles {
        clear_past(0, 0, 0, row_tile_ptr, masks, value_offsets, metas, values);
        return Err(HybitError::ShortList);
    }
    if places < at.value_slots {
        clear_past(0, 0, 0, row_tile_ptr, masks, value_offsets, metas, values);
        return Err(HybitError::ShortList);
    }
    row_tile_ptr[csr.nrows] = hybit_core::narrow(at.tiles);
    clear_past(
        csr.nrows + 1,
        at.tiles,
        at.value_slots,
        row_tile_ptr,
        masks,
        value_offsets,
        metas,
        values,
    );
    Ok(at)
}
