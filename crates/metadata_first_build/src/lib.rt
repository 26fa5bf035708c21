// metadata_first.rs: `AbtmMetadataFirstMatrix::from_csr32`, packing. The Rust sorts each row's entries. Here the words are built
// first, as in the Rust, and each entry is then added at its column's rank among the row's words: a row takes as many steps as it
// has entries, and copies of a column are added in stored order.
#![tactic(auto)]

ghost use Rattle.std.specs.Prelude.{◌≡◌, ◌+◌, ◌≤◌, ◌<◌, length, replicate};
ghost use mathlib.Core.List.{[]};
ghost use Rattle.hybit_core.specs.Answer.{refuses, answers};
ghost use Rattle.hybit_core.specs.Floats.{zero64};
ghost use Rattle.hybit_core.specs.Table.{given};
ghost use Rattle.lent.specs.Lent.{padded, built};
ghost use Rattle.word.specs.Bits.{count, ceil64};
ghost use Rattle.levels.specs.Ranks.{Ranks};
ghost use Rattle.csr32.specs.Csr.{present};
ghost use Rattle.csr32.specs.Matrix.{lent_csr};
ghost use Rattle.csr32.specs.Row.{entries_of};
ghost use Rattle.topology.specs.Words.{row_member};
ghost use Rattle.topology.specs.Calls.{used_of};
ghost use Rattle.topology.specs.Matrix.{lent_topology};
ghost use Rattle.topology.proofs.RowLaws.{Row};
ghost use Rattle.topology_build.specs.Build.{topology_from};
ghost use Rattle.metadata_first_merge.specs.Merge.{row_values, merge_answer};
ghost use Rattle.metadata_first_build.specs.Pack.{store_of, as_store_room, pack_answer};
ghost use Rattle.metadata_first_build.specs.Making.{Valued, last_refusal};

use csr32::{CheckedCsr32, Csr32Matrix, CsrRow};
use hybit_core::HybitError;
use topology::{AbtmTopology, AbtmTopologyRow, CheckedTopologyRow, FramedTopology, TopologySize};

// What the values are packed from: an accepted plot list, and its words.
#[derive(Clone, Copy)]
struct Source<'a, 'p, 'w, 'm> {
    csr: CheckedCsr32<'a>,
    words: FramedTopology<'p, 'w, 'm>,
    ghost built: { lent_topology words.topology ≡ topology_from (lent_csr csr.matrix) },
}

// Notes each word of a row: its mask, and the place of its first value in the row.
fn place_words(checked: CheckedTopologyRow, bits: &mut [u64], starts: &mut [u32])
    requires { (ceil64 checked.ncols ≤ length bits.old) × (ceil64 checked.ncols ≤ length starts.old) }
    ensures { Ranks (row_member checked.entry.row.words.now checked.entry.row.masks.now) checked.entry.ncols bits.new starts.new }
{
    let words = checked.row.words;
    let masks = checked.row.masks;
    let mut place: usize = 0;
    for (i, word) in words.iter().enumerate() {
        let index = *word as usize;
        bits[index] = masks[i];
        starts[index] = hybit_core::narrow(place);
        place += word::popcount(masks[i]);
    }
}

// Adds a row's entries, in stored order, each at its column's rank. The bitmap and its starts are only read here; above they are
// written.
fn add_entries(entries: CsrRow, bits: &[u64], starts: &[u32], out: &mut [f64])
    requires ranks { Ranks (present (entries_of entries)) entries.ncols bits.now starts.now }
    requires zeros { out.old ≡ replicate (count (present (entries_of entries)) entries.ncols) zero64 }
    ensures { out.new ≡ row_values entries.entry.ncols (entries_of entries.entry) }
{
    for (k, col) in entries.cols.iter().enumerate() {
        let c = *col as usize;
        let index = c / 64;
        let place = starts[index] as usize + word::ones_below(bits[index], c % 64);
        out[place] = out[place] + entries.vals[k];
    }
}

// One row: its words, its entries, and its part of the values, all 0.0 before.
fn pack_row(
    row: AbtmTopologyRow,
    entries: CsrRow,
    bits: &mut [u64],
    starts: &mut [u32],
    out: &mut [f64],
)
    requires words { Row (present (entries_of entries)) entries.ncols row.words.now row.masks.now }
    requires room { (ceil64 entries.ncols ≤ length bits.old) × (ceil64 entries.ncols ≤ length starts.old) }
    requires zeros { out.old ≡ replicate (count (present (entries_of entries)) entries.ncols) zero64 }
    ensures { out.new ≡ row_values entries.entry.ncols (entries_of entries.entry) }
{
    let checked = CheckedTopologyRow {
        ncols: entries.ncols,
        row,
    };
    place_words(checked, bits, starts);
    add_entries(entries, bits, starts, out);
}

// All rows, and where each starts. The values are 0.0 before.
fn pack_rows(
    source: Source,
    bits: &mut [u64],
    starts: &mut [u32],
    row_value_ptr: &mut [u32],
    packed: &mut [f64],
)
    requires room { (ceil64 source.csr.matrix.ncols ≤ length bits.old) × (ceil64 source.csr.matrix.ncols ≤ length starts.old) }
    requires pointers { length row_value_ptr.old ≡ source.csr.matrix.nrows + 1 }
    requires zeros { packed.old ≡ replicate (length (store_of (lent_csr source.csr.matrix)).vals) zero64 }
    ensures pointers { row_value_ptr.new ≡ (store_of (lent_csr source.entry.csr.matrix)).vptr }
    ensures values { packed.new ≡ (store_of (lent_csr source.entry.csr.matrix)).vals }
{
    let csr = source.csr;
    // The list and its words have as many rows. Of the least of the two numbers the compiler sees that each row of both is there.
    let nrows = csr.matrix.nrows.min(source.words.topology.nrows);
    let mut at: usize = 0;
    for row in 0..nrows {
        row_value_ptr[row] = hybit_core::narrow(at);
        let row_words = source.words.row(row);
        let to = at + topology::count_bits(row_words.masks);
        pack_row(row_words, csr.row(row), bits, starts, &mut packed[at..to]);
        at = to;
    }
    row_value_ptr[csr.matrix.nrows] = hybit_core::narrow(at);
}

// The same through 192 KiB of local places.
fn pack(source: Source, row_value_ptr: &mut [u32], packed: &mut [f64])
    requires pointers { length row_value_ptr.old ≡ source.csr.matrix.nrows + 1 }
    requires zeros { packed.old ≡ replicate (length (store_of (lent_csr source.csr.matrix)).vals) zero64 }
    ensures pointers { row_value_ptr.new ≡ (store_of (lent_csr source.entry.csr.matrix)).vptr }
    ensures values { packed.new ≡ (store_of (lent_csr source.entry.csr.matrix)).vals }
{
    // The library has no heap: the room is that of the largest input.
    let mut bits = [0u64; 16384];
    let mut starts = [0u32; 16384];
    pack_rows(
        source,
        &mut bits[..16384],
        &mut starts[..16384],
        row_value_ptr,
        packed,
    );
}

// The values of a plot list whose words are built, where the two lists hold them; answers whether they do and all values are
// finite. No refusal: 4 comes before 13, and where the lists are short only metadata_first_merge can tell.
fn fill_values(source: Source, row_value_ptr: &mut [u32], packed: &mut [f64]) -> bool
    ensures { Valued (lent_csr source.entry.csr.matrix) (length row_value_ptr.old) (length packed.old) result row_value_ptr.new packed.new }
{
    let nrows = source.csr.matrix.nrows;
    let count = source.words.topology.structural_nnz;
    if row_value_ptr.len() <= nrows {
        return false;
    }
    if packed.len() < count {
        return false;
    }
    lent::clear_from(row_value_ptr, 0);
    lent::clear_from(packed, 0);
    pack(
        source,
        &mut row_value_ptr[..nrows + 1],
        &mut packed[..count],
    );
    csr32::all_finite(&packed[..count])
}

// Zeros in all lists: what a refused build leaves.
// Lists that are written stay apart: a struct of them would have to name each in every contract.
pub fn clear_all(
    row_word_ptr: &mut [u32],
    word_indices: &mut [u32],
    masks: &mut [u64],
    row_value_ptr: &mut [u32],
    packed: &mut [f64],
)
    ensures pointers { row_word_ptr.new ≡ padded 0 (length row_word_ptr.old) [] }
    ensures numbers { word_indices.new ≡ padded 0 (length word_indices.old) [] }
    ensures bits { masks.new ≡ padded 0 (length masks.old) [] }
    ensures starts { row_value_ptr.new ≡ padded 0 (length row_value_ptr.old) [] }
    ensures values { packed.new ≡ padded zero64 (length packed.old) [] }
{
    topology::clear_past(0, 0, row_word_ptr, word_indices, masks);
    lent::clear_from(row_value_ptr, 0);
    lent::clear_from(packed, 0);
}

// The refusal of a refused build: that of the checks, 4 for a merged value among them, or else 13.
fn refusal(csr: Csr32Matrix) -> Result<TopologySize, HybitError>
    ensures { given result ≡ refuses (last_refusal (merge_answer (lent_csr csr.entry))) }
{
    metadata_first_merge::check(csr)?;
    Err(HybitError::ShortList)
}

// The packed store of a plot list: the used parts are nrows + 1 pointers of each kind, as many words and masks as the answer
// says, and structural_nnz values.
// Lists that are written stay apart: a struct of them would have to name each in every contract.
pub fn from_csr32(
    csr: Csr32Matrix,
    row_word_ptr: &mut [u32],
    word_indices: &mut [u32],
    masks: &mut [u64],
    row_value_ptr: &mut [u32],
    packed: &mut [f64],
) -> Result<TopologySize, HybitError>
    ensures answer { given result ≡ answers (pack_answer (lent_csr csr.entry) (as_store_room (length row_word_ptr.old) (length word_indices.old) (length masks.old) (length row_value_ptr.old) (length packed.old))) (used_of (store_of (lent_csr csr.entry)).words) }
    ensures pointers { row_word_ptr.new ≡ built 0 (length row_word_ptr.old) (pack_answer (lent_csr csr.entry) (as_store_room (length row_word_ptr.old) (length word_indices.old) (length masks.old) (length row_value_ptr.old) (length packed.old))) (store_of (lent_csr csr.entry)).words.ptr }
    ensures numbers { word_indices.new ≡ built 0 (length word_indices.old) (pack_answer (lent_csr csr.entry) (as_store_room (length row_word_ptr.old) (length word_indices.old) (length masks.old) (length row_value_ptr.old) (length packed.old))) (store_of (lent_csr csr.entry)).words.word }
    ensures bits { masks.new ≡ built 0 (length masks.old) (pack_answer (lent_csr csr.entry) (as_store_room (length row_word_ptr.old) (length word_indices.old) (length masks.old) (length row_value_ptr.old) (length packed.old))) (store_of (lent_csr csr.entry)).words.mask }
    ensures starts { row_value_ptr.new ≡ built 0 (length row_value_ptr.old) (pack_answer (lent_csr csr.entry) (as_store_room (length row_word_ptr.old) (length word_indices.old) (length masks.old) (length row_value_ptr.old) (length packed.old))) (store_of (lent_csr csr.entry)).vptr }
    ensures values { packed.new ≡ built zero64 (length packed.old) (pack_answer (lent_csr csr.entry) (as_store_room (length row_word_ptr.old) (length word_indices.old) (length masks.old) (length row_value_ptr.old) (length packed.old))) (store_of (lent_csr csr.entry)).vals }
{
    let Ok(size) = topology_build::from_csr32(csr, row_word_ptr, word_indices, masks) else {
        clear_all(row_word_ptr, word_indices, masks, row_value_ptr, packed);
        return refusal(csr);
    };
    let topology = AbtmTopology {
        nrows: csr.nrows,
        ncols: csr.ncols,
        row_word_ptr: &row_word_ptr[..csr.nrows + 1],
        word_indices: &word_indices[..size.words],
        masks: &masks[..size.words],
        structural_nnz: size.structural_nnz,
    };
    // topology_build has checked it: checked() would read the list once more.
    let source = Source {
        csr: CheckedCsr32 { matrix: csr },
        words: FramedTopology { topology },
    };
    if !fill_values(source, row_value_ptr, packed) {
        clear_all(row_word_ptr, word_indices, masks, row_value_ptr, packed);
        return refusal(csr);
    }
    Ok(size)
}
