// The C interface: every public call of mask, csr32, topology, metadata_first, abtm, restricted and dense_block under a name of
// its own, which denimrasp_c exports for programs in C and Rust to link (denimrasp.h). A list crosses as a pointer and a length, an
// answer as one struct of denimrasp_answers.
// denimrasp_c repeats each promise word for word, so the functions have C's parameters: a record's numbers and lists side by side.
// Three set operations on masks and four on words: an enum has no fixed form in C, so each is a function of its own.
#![tactic(auto)]

ghost use Rattle.std.specs.Prelude.{◌≡◌, false, not, ◌&&◌, ◌||◌, min, ◌+◌, ◌-◌, ◌*◌, ◌^◌, eqb, length};
ghost use Rattle.std.specs.Float.{binary64};
ghost use Rattle.std.specs.Float.Ieee.{div};
ghost use Rattle.hybit_core.specs.Answer.{gives, answers};
ghost use Rattle.hybit_core.specs.Domain.{saturated};
ghost use Rattle.hybit_core.specs.Floats.{zero64, count_as_float, ratio_of};
ghost use Rattle.lent.specs.Lent.{built, kept};
ghost use Rattle.word.specs.Bits.{has, below, count, both, within, selected, words_of};
ghost use Rattle.word.specs.Word.{rank_answer as word_rank_answer};
ghost use Rattle.mask.specs.Mask.{as_mask, active, mask_words, mask_answer};
ghost use Rattle.mask.specs.Calls.{new_answer, from_indices_answer, listed, set_answer, changed, indices_answer, joined_word, pair_answer as mask_pair_answer};
ghost use Rattle.csr32.specs.Csr.{as_csr, csr_answer, apply_answer, product, csr_metadata_bytes, csr_storage_bytes};
ghost use Rattle.csr32.specs.Made.{as_csr_room};
ghost use Rattle.topology.specs.Words.{as_words, member, word_answer};
ghost use Rattle.topology.specs.Calls.{as_room, used_of, row_answer, rank_answer, select, stats_of};
ghost use Rattle.topology_build.specs.Build.{topology_from, build_answer};
ghost use Rattle.topology_combine.specs.Combine.{combined_words, combine_answer};
ghost use Rattle.metadata_first.specs.Store.{as_store, store_answer, store_row_answer, store_stats};
ghost use Rattle.metadata_first.specs.Dot.{sparse_dot_row, accumulated, accumulate_answer};
ghost use Rattle.metadata_first_merge.specs.Merge.{merge_answer};
ghost use Rattle.metadata_first_build.specs.Pack.{as_store_room, store_of, pack_answer};
ghost use Rattle.metadata_first_operands.specs.Checks.{rows_answer};
ghost use Rattle.metadata_first_dot.specs.Rows.{row_sums, row_counts};
ghost use Rattle.abtm.specs.Tiles.{word_in, as_tiles, tiles_answer};
ghost use Rattle.abtm.specs.Calls.{threshold_answer, kind_answer};
ghost use Rattle.abtm_build.specs.Build.{tiles_from, as_tile_room, tile_answer, used_tiles};
ghost use Rattle.abtm_rows.specs.Rows.{tile_row_answer, tile_stats};
ghost use Rattle.abtm_apply.specs.Product.{tiles_product, apply_tiles_answer};
ghost use Rattle.abtm_expand.specs.Expand.{expanded, expand_answer};
ghost use Rattle.restricted.specs.Restricted.{restricted, restrict_answer, restriction_of, restricted_tiles, restrict_tiles_answer, tile_restriction_of, retained_fraction, restriction_bytes};
ghost use Rattle.restricted.specs.Local.{region_members, local_list, local_answer, region_of, members_answer, gather_answer, gathered, boundary_ratio, region_bytes};
ghost use Rattle.dense_block.specs.Blocks.{width_of, as_blocks, blocks_of, blocks_answer};
ghost use Rattle.dense_block.specs.Calls.{figures_of, build_blocks_answer, block_fill, value_padding, block_metadata_bytes, block_storage_bytes, fast_answer};
ghost use Rattle.dense_block_apply.specs.Product.{blocks_product, apply_blocks_answer};
ghost use Rattle.denimrasp_answers.specs.Answers.{verdict_of, count_of, bool_of, select_of, part_of, topology_answer_of, topology_stats_of, store_stats_of, dot_answer_of, totals_of, places_of, counts_from, tiles_answer_of, tile_stats_of, thresholds_from, restriction_answer_of, region_answer_of, restriction_from, region_from, blocks_answer_of, ratio_answer_of, size_from, blocks_from};

use abtm::{AbtmConfig, AbtmMatrix, TileDesc};
use abtm_rows::AbtmStats;
use csr32::Csr32Matrix;
use denimrasp_answers::{
    DenimraspBlocks, DenimraspBool, DenimraspCount, DenimraspDot, DenimraspPart, DenimraspRatio,
    DenimraspRegion, DenimraspRestriction, DenimraspSelect, DenimraspStoreStats,
    DenimraspTileStats, DenimraspTiles, DenimraspTopology, DenimraspTopologyStats, DenimraspTotals,
    DenimraspVerdict,
};
use dense_block::{DenseBlockCsrOperator, DenseBlocks};
use hybit_core::HybitError;
use mask::DofMask;
use metadata_first::{AbtmMetadataFirstMatrix, AbtmMetadataFirstStats, AbtmProductPruningStats};
use restricted::{ColumnRestriction, LocalRegion};
use restricted_gather::RegionMembers;
use topology::{AbtmTopology, AbtmTopologyStats, AbtmTopologyWord};
use word::Operation;

// 5 where the words are not those of a mask of that length.
pub fn denimrasp_mask_check(len: usize, words: &[u64]) -> DenimraspVerdict
    ensures { result ≡ verdict_of (mask_answer (as_mask len words.now)) }
{
    let mask = DofMask { len, words };
    mask.check().into()
}

// Whether index is a member; false from the length on.
pub fn denimrasp_mask_contains(len: usize, words: &[u64], index: usize) -> DenimraspBool
    ensures { result ≡ bool_of (answers (mask_answer (as_mask len words.now)) (active (as_mask len words.now) index)) }
{
    let mask = DofMask { len, words };
    mask.contains(index).into()
}

// How many members the mask has.
pub fn denimrasp_mask_count_ones(len: usize, words: &[u64]) -> DenimraspCount
    ensures { result ≡ count_of (answers (mask_answer (as_mask len words.now)) (count (active (as_mask len words.now)) len)) }
{
    let mask = DofMask { len, words };
    mask.count_ones().into()
}

// Whether the mask has no member.
pub fn denimrasp_mask_is_empty(len: usize, words: &[u64]) -> DenimraspBool
    ensures { result ≡ bool_of (answers (mask_answer (as_mask len words.now)) (eqb (count (active (as_mask len words.now)) len) 0)) }
{
    let mask = DofMask { len, words };
    mask.is_empty().into()
}

// The empty mask of that length.
pub fn denimrasp_mask_new(len: usize, words: &mut [u64]) -> DenimraspVerdict
    ensures answer { result ≡ verdict_of (new_answer len (length words.old)) }
    ensures list { words.new ≡ built 0 (length words.old) (new_answer len (length words.old)) (mask_words (λ c. false) len) }
{
    mask_build::new(len, words).into()
}

// The mask of the listed members.
pub fn denimrasp_mask_from_indices(
    len: usize,
    indices: &[usize],
    words: &mut [u64],
) -> DenimraspVerdict
    ensures answer { result ≡ verdict_of (from_indices_answer len indices.now (length words.old)) }
    ensures list { words.new ≡ built 0 (length words.old) (from_indices_answer len indices.now (length words.old)) (mask_words (listed indices.now) len) }
{
    mask_build::from_indices(len, indices, words).into()
}

// Puts index in or out; a refused call leaves the words as they were.
pub fn denimrasp_mask_set(
    len: usize,
    words: &mut [u64],
    index: usize,
    value: bool,
) -> DenimraspVerdict
    ensures answer { result ≡ verdict_of (set_answer (as_mask len words.old) index) }
    ensures list { words.new ≡ kept (set_answer (as_mask len words.old) index) (mask_words (changed (active (as_mask len words.old)) index value) len) words.old }
{
    mask_build::set(len, words, index, value).into()
}

// Joins the members of one word; bits from the length on are dropped, a word past the end changes nothing.
pub fn denimrasp_mask_or_word(
    len: usize,
    words: &mut [u64],
    word_index: usize,
    bits: u64,
) -> DenimraspVerdict
    ensures answer { result ≡ verdict_of (mask_answer (as_mask len words.old)) }
    ensures list { words.new ≡ kept (mask_answer (as_mask len words.old)) (mask_words (joined_word (active (as_mask len words.old)) word_index bits) len) words.old }
{
    mask::or_word(len, words, word_index, bits).into()
}

// The members, ascending; answers how many.
pub fn denimrasp_mask_indices(len: usize, words: &[u64], out: &mut [usize]) -> DenimraspCount
    ensures answer { result ≡ count_of (answers (indices_answer (as_mask len words.now) (length out.old)) (count (active (as_mask len words.now)) len)) }
    ensures list { out.new ≡ built 0 (length out.old) (indices_answer (as_mask len words.now) (length out.old)) (below (active (as_mask len words.now)) len) }
{
    let mask = DofMask { len, words };
    mask.indices(out).into()
}

// Joins the other mask's members to this one's.
pub fn denimrasp_mask_union_assign(
    len: usize,
    words: &mut [u64],
    other_len: usize,
    other: &[u64],
) -> DenimraspVerdict
    ensures answer { result ≡ verdict_of (mask_pair_answer (as_mask len words.old) (as_mask other_len other.now)) }
    ensures list { words.new ≡ kept (mask_pair_answer (as_mask len words.old) (as_mask other_len other.now)) (mask_words (λ c. active (as_mask len words.old) c || active (as_mask other_len other.now) c) len) words.old }
{
    let other = DofMask {
        len: other_len,
        words: other,
    };
    mask_sets::union_assign(len, words, other).into()
}

// Keeps the members that the other mask has too.
pub fn denimrasp_mask_intersect_assign(
    len: usize,
    words: &mut [u64],
    other_len: usize,
    other: &[u64],
) -> DenimraspVerdict
    ensures answer { result ≡ verdict_of (mask_pair_answer (as_mask len words.old) (as_mask other_len other.now)) }
    ensures list { words.new ≡ kept (mask_pair_answer (as_mask len words.old) (as_mask other_len other.now)) (mask_words (λ c. active (as_mask len words.old) c && active (as_mask other_len other.now) c) len) words.old }
{
    let other = DofMask {
        len: other_len,
        words: other,
    };
    mask_sets::intersect_assign(len, words, other).into()
}

// Keeps the members that the other mask does not have.
pub fn denimrasp_mask_and_not_assign(
    len: usize,
    words: &mut [u64],
    other_len: usize,
    other: &[u64],
) -> DenimraspVerdict
    ensures answer { result ≡ verdict_of (mask_pair_answer (as_mask len words.old) (as_mask other_len other.now)) }
    ensures list { words.new ≡ kept (mask_pair_answer (as_mask len words.old) (as_mask other_len other.now)) (mask_words (λ c. active (as_mask len words.old) c && not (active (as_mask other_len other.now) c)) len) words.old }
{
    let other = DofMask {
        len: other_len,
        words: other,
    };
    mask_sets::and_not_assign(len, words, other).into()
}

// Whether the two masks have a member in common.
pub fn denimrasp_mask_intersects(
    len: usize,
    words: &[u64],
    other_len: usize,
    other: &[u64],
) -> DenimraspBool
    ensures { result ≡ bool_of (answers (mask_pair_answer (as_mask len words.now) (as_mask other_len other.now)) (not (eqb (count (both (active (as_mask len words.now)) (active (as_mask other_len other.now))) len) 0))) }
{
    let mask = DofMask { len, words };
    let other = DofMask {
        len: other_len,
        words: other,
    };
    mask_sets::intersects(mask, other).into()
}

// The Rust's `new` and `validate`.
pub fn denimrasp_csr32_check(
    nrows: usize,
    ncols: usize,
    row_ptr: &[u32],
    col_idx: &[u32],
    values: &[f64],
) -> DenimraspVerdict
    ensures { result ≡ verdict_of (csr_answer (as_csr nrows ncols row_ptr.now col_idx.now values.now)) }
{
    let csr = Csr32Matrix {
        nrows,
        ncols,
        row_ptr,
        col_idx,
        values,
    };
    csr.check().into()
}

// The row products; a refused call leaves y as it was.
pub fn denimrasp_csr32_apply(
    nrows: usize,
    ncols: usize,
    row_ptr: &[u32],
    col_idx: &[u32],
    values: &[f64],
    x: &[f64],
    y: &mut [f64],
) -> DenimraspVerdict
    ensures answer { result ≡ verdict_of (apply_answer (as_csr nrows ncols row_ptr.now col_idx.now values.now) x.now (length y.old)) }
    ensures target { y.new ≡ kept (apply_answer (as_csr nrows ncols row_ptr.now col_idx.now values.now) x.now (length y.old)) (product (as_csr nrows ncols row_ptr.now col_idx.now values.now) x.now) y.old }
{
    let csr = Csr32Matrix {
        nrows,
        ncols,
        row_ptr,
        col_idx,
        values,
    };
    csr32_apply::apply(csr, x, y).into()
}

// The bytes of the pointers and columns.
pub fn denimrasp_csr32_metadata_bytes(
    nrows: usize,
    ncols: usize,
    row_ptr: &[u32],
    col_idx: &[u32],
    values: &[f64],
) -> DenimraspCount
    ensures { result ≡ count_of (answers (csr_answer (as_csr nrows ncols row_ptr.now col_idx.now values.now)) (csr_metadata_bytes (as_csr nrows ncols row_ptr.now col_idx.now values.now))) }
{
    let csr = Csr32Matrix {
        nrows,
        ncols,
        row_ptr,
        col_idx,
        values,
    };
    csr.metadata_bytes().into()
}

// The same and those of the values.
pub fn denimrasp_csr32_storage_bytes(
    nrows: usize,
    ncols: usize,
    row_ptr: &[u32],
    col_idx: &[u32],
    values: &[f64],
) -> DenimraspCount
    ensures { result ≡ count_of (answers (csr_answer (as_csr nrows ncols row_ptr.now col_idx.now values.now)) (csr_storage_bytes (as_csr nrows ncols row_ptr.now col_idx.now values.now))) }
{
    let csr = Csr32Matrix {
        nrows,
        ncols,
        row_ptr,
        col_idx,
        values,
    };
    csr.storage_bytes().into()
}

// The Rust's `validate`.
pub fn denimrasp_topology_check(
    nrows: usize,
    ncols: usize,
    row_word_ptr: &[u32],
    word_indices: &[u32],
    masks: &[u64],
    structural_nnz: usize,
) -> DenimraspVerdict
    ensures { result ≡ verdict_of (word_answer (as_words nrows ncols row_word_ptr.now word_indices.now masks.now structural_nnz)) }
{
    let topology = AbtmTopology {
        nrows,
        ncols,
        row_word_ptr,
        word_indices,
        masks,
        structural_nnz,
    };
    topology.check().into()
}

// The words of a plot list.
pub fn denimrasp_topology_from_csr32(
    nrows: usize,
    ncols: usize,
    row_ptr: &[u32],
    col_idx: &[u32],
    values: &[f64],
    row_word_ptr: &mut [u32],
    word_indices: &mut [u32],
    masks: &mut [u64],
) -> DenimraspTopology
    ensures answer { result ≡ topology_answer_of (answers (build_answer (as_csr nrows ncols row_ptr.now col_idx.now values.now) (as_room (length row_word_ptr.old) (length word_indices.old) (length masks.old))) (used_of (topology_from (as_csr nrows ncols row_ptr.now col_idx.now values.now)))) }
    ensures pointers { row_word_ptr.new ≡ built 0 (length row_word_ptr.old) (build_answer (as_csr nrows ncols row_ptr.now col_idx.now values.now) (as_room (length row_word_ptr.old) (length word_indices.old) (length masks.old))) (topology_from (as_csr nrows ncols row_ptr.now col_idx.now values.now)).ptr }
    ensures numbers { word_indices.new ≡ built 0 (length word_indices.old) (build_answer (as_csr nrows ncols row_ptr.now col_idx.now values.now) (as_room (length row_word_ptr.old) (length word_indices.old) (length masks.old))) (topology_from (as_csr nrows ncols row_ptr.now col_idx.now values.now)).word }
    ensures bits { masks.new ≡ built 0 (length masks.old) (build_answer (as_csr nrows ncols row_ptr.now col_idx.now values.now) (as_room (length row_word_ptr.old) (length word_indices.old) (length masks.old))) (topology_from (as_csr nrows ncols row_ptr.now col_idx.now values.now)).mask }
{
    let csr = Csr32Matrix {
        nrows,
        ncols,
        row_ptr,
        col_idx,
        values,
    };
    let answer = topology_build::from_csr32(csr, row_word_ptr, word_indices, masks);
    answer.into()
}

// The places of the row's word numbers and masks in their lists: from start, below end.
pub fn denimrasp_topology_row_words(
    nrows: usize,
    ncols: usize,
    row_word_ptr: &[u32],
    word_indices: &[u32],
    masks: &[u64],
    structural_nnz: usize,
    row: usize,
) -> DenimraspPart
    ensures { result ≡ part_of (answers (row_answer (as_words nrows ncols row_word_ptr.now word_indices.now masks.now structural_nnz) row) (places_of row_word_ptr.now row)) }
{
    let topology = AbtmTopology {
        nrows,
        ncols,
        row_word_ptr,
        word_indices,
        masks,
        structural_nnz,
    };
    let v = topology.check();
    if let Err(e) = v {
        return e.into();
    }
    if row >= nrows {
        return HybitError::NoSuchPlace.into();
    }
    denimrasp_answers::part(row_word_ptr, row)
}

// How many words the row has.
pub fn denimrasp_topology_row_nonempty_words(
    nrows: usize,
    ncols: usize,
    row_word_ptr: &[u32],
    word_indices: &[u32],
    masks: &[u64],
    structural_nnz: usize,
    row: usize,
) -> DenimraspCount
    ensures { result ≡ count_of (answers (row_answer (as_words nrows ncols row_word_ptr.now word_indices.now masks.now structural_nnz) row) (length (words_of (member (as_words nrows ncols row_word_ptr.now word_indices.now masks.now structural_nnz) row) ncols))) }
{
    let topology = AbtmTopology {
        nrows,
        ncols,
        row_word_ptr,
        word_indices,
        masks,
        structural_nnz,
    };
    let answer = topology_rows::row_nonempty_words(topology, row);
    answer.into()
}

// How many columns the row holds.
pub fn denimrasp_topology_row_popcount(
    nrows: usize,
    ncols: usize,
    row_word_ptr: &[u32],
    word_indices: &[u32],
    masks: &[u64],
    structural_nnz: usize,
    row: usize,
) -> DenimraspCount
    ensures { result ≡ count_of (answers (row_answer (as_words nrows ncols row_word_ptr.now word_indices.now masks.now structural_nnz) row) (count (member (as_words nrows ncols row_word_ptr.now word_indices.now masks.now structural_nnz) row) ncols)) }
{
    let topology = AbtmTopology {
        nrows,
        ncols,
        row_word_ptr,
        word_indices,
        masks,
        structural_nnz,
    };
    let answer = topology_rows::row_popcount(topology, row);
    answer.into()
}

// Whether the row holds the column; false from the column count on.
pub fn denimrasp_topology_row_contains(
    nrows: usize,
    ncols: usize,
    row_word_ptr: &[u32],
    word_indices: &[u32],
    masks: &[u64],
    structural_nnz: usize,
    row: usize,
    col: usize,
) -> DenimraspBool
    ensures { result ≡ bool_of (answers (row_answer (as_words nrows ncols row_word_ptr.now word_indices.now masks.now structural_nnz) row) (within ncols (member (as_words nrows ncols row_word_ptr.now word_indices.now masks.now structural_nnz) row) col)) }
{
    let topology = AbtmTopology {
        nrows,
        ncols,
        row_word_ptr,
        word_indices,
        masks,
        structural_nnz,
    };
    let answer = topology_rows::row_contains(topology, row, col);
    answer.into()
}

// How many columns below col the row holds; the column count is allowed.
pub fn denimrasp_topology_row_rank(
    nrows: usize,
    ncols: usize,
    row_word_ptr: &[u32],
    word_indices: &[u32],
    masks: &[u64],
    structural_nnz: usize,
    row: usize,
    col: usize,
) -> DenimraspCount
    ensures { result ≡ count_of (rank_answer (as_words nrows ncols row_word_ptr.now word_indices.now masks.now structural_nnz) row col) }
{
    let topology = AbtmTopology {
        nrows,
        ncols,
        row_word_ptr,
        word_indices,
        masks,
        structural_nnz,
    };
    let answer = topology_rows::row_rank(topology, row, col);
    answer.into()
}

// The row's column with ordinal columns below it, if there is one.
pub fn denimrasp_topology_row_select(
    nrows: usize,
    ncols: usize,
    row_word_ptr: &[u32],
    word_indices: &[u32],
    masks: &[u64],
    structural_nnz: usize,
    row: usize,
    ordinal: usize,
) -> DenimraspSelect
    ensures { result ≡ select_of (answers (row_answer (as_words nrows ncols row_word_ptr.now word_indices.now masks.now structural_nnz) row) (select (as_words nrows ncols row_word_ptr.now word_indices.now masks.now structural_nnz) row ordinal)) }
{
    let topology = AbtmTopology {
        nrows,
        ncols,
        row_word_ptr,
        word_indices,
        masks,
        structural_nnz,
    };
    let answer = topology_rows::row_select(topology, row, ordinal);
    answer.into()
}

// The figures of a record.
pub fn denimrasp_topology_stats(
    nrows: usize,
    ncols: usize,
    row_word_ptr: &[u32],
    word_indices: &[u32],
    masks: &[u64],
    structural_nnz: usize,
) -> DenimraspTopologyStats
    ensures { result ≡ topology_stats_of (answers (word_answer (as_words nrows ncols row_word_ptr.now word_indices.now masks.now structural_nnz)) (stats_of (as_words nrows ncols row_word_ptr.now word_indices.now masks.now structural_nnz))) }
{
    let topology = AbtmTopology {
        nrows,
        ncols,
        row_word_ptr,
        word_indices,
        masks,
        structural_nnz,
    };
    topology.stats().into()
}

// The columns that either record holds, row by row.
pub fn denimrasp_topology_union(
    nrows: usize,
    ncols: usize,
    row_word_ptr: &[u32],
    word_indices: &[u32],
    masks: &[u64],
    structural_nnz: usize,
    other_nrows: usize,
    other_ncols: usize,
    other_row_word_ptr: &[u32],
    other_word_indices: &[u32],
    other_masks: &[u64],
    other_structural_nnz: usize,
    out_ptr: &mut [u32],
    out_words: &mut [u32],
    out_masks: &mut [u64],
) -> DenimraspTopology
    ensures answer { result ≡ topology_answer_of (answers (combine_answer Operation.Union (as_words nrows ncols row_word_ptr.now word_indices.now masks.now structural_nnz) (as_words other_nrows other_ncols other_row_word_ptr.now other_word_indices.now other_masks.now other_structural_nnz) (as_room (length out_ptr.old) (length out_words.old) (length out_masks.old))) (used_of (combined_words Operation.Union (as_words nrows ncols row_word_ptr.now word_indices.now masks.now structural_nnz) (as_words other_nrows other_ncols other_row_word_ptr.now other_word_indices.now other_masks.now other_structural_nnz)))) }
    ensures pointers { out_ptr.new ≡ built 0 (length out_ptr.old) (combine_answer Operation.Union (as_words nrows ncols row_word_ptr.now word_indices.now masks.now structural_nnz) (as_words other_nrows other_ncols other_row_word_ptr.now other_word_indices.now other_masks.now other_structural_nnz) (as_room (length out_ptr.old) (length out_words.old) (length out_masks.old))) (combined_words Operation.Union (as_words nrows ncols row_word_ptr.now word_indices.now masks.now structural_nnz) (as_words other_nrows other_ncols other_row_word_ptr.now other_word_indices.now other_masks.now other_structural_nnz)).ptr }
    ensures numbers { out_words.new ≡ built 0 (length out_words.old) (combine_answer Operation.Union (as_words nrows ncols row_word_ptr.now word_indices.now masks.now structural_nnz) (as_words other_nrows other_ncols other_row_word_ptr.now other_word_indices.now other_masks.now other_structural_nnz) (as_room (length out_ptr.old) (length out_words.old) (length out_masks.old))) (combined_words Operation.Union (as_words nrows ncols row_word_ptr.now word_indices.now masks.now structural_nnz) (as_words other_nrows other_ncols other_row_word_ptr.now other_word_indices.now other_masks.now other_structural_nnz)).word }
    ensures bits { out_masks.new ≡ built 0 (length out_masks.old) (combine_answer Operation.Union (as_words nrows ncols row_word_ptr.now word_indices.now masks.now structural_nnz) (as_words other_nrows other_ncols other_row_word_ptr.now other_word_indices.now other_masks.now other_structural_nnz) (as_room (length out_ptr.old) (length out_words.old) (length out_masks.old))) (combined_words Operation.Union (as_words nrows ncols row_word_ptr.now word_indices.now masks.now structural_nnz) (as_words other_nrows other_ncols other_row_word_ptr.now other_word_indices.now other_masks.now other_structural_nnz)).mask }
{
    let topology = AbtmTopology {
        nrows,
        ncols,
        row_word_ptr,
        word_indices,
        masks,
        structural_nnz,
    };
    let other = AbtmTopology {
        nrows: other_nrows,
        ncols: other_ncols,
        row_word_ptr: other_row_word_ptr,
        word_indices: other_word_indices,
        masks: other_masks,
        structural_nnz: other_structural_nnz,
    };
    let answer = topology_combine::combine(
        Operation::Union,
        topology,
        other,
        out_ptr,
        out_words,
        out_masks,
    );
    answer.into()
}

// The columns that both hold.
pub fn denimrasp_topology_intersection(
    nrows: usize,
    ncols: usize,
    row_word_ptr: &[u32],
    word_indices: &[u32],
    masks: &[u64],
    structural_nnz: usize,
    other_nrows: usize,
    other_ncols: usize,
    other_row_word_ptr: &[u32],
    other_word_indices: &[u32],
    other_masks: &[u64],
    other_structural_nnz: usize,
    out_ptr: &mut [u32],
    out_words: &mut [u32],
    out_masks: &mut [u64],
) -> DenimraspTopology
    ensures answer { result ≡ topology_answer_of (answers (combine_answer Operation.Intersection (as_words nrows ncols row_word_ptr.now word_indices.now masks.now structural_nnz) (as_words other_nrows other_ncols other_row_word_ptr.now other_word_indices.now other_masks.now other_structural_nnz) (as_room (length out_ptr.old) (length out_words.old) (length out_masks.old))) (used_of (combined_words Operation.Intersection (as_words nrows ncols row_word_ptr.now word_indices.now masks.now structural_nnz) (as_words other_nrows other_ncols other_row_word_ptr.now other_word_indices.now other_masks.now other_structural_nnz)))) }
    ensures pointers { out_ptr.new ≡ built 0 (length out_ptr.old) (combine_answer Operation.Intersection (as_words nrows ncols row_word_ptr.now word_indices.now masks.now structural_nnz) (as_words other_nrows other_ncols other_row_word_ptr.now other_word_indices.now other_masks.now other_structural_nnz) (as_room (length out_ptr.old) (length out_words.old) (length out_masks.old))) (combined_words Operation.Intersection (as_words nrows ncols row_word_ptr.now word_indices.now masks.now structural_nnz) (as_words other_nrows other_ncols other_row_word_ptr.now other_word_indices.now other_masks.now other_structural_nnz)).ptr }
    ensures numbers { out_words.new ≡ built 0 (length out_words.old) (combine_answer Operation.Intersection (as_words nrows ncols row_word_ptr.now word_indices.now masks.now structural_nnz) (as_words other_nrows other_ncols other_row_word_ptr.now other_word_indices.now other_masks.now other_structural_nnz) (as_room (length out_ptr.old) (length out_words.old) (length out_masks.old))) (combined_words Operation.Intersection (as_words nrows ncols row_word_ptr.now word_indices.now masks.now structural_nnz) (as_words other_nrows other_ncols other_row_word_ptr.now other_word_indices.now other_masks.now other_structural_nnz)).word }
    ensures bits { out_masks.new ≡ built 0 (length out_masks.old) (combine_answer Operation.Intersection (as_words nrows ncols row_word_ptr.now word_indices.now masks.now structural_nnz) (as_words other_nrows other_ncols other_row_word_ptr.now other_word_indices.now other_masks.now other_structural_nnz) (as_room (length out_ptr.old) (length out_words.old) (length out_masks.old))) (combined_words Operation.Intersection (as_words nrows ncols row_word_ptr.now word_indices.now masks.now structural_nnz) (as_words other_nrows other_ncols other_row_word_ptr.now other_word_indices.now other_masks.now other_structural_nnz)).mask }
{
    let topology = AbtmTopology {
        nrows,
        ncols,
        row_word_ptr,
        word_indices,
        masks,
        structural_nnz,
    };
    let other = AbtmTopology {
        nrows: other_nrows,
        ncols: other_ncols,
        row_word_ptr: other_row_word_ptr,
        word_indices: other_word_indices,
        masks: other_masks,
        structural_nnz: other_structural_nnz,
    };
    let answer = topology_combine::combine(
        Operation::Intersection,
        topology,
        other,
        out_ptr,
        out_words,
        out_masks,
    );
    answer.into()
}

// The columns that the first holds and the other does not.
pub fn denimrasp_topology_and_not(
    nrows: usize,
    ncols: usize,
    row_word_ptr: &[u32],
    word_indices: &[u32],
    masks: &[u64],
    structural_nnz: usize,
    other_nrows: usize,
    other_ncols: usize,
    other_row_word_ptr: &[u32],
    other_word_indices: &[u32],
    other_masks: &[u64],
    other_structural_nnz: usize,
    out_ptr: &mut [u32],
    out_words: &mut [u32],
    out_masks: &mut [u64],
) -> DenimraspTopology
    ensures answer { result ≡ topology_answer_of (answers (combine_answer Operation.AndNot (as_words nrows ncols row_word_ptr.now word_indices.now masks.now structural_nnz) (as_words other_nrows other_ncols other_row_word_ptr.now other_word_indices.now other_masks.now other_structural_nnz) (as_room (length out_ptr.old) (length out_words.old) (length out_masks.old))) (used_of (combined_words Operation.AndNot (as_words nrows ncols row_word_ptr.now word_indices.now masks.now structural_nnz) (as_words other_nrows other_ncols other_row_word_ptr.now other_word_indices.now other_masks.now other_structural_nnz)))) }
    ensures pointers { out_ptr.new ≡ built 0 (length out_ptr.old) (combine_answer Operation.AndNot (as_words nrows ncols row_word_ptr.now word_indices.now masks.now structural_nnz) (as_words other_nrows other_ncols other_row_word_ptr.now other_word_indices.now other_masks.now other_structural_nnz) (as_room (length out_ptr.old) (length out_words.old) (length out_masks.old))) (combined_words Operation.AndNot (as_words nrows ncols row_word_ptr.now word_indices.now masks.now structural_nnz) (as_words other_nrows other_ncols other_row_word_ptr.now other_word_indices.now other_masks.now other_structural_nnz)).ptr }
    ensures numbers { out_words.new ≡ built 0 (length out_words.old) (combine_answer Operation.AndNot (as_words nrows ncols row_word_ptr.now word_indices.now masks.now structural_nnz) (as_words other_nrows other_ncols other_row_word_ptr.now other_word_indices.now other_masks.now other_structural_nnz) (as_room (length out_ptr.old) (length out_words.old) (length out_masks.old))) (combined_words Operation.AndNot (as_words nrows ncols row_word_ptr.now word_indices.now masks.now structural_nnz) (as_words other_nrows other_ncols other_row_word_ptr.now other_word_indices.now other_masks.now other_structural_nnz)).word }
    ensures bits { out_masks.new ≡ built 0 (length out_masks.old) (combine_answer Operation.AndNot (as_words nrows ncols row_word_ptr.now word_indices.now masks.now structural_nnz) (as_words other_nrows other_ncols other_row_word_ptr.now other_word_indices.now other_masks.now other_structural_nnz) (as_room (length out_ptr.old) (length out_words.old) (length out_masks.old))) (combined_words Operation.AndNot (as_words nrows ncols row_word_ptr.now word_indices.now masks.now structural_nnz) (as_words other_nrows other_ncols other_row_word_ptr.now other_word_indices.now other_masks.now other_structural_nnz)).mask }
{
    let topology = AbtmTopology {
        nrows,
        ncols,
        row_word_ptr,
        word_indices,
        masks,
        structural_nnz,
    };
    let other = AbtmTopology {
        nrows: other_nrows,
        ncols: other_ncols,
        row_word_ptr: other_row_word_ptr,
        word_indices: other_word_indices,
        masks: other_masks,
        structural_nnz: other_structural_nnz,
    };
    let answer = topology_combine::combine(
        Operation::AndNot,
        topology,
        other,
        out_ptr,
        out_words,
        out_masks,
    );
    answer.into()
}

// The columns that one of them holds and the other does not.
pub fn denimrasp_topology_xor(
    nrows: usize,
    ncols: usize,
    row_word_ptr: &[u32],
    word_indices: &[u32],
    masks: &[u64],
    structural_nnz: usize,
    other_nrows: usize,
    other_ncols: usize,
    other_row_word_ptr: &[u32],
    other_word_indices: &[u32],
    other_masks: &[u64],
    other_structural_nnz: usize,
    out_ptr: &mut [u32],
    out_words: &mut [u32],
    out_masks: &mut [u64],
) -> DenimraspTopology
    ensures answer { result ≡ topology_answer_of (answers (combine_answer Operation.Xor (as_words nrows ncols row_word_ptr.now word_indices.now masks.now structural_nnz) (as_words other_nrows other_ncols other_row_word_ptr.now other_word_indices.now other_masks.now other_structural_nnz) (as_room (length out_ptr.old) (length out_words.old) (length out_masks.old))) (used_of (combined_words Operation.Xor (as_words nrows ncols row_word_ptr.now word_indices.now masks.now structural_nnz) (as_words other_nrows other_ncols other_row_word_ptr.now other_word_indices.now other_masks.now other_structural_nnz)))) }
    ensures pointers { out_ptr.new ≡ built 0 (length out_ptr.old) (combine_answer Operation.Xor (as_words nrows ncols row_word_ptr.now word_indices.now masks.now structural_nnz) (as_words other_nrows other_ncols other_row_word_ptr.now other_word_indices.now other_masks.now other_structural_nnz) (as_room (length out_ptr.old) (length out_words.old) (length out_masks.old))) (combined_words Operation.Xor (as_words nrows ncols row_word_ptr.now word_indices.now masks.now structural_nnz) (as_words other_nrows other_ncols other_row_word_ptr.now other_word_indices.now other_masks.now other_structural_nnz)).ptr }
    ensures numbers { out_words.new ≡ built 0 (length out_words.old) (combine_answer Operation.Xor (as_words nrows ncols row_word_ptr.now word_indices.now masks.now structural_nnz) (as_words other_nrows other_ncols other_row_word_ptr.now other_word_indices.now other_masks.now other_structural_nnz) (as_room (length out_ptr.old) (length out_words.old) (length out_masks.old))) (combined_words Operation.Xor (as_words nrows ncols row_word_ptr.now word_indices.now masks.now structural_nnz) (as_words other_nrows other_ncols other_row_word_ptr.now other_word_indices.now other_masks.now other_structural_nnz)).word }
    ensures bits { out_masks.new ≡ built 0 (length out_masks.old) (combine_answer Operation.Xor (as_words nrows ncols row_word_ptr.now word_indices.now masks.now structural_nnz) (as_words other_nrows other_ncols other_row_word_ptr.now other_word_indices.now other_masks.now other_structural_nnz) (as_room (length out_ptr.old) (length out_words.old) (length out_masks.old))) (combined_words Operation.Xor (as_words nrows ncols row_word_ptr.now word_indices.now masks.now structural_nnz) (as_words other_nrows other_ncols other_row_word_ptr.now other_word_indices.now other_masks.now other_structural_nnz)).mask }
{
    let topology = AbtmTopology {
        nrows,
        ncols,
        row_word_ptr,
        word_indices,
        masks,
        structural_nnz,
    };
    let other = AbtmTopology {
        nrows: other_nrows,
        ncols: other_ncols,
        row_word_ptr: other_row_word_ptr,
        word_indices: other_word_indices,
        masks: other_masks,
        structural_nnz: other_structural_nnz,
    };
    let answer = topology_combine::combine(
        Operation::Xor,
        topology,
        other,
        out_ptr,
        out_words,
        out_masks,
    );
    answer.into()
}

// The Rust's `validate`.
pub fn denimrasp_metadata_first_check(
    nrows: usize,
    ncols: usize,
    row_word_ptr: &[u32],
    word_indices: &[u32],
    masks: &[u64],
    structural_nnz: usize,
    row_value_ptr: &[u32],
    values: &[f64],
) -> DenimraspVerdict
    ensures { result ≡ verdict_of (store_answer (as_store nrows ncols row_word_ptr.now word_indices.now masks.now structural_nnz row_value_ptr.now values.now)) }
{
    let packed = AbtmMetadataFirstMatrix {
        topology: AbtmTopology {
            nrows,
            ncols,
            row_word_ptr,
            word_indices,
            masks,
            structural_nnz,
        },
        row_value_ptr,
        values,
    };
    packed.check().into()
}

// Whether the plot list can be packed: 4 too where a merged value is not finite. Writes nothing.
pub fn denimrasp_metadata_first_check_merge(
    nrows: usize,
    ncols: usize,
    row_ptr: &[u32],
    col_idx: &[u32],
    values: &[f64],
) -> DenimraspVerdict
    ensures { result ≡ verdict_of (merge_answer (as_csr nrows ncols row_ptr.now col_idx.now values.now)) }
{
    let csr = Csr32Matrix {
        nrows,
        ncols,
        row_ptr,
        col_idx,
        values,
    };
    let answer = metadata_first_merge::check(csr);
    answer.into()
}

// The packed store of a plot list.
pub fn denimrasp_metadata_first_from_csr32(
    nrows: usize,
    ncols: usize,
    row_ptr: &[u32],
    col_idx: &[u32],
    values: &[f64],
    row_word_ptr: &mut [u32],
    word_indices: &mut [u32],
    masks: &mut [u64],
    row_value_ptr: &mut [u32],
    packed: &mut [f64],
) -> DenimraspTopology
    ensures answer { result ≡ topology_answer_of (answers (pack_answer (as_csr nrows ncols row_ptr.now col_idx.now values.now) (as_store_room (length row_word_ptr.old) (length word_indices.old) (length masks.old) (length row_value_ptr.old) (length packed.old))) (used_of (store_of (as_csr nrows ncols row_ptr.now col_idx.now values.now)).words)) }
    ensures pointers { row_word_ptr.new ≡ built 0 (length row_word_ptr.old) (pack_answer (as_csr nrows ncols row_ptr.now col_idx.now values.now) (as_store_room (length row_word_ptr.old) (length word_indices.old) (length masks.old) (length row_value_ptr.old) (length packed.old))) (store_of (as_csr nrows ncols row_ptr.now col_idx.now values.now)).words.ptr }
    ensures numbers { word_indices.new ≡ built 0 (length word_indices.old) (pack_answer (as_csr nrows ncols row_ptr.now col_idx.now values.now) (as_store_room (length row_word_ptr.old) (length word_indices.old) (length masks.old) (length row_value_ptr.old) (length packed.old))) (store_of (as_csr nrows ncols row_ptr.now col_idx.now values.now)).words.word }
    ensures bits { masks.new ≡ built 0 (length masks.old) (pack_answer (as_csr nrows ncols row_ptr.now col_idx.now values.now) (as_store_room (length row_word_ptr.old) (length word_indices.old) (length masks.old) (length row_value_ptr.old) (length packed.old))) (store_of (as_csr nrows ncols row_ptr.now col_idx.now values.now)).words.mask }
    ensures starts { row_value_ptr.new ≡ built 0 (length row_value_ptr.old) (pack_answer (as_csr nrows ncols row_ptr.now col_idx.now values.now) (as_store_room (length row_word_ptr.old) (length word_indices.old) (length masks.old) (length row_value_ptr.old) (length packed.old))) (store_of (as_csr nrows ncols row_ptr.now col_idx.now values.now)).vptr }
    ensures values { packed.new ≡ built zero64 (length packed.old) (pack_answer (as_csr nrows ncols row_ptr.now col_idx.now values.now) (as_store_room (length row_word_ptr.old) (length word_indices.old) (length masks.old) (length row_value_ptr.old) (length packed.old))) (store_of (as_csr nrows ncols row_ptr.now col_idx.now values.now)).vals }
{
    let csr = Csr32Matrix {
        nrows,
        ncols,
        row_ptr,
        col_idx,
        values,
    };
    let answer = metadata_first_build::from_csr32(
        csr,
        row_word_ptr,
        word_indices,
        masks,
        row_value_ptr,
        packed,
    );
    answer.into()
}

// The places of the row's values in their list: from start, below end.
pub fn denimrasp_metadata_first_row_values(
    nrows: usize,
    ncols: usize,
    row_word_ptr: &[u32],
    word_indices: &[u32],
    masks: &[u64],
    structural_nnz: usize,
    row_value_ptr: &[u32],
    values: &[f64],
    row: usize,
) -> DenimraspPart
    ensures { result ≡ part_of (answers (store_row_answer (as_store nrows ncols row_word_ptr.now word_indices.now masks.now structural_nnz row_value_ptr.now values.now) row) (places_of row_value_ptr.now row)) }
{
    let packed = AbtmMetadataFirstMatrix {
        topology: AbtmTopology {
            nrows,
            ncols,
            row_word_ptr,
            word_indices,
            masks,
            structural_nnz,
        },
        row_value_ptr,
        values,
    };
    let v = packed.check();
    if let Err(e) = v {
        return e.into();
    }
    if row >= nrows {
        return HybitError::NoSuchPlace.into();
    }
    denimrasp_answers::part(row_value_ptr, row)
}

// The figures of a store.
pub fn denimrasp_metadata_first_stats(
    nrows: usize,
    ncols: usize,
    row_word_ptr: &[u32],
    word_indices: &[u32],
    masks: &[u64],
    structural_nnz: usize,
    row_value_ptr: &[u32],
    values: &[f64],
) -> DenimraspStoreStats
    ensures { result ≡ store_stats_of (answers (store_answer (as_store nrows ncols row_word_ptr.now word_indices.now masks.now structural_nnz row_value_ptr.now values.now)) (store_stats (as_store nrows ncols row_word_ptr.now word_indices.now masks.now structural_nnz row_value_ptr.now values.now))) }
{
    let packed = AbtmMetadataFirstMatrix {
        topology: AbtmTopology {
            nrows,
            ncols,
            row_word_ptr,
            word_indices,
            masks,
            structural_nnz,
        },
        row_value_ptr,
        values,
    };
    packed.stats().into()
}

// One row's pruned dot, with its counts.
pub fn denimrasp_metadata_first_sparse_dot_row(
    nrows: usize,
    ncols: usize,
    row_word_ptr: &[u32],
    word_indices: &[u32],
    masks: &[u64],
    structural_nnz: usize,
    row_value_ptr: &[u32],
    values: &[f64],
    row: usize,
    mask_len: usize,
    mask: &[u64],
    x: &[f64],
) -> DenimraspDot
    ensures { result ≡ dot_answer_of (sparse_dot_row (as_store nrows ncols row_word_ptr.now word_indices.now masks.now structural_nnz row_value_ptr.now values.now) (as_mask mask_len mask.now) x.now row) }
{
    let packed = AbtmMetadataFirstMatrix {
        topology: AbtmTopology {
            nrows,
            ncols,
            row_word_ptr,
            word_indices,
            masks,
            structural_nnz,
        },
        row_value_ptr,
        values,
    };
    let mask = DofMask {
        len: mask_len,
        words: mask,
    };
    let answer = metadata_first_dot::sparse_dot_row(packed, row, mask, x);
    answer.into()
}

// Every row's number and count of executed products.
pub fn denimrasp_metadata_first_sparse_dot_rows(
    nrows: usize,
    ncols: usize,
    row_word_ptr: &[u32],
    word_indices: &[u32],
    masks: &[u64],
    structural_nnz: usize,
    row_value_ptr: &[u32],
    values: &[f64],
    mask_len: usize,
    mask: &[u64],
    x: &[f64],
    sums: &mut [f64],
    executed: &mut [u32],
) -> DenimraspVerdict
    ensures answer { result ≡ verdict_of (rows_answer (as_store nrows ncols row_word_ptr.now word_indices.now masks.now structural_nnz row_value_ptr.now values.now) (as_mask mask_len mask.now) x.now (length sums.old) (length executed.old)) }
    ensures sums { sums.new ≡ built zero64 (length sums.old) (rows_answer (as_store nrows ncols row_word_ptr.now word_indices.now masks.now structural_nnz row_value_ptr.now values.now) (as_mask mask_len mask.now) x.now (length sums.old) (length executed.old)) (row_sums (as_store nrows ncols row_word_ptr.now word_indices.now masks.now structural_nnz row_value_ptr.now values.now) (as_mask mask_len mask.now) x.now) }
    ensures counts { executed.new ≡ built 0 (length executed.old) (rows_answer (as_store nrows ncols row_word_ptr.now word_indices.now masks.now structural_nnz row_value_ptr.now values.now) (as_mask mask_len mask.now) x.now (length sums.old) (length executed.old)) (row_counts (as_store nrows ncols row_word_ptr.now word_indices.now masks.now structural_nnz row_value_ptr.now values.now) (as_mask mask_len mask.now) x.now) }
{
    let packed = AbtmMetadataFirstMatrix {
        topology: AbtmTopology {
            nrows,
            ncols,
            row_word_ptr,
            word_indices,
            masks,
            structural_nnz,
        },
        row_value_ptr,
        values,
    };
    let mask = DofMask {
        len: mask_len,
        words: mask,
    };
    let answer = metadata_first_dot::sparse_dot_rows(packed, mask, x, sums, executed);
    answer.into()
}

// The first column of a word.
pub fn denimrasp_word_base_col(word_index: u32) -> usize
    ensures { result ≡ 64 * word_index }
{
    AbtmTopologyWord {
        word_index,
        mask: 0,
    }
    .base_col()
}

// How many bits the mask has.
pub fn denimrasp_word_popcount(mask: u64) -> usize
    ensures { result ≡ count (has mask) 64 }
{
    word::popcount(mask)
}

// Whether bit offset is set; false from 64 on.
pub fn denimrasp_word_contains_offset(mask: u64, offset: usize) -> bool
    ensures { result ≡ has mask offset }
{
    word::contains_offset(mask, offset)
}

// How many bits below offset are set; 7 above 64.
pub fn denimrasp_word_rank(mask: u64, offset: usize) -> DenimraspCount
    ensures { result ≡ count_of (word_rank_answer mask offset) }
{
    word::rank(mask, offset).into()
}

// The bit with ordinal set bits below it, if there is one.
pub fn denimrasp_word_select(mask: u64, ordinal: usize) -> DenimraspSelect
    ensures { result ≡ select_of (gives (selected (has mask) 64 ordinal)) }
{
    word::select(mask, ordinal).into()
}

// Columns for each word; the ratios are 0.0 where there is nothing to divide by.
pub fn denimrasp_topology_average_word_nnz(structural_nnz: usize, nonempty_words: usize) -> f64
    ensures { result ≡ ratio_of structural_nnz nonempty_words }
{
    let s = AbtmTopologyStats {
        nrows: 0,
        ncols: 0,
        structural_nnz: structural_nnz,
        nonempty_words: nonempty_words,
        metadata_bytes: 0,
    };
    s.average_word_nnz()
}

// The same for each of the 64 columns of a word.
pub fn denimrasp_topology_word_fill_ratio(structural_nnz: usize, nonempty_words: usize) -> f64
    ensures { result ≡ div binary64 (ratio_of structural_nnz nonempty_words) (count_as_float 64) }
{
    let s = AbtmTopologyStats {
        nrows: 0,
        ncols: 0,
        structural_nnz: structural_nnz,
        nonempty_words: nonempty_words,
        metadata_bytes: 0,
    };
    s.word_fill_ratio()
}

// Bytes for each column.
pub fn denimrasp_topology_metadata_bytes_per_nnz(
    metadata_bytes: usize,
    structural_nnz: usize,
) -> f64
    ensures { result ≡ ratio_of metadata_bytes structural_nnz }
{
    let s = AbtmTopologyStats {
        nrows: 0,
        ncols: 0,
        structural_nnz: structural_nnz,
        nonempty_words: 0,
        metadata_bytes: metadata_bytes,
    };
    s.metadata_bytes_per_nnz()
}

// Skipped products among the candidates.
pub fn denimrasp_metadata_first_pruning_ratio(
    skipped_products: usize,
    candidate_products: usize,
) -> f64
    ensures { result ≡ ratio_of skipped_products candidate_products }
{
    let s = AbtmProductPruningStats {
        candidate_products: candidate_products,
        executed_products: 0,
        skipped_products: skipped_products,
        topology_words: 0,
        active_words: 0,
    };
    s.pruning_ratio()
}

// Words without a product among the words; 0.0 where more are active than there are.
pub fn denimrasp_metadata_first_empty_word_ratio(topology_words: usize, active_words: usize) -> f64
    ensures { result ≡ ratio_of (topology_words - active_words) topology_words }
{
    let s = AbtmProductPruningStats {
        candidate_products: 0,
        executed_products: 0,
        skipped_products: 0,
        topology_words: topology_words,
        active_words: active_words,
    };
    s.empty_word_ratio()
}

// Their sum, at most 2^64 − 1.
pub fn denimrasp_metadata_first_total_estimated_bytes(
    topology_metadata_bytes: usize,
    value_row_ptr_bytes: usize,
    packed_value_bytes: usize,
) -> usize
    ensures { result ≡ saturated (topology_metadata_bytes + value_row_ptr_bytes + packed_value_bytes) }
{
    let s = AbtmMetadataFirstStats {
        nrows: 0,
        ncols: 0,
        structural_nnz: 0,
        topology_metadata_bytes,
        value_row_ptr_bytes,
        packed_value_bytes,
    };
    s.total_estimated_bytes()
}

// The five totals of two reports; 1 and no totals where one is above 2^64 − 1.
pub fn denimrasp_metadata_first_accumulate(
    candidate_products: usize,
    executed_products: usize,
    skipped_products: usize,
    topology_words: usize,
    active_words: usize,
    other_candidate_products: usize,
    other_executed_products: usize,
    other_skipped_products: usize,
    other_topology_words: usize,
    other_active_words: usize,
) -> DenimraspTotals
    ensures { result ≡ totals_of (answers (accumulate_answer (counts_from candidate_products executed_products skipped_products topology_words active_words) (counts_from other_candidate_products other_executed_products other_skipped_products other_topology_words other_active_words)) (accumulated (counts_from candidate_products executed_products skipped_products topology_words active_words) (counts_from other_candidate_products other_executed_products other_skipped_products other_topology_words other_active_words))) }
{
    let s = AbtmProductPruningStats {
        candidate_products: candidate_products,
        executed_products: executed_products,
        skipped_products: skipped_products,
        topology_words: topology_words,
        active_words: active_words,
    };
    let other = AbtmProductPruningStats {
        candidate_products: other_candidate_products,
        executed_products: other_executed_products,
        skipped_products: other_skipped_products,
        topology_words: other_topology_words,
        active_words: other_active_words,
    };
    s.accumulate(other).into()
}

// 9 where the thresholds are bad.
pub fn denimrasp_abtm_validate(sparse_max_nnz: u8, dense_min_nnz: u8) -> DenimraspVerdict
    ensures { result ≡ verdict_of (threshold_answer (thresholds_from sparse_max_nnz dense_min_nnz)) }
{
    let config = AbtmConfig {
        sparse_max_nnz,
        dense_min_nnz,
    };
    config.validate().into()
}

// 12 where the tiles break a rule.
pub fn denimrasp_abtm_check(
    nrows: usize,
    ncols: usize,
    row_tile_ptr: &[u32],
    masks: &[u64],
    value_offsets: &[u32],
    metas: &[u32],
    values: &[f64],
    matrix_nnz: usize,
) -> DenimraspVerdict
    ensures { result ≡ verdict_of (tiles_answer (as_tiles nrows ncols row_tile_ptr.now masks.now value_offsets.now metas.now values.now matrix_nnz)) }
{
    let tiles = AbtmMatrix {
        nrows,
        ncols,
        row_tile_ptr,
        masks,
        value_offsets,
        metas,
        values,
        matrix_nnz,
    };
    let answer = abtm_check::check(tiles);
    answer.into()
}

// The tiles of a plot list; 13 exactly where they do not fit.
pub fn denimrasp_abtm_from_csr32(
    nrows: usize,
    ncols: usize,
    row_ptr: &[u32],
    col_idx: &[u32],
    values: &[f64],
    sparse_max_nnz: u8,
    dense_min_nnz: u8,
    row_tile_ptr: &mut [u32],
    masks: &mut [u64],
    value_offsets: &mut [u32],
    metas: &mut [u32],
    tile_values: &mut [f64],
) -> DenimraspTiles
    ensures answer { result ≡ tiles_answer_of (answers (tile_answer (as_csr nrows ncols row_ptr.now col_idx.now values.now) (thresholds_from sparse_max_nnz dense_min_nnz) (as_tile_room (length row_tile_ptr.old) (length masks.old) (length value_offsets.old) (length metas.old) (length tile_values.old))) (used_tiles (tiles_from (as_csr nrows ncols row_ptr.now col_idx.now values.now) (thresholds_from sparse_max_nnz dense_min_nnz)))) }
    ensures pointers { row_tile_ptr.new ≡ built 0 (length row_tile_ptr.old) (tile_answer (as_csr nrows ncols row_ptr.now col_idx.now values.now) (thresholds_from sparse_max_nnz dense_min_nnz) (as_tile_room (length row_tile_ptr.old) (length masks.old) (length value_offsets.old) (length metas.old) (length tile_values.old))) (tiles_from (as_csr nrows ncols row_ptr.now col_idx.now values.now) (thresholds_from sparse_max_nnz dense_min_nnz)).ptr }
    ensures bits { masks.new ≡ built 0 (length masks.old) (tile_answer (as_csr nrows ncols row_ptr.now col_idx.now values.now) (thresholds_from sparse_max_nnz dense_min_nnz) (as_tile_room (length row_tile_ptr.old) (length masks.old) (length value_offsets.old) (length metas.old) (length tile_values.old))) (tiles_from (as_csr nrows ncols row_ptr.now col_idx.now values.now) (thresholds_from sparse_max_nnz dense_min_nnz)).mask }
    ensures offsets { value_offsets.new ≡ built 0 (length value_offsets.old) (tile_answer (as_csr nrows ncols row_ptr.now col_idx.now values.now) (thresholds_from sparse_max_nnz dense_min_nnz) (as_tile_room (length row_tile_ptr.old) (length masks.old) (length value_offsets.old) (length metas.old) (length tile_values.old))) (tiles_from (as_csr nrows ncols row_ptr.now col_idx.now values.now) (thresholds_from sparse_max_nnz dense_min_nnz)).offset }
    ensures metas { metas.new ≡ built 0 (length metas.old) (tile_answer (as_csr nrows ncols row_ptr.now col_idx.now values.now) (thresholds_from sparse_max_nnz dense_min_nnz) (as_tile_room (length row_tile_ptr.old) (length masks.old) (length value_offsets.old) (length metas.old) (length tile_values.old))) (tiles_from (as_csr nrows ncols row_ptr.now col_idx.now values.now) (thresholds_from sparse_max_nnz dense_min_nnz)).meta }
    ensures values { tile_values.new ≡ built zero64 (length tile_values.old) (tile_answer (as_csr nrows ncols row_ptr.now col_idx.now values.now) (thresholds_from sparse_max_nnz dense_min_nnz) (as_tile_room (length row_tile_ptr.old) (length masks.old) (length value_offsets.old) (length metas.old) (length tile_values.old))) (tiles_from (as_csr nrows ncols row_ptr.now col_idx.now values.now) (thresholds_from sparse_max_nnz dense_min_nnz)).vals }
{
    let csr = Csr32Matrix {
        nrows,
        ncols,
        row_ptr,
        col_idx,
        values,
    };
    let config = AbtmConfig {
        sparse_max_nnz,
        dense_min_nnz,
    };
    let answer = abtm_build::from_csr32(
        csr,
        config,
        row_tile_ptr,
        masks,
        value_offsets,
        metas,
        tile_values,
    );
    answer.into()
}

// The kind of a tile: 0 Sparse, 1 Bitmap, 2 Dense; 12 for kind 3.
pub fn denimrasp_abtm_tile_kind(meta: u32) -> DenimraspCount
    ensures { result ≡ count_of (kind_answer meta) }
{
    let tile = TileDesc {
        mask: 0,
        value_offset: 0,
        meta,
    };
    tile.kind().into()
}

// The first column of a tile.
pub fn denimrasp_abtm_tile_base_col(meta: u32) -> usize
    ensures { result ≡ 64 * word_in meta }
{
    TileDesc {
        mask: 0,
        value_offset: 0,
        meta,
    }
    .base_col()
}

// The places of the row's tiles in the lists of masks, offsets and metas: from start, below end.
pub fn denimrasp_abtm_row_tiles(
    nrows: usize,
    ncols: usize,
    row_tile_ptr: &[u32],
    masks: &[u64],
    value_offsets: &[u32],
    metas: &[u32],
    values: &[f64],
    matrix_nnz: usize,
    row: usize,
) -> DenimraspPart
    ensures { result ≡ part_of (answers (tile_row_answer (as_tiles nrows ncols row_tile_ptr.now masks.now value_offsets.now metas.now values.now matrix_nnz) row) (places_of row_tile_ptr.now row)) }
{
    let tiles = AbtmMatrix {
        nrows,
        ncols,
        row_tile_ptr,
        masks,
        value_offsets,
        metas,
        values,
        matrix_nnz,
    };
    let v = abtm_check::check(tiles);
    if let Err(e) = v {
        return e.into();
    }
    if row >= nrows {
        return HybitError::NoSuchPlace.into();
    }
    denimrasp_answers::part(row_tile_ptr, row)
}

// The figures of tiles.
pub fn denimrasp_abtm_stats(
    nrows: usize,
    ncols: usize,
    row_tile_ptr: &[u32],
    masks: &[u64],
    value_offsets: &[u32],
    metas: &[u32],
    values: &[f64],
    matrix_nnz: usize,
) -> DenimraspTileStats
    ensures { result ≡ tile_stats_of (answers (tiles_answer (as_tiles nrows ncols row_tile_ptr.now masks.now value_offsets.now metas.now values.now matrix_nnz)) (tile_stats (as_tiles nrows ncols row_tile_ptr.now masks.now value_offsets.now metas.now values.now matrix_nnz))) }
{
    let tiles = AbtmMatrix {
        nrows,
        ncols,
        row_tile_ptr,
        masks,
        value_offsets,
        metas,
        values,
        matrix_nnz,
    };
    let answer = abtm_rows::stats(tiles);
    answer.into()
}

// Bytes for each value; 0.0 where there is none.
pub fn denimrasp_abtm_metadata_bytes_per_nnz(metadata_bytes: usize, matrix_nnz: usize) -> f64
    ensures { result ≡ ratio_of metadata_bytes matrix_nnz }
{
    let s = AbtmStats {
        nrows: 0,
        ncols: 0,
        matrix_nnz,
        tiles: 0,
        sparse_tiles: 0,
        bitmap_tiles: 0,
        dense_tiles: 0,
        value_slots: 0,
        metadata_bytes,
    };
    s.metadata_bytes_per_nnz()
}

// The bytes of the metadata and 8 for each value slot, at most 2^64 − 1.
pub fn denimrasp_abtm_total_estimated_bytes(metadata_bytes: usize, value_slots: usize) -> usize
    ensures { result ≡ min (metadata_bytes + 8 * value_slots) (2 ^ 64 - 1) }
{
    let s = AbtmStats {
        nrows: 0,
        ncols: 0,
        matrix_nnz: 0,
        tiles: 0,
        sparse_tiles: 0,
        bitmap_tiles: 0,
        dense_tiles: 0,
        value_slots,
        metadata_bytes,
    };
    s.total_estimated_bytes()
}

// The row products of tiles; a refused call leaves y as it was.
pub fn denimrasp_abtm_apply(
    nrows: usize,
    ncols: usize,
    row_tile_ptr: &[u32],
    masks: &[u64],
    value_offsets: &[u32],
    metas: &[u32],
    values: &[f64],
    matrix_nnz: usize,
    x: &[f64],
    y: &mut [f64],
) -> DenimraspVerdict
    ensures answer { result ≡ verdict_of (apply_tiles_answer (as_tiles nrows ncols row_tile_ptr.now masks.now value_offsets.now metas.now values.now matrix_nnz) x.now (length y.old)) }
    ensures product { y.new ≡ kept (apply_tiles_answer (as_tiles nrows ncols row_tile_ptr.now masks.now value_offsets.now metas.now values.now matrix_nnz) x.now (length y.old)) (tiles_product (as_tiles nrows ncols row_tile_ptr.now masks.now value_offsets.now metas.now values.now matrix_nnz) x.now) y.old }
{
    let tiles = AbtmMatrix {
        nrows,
        ncols,
        row_tile_ptr,
        masks,
        value_offsets,
        metas,
        values,
        matrix_nnz,
    };
    let answer = abtm_apply::apply(tiles, x, y);
    answer.into()
}

// The mask joined with the columns of its rows' tiles, in out.
pub fn denimrasp_abtm_expand_mask_one_hop(
    nrows: usize,
    ncols: usize,
    row_tile_ptr: &[u32],
    masks: &[u64],
    value_offsets: &[u32],
    metas: &[u32],
    values: &[f64],
    matrix_nnz: usize,
    mask_len: usize,
    mask: &[u64],
    out: &mut [u64],
) -> DenimraspVerdict
    ensures answer { result ≡ verdict_of (expand_answer (as_tiles nrows ncols row_tile_ptr.now masks.now value_offsets.now metas.now values.now matrix_nnz) (as_mask mask_len mask.now) (length out.old)) }
    ensures list { out.new ≡ built 0 (length out.old) (expand_answer (as_tiles nrows ncols row_tile_ptr.now masks.now value_offsets.now metas.now values.now matrix_nnz) (as_mask mask_len mask.now) (length out.old)) (mask_words (expanded (as_tiles nrows ncols row_tile_ptr.now masks.now value_offsets.now metas.now values.now matrix_nnz) (as_mask mask_len mask.now)) mask_len) }
{
    let tiles = AbtmMatrix {
        nrows,
        ncols,
        row_tile_ptr,
        masks,
        value_offsets,
        metas,
        values,
        matrix_nnz,
    };
    let mask = DofMask {
        len: mask_len,
        words: mask,
    };
    let answer = abtm_expand::expand_mask_one_hop(tiles, mask, out);
    answer.into()
}

// The entries of a plot list in active columns, in stored order; 13 exactly where they do not fit.
pub fn denimrasp_restricted_from_csr32(
    nrows: usize,
    ncols: usize,
    row_ptr: &[u32],
    col_idx: &[u32],
    values: &[f64],
    mask_len: usize,
    mask: &[u64],
    out_row_ptr: &mut [u32],
    out_col_idx: &mut [u32],
    out_values: &mut [f64],
) -> DenimraspRestriction
    ensures answer { result ≡ restriction_answer_of (answers (restrict_answer (as_csr nrows ncols row_ptr.now col_idx.now values.now) (as_mask mask_len mask.now) (as_csr_room (length out_row_ptr.old) (length out_col_idx.old) (length out_values.old))) (restriction_of (as_csr nrows ncols row_ptr.now col_idx.now values.now) (as_mask mask_len mask.now))) }
    ensures pointers { out_row_ptr.new ≡ built 0 (length out_row_ptr.old) (restrict_answer (as_csr nrows ncols row_ptr.now col_idx.now values.now) (as_mask mask_len mask.now) (as_csr_room (length out_row_ptr.old) (length out_col_idx.old) (length out_values.old))) (restricted (as_csr nrows ncols row_ptr.now col_idx.now values.now) (as_mask mask_len mask.now)).ptr }
    ensures columns { out_col_idx.new ≡ built 0 (length out_col_idx.old) (restrict_answer (as_csr nrows ncols row_ptr.now col_idx.now values.now) (as_mask mask_len mask.now) (as_csr_room (length out_row_ptr.old) (length out_col_idx.old) (length out_values.old))) (restricted (as_csr nrows ncols row_ptr.now col_idx.now values.now) (as_mask mask_len mask.now)).col }
    ensures values { out_values.new ≡ built zero64 (length out_values.old) (restrict_answer (as_csr nrows ncols row_ptr.now col_idx.now values.now) (as_mask mask_len mask.now) (as_csr_room (length out_row_ptr.old) (length out_col_idx.old) (length out_values.old))) (restricted (as_csr nrows ncols row_ptr.now col_idx.now values.now) (as_mask mask_len mask.now)).val }
{
    let csr = Csr32Matrix {
        nrows,
        ncols,
        row_ptr,
        col_idx,
        values,
    };
    let mask = DofMask {
        len: mask_len,
        words: mask,
    };
    let answer = restricted_csr32::from_csr32(csr, mask, out_row_ptr, out_col_idx, out_values);
    answer.into()
}

// The entries of tiles in active columns, ascending; 4 where one is infinite, 13 exactly where they do not fit.
pub fn denimrasp_restricted_from_abtm(
    nrows: usize,
    ncols: usize,
    row_tile_ptr: &[u32],
    masks: &[u64],
    value_offsets: &[u32],
    metas: &[u32],
    values: &[f64],
    matrix_nnz: usize,
    mask_len: usize,
    mask: &[u64],
    out_row_ptr: &mut [u32],
    out_col_idx: &mut [u32],
    out_values: &mut [f64],
) -> DenimraspRestriction
    ensures answer { result ≡ restriction_answer_of (answers (restrict_tiles_answer (as_tiles nrows ncols row_tile_ptr.now masks.now value_offsets.now metas.now values.now matrix_nnz) (as_mask mask_len mask.now) (as_csr_room (length out_row_ptr.old) (length out_col_idx.old) (length out_values.old))) (tile_restriction_of (as_tiles nrows ncols row_tile_ptr.now masks.now value_offsets.now metas.now values.now matrix_nnz) (as_mask mask_len mask.now))) }
    ensures pointers { out_row_ptr.new ≡ built 0 (length out_row_ptr.old) (restrict_tiles_answer (as_tiles nrows ncols row_tile_ptr.now masks.now value_offsets.now metas.now values.now matrix_nnz) (as_mask mask_len mask.now) (as_csr_room (length out_row_ptr.old) (length out_col_idx.old) (length out_values.old))) (restricted_tiles (as_tiles nrows ncols row_tile_ptr.now masks.now value_offsets.now metas.now values.now matrix_nnz) (as_mask mask_len mask.now)).ptr }
    ensures columns { out_col_idx.new ≡ built 0 (length out_col_idx.old) (restrict_tiles_answer (as_tiles nrows ncols row_tile_ptr.now masks.now value_offsets.now metas.now values.now matrix_nnz) (as_mask mask_len mask.now) (as_csr_room (length out_row_ptr.old) (length out_col_idx.old) (length out_values.old))) (restricted_tiles (as_tiles nrows ncols row_tile_ptr.now masks.now value_offsets.now metas.now values.now matrix_nnz) (as_mask mask_len mask.now)).col }
    ensures values { out_values.new ≡ built zero64 (length out_values.old) (restrict_tiles_answer (as_tiles nrows ncols row_tile_ptr.now masks.now value_offsets.now metas.now values.now matrix_nnz) (as_mask mask_len mask.now) (as_csr_room (length out_row_ptr.old) (length out_col_idx.old) (length out_values.old))) (restricted_tiles (as_tiles nrows ncols row_tile_ptr.now masks.now value_offsets.now metas.now values.now matrix_nnz) (as_mask mask_len mask.now)).val }
{
    let tiles = AbtmMatrix {
        nrows,
        ncols,
        row_tile_ptr,
        masks,
        value_offsets,
        metas,
        values,
        matrix_nnz,
    };
    let mask = DofMask {
        len: mask_len,
        words: mask,
    };
    let answer = restricted_abtm::from_abtm(tiles, mask, out_row_ptr, out_col_idx, out_values);
    answer.into()
}

// Entries kept among those of the source; 0.0 where it has none.
pub fn denimrasp_restricted_retained_fraction(retained_nnz: usize, source_nnz: usize) -> f64
    ensures { result ≡ retained_fraction (restriction_from 0 0 source_nnz retained_nnz) }
{
    let s = ColumnRestriction {
        nrows: 0,
        ncols: 0,
        source_nnz,
        retained_nnz,
    };
    s.retained_fraction()
}

// The bytes of a restricted list and of its mask, at most 2^64 − 1.
pub fn denimrasp_restricted_storage_bytes(nrows: usize, ncols: usize, retained_nnz: usize) -> usize
    ensures { result ≡ restriction_bytes (restriction_from nrows ncols 0 retained_nnz) }
{
    let s = ColumnRestriction {
        nrows,
        ncols,
        source_nnz: 0,
        retained_nnz,
    };
    s.storage_bytes()
}

// A region's rows and columns of a plot list, numbered anew; 13 exactly where they do not fit.
pub fn denimrasp_local_from_csr32(
    nrows: usize,
    ncols: usize,
    row_ptr: &[u32],
    col_idx: &[u32],
    values: &[f64],
    region_len: usize,
    region: &[u64],
    members: &mut [u32],
    out_row_ptr: &mut [u32],
    out_col_idx: &mut [u32],
    out_values: &mut [f64],
) -> DenimraspRegion
    ensures answer { result ≡ region_answer_of (answers (local_answer (as_csr nrows ncols row_ptr.now col_idx.now values.now) (as_mask region_len region.now) (length members.old) (as_csr_room (length out_row_ptr.old) (length out_col_idx.old) (length out_values.old))) (region_of (as_csr nrows ncols row_ptr.now col_idx.now values.now) (as_mask region_len region.now))) }
    ensures members { members.new ≡ built 0 (length members.old) (local_answer (as_csr nrows ncols row_ptr.now col_idx.now values.now) (as_mask region_len region.now) (length members.old) (as_csr_room (length out_row_ptr.old) (length out_col_idx.old) (length out_values.old))) (region_members (as_mask region_len region.now)) }
    ensures pointers { out_row_ptr.new ≡ built 0 (length out_row_ptr.old) (local_answer (as_csr nrows ncols row_ptr.now col_idx.now values.now) (as_mask region_len region.now) (length members.old) (as_csr_room (length out_row_ptr.old) (length out_col_idx.old) (length out_values.old))) (local_list (as_csr nrows ncols row_ptr.now col_idx.now values.now) (as_mask region_len region.now)).ptr }
    ensures columns { out_col_idx.new ≡ built 0 (length out_col_idx.old) (local_answer (as_csr nrows ncols row_ptr.now col_idx.now values.now) (as_mask region_len region.now) (length members.old) (as_csr_room (length out_row_ptr.old) (length out_col_idx.old) (length out_values.old))) (local_list (as_csr nrows ncols row_ptr.now col_idx.now values.now) (as_mask region_len region.now)).col }
    ensures values { out_values.new ≡ built zero64 (length out_values.old) (local_answer (as_csr nrows ncols row_ptr.now col_idx.now values.now) (as_mask region_len region.now) (length members.old) (as_csr_room (length out_row_ptr.old) (length out_col_idx.old) (length out_values.old))) (local_list (as_csr nrows ncols row_ptr.now col_idx.now values.now) (as_mask region_len region.now)).val }
{
    let csr = Csr32Matrix {
        nrows,
        ncols,
        row_ptr,
        col_idx,
        values,
    };
    let region = DofMask {
        len: region_len,
        words: region,
    };
    let answer = restricted_local::from_csr32(
        csr,
        region,
        members,
        out_row_ptr,
        out_col_idx,
        out_values,
    );
    answer.into()
}

// 12 where the members do not rise or are not below the global size.
pub fn denimrasp_local_check(global_size: usize, members: &[u32]) -> DenimraspVerdict
    ensures { result ≡ verdict_of (members_answer global_size members.now) }
{
    let region = RegionMembers {
        global_size,
        members,
    };
    region.check().into()
}

// A region's numbers of a vector, in local; a refused call leaves local as it was.
pub fn denimrasp_local_gather_input(
    global_size: usize,
    members: &[u32],
    global: &[f64],
    local: &mut [f64],
) -> DenimraspVerdict
    ensures answer { result ≡ verdict_of (gather_answer global_size members.now global.now (length local.old)) }
    ensures list { local.new ≡ kept (gather_answer global_size members.now global.now (length local.old)) (gathered members.now global.now) local.old }
{
    let region = RegionMembers {
        global_size,
        members,
    };
    region.gather_input(global, local).into()
}

// 1.0 less the entries kept among the source entries of the region's rows; 0.0 where they have none.
pub fn denimrasp_local_boundary_pruning_ratio(local_nnz: usize, source_row_nnz: usize) -> f64
    ensures { result ≡ boundary_ratio (region_from 0 0 local_nnz source_row_nnz) }
{
    let s = LocalRegion {
        global_size: 0,
        local_nodes: 0,
        local_nnz,
        source_row_nnz,
    };
    s.boundary_pruning_ratio()
}

// The bytes of a local list and of its members, at most 2^64 − 1.
pub fn denimrasp_local_storage_bytes(local_nodes: usize, local_nnz: usize) -> usize
    ensures { result ≡ region_bytes (region_from 0 local_nodes local_nnz 0) }
{
    let s = LocalRegion {
        global_size: 0,
        local_nodes,
        local_nnz,
        source_row_nnz: 0,
    };
    s.storage_bytes()
}

// The blocks of a plot list, of width 6 or 3; 13 exactly where they do not fit.
pub fn denimrasp_dense_block_from_csr32(
    nrows: usize,
    ncols: usize,
    row_ptr: &[u32],
    col_idx: &[u32],
    values: &[f64],
    six: bool,
    out_row_ptr: &mut [u32],
    out_col_idx: &mut [u32],
    out_values: &mut [f64],
) -> DenimraspBlocks
    ensures answer { result ≡ blocks_answer_of (answers (build_blocks_answer (as_csr nrows ncols row_ptr.now col_idx.now values.now) (width_of (size_from six)) (as_csr_room (length out_row_ptr.old) (length out_col_idx.old) (length out_values.old))) (figures_of (as_csr nrows ncols row_ptr.now col_idx.now values.now) (width_of (size_from six)))) }
    ensures pointers { out_row_ptr.new ≡ built 0 (length out_row_ptr.old) (build_blocks_answer (as_csr nrows ncols row_ptr.now col_idx.now values.now) (width_of (size_from six)) (as_csr_room (length out_row_ptr.old) (length out_col_idx.old) (length out_values.old))) (blocks_of (as_csr nrows ncols row_ptr.now col_idx.now values.now) (width_of (size_from six))).ptr }
    ensures columns { out_col_idx.new ≡ built 0 (length out_col_idx.old) (build_blocks_answer (as_csr nrows ncols row_ptr.now col_idx.now values.now) (width_of (size_from six)) (as_csr_room (length out_row_ptr.old) (length out_col_idx.old) (length out_values.old))) (blocks_of (as_csr nrows ncols row_ptr.now col_idx.now values.now) (width_of (size_from six))).col }
    ensures values { out_values.new ≡ built zero64 (length out_values.old) (build_blocks_answer (as_csr nrows ncols row_ptr.now col_idx.now values.now) (width_of (size_from six)) (as_csr_room (length out_row_ptr.old) (length out_col_idx.old) (length out_values.old))) (blocks_of (as_csr nrows ncols row_ptr.now col_idx.now values.now) (width_of (size_from six))).vals }
{
    let csr = Csr32Matrix {
        nrows,
        ncols,
        row_ptr,
        col_idx,
        values,
    };
    let size = denimrasp_answers::block_size(six);
    let answer = dense_block_build::from_csr32(csr, size, out_row_ptr, out_col_idx, out_values);
    answer.into()
}

// 12 where the lists are not those of a matrix in blocks.
pub fn denimrasp_dense_block_check(
    nrows: usize,
    ncols: usize,
    six: bool,
    row_ptr: &[u32],
    col_idx: &[u32],
    values: &[f64],
) -> DenimraspVerdict
    ensures { result ≡ verdict_of (blocks_answer (as_blocks nrows ncols (width_of (size_from six)) row_ptr.now col_idx.now values.now)) }
{
    let size = denimrasp_answers::block_size(six);
    let answer = dense_block_check::check(DenseBlockCsrOperator {
        nrows,
        ncols,
        size,
        row_ptr,
        col_idx,
        values,
    });
    answer.into()
}

// The row products of blocks; a refused call leaves y as it was.
pub fn denimrasp_dense_block_apply(
    nrows: usize,
    ncols: usize,
    six: bool,
    row_ptr: &[u32],
    col_idx: &[u32],
    values: &[f64],
    x: &[f64],
    y: &mut [f64],
) -> DenimraspVerdict
    ensures answer { result ≡ verdict_of (apply_blocks_answer (as_blocks nrows ncols (width_of (size_from six)) row_ptr.now col_idx.now values.now) x.now (length y.old)) }
    ensures product { y.new ≡ kept (apply_blocks_answer (as_blocks nrows ncols (width_of (size_from six)) row_ptr.now col_idx.now values.now) x.now (length y.old)) (blocks_product (as_blocks nrows ncols (width_of (size_from six)) row_ptr.now col_idx.now values.now) x.now) y.old }
{
    let size = denimrasp_answers::block_size(six);
    let answer = dense_block_apply::apply(
        DenseBlockCsrOperator {
            nrows,
            ncols,
            size,
            row_ptr,
            col_idx,
            values,
        },
        x,
        y,
    );
    answer.into()
}

// The blocks wholly inside the frame among all blocks; 0.0 without blocks.
pub fn denimrasp_dense_block_fast_block_fraction(
    nrows: usize,
    ncols: usize,
    six: bool,
    row_ptr: &[u32],
    col_idx: &[u32],
    values: &[f64],
) -> DenimraspRatio
    ensures { result ≡ ratio_answer_of (fast_answer (as_blocks nrows ncols (width_of (size_from six)) row_ptr.now col_idx.now values.now)) }
{
    let size = denimrasp_answers::block_size(six);
    let answer = dense_block_check::fast_block_fraction(DenseBlockCsrOperator {
        nrows,
        ncols,
        size,
        row_ptr,
        col_idx,
        values,
    });
    answer.into()
}

// The distinct places with an entry among the places of the blocks inside the frame; 0.0 where there are none.
pub fn denimrasp_dense_block_block_fill(structural_slots: usize, valid_dense_slots: usize) -> f64
    ensures { result ≡ block_fill (blocks_from 0 0 0 structural_slots valid_dense_slots) }
{
    let s = DenseBlocks {
        nrows: 0,
        ncols: 0,
        block_rows: 0,
        unique_blocks: 0,
        dense_value_slots: 0,
        structural_slots,
        valid_dense_slots,
    };
    s.block_fill()
}

// The values of the blocks to the distinct places with an entry; 0.0 where there are none.
pub fn denimrasp_dense_block_value_padding_ratio(
    dense_value_slots: usize,
    structural_slots: usize,
) -> f64
    ensures { result ≡ value_padding (blocks_from 0 0 dense_value_slots structural_slots 0) }
{
    let s = DenseBlocks {
        nrows: 0,
        ncols: 0,
        block_rows: 0,
        unique_blocks: 0,
        dense_value_slots,
        structural_slots,
        valid_dense_slots: 0,
    };
    s.value_padding_ratio()
}

// The bytes of pointers and block columns, at most 2^64 − 1.
pub fn denimrasp_dense_block_metadata_bytes(block_rows: usize, unique_blocks: usize) -> usize
    ensures { result ≡ block_metadata_bytes (blocks_from block_rows unique_blocks 0 0 0) }
{
    let s = DenseBlocks {
        nrows: 0,
        ncols: 0,
        block_rows,
        unique_blocks,
        dense_value_slots: 0,
        structural_slots: 0,
        valid_dense_slots: 0,
    };
    s.metadata_bytes()
}

// The same with the values.
pub fn denimrasp_dense_block_storage_bytes(
    block_rows: usize,
    unique_blocks: usize,
    dense_value_slots: usize,
) -> usize
    ensures { result ≡ block_storage_bytes (blocks_from block_rows unique_blocks dense_value_slots 0 0) }
{
    let s = DenseBlocks {
        nrows: 0,
        ncols: 0,
        block_rows,
        unique_blocks,
        dense_value_slots,
        structural_slots: 0,
        valid_dense_slots: 0,
    };
    s.storage_bytes()
}
