// Demand 3's two dots of a row on lent lists: the pruned dot; the dot of the restriction with every plot active. Each runs its calls one
// after the other and answers the first refusal. proofs/AgreeLaws shows from the theorem of the crate demand that these two and the
// route of the crate demand_tiled agree.
// Lists that are written stay apart in all functions: a struct would have to name each in every contract.
// csr, mask, x and row stay apart too: each route replaces the list or the mask on its way.
#![tactic(auto)]

ghost use Rattle.std.specs.Prelude.{◌≡◌, true, [], ◌≤◌, ◌^◌, length};
ghost use Rattle.hybit_core.specs.Answer.{answers, ◌and_then◌};
ghost use Rattle.hybit_core.specs.Floats.{zero64};
ghost use Rattle.lent.specs.Lent.{padded, built};
ghost use Rattle.word.specs.Bits.{ceil64};
ghost use Rattle.mask.specs.Mask.{mask_words};
ghost use Rattle.csr32.specs.Made.{as_csr_room};
ghost use Rattle.hybit_core.specs.Table.{given};
ghost use Rattle.metadata_first_build.specs.Pack.{as_store_room, store_of, pack_answer};
ghost use Rattle.restricted.specs.Restricted.{restricted, restrict_answer, restricted_left};
ghost use Rattle.demand_routes.specs.Routes.{packed_dot, StoreLists, all_answer, all_dot, restricted_dot};
ghost use Rattle.demand_examine.specs.Steps.{PlotLists};
ghost use Rattle.demand_examine.specs.Calls.{pruned_answer, row_dot, restricted_answer, restricted_row_dot};
ghost use Rattle.csr32.specs.Matrix.{lent_csr};
ghost use Rattle.mask.specs.Dof.{lent_mask};

use csr32::Csr32Matrix;
use hybit_core::HybitError;
use mask::DofMask;
use metadata_first::{AbtmMetadataFirstMatrix, AbtmRowDot};
use topology::{AbtmTopology, TopologySize};

// The pruned dot of a row: the plot list is packed, and the dot taken on the used parts. The five lists are what packing leaves.
fn pack_dot<'a>(
    csr: Csr32Matrix,
    mask: DofMask,
    x: &[f64],
    row: usize,
    row_word_ptr: &'a mut [u32],
    word_indices: &'a mut [u32],
    bits: &'a mut [u64],
    row_value_ptr: &'a mut [u32],
    packed: &'a mut [f64],
) -> Result<AbtmRowDot, HybitError>
    ensures answer { given result ≡ packed_dot (lent_csr csr.entry) (as_store_room (length row_word_ptr.old) (length word_indices.old) (length bits.old) (length row_value_ptr.old) (length packed.old)) (lent_mask mask.entry) x.now row }
    ensures store { StoreLists (pack_answer (lent_csr csr.entry) (as_store_room (length row_word_ptr.old) (length word_indices.old) (length bits.old) (length row_value_ptr.old) (length packed.old))) (store_of (lent_csr csr.entry)) (as_store_room (length row_word_ptr.old) (length word_indices.old) (length bits.old) (length row_value_ptr.old) (length packed.old)) row_word_ptr.new word_indices.new bits.new row_value_ptr.new packed.new }
{
    let t = metadata_first_build::from_csr32(
        csr,
        row_word_ptr,
        word_indices,
        bits,
        row_value_ptr,
        packed,
    );
    match t {
        Err(e) => Err(e),
        Ok(
            TopologySize {
                words,
                structural_nnz,
            },
        ) => metadata_first_dot::sparse_dot_row(
            AbtmMetadataFirstMatrix {
                topology: AbtmTopology {
                    nrows: csr.nrows,
                    ncols: csr.ncols,
                    row_word_ptr: &row_word_ptr[..csr.nrows + 1],
                    word_indices: &word_indices[..words],
                    masks: &bits[..words],
                    structural_nnz,
                },
                row_value_ptr: &row_value_ptr[..csr.nrows + 1],
                values: &packed[..structural_nnz],
            },
            row,
            mask,
            x,
        ),
    }
}

// The words of the mask whose every column is active.
fn fill_active(ncols: usize, words: &mut [u64])
    requires fact_1 { ncols ≤ 2 ^ 20 }
    requires fact_2 { length words.old ≡ ceil64 ncols }
    ensures { words.new ≡ mask_words (λ c. true) ncols }
{
    for (w, word) in words.iter_mut().enumerate() {
        *word = word::trimmed(u64::MAX, ncols - 64 * w);
    }
}

// The pruned dot with every column active; the words of that mask go to `all`.
fn all_dot(
    csr: Csr32Matrix,
    x: &[f64],
    row: usize,
    row_word_ptr: &mut [u32],
    word_indices: &mut [u32],
    bits: &mut [u64],
    row_value_ptr: &mut [u32],
    packed: &mut [f64],
    all: &mut [u64],
) -> Result<AbtmRowDot, HybitError>
    requires { csr.ncols ≤ 2 ^ 20 }
    ensures answer { given result ≡ all_dot (lent_csr csr.entry) x.now row (length all.old) (as_store_room (length row_word_ptr.old) (length word_indices.old) (length bits.old) (length row_value_ptr.old) (length packed.old)) }
    ensures all { all.new ≡ built 0 (length all.old) (all_answer (lent_csr csr.entry) (length all.old)) (mask_words (λ c. true) csr.entry.ncols) }
    ensures store { StoreLists (all_answer (lent_csr csr.entry) (length all.old) and_then pack_answer (lent_csr csr.entry) (as_store_room (length row_word_ptr.old) (length word_indices.old) (length bits.old) (length row_value_ptr.old) (length packed.old))) (store_of (lent_csr csr.entry)) (as_store_room (length row_word_ptr.old) (length word_indices.old) (length bits.old) (length row_value_ptr.old) (length packed.old)) row_word_ptr.new word_indices.new bits.new row_value_ptr.new packed.new }
{
    let words = csr.ncols.div_ceil(64);
    if all.len() < words {
        lent::clear_from(all, 0);
        metadata_first_build::clear_all(row_word_ptr, word_indices, bits, row_value_ptr, packed);
        return Err(HybitError::ShortList);
    }
    fill_active(csr.ncols, &mut all[..words]);
    lent::clear_from(all, words);
    pack_dot(
        csr,
        DofMask {
            len: csr.ncols,
            words: &all[..words],
        },
        x,
        row,
        row_word_ptr,
        word_indices,
        bits,
        row_value_ptr,
        packed,
    )
}

// The dot of a row of the restriction to the active columns, packed, with every column active. Each list is what the call that writes
// it leaves.
fn restrict_dot(
    csr: Csr32Matrix,
    mask: DofMask,
    x: &[f64],
    row: usize,
    out_row_ptr: &mut [u32],
    out_col_idx: &mut [u32],
    out_values: &mut [f64],
    row_word_ptr: &mut [u32],
    word_indices: &mut [u32],
    bits: &mut [u64],
    row_value_ptr: &mut [u32],
    packed: &mut [f64],
    all: &mut [u64],
) -> Result<AbtmRowDot, HybitError>
    ensures answer { given result ≡ restricted_dot (lent_csr csr.entry) (lent_mask mask.entry) x.now row (as_csr_room (length out_row_ptr.old) (length out_col_idx.old) (length out_values.old)) (length all.old) (as_store_room (length row_word_ptr.old) (length word_indices.old) (length bits.old) (length row_value_ptr.old) (length packed.old)) }
    ensures list { PlotLists (restrict_answer (lent_csr csr.entry) (lent_mask mask.entry) (as_csr_room (length out_row_ptr.old) (length out_col_idx.old) (length out_values.old))) (restricted (lent_csr csr.entry) (lent_mask mask.entry)) (as_csr_room (length out_row_ptr.old) (length out_col_idx.old) (length out_values.old)) out_row_ptr.new out_col_idx.new out_values.new }
    ensures all { all.new ≡ built 0 (length all.old) (restrict_answer (lent_csr csr.entry) (lent_mask mask.entry) (as_csr_room (length out_row_ptr.old) (length out_col_idx.old) (length out_values.old)) and_then all_answer (restricted_left (lent_csr csr.entry) (lent_mask mask.entry) (as_csr_room (length out_row_ptr.old) (length out_col_idx.old) (length out_values.old))) (length all.old)) (mask_words (λ c. true) csr.entry.ncols) }
    ensures store { StoreLists (restrict_answer (lent_csr csr.entry) (lent_mask mask.entry) (as_csr_room (length out_row_ptr.old) (length out_col_idx.old) (length out_values.old)) and_then all_answer (restricted_left (lent_csr csr.entry) (lent_mask mask.entry) (as_csr_room (length out_row_ptr.old) (length out_col_idx.old) (length out_values.old))) (length all.old) and_then pack_answer (restricted_left (lent_csr csr.entry) (lent_mask mask.entry) (as_csr_room (length out_row_ptr.old) (length out_col_idx.old) (length out_values.old))) (as_store_room (length row_word_ptr.old) (length word_indices.old) (length bits.old) (length row_value_ptr.old) (length packed.old))) (store_of (restricted_left (lent_csr csr.entry) (lent_mask mask.entry) (as_csr_room (length out_row_ptr.old) (length out_col_idx.old) (length out_values.old)))) (as_store_room (length row_word_ptr.old) (length word_indices.old) (length bits.old) (length row_value_ptr.old) (length packed.old)) row_word_ptr.new word_indices.new bits.new row_value_ptr.new packed.new }
{
    let t = restricted_csr32::from_csr32(csr, mask, out_row_ptr, out_col_idx, out_values);
    match t {
        Err(e) => {
            lent::clear_from(all, 0);
            metadata_first_build::clear_all(
                row_word_ptr,
                word_indices,
                bits,
                row_value_ptr,
                packed,
            );
            Err(e)
        }
        Ok(s) => {
            let kept = s.retained_nnz;
            all_dot(
                Csr32Matrix {
                    nrows: csr.nrows,
                    ncols: csr.ncols,
                    row_ptr: &out_row_ptr[..csr.nrows + 1],
                    col_idx: &out_col_idx[..kept],
                    values: &out_values[..kept],
                },
                x,
                row,
                row_word_ptr,
                word_indices,
                bits,
                row_value_ptr,
                packed,
                all,
            )
        }
    }
}

// The pruned dot of a row: the plot list is packed, and the dot taken on its store, which the five lists then hold.
pub fn pruned_dot(
    csr: Csr32Matrix,
    mask: DofMask,
    x: &[f64],
    row: usize,
    row_word_ptr: &mut [u32],
    word_indices: &mut [u32],
    bits: &mut [u64],
    row_value_ptr: &mut [u32],
    packed: &mut [f64],
) -> Result<AbtmRowDot, HybitError>
    ensures answer { given result ≡ answers (pruned_answer (lent_csr csr.entry) (lent_mask mask.entry) x.now row (as_store_room (length row_word_ptr.old) (length word_indices.old) (length bits.old) (length row_value_ptr.old) (length packed.old))) (row_dot (lent_csr csr.entry) (lent_mask mask.entry) x.now row) }
    ensures store { StoreLists (pruned_answer (lent_csr csr.entry) (lent_mask mask.entry) x.now row (as_store_room (length row_word_ptr.old) (length word_indices.old) (length bits.old) (length row_value_ptr.old) (length packed.old))) (store_of (lent_csr csr.entry)) (as_store_room (length row_word_ptr.old) (length word_indices.old) (length bits.old) (length row_value_ptr.old) (length packed.old)) row_word_ptr.new word_indices.new bits.new row_value_ptr.new packed.new }
{
    let v = demand_examine::examine(csr, mask, x, row);
    if let Err(e) = v {
        metadata_first_build::clear_all(row_word_ptr, word_indices, bits, row_value_ptr, packed);
        return Err(e);
    }
    pack_dot(
        csr,
        mask,
        x,
        row,
        row_word_ptr,
        word_indices,
        bits,
        row_value_ptr,
        packed,
    )
}

fn clear_restricted(
    out_row_ptr: &mut [u32],
    out_col_idx: &mut [u32],
    out_values: &mut [f64],
    row_word_ptr: &mut [u32],
    word_indices: &mut [u32],
    bits: &mut [u64],
    row_value_ptr: &mut [u32],
    packed: &mut [f64],
    all: &mut [u64],
)
    ensures list { (out_row_ptr.new ≡ padded 0 (length out_row_ptr.old) []) × (out_col_idx.new ≡ padded 0 (length out_col_idx.old) []) × (out_values.new ≡ padded zero64 (length out_values.old) []) }
    ensures pointers { row_word_ptr.new ≡ padded 0 (length row_word_ptr.old) [] }
    ensures numbers { word_indices.new ≡ padded 0 (length word_indices.old) [] }
    ensures bits { bits.new ≡ padded 0 (length bits.old) [] }
    ensures starts { row_value_ptr.new ≡ padded 0 (length row_value_ptr.old) [] }
    ensures values { packed.new ≡ padded zero64 (length packed.old) [] }
    ensures all { all.new ≡ padded 0 (length all.old) [] }
{
    lent::clear_from(out_row_ptr, 0);
    lent::clear_from(out_col_idx, 0);
    lent::clear_from(out_values, 0);
    metadata_first_build::clear_all(row_word_ptr, word_indices, bits, row_value_ptr, packed);
    lent::clear_from(all, 0);
}

// The dot of a row of the restriction to the active columns with every column active: the plot list is restricted and packed, and the
// mask made, each in lists that then hold it.
pub fn restricted_dot(
    csr: Csr32Matrix,
    mask: DofMask,
    x: &[f64],
    row: usize,
    out_row_ptr: &mut [u32],
    out_col_idx: &mut [u32],
    out_values: &mut [f64],
    row_word_ptr: &mut [u32],
    word_indices: &mut [u32],
    bits: &mut [u64],
    row_value_ptr: &mut [u32],
    packed: &mut [f64],
    all: &mut [u64],
) -> Result<AbtmRowDot, HybitError>
    ensures answer { given result ≡ answers (restricted_answer (lent_csr csr.entry) (lent_mask mask.entry) x.now row (as_csr_room (length out_row_ptr.old) (length out_col_idx.old) (length out_values.old)) (length all.old) (as_store_room (length row_word_ptr.old) (length word_indices.old) (length bits.old) (length row_value_ptr.old) (length packed.old))) (restricted_row_dot (lent_csr csr.entry) (lent_mask mask.entry) x.now row) }
    ensures list { PlotLists (restricted_answer (lent_csr csr.entry) (lent_mask mask.entry) x.now row (as_csr_room (length out_row_ptr.old) (length out_col_idx.old) (length out_values.old)) (length all.old) (as_store_room (length row_word_ptr.old) (length word_indices.old) (length bits.old) (length row_value_ptr.old) (length packed.old))) (restricted (lent_csr csr.entry) (lent_mask mask.entry)) (as_csr_room (length out_row_ptr.old) (length out_col_idx.old) (length out_values.old)) out_row_ptr.new out_col_idx.new out_values.new }
    ensures all { all.new ≡ built 0 (length all.old) (restricted_answer (lent_csr csr.entry) (lent_mask mask.entry) x.now row (as_csr_room (length out_row_ptr.old) (length out_col_idx.old) (length out_values.old)) (length all.old) (as_store_room (length row_word_ptr.old) (length word_indices.old) (length bits.old) (length row_value_ptr.old) (length packed.old))) (mask_words (λ c. true) csr.entry.ncols) }
    ensures store { StoreLists (restricted_answer (lent_csr csr.entry) (lent_mask mask.entry) x.now row (as_csr_room (length out_row_ptr.old) (length out_col_idx.old) (length out_values.old)) (length all.old) (as_store_room (length row_word_ptr.old) (length word_indices.old) (length bits.old) (length row_value_ptr.old) (length packed.old))) (store_of (restricted (lent_csr csr.entry) (lent_mask mask.entry))) (as_store_room (length row_word_ptr.old) (length word_indices.old) (length bits.old) (length row_value_ptr.old) (length packed.old)) row_word_ptr.new word_indices.new bits.new row_value_ptr.new packed.new }
{
    let v = demand_examine::examine(csr, mask, x, row);
    if let Err(e) = v {
        clear_restricted(
            out_row_ptr,
            out_col_idx,
            out_values,
            row_word_ptr,
            word_indices,
            bits,
            row_value_ptr,
            packed,
            all,
        );
        return Err(e);
    }
    let d = restrict_dot(
        csr,
        mask,
        x,
        row,
        out_row_ptr,
        out_col_idx,
        out_values,
        row_word_ptr,
        word_indices,
        bits,
        row_value_ptr,
        packed,
        all,
    );
    if let Err(e) = d {
        clear_restricted(
            out_row_ptr,
            out_col_idx,
            out_values,
            row_word_ptr,
            word_indices,
            bits,
            row_value_ptr,
            packed,
            all,
        );
        return Err(e);
    }
    d
}
