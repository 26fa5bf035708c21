// Demand 3's route by tiles on lent lists: the row product of the list restricted from the plot list's tiles. It runs its calls one
// after the other and answers the first refusal.
// Lists that are written stay apart in all functions: a struct would have to name each in every contract.
// csr, mask, x and row stay apart too: the list becomes tiles, and these another list, on the way.
#![tactic(auto)]

ghost use Rattle.std.specs.Prelude.{◌≡◌, [], length};
ghost use Rattle.hybit_core.specs.Answer.{answers, ◌and_then◌};
ghost use Rattle.hybit_core.specs.Floats.{zero64};
ghost use Rattle.lent.specs.Lent.{padded, built};
ghost use Rattle.csr32.specs.Made.{as_csr_room};
ghost use Rattle.abtm_build.specs.Build.{as_tile_room, tiles_from, tile_answer, tiled};
ghost use Rattle.restricted.specs.Restricted.{restricted_tiles, restrict_tiles_answer, restricted_tiles_left};
ghost use Rattle.demand_tiled.specs.Tiled.{product_answer, product_of, list_number, tile_list_number, tiles_number, TileLists};
ghost use Rattle.hybit_core.specs.Table.{given};
ghost use Rattle.demand_examine.specs.Steps.{PlotLists};
ghost use Rattle.demand_examine.specs.Calls.{tiled_answer, tiled_row_product};
ghost use Rattle.abtm.specs.Matrix.{lent_tiles};
ghost use Rattle.csr32.specs.Matrix.{lent_csr};
ghost use Rattle.mask.specs.Dof.{lent_mask};

use abtm::{AbtmConfig, AbtmMatrix};
use abtm_build::TilesSize;
use csr32::Csr32Matrix;
use hybit_core::HybitError;
use mask::DofMask;

// A row of a plot list's product, which goes to `product`.
fn list_number(
    csr: Csr32Matrix,
    x: &[f64],
    row: usize,
    product: &mut [f64],
) -> Result<f64, HybitError>
    ensures answer { given result ≡ list_number (lent_csr csr.entry) x.now row (length product.old) }
    ensures list { product.new ≡ built zero64 (length product.old) (product_answer (lent_csr csr.entry) x.now row (length product.old)) (product_of (lent_csr csr.entry) x.now) }
{
    if row >= csr.nrows {
        lent::clear_from(product, 0);
        return Err(HybitError::NoSuchPlace);
    }
    if product.len() < csr.nrows {
        lent::clear_from(product, 0);
        return Err(HybitError::ShortList);
    }
    let v = csr32_apply::apply(csr, x, &mut product[..csr.nrows]);
    if let Err(e) = v {
        lent::clear_from(product, 0);
        return Err(e);
    }
    lent::clear_from(product, csr.nrows);
    Ok(product[row])
}

// The row product of the list restricted from tiles.
fn tile_list_number(
    tiles: AbtmMatrix,
    mask: DofMask,
    x: &[f64],
    row: usize,
    out_row_ptr: &mut [u32],
    out_col_idx: &mut [u32],
    out_values: &mut [f64],
    product: &mut [f64],
) -> Result<f64, HybitError>
    ensures answer { given result ≡ tile_list_number (lent_tiles tiles.entry) (lent_mask mask.entry) x.now row (as_csr_room (length out_row_ptr.old) (length out_col_idx.old) (length out_values.old)) (length product.old) }
    ensures list { PlotLists (restrict_tiles_answer (lent_tiles tiles.entry) (lent_mask mask.entry) (as_csr_room (length out_row_ptr.old) (length out_col_idx.old) (length out_values.old))) (restricted_tiles (lent_tiles tiles.entry) (lent_mask mask.entry)) (as_csr_room (length out_row_ptr.old) (length out_col_idx.old) (length out_values.old)) out_row_ptr.new out_col_idx.new out_values.new }
    ensures product { product.new ≡ built zero64 (length product.old) (restrict_tiles_answer (lent_tiles tiles.entry) (lent_mask mask.entry) (as_csr_room (length out_row_ptr.old) (length out_col_idx.old) (length out_values.old)) and_then product_answer (restricted_tiles_left (lent_tiles tiles.entry) (lent_mask mask.entry) (as_csr_room (length out_row_ptr.old) (length out_col_idx.old) (length out_values.old))) x.now row (length product.old)) (product_of (restricted_tiles_left (lent_tiles tiles.entry) (lent_mask mask.entry) (as_csr_room (length out_row_ptr.old) (length out_col_idx.old) (length out_values.old))) x.now) }
{
    let t = restricted_abtm::from_abtm(tiles, mask, out_row_ptr, out_col_idx, out_values);
    match t {
        Err(e) => {
            lent::clear_from(product, 0);
            Err(e)
        }
        Ok(s) => {
            let kept = s.retained_nnz;
            list_number(
                Csr32Matrix {
                    nrows: tiles.nrows,
                    ncols: tiles.ncols,
                    row_ptr: &out_row_ptr[..tiles.nrows + 1],
                    col_idx: &out_col_idx[..kept],
                    values: &out_values[..kept],
                },
                x,
                row,
                product,
            )
        }
    }
}

// Zeros in the lists of a plot list and of a product, four calls for four lists: restricted_abtm's three have no product.
fn clear_list(
    out_row_ptr: &mut [u32],
    out_col_idx: &mut [u32],
    out_values: &mut [f64],
    product: &mut [f64],
)
    ensures pointers { out_row_ptr.new ≡ padded 0 (length out_row_ptr.old) [] }
    ensures columns { out_col_idx.new ≡ padded 0 (length out_col_idx.old) [] }
    ensures values { out_values.new ≡ padded zero64 (length out_values.old) [] }
    ensures product { product.new ≡ padded zero64 (length product.old) [] }
{
    lent::clear_from(out_row_ptr, 0);
    lent::clear_from(out_col_idx, 0);
    lent::clear_from(out_values, 0);
    lent::clear_from(product, 0);
}

// The row product of the list restricted from the plot list's tiles. Each list is what the call that writes it leaves.
fn tile_number(
    csr: Csr32Matrix,
    mask: DofMask,
    config: AbtmConfig,
    x: &[f64],
    row: usize,
    row_tile_ptr: &mut [u32],
    tile_masks: &mut [u64],
    value_offsets: &mut [u32],
    metas: &mut [u32],
    tile_values: &mut [f64],
    out_row_ptr: &mut [u32],
    out_col_idx: &mut [u32],
    out_values: &mut [f64],
    product: &mut [f64],
) -> Result<f64, HybitError>
    ensures answer { given result ≡ tiles_number (lent_csr csr.entry) (lent_mask mask.entry) x.now config row (as_tile_room (length row_tile_ptr.old) (length tile_masks.old) (length value_offsets.old) (length metas.old) (length tile_values.old)) (as_csr_room (length out_row_ptr.old) (length out_col_idx.old) (length out_values.old)) (length product.old) }
    ensures tiles { TileLists (tile_answer (lent_csr csr.entry) config (as_tile_room (length row_tile_ptr.old) (length tile_masks.old) (length value_offsets.old) (length metas.old) (length tile_values.old))) (tiles_from (lent_csr csr.entry) config) (as_tile_room (length row_tile_ptr.old) (length tile_masks.old) (length value_offsets.old) (length metas.old) (length tile_values.old)) row_tile_ptr.new tile_masks.new value_offsets.new metas.new tile_values.new }
    ensures list { PlotLists (tile_answer (lent_csr csr.entry) config (as_tile_room (length row_tile_ptr.old) (length tile_masks.old) (length value_offsets.old) (length metas.old) (length tile_values.old)) and_then restrict_tiles_answer (tiled (lent_csr csr.entry) config (as_tile_room (length row_tile_ptr.old) (length tile_masks.old) (length value_offsets.old) (length metas.old) (length tile_values.old))) (lent_mask mask.entry) (as_csr_room (length out_row_ptr.old) (length out_col_idx.old) (length out_values.old))) (restricted_tiles (tiled (lent_csr csr.entry) config (as_tile_room (length row_tile_ptr.old) (length tile_masks.old) (length value_offsets.old) (length metas.old) (length tile_values.old))) (lent_mask mask.entry)) (as_csr_room (length out_row_ptr.old) (length out_col_idx.old) (length out_values.old)) out_row_ptr.new out_col_idx.new out_values.new }
    ensures product { product.new ≡ built zero64 (length product.old) (tile_answer (lent_csr csr.entry) config (as_tile_room (length row_tile_ptr.old) (length tile_masks.old) (length value_offsets.old) (length metas.old) (length tile_values.old)) and_then restrict_tiles_answer (tiled (lent_csr csr.entry) config (as_tile_room (length row_tile_ptr.old) (length tile_masks.old) (length value_offsets.old) (length metas.old) (length tile_values.old))) (lent_mask mask.entry) (as_csr_room (length out_row_ptr.old) (length out_col_idx.old) (length out_values.old)) and_then product_answer (restricted_tiles_left (tiled (lent_csr csr.entry) config (as_tile_room (length row_tile_ptr.old) (length tile_masks.old) (length value_offsets.old) (length metas.old) (length tile_values.old))) (lent_mask mask.entry) (as_csr_room (length out_row_ptr.old) (length out_col_idx.old) (length out_values.old))) x.now row (length product.old)) (product_of (restricted_tiles_left (tiled (lent_csr csr.entry) config (as_tile_room (length row_tile_ptr.old) (length tile_masks.old) (length value_offsets.old) (length metas.old) (length tile_values.old))) (lent_mask mask.entry) (as_csr_room (length out_row_ptr.old) (length out_col_idx.old) (length out_values.old))) x.now) }
{
    let t = abtm_build::from_csr32(
        csr,
        config,
        row_tile_ptr,
        tile_masks,
        value_offsets,
        metas,
        tile_values,
    );
    match t {
        Err(e) => {
            clear_list(out_row_ptr, out_col_idx, out_values, product);
            Err(e)
        }
        Ok(
            TilesSize {
                tiles,
                value_slots,
                matrix_nnz,
            },
        ) => tile_list_number(
            AbtmMatrix {
                nrows: csr.nrows,
                ncols: csr.ncols,
                row_tile_ptr: &row_tile_ptr[..csr.nrows + 1],
                masks: &tile_masks[..tiles],
                value_offsets: &value_offsets[..tiles],
                metas: &metas[..tiles],
                values: &tile_values[..value_slots],
                matrix_nnz,
            },
            mask,
            x,
            row,
            out_row_ptr,
            out_col_idx,
            out_values,
            product,
        ),
    }
}

fn clear_tiled(
    row_tile_ptr: &mut [u32],
    tile_masks: &mut [u64],
    value_offsets: &mut [u32],
    metas: &mut [u32],
    tile_values: &mut [f64],
    out_row_ptr: &mut [u32],
    out_col_idx: &mut [u32],
    out_values: &mut [f64],
    product: &mut [f64],
)
    ensures pointers { row_tile_ptr.new ≡ padded 0 (length row_tile_ptr.old) [] }
    ensures bits { tile_masks.new ≡ padded 0 (length tile_masks.old) [] }
    ensures offsets { value_offsets.new ≡ padded 0 (length value_offsets.old) [] }
    ensures metas { metas.new ≡ padded 0 (length metas.old) [] }
    ensures values { tile_values.new ≡ padded zero64 (length tile_values.old) [] }
    ensures list { (out_row_ptr.new ≡ padded 0 (length out_row_ptr.old) []) × (out_col_idx.new ≡ padded 0 (length out_col_idx.old) []) × (out_values.new ≡ padded zero64 (length out_values.old) []) }
    ensures product { product.new ≡ padded zero64 (length product.old) [] }
{
    lent::clear_from(row_tile_ptr, 0);
    lent::clear_from(tile_masks, 0);
    lent::clear_from(value_offsets, 0);
    lent::clear_from(metas, 0);
    lent::clear_from(tile_values, 0);
    clear_list(out_row_ptr, out_col_idx, out_values, product);
}

// The row product of the list restricted from the plot list's tiles: the tiles are built and restricted, and the product of all rows
// made, each in lists that then hold it.
pub fn tiled_number(
    csr: Csr32Matrix,
    mask: DofMask,
    config: AbtmConfig,
    x: &[f64],
    row: usize,
    row_tile_ptr: &mut [u32],
    tile_masks: &mut [u64],
    value_offsets: &mut [u32],
    metas: &mut [u32],
    tile_values: &mut [f64],
    out_row_ptr: &mut [u32],
    out_col_idx: &mut [u32],
    out_values: &mut [f64],
    product: &mut [f64],
) -> Result<f64, HybitError>
    ensures answer { given result ≡ answers (tiled_answer (lent_csr csr.entry) (lent_mask mask.entry) config x.now row (as_tile_room (length row_tile_ptr.old) (length tile_masks.old) (length value_offsets.old) (length metas.old) (length tile_values.old)) (as_csr_room (length out_row_ptr.old) (length out_col_idx.old) (length out_values.old)) (length product.old)) (tiled_row_product (lent_csr csr.entry) (lent_mask mask.entry) config x.now row) }
    ensures tiles { TileLists (tiled_answer (lent_csr csr.entry) (lent_mask mask.entry) config x.now row (as_tile_room (length row_tile_ptr.old) (length tile_masks.old) (length value_offsets.old) (length metas.old) (length tile_values.old)) (as_csr_room (length out_row_ptr.old) (length out_col_idx.old) (length out_values.old)) (length product.old)) (tiles_from (lent_csr csr.entry) config) (as_tile_room (length row_tile_ptr.old) (length tile_masks.old) (length value_offsets.old) (length metas.old) (length tile_values.old)) row_tile_ptr.new tile_masks.new value_offsets.new metas.new tile_values.new }
    ensures list { PlotLists (tiled_answer (lent_csr csr.entry) (lent_mask mask.entry) config x.now row (as_tile_room (length row_tile_ptr.old) (length tile_masks.old) (length value_offsets.old) (length metas.old) (length tile_values.old)) (as_csr_room (length out_row_ptr.old) (length out_col_idx.old) (length out_values.old)) (length product.old)) (restricted_tiles (tiles_from (lent_csr csr.entry) config) (lent_mask mask.entry)) (as_csr_room (length out_row_ptr.old) (length out_col_idx.old) (length out_values.old)) out_row_ptr.new out_col_idx.new out_values.new }
    ensures product { product.new ≡ built zero64 (length product.old) (tiled_answer (lent_csr csr.entry) (lent_mask mask.entry) config x.now row (as_tile_room (length row_tile_ptr.old) (length tile_masks.old) (length value_offsets.old) (length metas.old) (length tile_values.old)) (as_csr_room (length out_row_ptr.old) (length out_col_idx.old) (length out_values.old)) (length product.old)) (product_of (restricted_tiles (tiles_from (lent_csr csr.entry) config) (lent_mask mask.entry)) x.now) }
{
    let v = demand_examine::examine_tiled(csr, mask, config, x, row);
    if let Err(e) = v {
        clear_tiled(
            row_tile_ptr,
            tile_masks,
            value_offsets,
            metas,
            tile_values,
            out_row_ptr,
            out_col_idx,
            out_values,
            product,
        );
        return Err(e);
    }
    let d = tile_number(
        csr,
        mask,
        config,
        x,
        row,
        row_tile_ptr,
        tile_masks,
        value_offsets,
        metas,
        tile_values,
        out_row_ptr,
        out_col_idx,
        out_values,
        product,
    );
    if let Err(e) = d {
        clear_tiled(
            row_tile_ptr,
            tile_masks,
            value_offsets,
            metas,
            tile_values,
            out_row_ptr,
            out_col_idx,
            out_values,
            product,
        );
        return Err(e);
    }
    d
}
