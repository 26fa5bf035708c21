// abtm.rs: `LinearOperator::apply` of `AbtmMatrix`, the product of tiles. Each tile is read once.
// The two mismatches stand beside their tests: a function that takes both numbers and answers them would be no plainer.
#![tactic(auto)]

ghost use Rattle.std.specs.Prelude.{◌≡◌, true, ◌+◌, ◌≤◌, ◌^◌, ltb, length};
ghost use mathlib.Core.List.{map, zip};
ghost use Rattle.hybit_core.specs.Answer.{accepted};
ghost use Rattle.hybit_core.specs.Floats.{zero64};
ghost use Rattle.hybit_core.specs.Table.{told};
ghost use Rattle.lent.specs.Lists.{only, every};
ghost use Rattle.lent.specs.Lent.{kept};
ghost use Rattle.word.specs.Bits.{below, members};
ghost use Rattle.csr32.specs.Csr.{Entry};
ghost use Rattle.csr32.specs.Sums.{added_to};
ghost use Rattle.abtm.specs.Tiles.{tile_at};
ghost use Rattle.abtm_apply.specs.Product.{add_tile, sum_tiles, tiles_product, apply_tiles_answer};
ghost use Rattle.abtm_apply.specs.Ready.{columns_inside, tile_inside};
ghost use Rattle.abtm.specs.Matrix.{lent_tiles};
ghost use Rattle.abtm.specs.Row.{listed_of};

use abtm::{AbtmMatrix, TileDesc, TileRow};
use hybit_core::HybitError;

// The products of a Sparse or Bitmap tile, from 0.0: its values stand in the order of its columns.
fn compact_sum(mask: u64, base: usize, values: &[f64], x: &[f64]) -> f64
    requires base { base ≤ 2 ^ 40 }
    requires values { length values.now ≡ length (members mask) }
    requires columns { columns_inside (length x.now) base mask ≡ true }
    ensures { result ≡ added_to zero64 (zip (map (λ i. base + i) (members mask)) values.now) x.now }
{
    let mut sum: f64 = 0.0;
    let mut p: usize = 0;
    let mut rest = mask;
    // The set bits of a word, lowest first, and the values beside: an iterator of our own would be a type more, for three lines.
    while rest != 0 {
        let bit = word::lowest(rest);
        sum = sum + values[p] * x[base + bit];
        p += 1;
        rest = word::without_lowest(rest);
    }
    sum
}

// The products of a Dense tile's places in range added to `start`, absent places too.
fn add_dense(start: f64, base: usize, values: &[f64], x: &[f64]) -> f64
    requires { (base ≤ length x.now) × (length values.now ≡ 64) }
    ensures { result ≡ added_to start (only (λ (e : Entry). ltb e.0 (length x.now)) (zip (map (λ i. base + i) (below (λ i. true) 64)) values.now)) x.now }
{
    let limit = 64usize.min(x.len() - base);
    let mut sum = start;
    for j in 0..limit {
        sum = sum + values[j] * x[base + j];
    }
    sum
}

// The row's number after one tile more: a Dense tile adds straight to it, any other is summed on its own.
fn add_tile(sum: f64, tile: TileDesc, values: &[f64], x: &[f64]) -> f64
    requires { tile_inside (length values.now) (length x.now) (tile.mask, (tile.value_offset, tile.meta)) ≡ true }
    ensures { result ≡ add_tile (length x.now) x.now sum (tile_at values.now (tile.mask, (tile.value_offset, tile.meta))) }
{
    let base = tile.base_col();
    let start = tile.value_offset as usize;
    let end = start + abtm::slot_count(tile.mask, tile.meta);
    if abtm::is_dense(tile.meta) {
        return add_dense(sum, base, &values[start..end], x);
    }
    sum + compact_sum(tile.mask, base, &values[start..end], x)
}

// The number of a row.
fn row_sum(row: TileRow, values: &[f64], x: &[f64]) -> f64
    requires { every (tile_inside (length values.now) (length x.now)) (listed_of row) ≡ true }
    ensures { result ≡ sum_tiles (length x.now) x.now (map (tile_at values.now) (listed_of row.entry)) }
{
    let mut sum: f64 = 0.0;
    for (i, mask) in row.masks.iter().enumerate() {
        // By hand: a public function asks nothing, so one for a tile would test the place.
        let tile = TileDesc {
            mask: *mask,
            value_offset: row.value_offsets[i],
            meta: row.metas[i],
        };
        sum = add_tile(sum, tile, values, x);
    }
    sum
}

// The rows of accepted tiles.
// A row's pointers are read once for its three parts: lent::part would read and compare them for each.
fn fill_product(tiles: AbtmMatrix, x: &[f64], y: &mut [f64])
    requires { apply_tiles_answer (lent_tiles tiles) x.now (length y.old) ≡ accepted }
    ensures { y.new ≡ tiles_product (lent_tiles tiles.entry) x.now }
{
    for row in 0..tiles.nrows {
        let start = tiles.row_tile_ptr[row] as usize;
        let end = tiles.row_tile_ptr[row + 1] as usize;
        let part = TileRow {
            masks: &tiles.masks[start..end],
            value_offsets: &tiles.value_offsets[start..end],
            metas: &tiles.metas[start..end],
        };
        y[row] = row_sum(part, tiles.values, x);
    }
}

fn examine_apply(tiles: AbtmMatrix, x: &[f64], places: usize) -> Result<(), HybitError>
    ensures { told result ≡ apply_tiles_answer (lent_tiles tiles.entry) x.now places }
{
    abtm_check::check(tiles)?;
    if x.len() != tiles.ncols {
        return Err(HybitError::DimensionMismatch {
            expected: tiles.ncols,
            actual: x.len(),
        });
    }
    if places != tiles.nrows {
        return Err(HybitError::DimensionMismatch {
            expected: tiles.nrows,
            actual: places,
        });
    }
    Ok(())
}

// The row products in y, which stays as it was where the call is refused.
pub fn apply(tiles: AbtmMatrix, x: &[f64], y: &mut [f64]) -> Result<(), HybitError>
    ensures answer { told result ≡ apply_tiles_answer (lent_tiles tiles.entry) x.now (length y.old) }
    ensures product { y.new ≡ kept (apply_tiles_answer (lent_tiles tiles.entry) x.now (length y.old)) (tiles_product (lent_tiles tiles.entry) x.now) y.old }
{
    examine_apply(tiles, x, y.len())?;
    fill_product(tiles, x, y);
    Ok(())
}
