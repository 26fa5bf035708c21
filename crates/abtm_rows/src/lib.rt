// abtm.rs: `AbtmMatrix::row_tiles` and `AbtmMatrix::stats`.
#![tactic(auto)]

ghost use Rattle.std.specs.Prelude.{◌≡◌};
ghost use Rattle.hybit_core.specs.Answer.{on_given, answers};
ghost use Rattle.hybit_core.specs.Table.{told, given};
ghost use Rattle.lent.specs.Lists.{part};
ghost use Rattle.abtm.specs.Tiles.{tiles_answer};
ghost use Rattle.abtm.specs.Calls.{kind_number};
ghost use Rattle.abtm_rows.specs.Rows.{tile_row_answer, of_kind, tile_stats, bytes_per_value, tile_bytes};
ghost use Rattle.abtm.specs.Matrix.{lent_tiles};

use abtm::{AbtmMatrix, TileKind};
use hybit_core::HybitError;

#[derive(Clone, Copy)]
pub struct AbtmStats {
    pub nrows: usize,
    pub ncols: usize,
    pub matrix_nnz: usize,
    pub tiles: usize,
    pub sparse_tiles: usize,
    pub bitmap_tiles: usize,
    pub dense_tiles: usize,
    pub value_slots: usize,
    pub metadata_bytes: usize,
}

// The figures are of any record, whatever numbers it holds.
impl AbtmStats {
    pub fn metadata_bytes_per_nnz(self) -> f64
        ensures { result ≡ bytes_per_value self }
    {
        hybit_core::ratio(self.metadata_bytes as u64, self.matrix_nnz as u64)
    }

    // At most 2^64 − 1.
    pub fn total_estimated_bytes(self) -> usize
        ensures { result ≡ tile_bytes self }
    {
        self.value_slots
            .saturating_mul(8)
            .saturating_add(self.metadata_bytes)
    }
}

fn check_row(tiles: AbtmMatrix, row: usize) -> Result<(), HybitError>
    ensures { told result ≡ tile_row_answer (lent_tiles tiles.entry) row }
{
    abtm_check::check(tiles)?;
    if row >= tiles.nrows {
        return Err(HybitError::NoSuchPlace);
    }
    Ok(())
}

// The masks of the row's tiles, as that part of the lent list. Three calls, as a caller asks for one list; C has one call.
pub fn row_tile_masks<'a, 'm, 'o, 't>(
    tiles: AbtmMatrix<'a, 'm, 'o, 't>,
    row: usize,
) -> Result<&'m [u64], HybitError>
    ensures { on_given (λ s. s.now) (given result) ≡ answers (tile_row_answer (lent_tiles tiles.entry) row) (part tiles.entry.row_tile_ptr.now tiles.entry.masks.now row) }
{
    check_row(tiles, row)?;
    Ok(lent::part(tiles.row_tile_ptr, tiles.masks, row))
}

// Their offsets into the values, in the same way.
pub fn row_tile_value_offsets<'a, 'm, 'o, 't>(
    tiles: AbtmMatrix<'a, 'm, 'o, 't>,
    row: usize,
) -> Result<&'o [u32], HybitError>
    ensures { on_given (λ s. s.now) (given result) ≡ answers (tile_row_answer (lent_tiles tiles.entry) row) (part tiles.entry.row_tile_ptr.now tiles.entry.value_offsets.now row) }
{
    check_row(tiles, row)?;
    Ok(lent::part(tiles.row_tile_ptr, tiles.value_offsets, row))
}

// Their word numbers and kinds, in the same way.
pub fn row_tile_metas<'a, 'm, 'o, 't>(
    tiles: AbtmMatrix<'a, 'm, 'o, 't>,
    row: usize,
) -> Result<&'t [u32], HybitError>
    ensures { on_given (λ s. s.now) (given result) ≡ answers (tile_row_answer (lent_tiles tiles.entry) row) (part tiles.entry.row_tile_ptr.now tiles.entry.metas.now row) }
{
    check_row(tiles, row)?;
    Ok(lent::part(tiles.row_tile_ptr, tiles.metas, row))
}

// How many tiles are of the kind.
// A loop: `filter(..).count()` tells of runs of an iterator, which the proof would have to turn into the `only` of the definition.
fn count_kind(metas: &[u32], kind: TileKind) -> usize
    ensures { result ≡ of_kind (kind_number kind) metas.now }
{
    // Numbers are compared, not an Option, so that the loop compiles to vector code; docs/DESIGN-PASS.md, Speed.
    let wanted = u32::from(kind);
    let mut count: usize = 0;
    for meta in metas {
        if *meta / abtm::KIND_STEP == wanted {
            count += 1;
        }
    }
    count
}

pub fn stats(tiles: AbtmMatrix) -> Result<AbtmStats, HybitError>
    ensures { given result ≡ answers (tiles_answer (lent_tiles tiles.entry)) (tile_stats (lent_tiles tiles.entry)) }
{
    abtm_check::check(tiles)?;
    Ok(AbtmStats {
        nrows: tiles.nrows,
        ncols: tiles.ncols,
        matrix_nnz: tiles.matrix_nnz,
        tiles: tiles.metas.len(),
        sparse_tiles: count_kind(tiles.metas, TileKind::Sparse),
        bitmap_tiles: count_kind(tiles.metas, TileKind::Bitmap),
        dense_tiles: count_kind(tiles.metas, TileKind::Dense),
        value_slots: tiles.values.len(),
        metadata_bytes: 4 * (tiles.nrows + 1) + 16 * tiles.metas.len(),
    })
}
