// The answers of the C interface: each is one struct, the refusal's number, expected and actual first (0 when accepted), then
// the result, which is 0 where the call is refused. The calls are the crate denimrasp.
// C has no type parameter: each answer is a struct of its own, with a From of its own.
#![tactic(auto)]

ghost use Rattle.std.specs.Prelude.{◌≡◌};
ghost use Rattle.hybit_core.specs.Answer.{gives, refuses};
ghost use Rattle.hybit_core.specs.Table.{paper, told, given};
ghost use Rattle.abtm.specs.Calls.{told_kind};
ghost use Rattle.denimrasp_answers.specs.Answers.{verdict_of, count_of, bool_of, select_of, part_of, places_of, topology_answer_of, topology_stats_of, store_stats_of, dot_answer_of, totals_of, tiles_answer_of, tile_stats_of, restriction_answer_of, region_answer_of, blocks_answer_of, ratio_answer_of, size_from};

use abtm::TileKind;
use abtm_build::TilesSize;
use abtm_rows::AbtmStats;
use dense_block::{DenseBlockSize, DenseBlocks};
use hybit_core::HybitError;
use metadata_first::{AbtmMetadataFirstStats, AbtmProductPruningStats, AbtmRowDot};
use restricted::{ColumnRestriction, LocalRegion};
use topology::{AbtmTopologyStats, TopologySize};

#[repr(C)]
#[derive(Clone, Copy)]
pub struct DenimraspVerdict {
    pub number: u32,
    pub expected: usize,
    pub actual: usize,
}

#[repr(C)]
#[derive(Clone, Copy)]
pub struct DenimraspCount {
    pub number: u32,
    pub expected: usize,
    pub actual: usize,
    pub count: usize,
}

#[repr(C)]
#[derive(Clone, Copy)]
pub struct DenimraspBool {
    pub number: u32,
    pub expected: usize,
    pub actual: usize,
    pub is: bool,
}

// The column is 0 where nothing was found.
#[repr(C)]
#[derive(Clone, Copy)]
pub struct DenimraspSelect {
    pub number: u32,
    pub expected: usize,
    pub actual: usize,
    pub found: bool,
    pub column: usize,
}

// A part of a lent list: the places from start, below end.
#[repr(C)]
#[derive(Clone, Copy)]
pub struct DenimraspPart {
    pub number: u32,
    pub expected: usize,
    pub actual: usize,
    pub start: usize,
    pub end: usize,
}

// How much of the lent lists a build used.
#[repr(C)]
#[derive(Clone, Copy)]
pub struct DenimraspTopology {
    pub number: u32,
    pub expected: usize,
    pub actual: usize,
    pub words: usize,
    pub structural_nnz: usize,
}

#[repr(C)]
#[derive(Clone, Copy)]
pub struct DenimraspTopologyStats {
    pub number: u32,
    pub expected: usize,
    pub actual: usize,
    pub nrows: usize,
    pub ncols: usize,
    pub structural_nnz: usize,
    pub nonempty_words: usize,
    pub metadata_bytes: usize,
}

#[repr(C)]
#[derive(Clone, Copy)]
pub struct DenimraspStoreStats {
    pub number: u32,
    pub expected: usize,
    pub actual: usize,
    pub nrows: usize,
    pub ncols: usize,
    pub structural_nnz: usize,
    pub topology_metadata_bytes: usize,
    pub value_row_ptr_bytes: usize,
    pub packed_value_bytes: usize,
}

#[repr(C)]
#[derive(Clone, Copy)]
pub struct DenimraspDot {
    pub number: u32,
    pub expected: usize,
    pub actual: usize,
    pub sum: f64,
    pub candidate_products: usize,
    pub executed_products: usize,
    pub skipped_products: usize,
    pub topology_words: usize,
    pub active_words: usize,
}

#[repr(C)]
#[derive(Clone, Copy)]
pub struct DenimraspTotals {
    pub number: u32,
    pub expected: usize,
    pub actual: usize,
    pub candidate_products: usize,
    pub executed_products: usize,
    pub skipped_products: usize,
    pub topology_words: usize,
    pub active_words: usize,
}

// How much of the lent lists a build of tiles used, and how many values there are.
#[repr(C)]
#[derive(Clone, Copy)]
pub struct DenimraspTiles {
    pub number: u32,
    pub expected: usize,
    pub actual: usize,
    pub tiles: usize,
    pub value_slots: usize,
    pub matrix_nnz: usize,
}

#[repr(C)]
#[derive(Clone, Copy)]
pub struct DenimraspTileStats {
    pub number: u32,
    pub expected: usize,
    pub actual: usize,
    pub nrows: usize,
    pub ncols: usize,
    pub matrix_nnz: usize,
    pub tiles: usize,
    pub sparse_tiles: usize,
    pub bitmap_tiles: usize,
    pub dense_tiles: usize,
    pub value_slots: usize,
    pub metadata_bytes: usize,
}

// A list cut to the active columns: its frame, the entries of its source and those kept.
#[repr(C)]
#[derive(Clone, Copy)]
pub struct DenimraspRestriction {
    pub number: u32,
    pub expected: usize,
    pub actual: usize,
    pub nrows: usize,
    pub ncols: usize,
    pub source_nnz: usize,
    pub retained_nnz: usize,
}

// A list cut to a region: its members, its entries, and the source entries of its rows.
#[repr(C)]
#[derive(Clone, Copy)]
pub struct DenimraspRegion {
    pub number: u32,
    pub expected: usize,
    pub actual: usize,
    pub global_size: usize,
    pub local_nodes: usize,
    pub local_nnz: usize,
    pub source_row_nnz: usize,
}

// The numbers of a matrix in blocks: the used parts are block_rows + 1 pointers, unique_blocks block columns and dense_value_slots
// values.
#[repr(C)]
#[derive(Clone, Copy)]
pub struct DenimraspBlocks {
    pub number: u32,
    pub expected: usize,
    pub actual: usize,
    pub nrows: usize,
    pub ncols: usize,
    pub block_rows: usize,
    pub unique_blocks: usize,
    pub dense_value_slots: usize,
    pub structural_slots: usize,
    pub valid_dense_slots: usize,
}

#[repr(C)]
#[derive(Clone, Copy)]
pub struct DenimraspRatio {
    pub number: u32,
    pub expected: usize,
    pub actual: usize,
    pub ratio: f64,
}

impl From<Result<(), HybitError>> for DenimraspVerdict {
    ghost from_gives = { λ v r. r ≡ verdict_of (told v) };

    fn from(v: Result<(), HybitError>) -> DenimraspVerdict {
        match v {
            Ok(()) => DenimraspVerdict {
                number: 0,
                expected: 0,
                actual: 0,
            },
            Err(e) => DenimraspVerdict {
                number: e.number(),
                expected: e.expected(),
                actual: e.actual(),
            },
        }
    }
}

impl From<Result<usize, HybitError>> for DenimraspCount {
    ghost from_gives = { λ a r. r ≡ count_of (given a) };

    fn from(a: Result<usize, HybitError>) -> DenimraspCount {
        match a {
            Ok(n) => DenimraspCount {
                number: 0,
                expected: 0,
                actual: 0,
                count: n,
            },
            Err(e) => DenimraspCount {
                number: e.number(),
                expected: e.expected(),
                actual: e.actual(),
                count: 0,
            },
        }
    }
}

impl From<Result<bool, HybitError>> for DenimraspBool {
    ghost from_gives = { λ a r. r ≡ bool_of (given a) };

    fn from(a: Result<bool, HybitError>) -> DenimraspBool {
        match a {
            Ok(b) => DenimraspBool {
                number: 0,
                expected: 0,
                actual: 0,
                is: b,
            },
            Err(e) => DenimraspBool {
                number: e.number(),
                expected: e.expected(),
                actual: e.actual(),
                is: false,
            },
        }
    }
}

impl From<Result<Option<usize>, HybitError>> for DenimraspSelect {
    ghost from_gives = { λ a r. r ≡ select_of (given a) };

    fn from(a: Result<Option<usize>, HybitError>) -> DenimraspSelect {
        match a {
            Ok(Some(c)) => DenimraspSelect {
                number: 0,
                expected: 0,
                actual: 0,
                found: true,
                column: c,
            },
            Ok(None) => DenimraspSelect {
                number: 0,
                expected: 0,
                actual: 0,
                found: false,
                column: 0,
            },
            Err(e) => DenimraspSelect {
                number: e.number(),
                expected: e.expected(),
                actual: e.actual(),
                found: false,
                column: 0,
            },
        }
    }
}

impl From<Option<usize>> for DenimraspSelect {
    ghost from_gives = { λ a r. r ≡ select_of (gives a) };

    fn from(a: Option<usize>) -> DenimraspSelect {
        match a {
            Some(i) => DenimraspSelect {
                number: 0,
                expected: 0,
                actual: 0,
                found: true,
                column: i,
            },
            None => DenimraspSelect {
                number: 0,
                expected: 0,
                actual: 0,
                found: false,
                column: 0,
            },
        }
    }
}

impl From<HybitError> for DenimraspPart {
    ghost from_gives = { λ e r. r ≡ part_of (refuses (paper e)) };

    fn from(e: HybitError) -> DenimraspPart {
        DenimraspPart {
            number: e.number(),
            expected: e.expected(),
            actual: e.actual(),
            start: 0,
            end: 0,
        }
    }
}

// Where a row's part of a list starts and ends, by any pointers. Two places and no type of ours, so it is no From.
pub fn part(row_ptr: &[u32], row: usize) -> DenimraspPart
    ensures { result ≡ part_of (gives (places_of row_ptr.now row)) }
{
    if row >= row_ptr.len() {
        return DenimraspPart {
            number: 0,
            expected: 0,
            actual: 0,
            start: 0,
            end: 0,
        };
    }
    DenimraspPart {
        number: 0,
        expected: 0,
        actual: 0,
        start: lent::pointer(row_ptr, row),
        end: lent::pointer(row_ptr, row + 1),
    }
}

impl From<Result<TopologySize, HybitError>> for DenimraspTopology {
    ghost from_gives = { λ a r. r ≡ topology_answer_of (given a) };

    fn from(a: Result<TopologySize, HybitError>) -> DenimraspTopology {
        match a {
            Ok(
                TopologySize {
                    words,
                    structural_nnz,
                },
            ) => DenimraspTopology {
                number: 0,
                expected: 0,
                actual: 0,
                words: words,
                structural_nnz: structural_nnz,
            },
            Err(e) => DenimraspTopology {
                number: e.number(),
                expected: e.expected(),
                actual: e.actual(),
                words: 0,
                structural_nnz: 0,
            },
        }
    }
}

impl From<Result<AbtmTopologyStats, HybitError>> for DenimraspTopologyStats {
    ghost from_gives = { λ a r. r ≡ topology_stats_of (given a) };

    fn from(a: Result<AbtmTopologyStats, HybitError>) -> DenimraspTopologyStats {
        match a {
            Ok(s) => DenimraspTopologyStats {
                number: 0,
                expected: 0,
                actual: 0,
                nrows: s.nrows,
                ncols: s.ncols,
                structural_nnz: s.structural_nnz,
                nonempty_words: s.nonempty_words,
                metadata_bytes: s.metadata_bytes,
            },
            Err(e) => DenimraspTopologyStats {
                number: e.number(),
                expected: e.expected(),
                actual: e.actual(),
                nrows: 0,
                ncols: 0,
                structural_nnz: 0,
                nonempty_words: 0,
                metadata_bytes: 0,
            },
        }
    }
}

impl From<Result<AbtmMetadataFirstStats, HybitError>> for DenimraspStoreStats {
    ghost from_gives = { λ a r. r ≡ store_stats_of (given a) };

    fn from(a: Result<AbtmMetadataFirstStats, HybitError>) -> DenimraspStoreStats {
        match a {
            Ok(s) => DenimraspStoreStats {
                number: 0,
                expected: 0,
                actual: 0,
                nrows: s.nrows,
                ncols: s.ncols,
                structural_nnz: s.structural_nnz,
                topology_metadata_bytes: s.topology_metadata_bytes,
                value_row_ptr_bytes: s.value_row_ptr_bytes,
                packed_value_bytes: s.packed_value_bytes,
            },
            Err(e) => DenimraspStoreStats {
                number: e.number(),
                expected: e.expected(),
                actual: e.actual(),
                nrows: 0,
                ncols: 0,
                structural_nnz: 0,
                topology_metadata_bytes: 0,
                value_row_ptr_bytes: 0,
                packed_value_bytes: 0,
            },
        }
    }
}

impl From<Result<AbtmRowDot, HybitError>> for DenimraspDot {
    ghost from_gives = { λ a r. r ≡ dot_answer_of (given a) };

    fn from(a: Result<AbtmRowDot, HybitError>) -> DenimraspDot {
        match a {
            Ok(d) => DenimraspDot {
                number: 0,
                expected: 0,
                actual: 0,
                sum: d.sum,
                candidate_products: d.candidate_products,
                executed_products: d.executed_products,
                skipped_products: d.skipped_products,
                topology_words: d.topology_words,
                active_words: d.active_words,
            },
            Err(e) => DenimraspDot {
                number: e.number(),
                expected: e.expected(),
                actual: e.actual(),
                sum: 0.0f64,
                candidate_products: 0,
                executed_products: 0,
                skipped_products: 0,
                topology_words: 0,
                active_words: 0,
            },
        }
    }
}

impl From<Result<AbtmProductPruningStats, HybitError>> for DenimraspTotals {
    ghost from_gives = { λ a r. r ≡ totals_of (given a) };

    fn from(a: Result<AbtmProductPruningStats, HybitError>) -> DenimraspTotals {
        match a {
            Ok(t) => DenimraspTotals {
                number: 0,
                expected: 0,
                actual: 0,
                candidate_products: t.candidate_products,
                executed_products: t.executed_products,
                skipped_products: t.skipped_products,
                topology_words: t.topology_words,
                active_words: t.active_words,
            },
            Err(e) => DenimraspTotals {
                number: e.number(),
                expected: e.expected(),
                actual: e.actual(),
                candidate_products: 0,
                executed_products: 0,
                skipped_products: 0,
                topology_words: 0,
                active_words: 0,
            },
        }
    }
}

// A tile's kind as a number.
impl From<Result<TileKind, HybitError>> for DenimraspCount {
    ghost from_gives = { λ a r. r ≡ count_of (told_kind a) };

    fn from(a: Result<TileKind, HybitError>) -> DenimraspCount {
        match a {
            Ok(k) => DenimraspCount {
                number: 0,
                expected: 0,
                actual: 0,
                count: u32::from(k) as usize,
            },
            Err(e) => DenimraspCount {
                number: e.number(),
                expected: e.expected(),
                actual: e.actual(),
                count: 0,
            },
        }
    }
}

impl From<Result<TilesSize, HybitError>> for DenimraspTiles {
    ghost from_gives = { λ a r. r ≡ tiles_answer_of (given a) };

    fn from(a: Result<TilesSize, HybitError>) -> DenimraspTiles {
        match a {
            Ok(
                TilesSize {
                    tiles,
                    value_slots,
                    matrix_nnz,
                },
            ) => DenimraspTiles {
                number: 0,
                expected: 0,
                actual: 0,
                tiles: tiles,
                value_slots: value_slots,
                matrix_nnz: matrix_nnz,
            },
            Err(e) => DenimraspTiles {
                number: e.number(),
                expected: e.expected(),
                actual: e.actual(),
                tiles: 0,
                value_slots: 0,
                matrix_nnz: 0,
            },
        }
    }
}

impl From<Result<AbtmStats, HybitError>> for DenimraspTileStats {
    ghost from_gives = { λ a r. r ≡ tile_stats_of (given a) };

    fn from(a: Result<AbtmStats, HybitError>) -> DenimraspTileStats {
        match a {
            Ok(s) => DenimraspTileStats {
                number: 0,
                expected: 0,
                actual: 0,
                nrows: s.nrows,
                ncols: s.ncols,
                matrix_nnz: s.matrix_nnz,
                tiles: s.tiles,
                sparse_tiles: s.sparse_tiles,
                bitmap_tiles: s.bitmap_tiles,
                dense_tiles: s.dense_tiles,
                value_slots: s.value_slots,
                metadata_bytes: s.metadata_bytes,
            },
            Err(e) => DenimraspTileStats {
                number: e.number(),
                expected: e.expected(),
                actual: e.actual(),
                nrows: 0,
                ncols: 0,
                matrix_nnz: 0,
                tiles: 0,
                sparse_tiles: 0,
                bitmap_tiles: 0,
                dense_tiles: 0,
                value_slots: 0,
                metadata_bytes: 0,
            },
        }
    }
}

impl From<Result<ColumnRestriction, HybitError>> for DenimraspRestriction {
    ghost from_gives = { λ a r. r ≡ restriction_answer_of (given a) };

    fn from(a: Result<ColumnRestriction, HybitError>) -> DenimraspRestriction {
        match a {
            Ok(s) => DenimraspRestriction {
                number: 0,
                expected: 0,
                actual: 0,
                nrows: s.nrows,
                ncols: s.ncols,
                source_nnz: s.source_nnz,
                retained_nnz: s.retained_nnz,
            },
            Err(e) => DenimraspRestriction {
                number: e.number(),
                expected: e.expected(),
                actual: e.actual(),
                nrows: 0,
                ncols: 0,
                source_nnz: 0,
                retained_nnz: 0,
            },
        }
    }
}

impl From<Result<LocalRegion, HybitError>> for DenimraspRegion {
    ghost from_gives = { λ a r. r ≡ region_answer_of (given a) };

    fn from(a: Result<LocalRegion, HybitError>) -> DenimraspRegion {
        match a {
            Ok(s) => DenimraspRegion {
                number: 0,
                expected: 0,
                actual: 0,
                global_size: s.global_size,
                local_nodes: s.local_nodes,
                local_nnz: s.local_nnz,
                source_row_nnz: s.source_row_nnz,
            },
            Err(e) => DenimraspRegion {
                number: e.number(),
                expected: e.expected(),
                actual: e.actual(),
                global_size: 0,
                local_nodes: 0,
                local_nnz: 0,
                source_row_nnz: 0,
            },
        }
    }
}

impl From<Result<DenseBlocks, HybitError>> for DenimraspBlocks {
    ghost from_gives = { λ a r. r ≡ blocks_answer_of (given a) };

    fn from(a: Result<DenseBlocks, HybitError>) -> DenimraspBlocks {
        match a {
            Ok(s) => DenimraspBlocks {
                number: 0,
                expected: 0,
                actual: 0,
                nrows: s.nrows,
                ncols: s.ncols,
                block_rows: s.block_rows,
                unique_blocks: s.unique_blocks,
                dense_value_slots: s.dense_value_slots,
                structural_slots: s.structural_slots,
                valid_dense_slots: s.valid_dense_slots,
            },
            Err(e) => DenimraspBlocks {
                number: e.number(),
                expected: e.expected(),
                actual: e.actual(),
                nrows: 0,
                ncols: 0,
                block_rows: 0,
                unique_blocks: 0,
                dense_value_slots: 0,
                structural_slots: 0,
                valid_dense_slots: 0,
            },
        }
    }
}

impl From<Result<f64, HybitError>> for DenimraspRatio {
    ghost from_gives = { λ a r. r ≡ ratio_answer_of (given a) };

    fn from(a: Result<f64, HybitError>) -> DenimraspRatio {
        match a {
            Ok(v) => DenimraspRatio {
                number: 0,
                expected: 0,
                actual: 0,
                ratio: v,
            },
            Err(e) => DenimraspRatio {
                number: e.number(),
                expected: e.expected(),
                actual: e.actual(),
                ratio: 0.0,
            },
        }
    }
}

// The width, which crosses as whether it is six. A From<bool> would be dense_block's, where a bool says nothing of a width.
pub fn block_size(six: bool) -> DenseBlockSize
    ensures { result ≡ size_from six }
{
    if six {
        return DenseBlockSize::B6;
    }
    DenseBlockSize::B3
}
