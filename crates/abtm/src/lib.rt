// abtm.rs: a tile by value, `AbtmConfig` with its thresholds. What its values may be is the crate abtm_values, the check of tiles
// abtm_check, the parts of a row and the figures are abtm_rows, the build from a plot list is abtm_build, the product abtm_apply, the
// expansion of a mask abtm_expand.
#![tactic(auto)]

ghost use Rattle.std.specs.Prelude.{◌≡◌, ◌*◌, length};
ghost use Rattle.hybit_core.specs.Table.{told};
ghost use Rattle.abtm.specs.Tiles.{word_in, kind_in, is_dense, places, kind_of};
ghost use Rattle.abtm.specs.Calls.{threshold_answer, kind_number, kind_numbered, told_kind, kind_answer};

use hybit_core::HybitError;

mod matrix;
mod row;

pub use matrix::AbtmMatrix;
pub use row::TileRow;

#[derive(Clone, Copy, PartialEq, Eq)]
pub enum TileKind {
    Sparse,
    Bitmap,
    Dense,
}

// A tile by value.
#[derive(Clone, Copy)]
pub struct TileDesc {
    pub mask: u64,
    pub value_offset: u32,
    pub meta: u32,
}

#[derive(Clone, Copy)]
pub struct AbtmConfig {
    pub sparse_max_nnz: u8,
    pub dense_min_nnz: u8,
}

// A `meta` is a kind's number times this, and a word number.
pub const KIND_STEP: u32 = 1073741824;

// The word number of a `meta`.
pub fn word_in(meta: u32) -> u32
    ensures { result ≡ word_in meta }
{
    meta % KIND_STEP
}

// Its kind; there is none of number 3. No `TryFrom<u32>`: a `meta` is no number of a kind, it holds the word number besides.
pub fn kind_in(meta: u32) -> Option<TileKind>
    ensures { result ≡ kind_numbered (kind_in meta) }
{
    match meta / KIND_STEP {
        0 => Some(TileKind::Sparse),
        1 => Some(TileKind::Bitmap),
        2 => Some(TileKind::Dense),
        _ => None,
    }
}

pub fn is_dense(meta: u32) -> bool
    ensures { result ≡ is_dense meta }
{
    kind_in(meta) == Some(TileKind::Dense)
}

// How many values a tile takes.
pub fn slot_count(mask: u64, meta: u32) -> usize
    ensures { result ≡ length (places mask meta) }
{
    if is_dense(meta) {
        64
    } else {
        word::popcount(mask)
    }
}

// The number that a `meta` has for the kind.
impl From<TileKind> for u32 {
    ghost from_gives = { λ k n. n ≡ kind_number k };

    fn from(kind: TileKind) -> u32 {
        kind as u32
    }
}

impl TileDesc {
    pub fn kind(self) -> Result<TileKind, HybitError>
        ensures { told_kind result ≡ kind_answer self.meta }
    {
        kind_in(self.meta).ok_or(HybitError::BadStore)
    }

    // The first column of the tile's word.
    pub fn base_col(self) -> usize
        ensures { result ≡ 64 * word_in self.meta }
    {
        64 * word_in(self.meta) as usize
    }
}

// The Rust's `AbtmConfig::default`, as a function: its contract gives the numbers as any other's does, not by a ghost relation.
pub fn default_config() -> AbtmConfig
    ensures { (result.sparse_max_nnz ≡ 8) × (result.dense_min_nnz ≡ 40) }
{
    AbtmConfig {
        sparse_max_nnz: 8,
        dense_min_nnz: 40,
    }
}

impl AbtmConfig {
    pub fn validate(self) -> Result<(), HybitError>
        ensures { told result ≡ threshold_answer self }
    {
        if self.sparse_max_nnz < 1 {
            return Err(HybitError::BadThresholds);
        }
        if self.dense_min_nnz > 64 {
            return Err(HybitError::BadThresholds);
        }
        if self.sparse_max_nnz >= self.dense_min_nnz {
            return Err(HybitError::BadThresholds);
        }
        Ok(())
    }

    // The kind of a tile with so many values.
    pub fn kind_of(self, nnz: usize) -> TileKind
        ensures { kind_number result ≡ kind_of self nnz }
    {
        if nnz <= self.sparse_max_nnz as usize {
            return TileKind::Sparse;
        }
        if nnz >= self.dense_min_nnz as usize {
            return TileKind::Dense;
        }
        TileKind::Bitmap
    }
}
