// dense_block.rs: the width of a block and the figures of `DenseBlockCsrOperator`. The check of blocks that are handed in is the crate
// dense_block_check, the build from a plot list dense_block_build, the product dense_block_apply.
#![tactic(auto)]

ghost use Rattle.std.specs.Prelude.{◌≡◌, ◌/◌, ◌%◌};
ghost use Rattle.dense_block.specs.Blocks.{width_of, blocks_for};
ghost use Rattle.dense_block.specs.Calls.{block_fill, value_padding, block_metadata_bytes, block_storage_bytes};

use hybit_core::HybitError;

mod operator;

pub use operator::DenseBlockCsrOperator;

#[derive(Clone, Copy)]
pub enum DenseBlockSize {
    B3,
    B6,
}

// The numbers of blocks that were built: their lists are the caller's.
#[derive(Clone, Copy)]
pub struct DenseBlocks {
    pub nrows: usize,
    pub ncols: usize,
    pub block_rows: usize,
    pub unique_blocks: usize,
    pub dense_value_slots: usize,
    pub structural_slots: usize,
    pub valid_dense_slots: usize,
}

// Each arm of the matches divides by a constant: key_of and place_of are asked of every entry of a build.
impl DenseBlockSize {
    pub fn width(self) -> usize
        ensures { result ≡ width_of self }
    {
        match self {
            DenseBlockSize::B3 => 3,
            DenseBlockSize::B6 => 6,
        }
    }

    // How many blocks cover n rows or columns.
    pub fn blocks_for(self, n: usize) -> usize
        ensures { result ≡ blocks_for (width_of self) n }
    {
        match self {
            DenseBlockSize::B3 => n.div_ceil(3),
            DenseBlockSize::B6 => n.div_ceil(6),
        }
    }

    // How many blocks lie wholly below n.
    pub fn full_blocks(self, n: usize) -> usize
        ensures { result ≡ n / width_of self }
    {
        match self {
            DenseBlockSize::B3 => n / 3,
            DenseBlockSize::B6 => n / 6,
        }
    }

    // A column's block column, and its place among the block's columns.
    pub fn key_of(self, col: u32) -> usize
        ensures { result ≡ col / width_of self }
    {
        self.full_blocks(col as usize)
    }

    pub fn place_of(self, col: u32) -> usize
        ensures { result ≡ col % width_of self }
    {
        match self {
            DenseBlockSize::B3 => col as usize % 3,
            DenseBlockSize::B6 => col as usize % 6,
        }
    }
}

// The figures are of the numbers, whatever they are.
impl DenseBlocks {
    pub fn block_fill(self) -> f64
        ensures { result ≡ block_fill self }
    {
        hybit_core::ratio(self.structural_slots as u64, self.valid_dense_slots as u64)
    }

    pub fn value_padding_ratio(self) -> f64
        ensures { result ≡ value_padding self }
    {
        hybit_core::ratio(self.dense_value_slots as u64, self.structural_slots as u64)
    }

    pub fn metadata_bytes(self) -> usize
        ensures { result ≡ block_metadata_bytes self }
    {
        let pointers = 4usize.saturating_mul(self.block_rows.saturating_add(1));
        pointers.saturating_add(4usize.saturating_mul(self.unique_blocks))
    }

    pub fn storage_bytes(self) -> usize
        ensures { result ≡ block_storage_bytes self }
    {
        let values = 8usize.saturating_mul(self.dense_value_slots);
        self.metadata_bytes().saturating_add(values)
    }
}
