// dense_block.rs: the check of blocks that are handed in, and `fast_block_fraction`, which needs them. Their lists are lent by the
// caller, and every call on a record checks it: 1, 12.
#![tactic(auto)]

ghost use Rattle.std.specs.Prelude.{◌≡◌, true, ◌&&◌, ◌+◌, ◌*◌, ◌≤◌, ◌^◌, leb, ltb, length};
ghost use Rattle.hybit_core.specs.Table.{told, given};
ghost use Rattle.lent.specs.Lists.{every, only, climbs};
ghost use Rattle.csr32.specs.Csr.{framed};
ghost use Rattle.dense_block.specs.Blocks.{width_of, blocks_for, rows_climb, blocks_rules, blocks_answer};
ghost use Rattle.dense_block.specs.Calls.{fast_blocks, fast_answer};
ghost use Rattle.dense_block.specs.Operator.{lent_blocks};

use dense_block::DenseBlockCsrOperator;
use hybit_core::HybitError;

// Whether each block column of a row is above the one before it, and the last below `limit`; then all are. The scan keeps a flag and
// never leaves early, as those of csr32 do. topology climbs so too, but blocks don't rest on that crate.
fn row_holds(cols: &[u32], limit: u32) -> bool
    ensures { result ≡ (climbs 0 cols.now && every (λ c. ltb c limit) cols.now) }
{
    if cols.len() == 0 {
        return true;
    }
    let mut holds = true;
    let mut before = cols[0];
    for col in &cols[1..] {
        holds &= before < *col;
        before = *col;
    }
    holds & (before < limit)
}

fn rows_hold(blocks: DenseBlockCsrOperator) -> bool
    requires frame { framed (blocks_for (width_of blocks.size) blocks.nrows) blocks.row_ptr.now (length blocks.col_idx.now) ≡ true }
    requires columns { blocks.ncols ≤ 2 ^ 20 }
    ensures { result ≡ (every (λ C. ltb C (blocks_for (width_of blocks.entry.size) blocks.entry.ncols)) blocks.entry.col_idx.now && rows_climb (lent_blocks blocks.entry)) }
{
    let rows = blocks.size.blocks_for(blocks.nrows);
    let limit = hybit_core::narrow(blocks.size.blocks_for(blocks.ncols));
    // `all` is no plainer: its closure would have to be told that a row's pointers are inside.
    for row in 0..rows {
        let start = blocks.row_ptr[row] as usize;
        let end = blocks.row_ptr[row + 1] as usize;
        if !row_holds(&blocks.col_idx[start..end], limit) {
            return false;
        }
    }
    true
}

// The rules that the Rust's private fields keep.
fn rules_hold(blocks: DenseBlockCsrOperator) -> bool
    requires { (length blocks.col_idx.now ≤ 2 ^ 24) × (blocks.ncols ≤ 2 ^ 20) }
    ensures { result ≡ blocks_rules (lent_blocks blocks.entry) }
{
    if !csr32::pointers_hold(
        blocks.size.blocks_for(blocks.nrows),
        blocks.row_ptr,
        blocks.col_idx.len(),
    ) {
        return false;
    }
    let width = blocks.size.width();
    if blocks.values.len() != blocks.col_idx.len() * (width * width) {
        return false;
    }
    rows_hold(blocks)
}

pub fn check(blocks: DenseBlockCsrOperator) -> Result<(), HybitError>
    ensures { told result ≡ blocks_answer (lent_blocks blocks.entry) }
{
    if !hybit_core::sizes_fit(
        blocks.nrows,
        blocks.ncols,
        blocks.col_idx.len(),
        blocks.col_idx.len(),
    ) {
        return Err(HybitError::SizeOverflow);
    }
    if !rules_hold(blocks) {
        return Err(HybitError::BadStore);
    }
    Ok(())
}

// How many of these block columns lie wholly inside a frame of `ncols`: added up without a branch.
fn count_full(width: usize, ncols: usize, cols: &[u32]) -> usize
    requires { width ≤ 6 }
    ensures { result ≡ length (only (λ C. leb (width * C + width) ncols) cols.now) }
{
    let mut full: usize = 0;
    for col in cols {
        full += usize::from(width * *col as usize + width <= ncols);
    }
    full
}

// The blocks of the full block rows are the first ones, up to the pointer of the row after them.
fn count_fast(blocks: DenseBlockCsrOperator) -> usize
    requires { framed (blocks_for (width_of blocks.size) blocks.nrows) blocks.row_ptr.now (length blocks.col_idx.now) ≡ true }
    ensures { result ≡ fast_blocks (lent_blocks blocks.entry) }
{
    let width = blocks.size.width();
    let end = blocks.row_ptr[blocks.size.full_blocks(blocks.nrows)] as usize;
    count_full(width, blocks.ncols, &blocks.col_idx[..end])
}

// The blocks wholly inside the frame ÷ all blocks.
pub fn fast_block_fraction(blocks: DenseBlockCsrOperator) -> Result<f64, HybitError>
    ensures { given result ≡ fast_answer (lent_blocks blocks.entry) }
{
    check(blocks)?;
    let fast = count_fast(blocks);
    Ok(hybit_core::ratio(fast as u64, blocks.col_idx.len() as u64))
}
