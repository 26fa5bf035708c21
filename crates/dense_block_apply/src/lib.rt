// dense_block.rs: `LinearOperator::apply` of `DenseBlockCsrOperator`, the product of blocks. Each value is read once.
// What adds a block takes the lists and two places: a struct of the four would be made anew for each row of a block.
#![tactic(auto)]

ghost use Rattle.std.specs.Prelude.{◌≡◌, ◌+◌, ◌-◌, ◌*◌, ◌/◌, ◌≤◌, ◌<◌, ◌^◌, length, get_or, take, drop, ◌++◌};
ghost use Rattle.std.specs.Float.{nan, binary64};
ghost use Rattle.std.specs.Float.Ieee.{add};
ghost use Rattle.hybit_core.specs.Answer.{accepted};
ghost use Rattle.hybit_core.specs.Table.{told};
ghost use Rattle.lent.specs.Lists.{each};
ghost use Rattle.lent.specs.Lent.{kept};
ghost use Rattle.dense_block.specs.Blocks.{width_of};
ghost use Rattle.dense_block_apply.specs.Product.{Width, products, term_by_term, as_one, FullBlock, fast_end, added_blocks, block_sum, blocks_product, apply_blocks_answer};
ghost use Rattle.dense_block.specs.Operator.{lent_blocks};

use dense_block::{DenseBlockCsrOperator, DenseBlockSize};
use hybit_core::HybitError;

// A full block's terms in one row, as one number. The width is a constant and no value that a struct could tell of.
#[inline(always)]
fn full_terms<const WIDTH: usize>(values: &[f64], at: usize, x: &[f64], col: usize) -> f64
    requires width { Width WIDTH }
    requires values_in { at + WIDTH ≤ length values.now }
    requires columns_in { col + WIDTH ≤ length x.now }
    requires small { (at ≤ 2 ^ 40) × (col ≤ 2 ^ 40) }
    ensures { result ≡ as_one (products values.now x.now at col WIDTH) }
{
    add_terms(values[at] * x[col], WIDTH - 1, values, at + 1, x, col + 1)
}

// Adds `count` terms of a row to `start`, one after the other.
#[inline(always)]
fn add_terms(start: f64, count: usize, values: &[f64], at: usize, x: &[f64], col: usize) -> f64
    requires values_in { at + count ≤ length values.now }
    requires columns_in { col + count ≤ length x.now }
    requires small { (at ≤ 2 ^ 41) × (col ≤ 2 ^ 41) }
    ensures { result ≡ term_by_term start (products values.now x.now at col count) }
{
    let mut sum = start;
    for j in 0..count {
        sum += values[at + j] * x[col + j];
    }
    sum
}

// The rows of a full block row after a full block more. What it asks is of that block alone, so it takes lists, not Operands.
fn add_full<const WIDTH: usize>(
    sums: [f64; WIDTH],
    col_idx: &[u32],
    values: &[f64],
    x: &[f64],
    p: usize,
) -> [f64; WIDTH]
    requires width { Width WIDTH }
    requires block { FullBlock WIDTH col_idx.now values.now x.now p }
    ensures { result ≡ each (λ i. add binary64 (get_or sums.entry i nan) (as_one (products values.now x.now (p * (WIDTH * WIDTH) + WIDTH * i) (WIDTH * get_or col_idx.now p 0) WIDTH))) WIDTH }
{
    let at = p * (WIDTH * WIDTH);
    let col = WIDTH * col_idx[p] as usize;
    // The sums of a block's rows by value: a map has no row number, and from_fn's closure would have to be told the block's facts.
    let mut more = [0.0; WIDTH];
    for i in 0..WIDTH {
        more[i] = sums[i] + full_terms::<WIDTH>(values, at + WIDTH * i, x, col);
    }
    more
}

// The rows after a column tail more, `count` columns wide.
fn add_tail<const WIDTH: usize>(
    sums: [f64; WIDTH],
    count: usize,
    values: &[f64],
    at: usize,
    x: &[f64],
    col: usize,
) -> [f64; WIDTH]
    requires width { Width WIDTH }
    requires values_in { (at + WIDTH * WIDTH ≤ length values.now) × (count ≤ WIDTH) }
    requires columns_in { col + count ≤ length x.now }
    requires small { (at ≤ 2 ^ 39) × (col ≤ 2 ^ 39) }
    ensures { result ≡ each (λ i. term_by_term (get_or sums.entry i nan) (products values.now x.now (at + WIDTH * i) col count)) WIDTH }
{
    // The sums of a block's rows by value: a map has no row number, and from_fn's closure would have to be told the block's facts.
    let mut more = [0.0; WIDTH];
    for i in 0..WIDTH {
        more[i] = add_terms(sums[i], count, values, at + WIDTH * i, x, col);
    }
    more
}

// Where the full blocks of a row end: of rising block columns only the last can reach past the frame.
fn fast_end(width: usize, ncols: usize, col_idx: &[u32], start: usize, end: usize) -> usize
    requires places { (start ≤ end) × (end ≤ length col_idx.now) }
    requires width { width ≤ 6 }
    ensures { result ≡ fast_end width ncols col_idx.now start end }
{
    if start < end {
        if width * col_idx[end - 1] as usize + width > ncols {
            return end - 1;
        }
    }
    end
}

// Blocks and the x that they are applied to, both checked, with the width of the blocks as a constant.
#[derive(Clone, Copy)]
struct Operands<'a, const WIDTH: usize> {
    matrix: DenseBlockCsrOperator<'a>,
    x: &'a [f64],
    ghost width: { WIDTH ≡ width_of matrix.size },
    ghost valid: { apply_blocks_answer (lent_blocks matrix) x.now matrix.nrows ≡ accepted },
}

// How many full blocks full block row `row` starts with. That a block row is full is asked for: a struct of the operands and the row
// would hold the operands once more for each of the two rows that go side by side.
#[inline(always)]
fn full_count<const WIDTH: usize>(operands: Operands<WIDTH>, row: usize) -> usize
    requires { WIDTH * row + WIDTH ≤ operands.matrix.nrows }
    ensures { get_or operands.entry.matrix.row_ptr.now row 0 + result ≡ fast_end WIDTH operands.entry.matrix.ncols operands.entry.matrix.col_idx.now (get_or operands.entry.matrix.row_ptr.now row 0) (get_or operands.entry.matrix.row_ptr.now (row + 1) 0) }
{
    let matrix = operands.matrix;
    let start = matrix.row_ptr[row] as usize;
    let end = matrix.row_ptr[row + 1] as usize;
    fast_end(WIDTH, matrix.ncols, matrix.col_idx, start, end) - start
}

// The rows of full block row `row`: the blocks from place `from` on are added to `sums`. Inlined, since a call of its own copies the
// operands, which costs as much as a block row without blocks.
#[inline(always)]
fn add_blocks<const WIDTH: usize>(
    operands: Operands<WIDTH>,
    row: usize,
    from: usize,
    sums: [f64; WIDTH],
) -> [f64; WIDTH]
    requires full { WIDTH * row + WIDTH ≤ operands.matrix.nrows }
    requires place { (get_or operands.matrix.row_ptr.now row 0 ≤ from) × (from ≤ get_or operands.matrix.row_ptr.now (row + 1) 0) }
    ensures { result ≡ each (λ i. added_blocks (lent_blocks operands.entry.matrix) operands.entry.x.now (WIDTH * row + i) (get_or sums.entry i nan) from (get_or operands.entry.matrix.row_ptr.now (row + 1) 0)) WIDTH }
{
    let matrix = operands.matrix;
    let x = operands.x;
    let end = matrix.row_ptr[row + 1] as usize;
    let fast = fast_end(WIDTH, matrix.ncols, matrix.col_idx, from, end);
    let mut all = sums;
    for p in from..fast {
        all = add_full(all, matrix.col_idx, matrix.values, x, p);
    }
    if fast == end {
        return all;
    }
    let col = WIDTH * matrix.col_idx[fast] as usize;
    add_tail(
        all,
        matrix.ncols - col,
        matrix.values,
        fast * (WIDTH * WIDTH),
        x,
        col,
    )
}

// The rows of two full block rows.
#[derive(Clone, Copy)]
struct TwoRows<const WIDTH: usize> {
    first: [f64; WIDTH],
    second: [f64; WIDTH],
}

// The full block rows `row` and `other`, side by side as far as the shorter one's full blocks go: rows far from each other are read as
// two long streams, which memory serves better than one.
fn two_rows<const WIDTH: usize>(
    operands: Operands<WIDTH>,
    row: usize,
    other: usize,
) -> TwoRows<WIDTH>
    requires { (WIDTH * row + WIDTH ≤ operands.matrix.nrows) × (WIDTH * other + WIDTH ≤ operands.matrix.nrows) }
    ensures { (result.first ≡ each (λ i. block_sum (lent_blocks operands.entry.matrix) operands.entry.x.now (WIDTH * row + i)) WIDTH) × (result.second ≡ each (λ i. block_sum (lent_blocks operands.entry.matrix) operands.entry.x.now (WIDTH * other + i)) WIDTH) }
{
    let matrix = operands.matrix;
    let x = operands.x;
    let a = matrix.row_ptr[row] as usize;
    let b = matrix.row_ptr[other] as usize;
    let n = full_count(operands, row).min(full_count(operands, other));
    // The sums of a block's rows by value: the library has no heap, and the width is a constant.
    let mut one = [0.0; WIDTH];
    let mut two = [0.0; WIDTH];
    for i in 0..n {
        one = add_full(one, matrix.col_idx, matrix.values, x, a + i);
        two = add_full(two, matrix.col_idx, matrix.values, x, b + i);
    }
    let first = add_blocks(operands, row, a + n, one);
    let second = add_blocks(operands, other, b + n, two);
    TwoRows { first, second }
}

// Writes the rows of a full block row.
fn write_rows<const WIDTH: usize>(sums: [f64; WIDTH], at: usize, y: &mut [f64])
    requires room { at + WIDTH ≤ length y.old }
    requires small { at + WIDTH ≤ 2 ^ 40 }
    ensures { y.new ≡ take at y.old ++ sums.entry ++ drop (at + WIDTH) y.old }
{
    y[at..at + WIDTH].copy_from_slice(&sums);
}

// The full block rows, those of the two halves side by side. Where the second half is the shorter one, its last row is made again.
fn apply_full_rows<const WIDTH: usize>(operands: Operands<WIDTH>, y: &mut [f64])
    requires { length y.old ≡ operands.matrix.nrows }
    ensures { take (WIDTH * (operands.entry.matrix.nrows / WIDTH)) y.new ≡ each (block_sum (lent_blocks operands.entry.matrix) operands.entry.x.now) (WIDTH * (operands.entry.matrix.nrows / WIDTH)) }
{
    let full = operands.matrix.nrows / WIDTH;
    let half = full.div_ceil(2);
    for row in 0..half {
        let other = (row + half).min(full - 1);
        let sums = two_rows(operands, row, other);
        write_rows(sums.first, WIDTH * row, y);
        write_rows(sums.second, WIDTH * other, y);
    }
}

// The number of a row below the full block rows: each block is summed from 0.0.
fn partial_sum<const WIDTH: usize>(operands: Operands<WIDTH>, row: usize) -> f64
    requires { (WIDTH * (operands.matrix.nrows / WIDTH) ≤ row) × (row < operands.matrix.nrows) }
    ensures { result ≡ block_sum (lent_blocks operands.entry.matrix) operands.entry.x.now row }
{
    let matrix = operands.matrix;
    let last = matrix.nrows / WIDTH;
    let local_row = row - WIDTH * last;
    let start = matrix.row_ptr[last] as usize;
    let end = matrix.row_ptr[last + 1] as usize;
    let mut sum: f64 = 0.0;
    for p in start..end {
        let col = WIDTH * matrix.col_idx[p] as usize;
        let at = p * (WIDTH * WIDTH) + WIDTH * local_row;
        let count = WIDTH.min(matrix.ncols - col);
        sum += add_terms(0.0, count, matrix.values, at, operands.x, col);
    }
    sum
}

// The rows below the full block rows, which are written already.
fn apply_partial_last_row<const WIDTH: usize>(operands: Operands<WIDTH>, y: &mut [f64])
    requires long { length y.old ≡ operands.matrix.nrows }
    requires full { take (WIDTH * (operands.matrix.nrows / WIDTH)) y.old ≡ each (block_sum (lent_blocks operands.matrix) operands.x.now) (WIDTH * (operands.matrix.nrows / WIDTH)) }
    ensures { y.new ≡ blocks_product (lent_blocks operands.entry.matrix) operands.entry.x.now }
{
    let nrows = operands.matrix.nrows;
    for row in WIDTH * (nrows / WIDTH)..nrows {
        y[row] = partial_sum(operands, row);
    }
}

fn fill_product<const WIDTH: usize>(operands: Operands<WIDTH>, y: &mut [f64])
    requires { length y.old ≡ operands.matrix.nrows }
    ensures { y.new ≡ blocks_product (lent_blocks operands.entry.matrix) operands.entry.x.now }
{
    apply_full_rows(operands, y);
    apply_partial_last_row(operands, y);
}

fn examine_apply(blocks: DenseBlockCsrOperator, x: &[f64], places: usize) -> Result<(), HybitError>
    ensures { told result ≡ apply_blocks_answer (lent_blocks blocks.entry) x.now places }
{
    dense_block_check::check(blocks)?;
    // By name: in a function of two lengths, which is the expected one would hang on their order.
    if x.len() != blocks.ncols {
        return Err(HybitError::DimensionMismatch {
            expected: blocks.ncols,
            actual: x.len(),
        });
    }
    if places != blocks.nrows {
        return Err(HybitError::DimensionMismatch {
            expected: blocks.nrows,
            actual: places,
        });
    }
    Ok(())
}

// The row products in y, which stays as it was where the call is refused.
pub fn apply(blocks: DenseBlockCsrOperator, x: &[f64], y: &mut [f64]) -> Result<(), HybitError>
    ensures answer { told result ≡ apply_blocks_answer (lent_blocks blocks.entry) x.now (length y.old) }
    ensures product { y.new ≡ kept (apply_blocks_answer (lent_blocks blocks.entry) x.now (length y.old)) (blocks_product (lent_blocks blocks.entry) x.now) y.old }
{
    examine_apply(blocks, x, y.len())?;
    match blocks.size {
        DenseBlockSize::B3 => fill_product(Operands::<3> { matrix: blocks, x }, y),
        DenseBlockSize::B6 => fill_product(Operands::<6> { matrix: blocks, x }, y),
    }
    Ok(())
}
