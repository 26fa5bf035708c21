// metadata_first.rs: `sparse_dot_row`, the pruned dot of a row, and the same for every row in one call. Once the operands are
// checked both run one row kernel: it meets each word of the row with the mask first and reads values only where they overlap.
// The two lists that are written stay apart: a struct of them would have to name each in every contract.
#![tactic(auto)]

ghost use Rattle.std.specs.Prelude.{◌≡◌, true, ◌≤◌, ◌<◌, ◌^◌, length};
ghost use Rattle.hybit_core.specs.Answer.{accepted};
ghost use Rattle.hybit_core.specs.Floats.{zero64};
ghost use Rattle.hybit_core.specs.Table.{told, given};
ghost use Rattle.lent.specs.Lent.{built};
ghost use Rattle.mask.specs.Dof.{lent_mask};
ghost use Rattle.metadata_first.specs.Matrix.{lent_store};
ghost use Rattle.metadata_first.specs.Dot.{dot_on, operands_answer, sparse_dot_row};
ghost use Rattle.metadata_first_operands.specs.Checks.{rows_answer};
ghost use Rattle.metadata_first_dot.specs.Rows.{row_sums, row_counts};
ghost use Rattle.metadata_first_dot.specs.Walk.{word_sum, word_inside, RowReady, row_dot};

use hybit_core::HybitError;
use mask::DofMask;
use metadata_first::{AbtmMetadataFirstMatrix, AbtmRowDot};

// What every dot reads: the operands, accepted.
#[derive(Clone, Copy)]
struct Operands<'p, 'w, 'm, 'r, 'v, 'k, 'x> {
    packed: AbtmMetadataFirstMatrix<'p, 'w, 'm, 'r, 'v>,
    mask: DofMask<'k>,
    x: &'x [f64],
    ghost valid: { operands_answer (lent_store packed) (lent_mask mask) x.now ≡ accepted },
}

// The products of one word added to `start`, ascending: of its mask, the bits that are active. A value stands at the rank of
// its column among the present ones, not among the active ones.
fn sum_word(
    mask: u64,
    bits: u64,
    place: usize,
    base: usize,
    values: &[f64],
    x: &[f64],
    start: f64,
) -> f64
    requires small { (place ≤ 2 ^ 20) × (base ≤ 2 ^ 20) }
    requires inside { word_inside (length values.now) (length x.now) mask bits place base ≡ true }
    ensures { result ≡ word_sum values.now x.now mask bits place base start }
{
    let mut sum = start;
    let mut rest = bits;
    // A walk over the set bits: as an iterator of our own it would have to say which members are left, and be no plainer.
    while rest != 0 {
        let bit = word::lowest(rest);
        let ordinal = place + word::ones_below(mask, bit);
        sum = sum + values[ordinal] * x[base + bit];
        rest = word::without_lowest(rest);
    }
    sum
}

// The row kernel: a row's words and masks, its values, the words of the mask, the vector. A word without a product is only
// counted.
fn dot_row(words: &[u32], masks: &[u64], values: &[f64], active: &[u64], x: &[f64]) -> AbtmRowDot
    requires { RowReady (length x.now) words.now masks.now values.now active.now x.now }
    ensures { result ≡ row_dot (length x.now) words.now masks.now values.now active.now x.now }
{
    let mut sum: f64 = 0.0;
    let mut candidate: usize = 0;
    let mut executed: usize = 0;
    let mut active_words: usize = 0;
    for (i, word) in words.iter().enumerate() {
        let index = *word as usize;
        let bits = word::intersection(masks[i], active[index]);
        if bits == 0 {
            candidate += word::popcount(masks[i]);
            continue;
        }
        sum = sum_word(masks[i], bits, candidate, 64 * index, values, x, sum);
        candidate += word::popcount(masks[i]);
        executed += word::popcount(bits);
        active_words += 1;
    }
    AbtmRowDot {
        sum,
        candidate_products: candidate,
        executed_products: executed,
        skipped_products: candidate - executed,
        topology_words: words.len(),
        active_words,
    }
}

// The dot of one row.
fn row_dot(operands: Operands, row: usize) -> AbtmRowDot
    requires { row < operands.packed.topology.nrows }
    ensures { result ≡ dot_on (lent_store operands.entry.packed) (lent_mask operands.entry.mask) operands.entry.x.now row }
{
    let packed = operands.packed;
    let start = packed.topology.row_word_ptr[row] as usize;
    let end = packed.topology.row_word_ptr[row + 1] as usize;
    let first = packed.row_value_ptr[row] as usize;
    let last = packed.row_value_ptr[row + 1] as usize;
    dot_row(
        &packed.topology.word_indices[start..end],
        &packed.topology.masks[start..end],
        &packed.values[first..last],
        operands.mask.words,
        operands.x,
    )
}

// The dot of a row with the vector x over the active columns of a mask.
pub fn sparse_dot_row(
    packed: AbtmMetadataFirstMatrix,
    row: usize,
    mask: DofMask,
    x: &[f64],
) -> Result<AbtmRowDot, HybitError>
    ensures { given result ≡ sparse_dot_row (lent_store packed.entry) (lent_mask mask.entry) x.now row }
{
    metadata_first_operands::examine_row(packed, mask, x, row)?;
    let operands = Operands { packed, mask, x };
    Ok(row_dot(operands, row))
}

fn fill_rows(operands: Operands, sums: &mut [f64], executed: &mut [u32])
    requires { (length sums.old ≡ operands.packed.topology.nrows) × (length executed.old ≡ operands.packed.topology.nrows) }
    ensures sums { sums.new ≡ row_sums (lent_store operands.entry.packed) (lent_mask operands.entry.mask) operands.entry.x.now }
    ensures counts { executed.new ≡ row_counts (lent_store operands.entry.packed) (lent_mask operands.entry.mask) operands.entry.x.now }
{
    for row in 0..operands.packed.topology.nrows {
        let d = row_dot(operands, row);
        sums[row] = d.sum;
        executed[row] = hybit_core::narrow(d.executed_products);
    }
}

// The dot of every row, the operands checked once: row r's total in place r of `sums`, and how many products it has in place r
// of `executed`, which 2^20 columns keep in 32 bits.
pub fn sparse_dot_rows(
    packed: AbtmMetadataFirstMatrix,
    mask: DofMask,
    x: &[f64],
    sums: &mut [f64],
    executed: &mut [u32],
) -> Result<(), HybitError>
    ensures answer { told result ≡ rows_answer (lent_store packed.entry) (lent_mask mask.entry) x.now (length sums.old) (length executed.old) }
    ensures sums { sums.new ≡ built zero64 (length sums.old) (rows_answer (lent_store packed.entry) (lent_mask mask.entry) x.now (length sums.old) (length executed.old)) (row_sums (lent_store packed.entry) (lent_mask mask.entry) x.now) }
    ensures counts { executed.new ≡ built 0 (length executed.old) (rows_answer (lent_store packed.entry) (lent_mask mask.entry) x.now (length sums.old) (length executed.old)) (row_counts (lent_store packed.entry) (lent_mask mask.entry) x.now) }
{
    let v = metadata_first_operands::examine_rows(packed, mask, x, sums.len(), executed.len());
    if let Err(e) = v {
        lent::clear_from(sums, 0);
        lent::clear_from(executed, 0);
        return Err(e);
    }
    let operands = Operands { packed, mask, x };
    fill_rows(
        operands,
        &mut sums[..packed.topology.nrows],
        &mut executed[..packed.topology.nrows],
    );
    lent::clear_from(sums, packed.topology.nrows);
    lent::clear_from(executed, packed.topology.nrows);
    Ok(())
}
