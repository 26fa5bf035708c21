// topology.rs: the questions of `AbtmTopology` to a row. Each checks the record and the row: 1, 11, 7.
// A row's words are looked through one by one: the check before has read all of the record's, and rank adds the masks on its way.
#![tactic(auto)]

ghost use Rattle.std.specs.Prelude.{◌≡◌, ◌≤◌, length};
ghost use Rattle.hybit_core.specs.Answer.{on_given, answers};
ghost use Rattle.hybit_core.specs.Table.{told, given};
ghost use Rattle.lent.specs.Lists.{part};
ghost use Rattle.word.specs.Bits.{count, within, selected, words_of};
ghost use Rattle.topology.specs.Words.{row_member, member};
ghost use Rattle.topology.specs.Calls.{row_answer, rank_answer, select};
ghost use Rattle.topology.specs.Matrix.{lent_topology};

use hybit_core::HybitError;
use topology::{AbtmTopology, AbtmTopologyRow, CheckedTopologyRow, FramedTopology};

fn check_row(topology: AbtmTopology, row: usize) -> Result<(), HybitError>
    ensures { told result ≡ row_answer (lent_topology topology.entry) row }
{
    topology.check()?;
    if row >= topology.nrows {
        return Err(HybitError::NoSuchPlace);
    }
    Ok(())
}

// The words and masks of a row.
fn checked_row<'p, 'w, 'm>(
    topology: AbtmTopology<'p, 'w, 'm>,
    row: usize,
) -> Result<CheckedTopologyRow<'w, 'm>, HybitError>
    ensures ncols { on_given (λ r. r.ncols) (given result) ≡ answers (row_answer (lent_topology topology.entry) row) topology.entry.ncols }
    ensures words { on_given (λ r. r.row.words.now) (given result) ≡ answers (row_answer (lent_topology topology.entry) row) (part topology.entry.row_word_ptr.now topology.entry.word_indices.now row) }
    ensures masks { on_given (λ r. r.row.masks.now) (given result) ≡ answers (row_answer (lent_topology topology.entry) row) (part topology.entry.row_word_ptr.now topology.entry.masks.now row) }
{
    check_row(topology, row)?;
    let framed = FramedTopology { topology };
    Ok(CheckedTopologyRow {
        ncols: topology.ncols,
        row: framed.row(row),
    })
}

// The row's word numbers, as that part of the lent list.
pub fn row_word_indices<'p, 'w, 'm>(
    topology: AbtmTopology<'p, 'w, 'm>,
    row: usize,
) -> Result<&'w [u32], HybitError>
    ensures { on_given (λ s. s.now) (given result) ≡ answers (row_answer (lent_topology topology.entry) row) (part topology.entry.row_word_ptr.now topology.entry.word_indices.now row) }
{
    Ok(checked_row(topology, row)?.row.words)
}

// The row's masks, in the same way.
pub fn row_masks<'p, 'w, 'm>(
    topology: AbtmTopology<'p, 'w, 'm>,
    row: usize,
) -> Result<&'m [u64], HybitError>
    ensures { on_given (λ s. s.now) (given result) ≡ answers (row_answer (lent_topology topology.entry) row) (part topology.entry.row_word_ptr.now topology.entry.masks.now row) }
{
    Ok(checked_row(topology, row)?.row.masks)
}

pub fn row_nonempty_words(topology: AbtmTopology, row: usize) -> Result<usize, HybitError>
    ensures { given result ≡ answers (row_answer (lent_topology topology.entry) row) (length (words_of (member (lent_topology topology.entry) row) topology.entry.ncols)) }
{
    Ok(checked_row(topology, row)?.row.words.len())
}

// How many columns the row holds.
pub fn row_popcount(topology: AbtmTopology, row: usize) -> Result<usize, HybitError>
    ensures { given result ≡ answers (row_answer (lent_topology topology.entry) row) (count (member (lent_topology topology.entry) row) topology.entry.ncols) }
{
    Ok(topology::count_bits(checked_row(topology, row)?.row.masks))
}

// A loop and no `position`: the definition goes through words and masks together, and so does this.
fn contains_in(row: AbtmTopologyRow, col: usize) -> bool
    ensures { result ≡ row_member row.entry.words.now row.entry.masks.now col }
{
    let words = row.words;
    let masks = row.masks;
    let target = col / 64;
    for i in 0..words.len() {
        if words[i] as usize == target {
            return word::contains_offset(masks[i], col % 64);
        }
    }
    false
}

// Whether the row holds the column; false from the column count on.
pub fn row_contains(topology: AbtmTopology, row: usize, col: usize) -> Result<bool, HybitError>
    ensures { given result ≡ answers (row_answer (lent_topology topology.entry) row) (within topology.entry.ncols (member (lent_topology topology.entry) row) col) }
{
    let found = checked_row(topology, row)?;
    if col >= topology.ncols {
        return Ok(false);
    }
    Ok(contains_in(found.row, col))
}

fn rank_in(checked: CheckedTopologyRow, col: usize) -> usize
    requires { col ≤ checked.ncols }
    ensures { result ≡ count (row_member checked.entry.row.words.now checked.entry.row.masks.now) col }
{
    let words = checked.row.words;
    let masks = checked.row.masks;
    let target = col / 64;
    let mut rank: usize = 0;
    for i in 0..words.len() {
        let index = words[i] as usize;
        if index > target {
            return rank;
        }
        if index == target {
            return rank + word::ones_below(masks[i], col % 64);
        }
        rank += word::popcount(masks[i]);
    }
    rank
}

// How many columns below `col` the row holds; the column count is allowed.
pub fn row_rank(topology: AbtmTopology, row: usize, col: usize) -> Result<usize, HybitError>
    ensures { given result ≡ rank_answer (lent_topology topology.entry) row col }
{
    let found = checked_row(topology, row)?;
    if col > topology.ncols {
        return Err(HybitError::NoSuchPlace);
    }
    Ok(rank_in(found, col))
}

fn select_in(checked: CheckedTopologyRow, ordinal: usize) -> Option<usize>
    ensures { result ≡ selected (row_member checked.entry.row.words.now checked.entry.row.masks.now) checked.entry.ncols ordinal }
{
    let words = checked.row.words;
    let masks = checked.row.masks;
    let mut left = ordinal;
    for k in 0..words.len() {
        let ones = word::popcount(masks[k]);
        if left < ones {
            let Some(offset) = word::select(masks[k], left) else {
                return None;
            };
            let base = 64 * words[k] as usize;
            let col = base + offset;
            return Some(col);
        }
        left -= ones;
    }
    None
}

// The row's column with `ordinal` columns below it, or None exactly if there is none.
pub fn row_select(
    topology: AbtmTopology,
    row: usize,
    ordinal: usize,
) -> Result<Option<usize>, HybitError>
    ensures { given result ≡ answers (row_answer (lent_topology topology.entry) row) (select (lent_topology topology.entry) row ordinal) }
{
    let found = checked_row(topology, row)?;
    Ok(select_in(found, ordinal))
}
