// topology.rs: `AbtmTopology::combine`, with union, intersection, and_not and xor named by an enum. Two rows are merged by
// their word numbers in one walk over both.
// The operation is named as document 01 has it: a closure would have to be shown to act bit by bit at each caller.
// The two records stay parameters: examine asks nothing of them, count_words that they are a pair, merge_rows that the lists fit
// too. Lists that are written stay apart: a struct of them would have to name each in every contract.
#![tactic(auto)]

ghost use Rattle.std.specs.Prelude.{◌≡◌, true, cond, map, ◌+◌, ◌≤◌, ◌<◌, ◌^◌, ltb, length, get_or};
ghost use Rattle.hybit_core.specs.Answer.{accepted, answers};
ghost use Rattle.hybit_core.specs.Table.{told, given};
ghost use Rattle.lent.specs.Lent.{built, Appended};
ghost use Rattle.word.specs.Bits.{mask_of, words_of};
ghost use Rattle.lent.proofs.LentLaws.{Filled};
ghost use Rattle.topology.specs.Words.{row_rule};
ghost use Rattle.topology.specs.Calls.{as_room, used_of};
ghost use Rattle.topology_pair.specs.Pair.{pair_answer};
ghost use Rattle.topology_combine.specs.Merge.{Stepped};
ghost use Rattle.topology_combine.specs.Combine.{combined_words, combined_row, combine_answer};
ghost use Rattle.topology.specs.Matrix.{lent_topology};

use hybit_core::HybitError;
use topology::{AbtmTopology, AbtmTopologyRow, FramedTopology, TopologySize};
use word::Operation;

// One row of each record, side by side. One column count for both: two `CheckedTopologyRow` would have one each, and a fact that the
// two are the same.
#[derive(Clone, Copy)]
struct Rows<'w, 'm, 'v, 'n> {
    operation: Operation,
    ncols: usize,
    row: AbtmTopologyRow<'w, 'm>,
    other: AbtmTopologyRow<'v, 'n>,
    ghost rule: { row_rule ncols row.words.now row.masks.now ≡ true },
    ghost other_rule: { row_rule ncols other.words.now other.masks.now ≡ true },
}

// A word of two merged rows, and how far it takes each of them.
#[derive(Clone, Copy)]
struct Step {
    index: usize,
    mask: u64,
    next: usize,
    other_next: usize,
}

// The word number at place `at` of a row; at its end 2^32, which is past all of them. No Option: one comparison orders both rows
// and their ends.
fn head(words: &[u32], at: usize) -> usize
    ensures number { result ≡ cond (ltb at (length words.now)) (get_or words.now at 0) (2 ^ 32) }
    ensures below { at < length words.now → result < 2 ^ 32 }
{
    if at < words.len() {
        return words[at] as usize;
    }
    4294967296
}

// The lower of the two next words, which stand at places `at` and `other_at`; not both rows are at their end.
fn next_word(rows: Rows, at: usize, other_at: usize) -> Step
    requires { at + other_at < length rows.row.words.now + length rows.other.words.now }
    ensures { Stepped rows.entry.operation rows.entry.row.words.now rows.entry.row.masks.now rows.entry.other.words.now rows.entry.other.masks.now at other_at result.index result.mask result.next result.other_next }
{
    let row = rows.row;
    let other = rows.other;
    let left = head(row.words, at);
    let right = head(other.words, other_at);
    if left < right {
        return Step {
            index: left,
            mask: word::combine(rows.operation, row.masks[at], 0),
            next: at + 1,
            other_next: other_at,
        };
    }
    if right < left {
        return Step {
            index: right,
            mask: word::combine(rows.operation, 0, other.masks[other_at]),
            next: at,
            other_next: other_at + 1,
        };
    }
    Step {
        index: left,
        mask: word::combine(rows.operation, row.masks[at], other.masks[other_at]),
        next: at + 1,
        other_next: other_at + 1,
    }
}

// How many words the combined row has. merge_row walks alike: an iterator of Steps would have to say which are left, no plainer.
fn count_row(rows: Rows) -> usize
    ensures { result ≡ length (words_of (combined_row rows.entry.operation rows.entry.row.words.now rows.entry.row.masks.now rows.entry.other.words.now rows.entry.other.masks.now) rows.entry.ncols) }
{
    let all = rows.row.words.len() + rows.other.words.len();
    let mut count: usize = 0;
    let mut at: usize = 0;
    let mut other_at: usize = 0;
    // Two rows side by side: which of the two goes on, each step tells.
    while at + other_at < all {
        let s = next_word(rows, at, other_at);
        at = s.next;
        other_at = s.other_next;
        if s.mask != 0 {
            count += 1;
        }
    }
    count
}

// The words and masks of the combined row from place `from` on; answers the next place.
fn merge_row(rows: Rows, from: usize, out_words: &mut [u32], out_masks: &mut [u64]) -> usize
    requires word_room { from + length (words_of (combined_row rows.operation rows.row.words.now rows.row.masks.now rows.other.words.now rows.other.masks.now) rows.ncols) ≤ length out_words.old }
    requires mask_room { from + length (words_of (combined_row rows.operation rows.row.words.now rows.row.masks.now rows.other.words.now rows.other.masks.now) rows.ncols) ≤ length out_masks.old }
    ensures numbers { Appended (words_of (combined_row rows.entry.operation rows.entry.row.words.now rows.entry.row.masks.now rows.entry.other.words.now rows.entry.other.masks.now) rows.entry.ncols) from result out_words.old out_words.new }
    ensures bits { Appended (map (mask_of (combined_row rows.entry.operation rows.entry.row.words.now rows.entry.row.masks.now rows.entry.other.words.now rows.entry.other.masks.now) rows.entry.ncols) (words_of (combined_row rows.entry.operation rows.entry.row.words.now rows.entry.row.masks.now rows.entry.other.words.now rows.entry.other.masks.now) rows.entry.ncols)) from result out_masks.old out_masks.new }
{
    let all = rows.row.words.len() + rows.other.words.len();
    let mut to = from;
    let mut at: usize = 0;
    let mut other_at: usize = 0;
    // Two rows side by side: which of the two goes on, each step tells.
    while at + other_at < all {
        let s = next_word(rows, at, other_at);
        at = s.next;
        other_at = s.other_next;
        if s.mask > 0 {
            out_words[to] = hybit_core::narrow(s.index);
            out_masks[to] = s.mask;
            to += 1;
        }
    }
    to
}

// How many words the combined record has.
fn count_words(operation: Operation, topology: AbtmTopology, other: AbtmTopology) -> usize
    requires { pair_answer (lent_topology topology) (lent_topology other) ≡ accepted }
    ensures { result ≡ length (combined_words operation (lent_topology topology.entry) (lent_topology other.entry)).word }
{
    let left = FramedTopology { topology };
    let right = FramedTopology { topology: other };
    let mut count: usize = 0;
    for row in 0..topology.nrows {
        let rows = Rows {
            operation,
            ncols: topology.ncols,
            row: left.row(row),
            other: right.row(row),
        };
        count += count_row(rows);
    }
    count
}

// The combined rows, and where each starts; answers how many words there are.
fn merge_rows(
    operation: Operation,
    topology: AbtmTopology,
    other: AbtmTopology,
    out_ptr: &mut [u32],
    out_words: &mut [u32],
    out_masks: &mut [u64],
) -> usize
    requires { combine_answer operation (lent_topology topology) (lent_topology other) (as_room (length out_ptr.old) (length out_words.old) (length out_masks.old)) ≡ accepted }
    ensures pointers { Filled (λ k. get_or (combined_words operation (lent_topology topology.entry) (lent_topology other.entry)).ptr k 0) out_ptr.old topology.entry.nrows out_ptr.new }
    ensures numbers { Appended (combined_words operation (lent_topology topology.entry) (lent_topology other.entry)).word 0 result out_words.old out_words.new }
    ensures bits { Appended (combined_words operation (lent_topology topology.entry) (lent_topology other.entry)).mask 0 result out_masks.old out_masks.new }
{
    let left = FramedTopology { topology };
    let right = FramedTopology { topology: other };
    let mut to: usize = 0;
    for row in 0..topology.nrows {
        out_ptr[row] = hybit_core::narrow(to);
        let rows = Rows {
            operation,
            ncols: topology.ncols,
            row: left.row(row),
            other: right.row(row),
        };
        to = merge_row(rows, to, out_words, out_masks);
    }
    to
}

// All checks. The rooms are three lengths: topology_pair says why no struct. The words are counted only where the lists could be too
// short for the words of both records.
fn examine(
    operation: Operation,
    topology: AbtmTopology,
    other: AbtmTopology,
    ptr_room: usize,
    word_room: usize,
    mask_room: usize,
) -> Result<(), HybitError>
    ensures { told result ≡ combine_answer operation (lent_topology topology.entry) (lent_topology other.entry) (as_room ptr_room word_room mask_room) }
{
    topology_pair::examine_pair(topology, other)?;
    let most = topology.word_indices.len() + other.word_indices.len();
    let w = topology_pair::examine_room(topology.nrows, most, ptr_room, word_room, mask_room);
    if let Ok(()) = w {
        return Ok(());
    }
    let words = count_words(operation, topology, other);
    topology_pair::examine_room(topology.nrows, words, ptr_room, word_room, mask_room)
}

// The words of the combined memberships: the used parts are nrows + 1 pointers and as many words and masks as the answer says.
pub fn combine(
    operation: Operation,
    topology: AbtmTopology,
    other: AbtmTopology,
    out_ptr: &mut [u32],
    out_words: &mut [u32],
    out_masks: &mut [u64],
) -> Result<TopologySize, HybitError>
    ensures answer { given result ≡ answers (combine_answer operation (lent_topology topology.entry) (lent_topology other.entry) (as_room (length out_ptr.old) (length out_words.old) (length out_masks.old))) (used_of (combined_words operation (lent_topology topology.entry) (lent_topology other.entry))) }
    ensures pointers { out_ptr.new ≡ built 0 (length out_ptr.old) (combine_answer operation (lent_topology topology.entry) (lent_topology other.entry) (as_room (length out_ptr.old) (length out_words.old) (length out_masks.old))) (combined_words operation (lent_topology topology.entry) (lent_topology other.entry)).ptr }
    ensures numbers { out_words.new ≡ built 0 (length out_words.old) (combine_answer operation (lent_topology topology.entry) (lent_topology other.entry) (as_room (length out_ptr.old) (length out_words.old) (length out_masks.old))) (combined_words operation (lent_topology topology.entry) (lent_topology other.entry)).word }
    ensures bits { out_masks.new ≡ built 0 (length out_masks.old) (combine_answer operation (lent_topology topology.entry) (lent_topology other.entry) (as_room (length out_ptr.old) (length out_words.old) (length out_masks.old))) (combined_words operation (lent_topology topology.entry) (lent_topology other.entry)).mask }
{
    let v = examine(
        operation,
        topology,
        other,
        out_ptr.len(),
        out_words.len(),
        out_masks.len(),
    );
    if let Err(e) = v {
        topology::clear_past(0, 0, out_ptr, out_words, out_masks);
        return Err(e);
    }
    let words = merge_rows(operation, topology, other, out_ptr, out_words, out_masks);
    out_ptr[topology.nrows] = hybit_core::narrow(words);
    topology::clear_past(topology.nrows + 1, words, out_ptr, out_words, out_masks);
    Ok(TopologySize {
        words,
        structural_nnz: topology::count_bits(&out_masks[..words]),
    })
}
