// mask.rs: the calls of `DofMask` on two masks: `union_assign`, `intersect_assign`, `and_not_assign`, `intersects`.
// The operation is named by an enum, as document 01 has it: a closure would have to be shown to act bit by bit at each caller.
// The length and the words that are written stay apart: a struct of both saves nothing, contracts name `words.new` either way.
// Two masks are read by one number and no `zip`: what is done so far is said by the number of the word.
#![tactic(auto)]

ghost use Rattle.std.specs.Prelude.{◌≡◌, not, ◌&&◌, ◌||◌, ◌*◌, eqb, length, get_or};
ghost use Rattle.hybit_core.specs.Answer.{answers};
ghost use Rattle.hybit_core.specs.Table.{told, given};
ghost use Rattle.lent.specs.Lists.{each};
ghost use Rattle.lent.specs.Lent.{kept};
ghost use Rattle.word.specs.Bits.{has, count, both, word_of};
ghost use Rattle.word.specs.Word.{combined};
ghost use Rattle.mask.specs.Mask.{as_mask, bit_at, active, mask_words};
ghost use Rattle.mask.specs.Calls.{pair_answer};
ghost use Rattle.mask.specs.Dof.{lent_mask};

use hybit_core::HybitError;
use mask::DofMask;
use word::Operation;

// The Rust's `ensure_same_len`, after the checks of both masks.
fn examine_pair(mask: DofMask, other: DofMask) -> Result<(), HybitError>
    ensures { told result ≡ pair_answer (lent_mask mask.entry) (lent_mask other.entry) }
{
    if !hybit_core::dimension_fits(mask.len) {
        return Err(HybitError::SizeOverflow);
    }
    if !hybit_core::dimension_fits(other.len) {
        return Err(HybitError::SizeOverflow);
    }
    mask.check()?;
    other.check()?;
    // By hand and by no helper: the fields say which of the two lengths is expected.
    if other.len != mask.len {
        return Err(HybitError::DimensionMismatch {
            expected: mask.len,
            actual: other.len,
        });
    }
    Ok(())
}

fn combine_words(operation: Operation, words: &mut [u64], other: &[u64])
    requires { length other.now ≡ length words.old }
    ensures { words.new ≡ each
        (λ w. word_of (λ i. combined operation (has (get_or words.old w 0) i) (has (get_or other.now w 0) i)))
        (length words.old) }
{
    for (k, bits) in other.iter().enumerate() {
        words[k] = word::combine(operation, words[k], *bits);
    }
}

fn combine_assign(
    operation: Operation,
    len: usize,
    words: &mut [u64],
    other: DofMask,
) -> Result<(), HybitError>
    ensures answer { told result ≡ pair_answer (as_mask len words.old) (lent_mask other.entry) }
    ensures list { words.new ≡ kept
        (pair_answer (as_mask len words.old) (lent_mask other.entry))
        (mask_words (λ c. combined operation (active (as_mask len words.old) c) (active (lent_mask other.entry) c)) len)
        words.old }
{
    examine_pair(DofMask { len, words }, other)?;
    combine_words(operation, words, other.words);
    Ok(())
}

// Joins the other mask's members to this one's.
pub fn union_assign(len: usize, words: &mut [u64], other: DofMask) -> Result<(), HybitError>
    ensures answer { told result ≡ pair_answer (as_mask len words.old) (lent_mask other.entry) }
    ensures list { words.new ≡ kept
        (pair_answer (as_mask len words.old) (lent_mask other.entry))
        (mask_words (λ c. active (as_mask len words.old) c || active (lent_mask other.entry) c) len)
        words.old }
{
    combine_assign(Operation::Union, len, words, other)
}

// Keeps the members that the other mask has too.
pub fn intersect_assign(len: usize, words: &mut [u64], other: DofMask) -> Result<(), HybitError>
    ensures answer { told result ≡ pair_answer (as_mask len words.old) (lent_mask other.entry) }
    ensures list { words.new ≡ kept
        (pair_answer (as_mask len words.old) (lent_mask other.entry))
        (mask_words (λ c. active (as_mask len words.old) c && active (lent_mask other.entry) c) len)
        words.old }
{
    combine_assign(Operation::Intersection, len, words, other)
}

// Keeps the members that the other mask does not have.
pub fn and_not_assign(len: usize, words: &mut [u64], other: DofMask) -> Result<(), HybitError>
    ensures answer { told result ≡ pair_answer (as_mask len words.old) (lent_mask other.entry) }
    ensures list { words.new ≡ kept
        (pair_answer (as_mask len words.old) (lent_mask other.entry))
        (mask_words (λ c. active (as_mask len words.old) c && not (active (lent_mask other.entry) c)) len)
        words.old }
{
    combine_assign(Operation::AndNot, len, words, other)
}

fn words_meet(words: &[u64], other: &[u64]) -> bool
    requires { length other.now ≡ length words.now }
    ensures { result ≡ not (eqb (count (both (bit_at words.now) (bit_at other.now)) (64 * length words.now)) 0) }
{
    for (k, bits) in words.iter().enumerate() {
        if word::intersection(*bits, other[k]) != 0 {
            return true;
        }
    }
    false
}

// Whether the masks share a member.
pub fn intersects(mask: DofMask, other: DofMask) -> Result<bool, HybitError>
    ensures { given result ≡ answers
        (pair_answer (lent_mask mask.entry) (lent_mask other.entry))
        (not (eqb (count (both (active (lent_mask mask.entry)) (active (lent_mask other.entry))) mask.entry.len) 0)) }
{
    examine_pair(mask, other)?;
    Ok(words_meet(mask.words, other.words))
}
