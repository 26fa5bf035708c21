// mask.rs: the calls of `DofMask` that make a mask or set a bit of one: `new`, `from_indices`, `set`.
// The length and the words that are written stay apart: a struct of both saves nothing, contracts name `words.new` either way.
#![tactic(auto)]

ghost use Rattle.std.specs.Prelude.{◌≡◌, true, false, cond, [], ◌≤◌, eqb, ltb, leb, length};
ghost use Rattle.hybit_core.specs.Table.{told};
ghost use Rattle.lent.specs.Lists.{every};
ghost use Rattle.lent.specs.Lent.{padded, built, kept};
ghost use Rattle.word.specs.Bits.{has, word_of, ceil64};
ghost use Rattle.mask.specs.Mask.{as_mask, active, mask_words};
ghost use Rattle.mask.specs.Calls.{new_answer, from_indices_answer, listed, set_answer, changed};
ghost use Rattle.mask.specs.Dof.{lent_mask};

use hybit_core::HybitError;
use mask::DofMask;

// Whether a list of `room` words holds a mask of this length.
fn words_fit(len: usize, room: usize) -> bool
    ensures { result ≡ leb (ceil64 len) room }
{
    len.div_ceil(64) <= room
}

fn examine_new(len: usize, room: usize) -> Result<(), HybitError>
    ensures { told result ≡ new_answer len room }
{
    if !hybit_core::dimension_fits(len) {
        return Err(HybitError::SizeOverflow);
    }
    if !words_fit(len, room) {
        return Err(HybitError::ShortList);
    }
    Ok(())
}

// The empty mask. The used part is ceil(len / 64) words.
pub fn new(len: usize, words: &mut [u64]) -> Result<(), HybitError>
    ensures answer { told result ≡ new_answer len (length words.old) }
    ensures list { words.new ≡ built 0 (length words.old) (new_answer len (length words.old)) (mask_words (λ c. false) len) }
{
    let v = examine_new(len, words.len());
    lent::clear_from(words, 0);
    v
}

// A loop and no `all`: with that, from_indices took a third more time on 250 indices.
fn all_below(indices: &[usize], len: usize) -> bool
    ensures { result ≡ every (λ i. ltb i len) indices.now }
{
    for index in indices {
        if *index >= len {
            return false;
        }
    }
    true
}

fn examine_indices(len: usize, indices: &[usize], room: usize) -> Result<(), HybitError>
    ensures { told result ≡ from_indices_answer len indices.now room }
{
    if !hybit_core::dimension_fits(len) {
        return Err(HybitError::SizeOverflow);
    }
    if !all_below(indices, len) {
        return Err(HybitError::NoSuchPlace);
    }
    if !words_fit(len, room) {
        return Err(HybitError::ShortList);
    }
    Ok(())
}

// A bool chooses, as in the Rust's `set(index, value)`.
fn with_value(bits: u64, offset: usize, value: bool) -> u64
    ensures { result ≡ word_of (λ i. cond (eqb i offset) value (has bits i)) }
{
    if value {
        word::with_bit(bits, offset)
    } else {
        word::without_bit(bits, offset)
    }
}

// Sets the bit of each index in words that are all 0.
fn set_all(len: usize, indices: &[usize], words: &mut [u64])
    requires below { every (λ i. ltb i len) indices.now ≡ true }
    requires room { ceil64 len ≤ length words.old }
    requires empty { words.old ≡ padded 0 (length words.old) [] }
    ensures { words.new ≡ padded 0 (length words.old) (mask_words (listed indices.now) len) }
{
    for index in indices {
        let at = *index / 64;
        words[at] = with_value(words[at], *index % 64, true);
    }
}

// The mask whose members are the indices, in any order and with repeats. The used part is ceil(len / 64) words.
pub fn from_indices(len: usize, indices: &[usize], words: &mut [u64]) -> Result<(), HybitError>
    ensures answer { told result ≡ from_indices_answer len indices.now (length words.old) }
    ensures list { words.new ≡ built 0 (length words.old)
        (from_indices_answer len indices.now (length words.old))
        (mask_words (listed indices.now) len) }
{
    let v = examine_indices(len, indices, words.len());
    lent::clear_from(words, 0);
    v?;
    set_all(len, indices, words);
    Ok(())
}

fn examine_set(mask: DofMask, index: usize) -> Result<(), HybitError>
    ensures { told result ≡ set_answer (lent_mask mask.entry) index }
{
    mask.check()?;
    if mask.len <= index {
        return Err(HybitError::NoSuchPlace);
    }
    Ok(())
}

pub fn set(len: usize, words: &mut [u64], index: usize, value: bool) -> Result<(), HybitError>
    ensures answer { told result ≡ set_answer (as_mask len words.old) index }
    ensures list { words.new ≡ kept (set_answer (as_mask len words.old) index)
        (mask_words (changed (active (as_mask len words.old)) index value) len) words.old }
{
    examine_set(DofMask { len, words }, index)?;
    let at = index / 64;
    words[at] = with_value(words[at], index % 64, value);
    Ok(())
}
