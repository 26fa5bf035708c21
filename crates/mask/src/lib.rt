// mask.rs: `DofMask`, a length and its words, which the caller lends: its check, the questions to it, `or_word`. Every call but
// `is_member` checks the mask that it is handed: 1 for the length, 5 for the words.
#![tactic(auto)]

ghost use Rattle.std.specs.Prelude.{◌≡◌, map, ◌+◌, ◌*◌, ◌≤◌, ◌^◌, eqb, length};
ghost use Rattle.hybit_core.specs.Answer.{answers};
ghost use Rattle.hybit_core.specs.Table.{told, given};
ghost use Rattle.lent.specs.Lent.{built, kept, Appended};
ghost use Rattle.word.specs.Bits.{below, count, members};
ghost use Rattle.mask.specs.Mask.{as_mask, bit_at, active, mask_words, mask_rules, mask_answer};
ghost use Rattle.mask.specs.Calls.{indices_answer, joined_word};
ghost use Rattle.mask.specs.Dof.{lent_mask};

use hybit_core::HybitError;

mod dof;

pub use dof::DofMask;

// Whether the word count is right and no bit stands at or past the length. Only the last word can have such a bit.
fn rules_hold(mask: DofMask) -> bool
    ensures { result ≡ mask_rules (lent_mask mask.entry) }
{
    if mask.words.len() != mask.len.div_ceil(64) {
        return false;
    }
    let valid = mask.len % 64;
    if valid == 0 {
        return true;
    }
    let last = mask.len / 64;
    let words = mask.words;
    words[last] >> valid == 0
}

impl<'a> DofMask<'a> {
    // The Rust's private fields make this check needless there.
    pub fn check(self) -> Result<(), HybitError>
        ensures { told result ≡ mask_answer (lent_mask self.entry) }
    {
        if !hybit_core::dimension_fits(self.len) {
            return Err(HybitError::SizeOverflow);
        }
        if !rules_hold(self) {
            return Err(HybitError::BadMask);
        }
        Ok(())
    }

    // Whether `index` is a member, for any words: the test that loops make once the mask is checked. False past the length.
    pub fn is_member(self, index: usize) -> bool
        ensures { result ≡ active (lent_mask self.entry) index }
    {
        if index >= self.len {
            return false;
        }
        let at = index / 64;
        if at >= self.words.len() {
            return false;
        }
        word::contains_offset(self.words[at], index % 64)
    }

    pub fn contains(self, index: usize) -> Result<bool, HybitError>
        ensures { given result ≡ answers (mask_answer (lent_mask self.entry)) (active (lent_mask self.entry) index) }
    {
        self.check()?;
        Ok(self.is_member(index))
    }

    pub fn count_ones(self) -> Result<usize, HybitError>
        ensures { given result ≡ answers (mask_answer (lent_mask self.entry)) (count (active (lent_mask self.entry)) self.entry.len) }
    {
        self.check()?;
        Ok(ones(self.words))
    }

    // Whether no bit is set.
    pub fn is_empty(self) -> Result<bool, HybitError>
        ensures { given result ≡ answers (mask_answer (lent_mask self.entry)) (eqb (count (active (lent_mask self.entry)) self.entry.len) 0) }
    {
        self.check()?;
        Ok(ones(self.words) == 0)
    }

    // The members, ascending; answers how many, which is the used part.
    pub fn indices(self, out: &mut [usize]) -> Result<usize, HybitError>
        ensures answer { given result ≡ answers
            (indices_answer (lent_mask self.entry) (length out.old))
            (count (active (lent_mask self.entry)) self.entry.len) }
        ensures list { out.new ≡ built 0 (length out.old)
            (indices_answer (lent_mask self.entry) (length out.old))
            (below (active (lent_mask self.entry)) self.entry.len) }
    {
        let v = examine_room(self, out.len());
        if let Err(e) = v {
            lent::clear_from(out, 0);
            return Err(e);
        }
        let n = put_all(self.words, out);
        lent::clear_from(out, n);
        Ok(n)
    }
}

// The ones of all words.
// A loop and no `sum`: that each sum on the way fits is the loop's invariant, and `sum` would ask for it beside.
fn ones(words: &[u64]) -> usize
    requires { length words.now ≤ 2 ^ 14 }
    ensures { result ≡ count (bit_at words.now) (64 * length words.now) }
{
    let mut n: usize = 0;
    for bits in words {
        n += word::popcount(*bits);
    }
    n
}

// Joins `bits` into word `word_index`, the last word trimmed to the length; a word number past the end does nothing.
// The length and the words that are written stay apart: a struct of both saves nothing, contracts name `words.new` either way.
pub fn or_word(
    len: usize,
    words: &mut [u64],
    word_index: usize,
    bits: u64,
) -> Result<(), HybitError>
    ensures answer { told result ≡ mask_answer (as_mask len words.old) }
    ensures list { words.new ≡ kept (mask_answer (as_mask len words.old))
        (mask_words (joined_word (active (as_mask len words.old)) word_index bits) len) words.old }
{
    (DofMask { len, words }).check()?;
    if word_index >= words.len() {
        return Ok(());
    }
    let trimmed = word::trimmed(bits, len - word_index * 64);
    words[word_index] = word::union(words[word_index], trimmed);
    Ok(())
}

// Writes base + i for each bit i of the word, ascending, from place `from` of out on; answers the next place.
// `dense_block_columns::expand_word` does so in u32: one function for both would take the conversion as a trait, no plainer.
fn put_members(word: u64, base: usize, from: usize, out: &mut [usize]) -> usize
    requires { (base ≤ 2 ^ 20) × (from + length (members word) ≤ length out.old) }
    ensures { Appended (map (λ i. base + i) (members word)) from result out.old out.new }
{
    let mut bits = word;
    let mut at = from;
    // A walk over the set bits: as an iterator of our own it would have to say which members are left, and be no plainer.
    while bits != 0 {
        out[at] = base + word::lowest(bits);
        at += 1;
        bits = word::without_lowest(bits);
    }
    at
}

// Writes the set bits of all words, ascending; answers how many.
fn put_all(words: &[u64], out: &mut [usize]) -> usize
    requires { (length words.now ≤ 2 ^ 14) × (count (bit_at words.now) (64 * length words.now) ≤ length out.old) }
    ensures { Appended (below (bit_at words.now) (64 * length words.now)) 0 result out.old out.new }
{
    let mut at: usize = 0;
    for (k, bits) in words.iter().enumerate() {
        at = put_members(*bits, k * 64, at, out);
    }
    at
}

fn examine_room(mask: DofMask, room: usize) -> Result<(), HybitError>
    ensures { told result ≡ indices_answer (lent_mask mask.entry) room }
{
    mask.check()?;
    if room < ones(mask.words) {
        return Err(HybitError::ShortList);
    }
    Ok(())
}
