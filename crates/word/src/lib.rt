// One word of 64 bits (topology.rs, `AbtmTopologyWord`, and the loops over bits of the other files). A contract names the
// answer by the word's members.
#![tactic(auto)]

ghost use Rattle.std.specs.Prelude.{◌≡◌, not, ◌&&◌, ◌||◌, eqb, ltb, get_or, drop};
ghost use Rattle.hybit_core.specs.Table.{given};
ghost use Rattle.word.specs.Bits.{has, count, members, selected, word_of};
ghost use Rattle.word.specs.Word.{rank_answer, combined};

use hybit_core::HybitError;

// The closures of the Rust's `combine`, by name.
// An enum and no closure: document 01 names the operation so.
#[derive(Clone, Copy)]
pub enum Operation {
    Union,
    Intersection,
    AndNot,
    Xor,
}

// Whether bit `offset` is set; false from 64 on.
pub fn contains_offset(mask: u64, offset: usize) -> bool
    ensures { result ≡ has mask offset }
{
    if offset < 64 {
        mask & (1u64 << offset) != 0
    } else {
        false
    }
}

// How many bits are set.
pub fn popcount(mask: u64) -> usize
    ensures { result ≡ count (has mask) 64 }
{
    u64::count_ones(mask) as usize
}

// How many bits below `offset` are set, for any offset.
pub fn ones_below(mask: u64, offset: usize) -> usize
    ensures { result ≡ count (has mask) offset }
{
    if offset < 64 {
        popcount(mask & ((1u64 << offset) - 1))
    } else {
        popcount(mask)
    }
}

// How many bits below `offset` are set; refused above 64.
pub fn rank(mask: u64, offset: usize) -> Result<usize, HybitError>
    ensures { given result ≡ rank_answer mask offset }
{
    if offset > 64 {
        return Err(HybitError::NoSuchPlace);
    }
    Ok(ones_below(mask, offset))
}

// The lowest set bit, and 64 where none is set.
// No Option: 64 is what `trailing_zeros` answers, and each walk over bits tests for 0 first.
pub fn lowest(bits: u64) -> usize
    ensures { result ≡ get_or (members bits) 0 64 }
{
    u64::trailing_zeros(bits) as usize
}

// The word without its lowest set bit.
pub fn without_lowest(bits: u64) -> u64
    ensures { members result ≡ drop 1 (members bits) }
{
    if bits == 0 {
        return 0;
    }
    bits & (bits - 1)
}

// The set bit with `ordinal` set bits below it.
pub fn select(mask: u64, ordinal: usize) -> Option<usize>
    ensures { result ≡ selected (has mask) 64 ordinal }
{
    if ordinal >= popcount(mask) {
        return None;
    }
    let mut bits = mask;
    for _ in 0..ordinal {
        bits = without_lowest(bits);
    }
    Some(lowest(bits))
}

pub fn union(a: u64, b: u64) -> u64
    ensures { result ≡ word_of (λ i. has a i || has b i) }
{
    a | b
}

pub fn intersection(a: u64, b: u64) -> u64
    ensures { result ≡ word_of (λ i. has a i && has b i) }
{
    a & b
}

pub fn and_not(a: u64, b: u64) -> u64
    ensures { result ≡ word_of (λ i. has a i && not (has b i)) }
{
    a & !b
}

pub fn xor(a: u64, b: u64) -> u64
    ensures { result ≡ word_of (λ i. combined Operation.Xor (has a i) (has b i)) }
{
    a ^ b
}

// The operation by its name, since document 01 names it so.
pub fn combine(operation: Operation, a: u64, b: u64) -> u64
    ensures { result ≡ word_of (λ i. combined operation (has a i) (has b i)) }
{
    match operation {
        Operation::Union => union(a, b),
        Operation::Intersection => intersection(a, b),
        Operation::AndNot => and_not(a, b),
        Operation::Xor => xor(a, b),
    }
}

// The word with bit `offset` set; as it was where there is no such bit.
pub fn with_bit(mask: u64, offset: usize) -> u64
    ensures { result ≡ word_of (λ i. has mask i || eqb i offset) }
{
    if offset < 64 {
        mask | (1u64 << offset)
    } else {
        mask
    }
}

// The word with bit `offset` clear.
pub fn without_bit(mask: u64, offset: usize) -> u64
    ensures { result ≡ word_of (λ i. has mask i && not (eqb i offset)) }
{
    if offset < 64 {
        mask & !(1u64 << offset)
    } else {
        mask
    }
}

// The bits below `valid`.
pub fn trimmed(mask: u64, valid: usize) -> u64
    ensures { result ≡ word_of (λ i. has mask i && ltb i valid) }
{
    if valid < 64 {
        mask & ((1u64 << valid) - 1)
    } else {
        mask
    }
}
