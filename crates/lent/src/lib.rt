// Lists that the caller lends: clearing from a place on, and a row's part of a list. A build that is refused clears from 0 on, an
// accepted one from the end of its used part on. A place past the end clears nothing.
#![tactic(auto)]

ghost use Rattle.std.specs.Prelude.{◌≡◌, length, take, get_or};
ghost use Rattle.hybit_core.specs.Floats.{zero64};
ghost use Rattle.lent.specs.Lists.{part};
ghost use Rattle.lent.specs.Lent.{padded};

// What a cleared place holds.
// No `Default`: of a T in general its contract names no value, and contracts here name `zero`.
pub trait Zero: Copy + Drop {
    ghost zero: { Self };

    fn zero() -> Self
        ensures { result ≡ zero };
}

impl Zero for u32 {
    ghost zero = { 0 };

    fn zero() -> u32 {
        0
    }
}

impl Zero for u64 {
    ghost zero = { 0 };

    fn zero() -> u64 {
        0
    }
}

impl Zero for usize {
    ghost zero = { 0 };

    fn zero() -> usize {
        0
    }
}

impl Zero for f64 {
    ghost zero = { zero64 };

    fn zero() -> f64 {
        0.0
    }
}

// A loop and no `fill`: `fill` clones, and of a T in general nothing says that a clone is the value itself.
pub fn clear_from<T: Zero>(s: &mut [T], from: usize)
    ensures { s.new ≡ padded T.zero (length s.old) (take from s.old) }
{
    if from < s.len() {
        for place in &mut s[from..] {
            *place = T::zero();
        }
    }
}

// A pointer, 0 past the last.
pub fn pointer(ptr: &[u32], at: usize) -> usize
    ensures { result ≡ get_or ptr.now at 0 }
{
    if at < ptr.len() { ptr[at] as usize } else { 0 }
}

// A row's part of a list, by the list's pointers, whatever they are.
pub fn part<'a, T>(ptr: &[u32], list: &'a [T], row: usize) -> &'a [T]
    ensures { result.now ≡ part ptr.now list.now row }
{
    if row >= ptr.len() {
        return &list[..0];
    }
    let end = pointer(ptr, row + 1).min(list.len());
    let start = pointer(ptr, row);
    if start < end {
        &list[start..end]
    } else {
        &list[..0]
    }
}
