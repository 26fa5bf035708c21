// Numbers read from text, for the program trial: whole numbers and decimals.
#![tactic(auto)]

ghost use Rattle.std.specs.Prelude.{◌≡◌, ◌==◌, position};
ghost use Rattle.text.specs.Numbers.{whole_of, alone, parts, unsigned_of, real_of};

// A whole number of one to fifteen digits.
pub fn read_whole(word: &[u8]) -> Option<usize>
    ensures { result ≡ whole_of word.now }
{
    if word.is_empty() || word.len() > 15 {
        return None;
    }
    let mut value: usize = 0;
    for b in word {
        if !b.is_ascii_digit() {
            return None;
        }
        value = 10 * value + (*b - b'0') as usize;
    }
    Some(value)
}

// Digits without a point.
fn without_point(word: &[u8]) -> Option<f64>
    ensures { result ≡ alone word.now }
{
    let v = read_whole(word)?;
    Some(hybit_core::ratio(v as u64, 1))
}

// Digits before and behind a point: one division rounds once, since both numbers are below 2^53.
fn with_point(before: &[u8], behind: &[u8]) -> Option<f64>
    ensures { result ≡ parts before.now behind.now }
{
    let a = read_whole(before)?;
    let b = read_whole(behind)?;
    if before.len() + behind.len() > 15 {
        return None;
    }
    let power = 10usize.pow(behind.len() as u32);
    Some(hybit_core::ratio((a * power + b) as u64, power as u64))
}

// Where the first point stands.
fn point_of(word: &[u8]) -> Option<usize>
    ensures { result ≡ position (λ b. b == 46) word.now }
{
    word.iter().position(|b| *b == b'.')
}

fn unsigned(word: &[u8]) -> Option<f64>
    ensures { result ≡ unsigned_of word.now }
{
    match point_of(word) {
        Some(point) => with_point(&word[..point], &word[point + 1..]),
        None => without_point(word),
    }
}

// A decimal: perhaps a minus sign, digits, perhaps a point and digits behind it; at most fifteen digits.
pub fn read_real(word: &[u8]) -> Option<f64>
    ensures { result ≡ real_of word.now }
{
    match word.strip_prefix(b"-") {
        Some(rest) => unsigned(rest).map(|v| -v),
        None => unsigned(word),
    }
}
