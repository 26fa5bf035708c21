// hybit-core/src/lib.rs: the refusals and what carries them, the limits of the domain, counts as floats.
#![tactic(auto)]

ghost use Rattle.std.specs.Prelude.{◌≡◌, ◌%◌, ◌^◌};
ghost use Rattle.hybit_core.specs.Table.{paper};
ghost use Rattle.hybit_core.specs.Domain.{few, many, sizes_fit};
ghost use Rattle.hybit_core.specs.Floats.{finite, count_as_float, ratio_of};

// Rows, columns and mask lengths go up to this.
pub const MAX_DIMENSION: usize = 1048576;

// Stored entries, words, tiles and blocks go up to this.
pub const MAX_ENTRIES: usize = 16777216;

// Document 01's refusals. The Rust has names for two of them; the others have the document's words.
#[derive(Clone, Copy, Debug, PartialEq, Eq)]
pub enum HybitError {
    SizeOverflow,
    BadFrame,
    OutsideColumn,
    NotFinite,
    BadMask,
    DimensionMismatch { expected: usize, actual: usize },
    NoSuchPlace,
    FramesDiffer,
    BadThresholds,
    NotSquare,
    BadWords,
    BadStore,
    ShortList,
}

impl HybitError {
    // The refusal's number in document 01's table.
    // A method and no `From` for u32: its name says whose number it is.
    pub fn number(self) -> u32
        ensures { result ≡ (paper self).number }
    {
        match self {
            HybitError::SizeOverflow => 1,
            HybitError::BadFrame => 2,
            HybitError::OutsideColumn => 3,
            HybitError::NotFinite => 4,
            HybitError::BadMask => 5,
            HybitError::DimensionMismatch { .. } => 6,
            HybitError::NoSuchPlace => 7,
            HybitError::FramesDiffer => 8,
            HybitError::BadThresholds => 9,
            HybitError::NotSquare => 10,
            HybitError::BadWords => 11,
            HybitError::BadStore => 12,
            HybitError::ShortList => 13,
        }
    }

    // The expected length under 6, and 0 under any other number.
    // No Option: an answer of C holds this number, and 0 where there is none.
    pub fn expected(self) -> usize
        ensures { result ≡ (paper self).expected }
    {
        match self {
            HybitError::DimensionMismatch { expected, .. } => expected,
            _ => 0,
        }
    }

    // The actual length under 6, and 0 under any other number.
    // Two fields under the two names that C's answers have: one function for both is no plainer where they are made.
    pub fn actual(self) -> usize
        ensures { result ≡ (paper self).actual }
    {
        match self {
            HybitError::DimensionMismatch { actual, .. } => actual,
            _ => 0,
        }
    }
}

// Whether a row count, a column count or a mask length lies in the domain.
pub fn dimension_fits(n: usize) -> bool
    ensures { result ≡ few n }
{
    n <= MAX_DIMENSION
}

// Whether a number of stored entries, words, tiles or blocks lies in the domain.
pub fn entries_fit(n: usize) -> bool
    ensures { result ≡ many n }
{
    n <= MAX_ENTRIES
}

// Whether a record's rows and columns, and two lists of it side by side, lie in the domain.
pub fn sizes_fit(nrows: usize, ncols: usize, left: usize, right: usize) -> bool
    ensures { result ≡ sizes_fit nrows ncols left right }
{
    if !dimension_fits(nrows) {
        return false;
    }
    if !dimension_fits(ncols) {
        return false;
    }
    if !entries_fit(left) {
        return false;
    }
    entries_fit(right)
}

// An index as a stored number, as the Rust's `as u32`: its low 32 bits. The language's own `as` asks that the number fits.
pub fn narrow(n: usize) -> u32
    ensures { result ≡ n % 2 ^ 32 }
{
    (n % 4294967296) as u32
}

// The f64 nearest to a count, ties to even.
pub fn count_as_f64(n: u64) -> f64
    ensures { result ≡ count_as_float n }
{
    std::num::nearest_u64_to_f64(n)
}

// part ÷ whole in f64 by one division; 0.0 where whole is 0.
pub fn ratio(part: u64, whole: u64) -> f64
    ensures { result ≡ ratio_of part whole }
{
    if whole == 0u64 {
        return 0.0f64;
    }
    count_as_f64(part) / count_as_f64(whole)
}

// Neither NaN nor infinite.
// Two comparisons, with which the scans were timed; std's `is_finite` subtracts, and its answer is another definition.
pub fn is_finite(x: f64) -> bool
    ensures { result ≡ finite x }
{
    let inf = 1.0f64 / 0.0f64;
    if x < inf { -inf < x } else { false }
}
