// topology.rs: `AbtmTopology`, the membership of a matrix in words of 64 columns. Its lists are lent by the caller, and every
// call on a record checks it: 1, 11. The questions to a row are the crate topology_rows, the build from a plot list is
// topology_build, the set operations are topology_combine.
#![tactic(auto)]

ghost use Rattle.std.specs.Prelude.{◌≡◌, ◌*◌, ◌%◌, ◌^◌, not, length, take, ◌==◌};
ghost use Rattle.hybit_core.specs.Answer.{answers};
ghost use Rattle.hybit_core.specs.Table.{told, given};
ghost use Rattle.lent.specs.Lists.{part, every, climbs};
ghost use Rattle.lent.specs.Lent.{padded};
ghost use Rattle.word.specs.Bits.{has, count, selected};
ghost use Rattle.word.specs.Word.{rank_answer as word_rank_answer};
ghost use Rattle.topology.specs.Words.{counted, word_rule, row_rule, row_rules, set_bits, word_rules, word_answer};
ghost use Rattle.topology.specs.Calls.{stats_of, average_word, word_fill, bytes_per_one};
ghost use Rattle.topology.specs.Matrix.{lent_topology};

use hybit_core::HybitError;

mod framed;
mod matrix;
mod row;

pub use framed::FramedTopology;
pub use matrix::AbtmTopology;
pub use row::{AbtmTopologyRow, CheckedTopologyRow};

// A word of a row by value.
#[derive(Clone, Copy)]
pub struct AbtmTopologyWord {
    pub word_index: u32,
    pub mask: u64,
}

#[derive(Clone, Copy)]
pub struct AbtmTopologyStats {
    pub nrows: usize,
    pub ncols: usize,
    pub structural_nnz: usize,
    pub nonempty_words: usize,
    pub metadata_bytes: usize,
}

// How many words a build wrote and how many bits they have.
#[derive(Clone, Copy)]
pub struct TopologySize {
    pub words: usize,
    pub structural_nnz: usize,
}

impl AbtmTopologyWord {
    // The first column of the word.
    pub fn base_col(self) -> usize
        ensures { result ≡ 64 * self.word_index }
    {
        64 * self.word_index as usize
    }

    pub fn popcount(self) -> usize
        ensures { result ≡ count (has self.mask) 64 }
    {
        word::popcount(self.mask)
    }

    // False from 64 on.
    pub fn contains_offset(self, offset: usize) -> bool
        ensures { result ≡ has self.mask offset }
    {
        word::contains_offset(self.mask, offset)
    }

    // Offsets from 0 to 64, 64 giving all ones; refused above.
    pub fn rank(self, offset: usize) -> Result<usize, HybitError>
        ensures { given result ≡ word_rank_answer self.mask offset }
    {
        word::rank(self.mask, offset)
    }

    pub fn select(self, ordinal: usize) -> Option<usize>
        ensures { result ≡ selected (has self.mask) 64 ordinal }
    {
        word::select(self.mask, ordinal)
    }
}

// The ratios are of the figures, whatever numbers they are.
impl AbtmTopologyStats {
    pub fn average_word_nnz(self) -> f64
        ensures { result ≡ average_word self }
    {
        hybit_core::ratio(self.structural_nnz as u64, self.nonempty_words as u64)
    }

    pub fn word_fill_ratio(self) -> f64
        ensures { result ≡ word_fill self }
    {
        self.average_word_nnz() / hybit_core::count_as_f64(64)
    }

    pub fn metadata_bytes_per_nnz(self) -> f64
        ensures { result ≡ bytes_per_one self }
    {
        hybit_core::ratio(self.metadata_bytes as u64, self.structural_nnz as u64)
    }
}

// Whether a row of so many columns may hold this word.
pub fn word_holds(ncols: usize, index: u32, mask: u64) -> bool
    ensures { result ≡ word_rule ncols (index, mask) }
{
    if mask == 0 {
        return false;
    }
    let base = 64 * index as usize;
    if base >= ncols {
        return false;
    }
    word::trimmed(mask, ncols - base) == mask
}

// The two tests below run to the end of a row, without a branch on what they find, so that several places are tested at a time.
// abtm_check has such tests of its own: there a word's number stands in its tile's meta.
fn numbers_climb(words: &[u32]) -> bool
    ensures { result ≡ climbs 0 words.now }
{
    let mut holds = true;
    for i in 1..words.len() {
        holds &= words[i - 1] < words[i];
    }
    holds
}

fn masks_hold(masks: &[u64]) -> bool
    ensures { result ≡ every (λ m. not (m == 0)) masks.now }
{
    let mut holds = true;
    for mask in masks {
        holds &= *mask != 0;
    }
    holds
}

// Where the numbers climb, no word before the last reaches the column count.
fn row_holds(ncols: usize, row: AbtmTopologyRow) -> bool
    ensures { result ≡ row_rule ncols row.entry.words.now row.entry.masks.now }
{
    let words = row.words;
    let masks = row.masks;
    if words.len() == 0 {
        return true;
    }
    if !numbers_climb(words) {
        return false;
    }
    if !masks_hold(masks) {
        return false;
    }
    let last = words.len() - 1;
    word_holds(ncols, words[last], masks[last])
}

// A loop and no `all`: that promises something of the run of its closure, where here each row's number counts.
fn rows_hold(framed: FramedTopology) -> bool
    ensures { result ≡ row_rules (lent_topology framed.entry.topology) }
{
    for row in 0..framed.topology.nrows {
        if !row_holds(framed.topology.ncols, framed.row(row)) {
            return false;
        }
    }
    true
}

// The set bits of a list of masks, for any list; the sum wraps, which 2^24 masks can't make it do.
pub fn count_bits(masks: &[u64]) -> usize
    ensures { result ≡ set_bits masks.now % 2 ^ 64 }
{
    let mut ones: usize = 0;
    for mask in masks {
        ones = ones.wrapping_add(word::popcount(*mask));
    }
    ones
}

// restricted_abtm has its own for a plot list: there the third list is of f64.
// Zeros in the pointers from place `rows` on, and in the words and masks from place `words` on: the end of every build.
// Lists that are written stay apart: a struct of them would have to name each in every contract.
pub fn clear_past(
    rows: usize,
    words: usize,
    row_word_ptr: &mut [u32],
    word_indices: &mut [u32],
    masks: &mut [u64],
)
    ensures pointers { row_word_ptr.new ≡ padded 0 (length row_word_ptr.old) (take rows row_word_ptr.old) }
    ensures numbers { word_indices.new ≡ padded 0 (length word_indices.old) (take words word_indices.old) }
    ensures bits { masks.new ≡ padded 0 (length masks.old) (take words masks.old) }
{
    lent::clear_from(row_word_ptr, rows);
    lent::clear_from(word_indices, words);
    lent::clear_from(masks, words);
}

fn lists_hold(topology: AbtmTopology) -> bool
    ensures { result ≡ word_rules (counted (lent_topology topology.entry)) }
{
    if !csr32::lists_hold(
        topology.nrows,
        topology.row_word_ptr,
        topology.word_indices.len(),
        topology.masks.len(),
    ) {
        return false;
    }
    rows_hold(FramedTopology { topology })
}

// The proofs know of a list that a call answers that its numbers have 64 bits, as of a parameter, but not of a field.
fn masks_of<'p, 'w, 'm>(topology: AbtmTopology<'p, 'w, 'm>) -> &'m [u64]
    ensures { result.now ≡ topology.entry.masks.now }
{
    topology.masks
}

impl<'p, 'w, 'm> FramedTopology<'p, 'w, 'm> {
    // The words and masks of a row, none past the last one. Its pointers are read once for both lists, with no test beside the row's
    // own: lent::part would compare them for each.
    pub fn row(self, row: usize) -> AbtmTopologyRow<'w, 'm>
        ensures words { result.words.now ≡ part self.entry.topology.row_word_ptr.now self.entry.topology.word_indices.now row }
        ensures masks { result.masks.now ≡ part self.entry.topology.row_word_ptr.now self.entry.topology.masks.now row }
    {
        let topology = self.topology;
        let all = masks_of(topology);
        if row >= topology.nrows {
            return AbtmTopologyRow {
                words: &topology.word_indices[..0],
                masks: &all[..0],
            };
        }
        let start = topology.row_word_ptr[row] as usize;
        let end = topology.row_word_ptr[row + 1] as usize;
        let words = &topology.word_indices[start..end];
        let masks = &all[start..end];
        AbtmTopologyRow { words, masks }
    }
}

impl<'p, 'w, 'm> AbtmTopology<'p, 'w, 'm> {
    // `check` of all but the total.
    pub fn check_lists(self) -> Result<(), HybitError>
        ensures { told result ≡ word_answer (counted (lent_topology self.entry)) }
    {
        if !hybit_core::sizes_fit(
            self.nrows,
            self.ncols,
            self.word_indices.len(),
            self.masks.len(),
        ) {
            return Err(HybitError::SizeOverflow);
        }
        if !lists_hold(self) {
            return Err(HybitError::BadWords);
        }
        Ok(())
    }

    // The Rust's `validate`.
    pub fn check(self) -> Result<(), HybitError>
        ensures { told result ≡ word_answer (lent_topology self.entry) }
    {
        self.check_lists()?;
        if self.structural_nnz != count_bits(self.masks) {
            return Err(HybitError::BadWords);
        }
        Ok(())
    }

    pub fn stats(self) -> Result<AbtmTopologyStats, HybitError>
        ensures { given result ≡ answers (word_answer (lent_topology self.entry)) (stats_of (lent_topology self.entry)) }
    {
        self.check()?;
        let words = self.word_indices.len();
        Ok(AbtmTopologyStats {
            nrows: self.nrows,
            ncols: self.ncols,
            structural_nnz: self.structural_nnz,
            nonempty_words: words,
            metadata_bytes: 4 * (self.nrows + 1) + 12 * words,
        })
    }
}
