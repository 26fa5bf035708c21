// metadata_first.rs: `AbtmMetadataFirstMatrix`, the packed store: the words of a matrix and one value per present column. Its
// lists are lent by the caller, and every call on a store checks it: 1; 11, 12. Here are its check, its parts and figures, and
// the report of a dot; the dot itself is the crate metadata_first_dot, packing is metadata_first_build.
#![tactic(auto)]

ghost use Rattle.std.specs.Prelude.{◌≡◌, true, ◌+◌, ◌-◌, ◌%◌, ◌<◌, ◌^◌, eqb, ltb, length};
ghost use Rattle.hybit_core.specs.Answer.{on_given, accepted, refused, plain, demand, answers, ◌and_then◌};
ghost use Rattle.hybit_core.specs.Table.{told, given};
ghost use Rattle.lent.specs.Lists.{part};
ghost use Rattle.csr32.specs.Csr.{framed};
ghost use Rattle.topology.specs.Words.{counted, word_answer, set_bits};
ghost use Rattle.topology.specs.Matrix.{lent_topology};
ghost use Rattle.metadata_first.specs.Store.{counted_store, value_rules, store_rules, store_answer, store_row_answer, store_stats, estimated_bytes};
ghost use Rattle.metadata_first.specs.Dot.{counts_of, pruning_ratio, empty_word_ratio, accumulated, totals_fit, accumulate_answer};
ghost use Rattle.metadata_first.specs.Matrix.{lent_store};

use hybit_core::HybitError;
use topology::AbtmTopology;

mod matrix;

pub use matrix::AbtmMetadataFirstMatrix;

// The counts of one dot, or of several together.
#[derive(Clone, Copy)]
pub struct AbtmProductPruningStats {
    pub candidate_products: usize,
    pub executed_products: usize,
    pub skipped_products: usize,
    pub topology_words: usize,
    pub active_words: usize,
}

// The report of a row's dot: the number and its five counts, where the Rust answers a pair. Document 01 has them in one record.
#[derive(Clone, Copy)]
pub struct AbtmRowDot {
    pub sum: f64,
    pub candidate_products: usize,
    pub executed_products: usize,
    pub skipped_products: usize,
    pub topology_words: usize,
    pub active_words: usize,
}

#[derive(Clone, Copy)]
pub struct AbtmMetadataFirstStats {
    pub nrows: usize,
    pub ncols: usize,
    pub structural_nnz: usize,
    pub topology_metadata_bytes: usize,
    pub value_row_ptr_bytes: usize,
    pub packed_value_bytes: usize,
}

// Whether a + b is at most 2^64 − 1.
fn sum_fits(a: usize, b: usize) -> bool
    ensures { result ≡ ltb (a + b) (2 ^ 64) }
{
    a.checked_add(b).is_some()
}

// Whether the five totals of two counts are at most 2^64 − 1. All are tested before one is added: one refusal for the five.
fn totals_fit(a: AbtmProductPruningStats, b: AbtmProductPruningStats) -> bool
    ensures { result ≡ totals_fit (accumulated a b) }
{
    if !sum_fits(a.candidate_products, b.candidate_products) {
        return false;
    }
    if !sum_fits(a.executed_products, b.executed_products) {
        return false;
    }
    if !sum_fits(a.skipped_products, b.skipped_products) {
        return false;
    }
    if !sum_fits(a.topology_words, b.topology_words) {
        return false;
    }
    sum_fits(a.active_words, b.active_words)
}

// The ratios are of the counts, whatever numbers they are.
impl AbtmProductPruningStats {
    pub fn pruning_ratio(self) -> f64
        ensures { result ≡ pruning_ratio self }
    {
        hybit_core::ratio(self.skipped_products as u64, self.candidate_products as u64)
    }

    // The Rust subtracts below zero where more words are active than there are; here that is 0.
    pub fn empty_word_ratio(self) -> f64
        ensures { result ≡ empty_word_ratio self }
    {
        if self.topology_words < self.active_words {
            return hybit_core::ratio(0, self.topology_words as u64);
        }
        hybit_core::ratio(
            (self.topology_words - self.active_words) as u64,
            self.topology_words as u64,
        )
    }

    pub fn accumulate(
        self,
        other: AbtmProductPruningStats,
    ) -> Result<AbtmProductPruningStats, HybitError>
        ensures { given result ≡ answers (accumulate_answer self other) (accumulated self other) }
    {
        if !totals_fit(self, other) {
            return Err(HybitError::SizeOverflow);
        }
        Ok(AbtmProductPruningStats {
            candidate_products: self.candidate_products + other.candidate_products,
            executed_products: self.executed_products + other.executed_products,
            skipped_products: self.skipped_products + other.skipped_products,
            topology_words: self.topology_words + other.topology_words,
            active_words: self.active_words + other.active_words,
        })
    }
}

impl AbtmRowDot {
    // The five counts. A method and no From: its name says what is taken.
    pub fn counts(self) -> AbtmProductPruningStats
        ensures { result ≡ counts_of self }
    {
        AbtmProductPruningStats {
            candidate_products: self.candidate_products,
            executed_products: self.executed_products,
            skipped_products: self.skipped_products,
            topology_words: self.topology_words,
            active_words: self.active_words,
        }
    }

    pub fn pruning_ratio(self) -> f64
        ensures { result ≡ pruning_ratio (counts_of self) }
    {
        self.counts().pruning_ratio()
    }

    pub fn empty_word_ratio(self) -> f64
        ensures { result ≡ empty_word_ratio (counts_of self) }
    {
        self.counts().empty_word_ratio()
    }
}

impl AbtmMetadataFirstStats {
    pub fn total_estimated_bytes(self) -> usize
        ensures { result ≡ estimated_bytes self }
    {
        self.topology_metadata_bytes
            .saturating_add(self.value_row_ptr_bytes)
            .saturating_add(self.packed_value_bytes)
    }
}

// The proofs know of a list that a call answers that its numbers have 64 bits, as of a parameter, but not of a field.
fn masks_of<'p, 'w, 'm>(topology: AbtmTopology<'p, 'w, 'm>) -> &'m [u64]
    ensures { result.now ≡ topology.entry.masks.now }
{
    topology.masks
}

// Whether every row has as many values as present columns. A loop and no `all`: its closure would have to be told that a row's
// pointers are inside.
fn counts_hold(packed: AbtmMetadataFirstMatrix) -> bool
    requires words { word_answer (counted (lent_topology packed.topology)) ≡ accepted }
    requires pointers { framed packed.topology.nrows packed.row_value_ptr.now (length packed.values.now) ≡ true }
    ensures { result ≡ value_rules (counted_store (lent_store packed.entry)) }
{
    let masks = masks_of(packed.topology);
    for row in 0..packed.topology.nrows {
        let start = packed.topology.row_word_ptr[row] as usize;
        let end = packed.topology.row_word_ptr[row + 1] as usize;
        let first = packed.row_value_ptr[row] as usize;
        let last = packed.row_value_ptr[row + 1] as usize;
        if last - first != topology::count_bits(&masks[start..end]) {
            return false;
        }
    }
    true
}

fn rules_hold(packed: AbtmMetadataFirstMatrix) -> bool
    requires { word_answer (counted (lent_topology packed.topology)) ≡ accepted }
    ensures { result ≡ store_rules (counted_store (lent_store packed.entry)) }
{
    if !csr32::pointers_hold(
        packed.topology.nrows,
        packed.row_value_ptr,
        packed.values.len(),
    ) {
        return false;
    }
    if !counts_hold(packed) {
        return false;
    }
    csr32::all_finite(packed.values)
}

// 12, and before it 11 for a wrong total.
fn refused_store(masks: &[u64], structural_nnz: usize) -> Result<(), HybitError>
    ensures { told result ≡ demand (eqb structural_nnz (set_bits masks.now % 2 ^ 64)) 11 and_then refused (plain 12) }
{
    if structural_nnz != topology::count_bits(masks) {
        return Err(HybitError::BadWords);
    }
    Err(HybitError::BadStore)
}

impl<'p, 'w, 'm, 'r, 'v> AbtmMetadataFirstMatrix<'p, 'w, 'm, 'r, 'v> {
    // The Rust's `validate`. Where every row has as many values as present columns, the total of set bits is the number of
    // values, and the bits need not be counted again.
    pub fn check(self) -> Result<(), HybitError>
        ensures { told result ≡ store_answer (lent_store self.entry) }
    {
        if !hybit_core::entries_fit(self.values.len()) {
            return Err(HybitError::SizeOverflow);
        }
        self.topology.check_lists()?;
        let masks = masks_of(self.topology);
        if !rules_hold(self) {
            return refused_store(masks, self.topology.structural_nnz);
        }
        if self.topology.structural_nnz != self.values.len() {
            return Err(HybitError::BadWords);
        }
        Ok(())
    }

    // The row's values, as that part of the lent list.
    pub fn row_values(self, row: usize) -> Result<&'v [f64], HybitError>
        ensures { on_given (λ s. s.now) (given result) ≡ answers (store_row_answer (lent_store self.entry) row) (part self.entry.row_value_ptr.now self.entry.values.now row) }
    {
        check_row(self, row)?;
        let start = self.row_value_ptr[row] as usize;
        let end = self.row_value_ptr[row + 1] as usize;
        Ok(&self.values[start..end])
    }

    pub fn stats(self) -> Result<AbtmMetadataFirstStats, HybitError>
        ensures { given result ≡ answers (store_answer (lent_store self.entry)) (store_stats (lent_store self.entry)) }
    {
        self.check()?;
        Ok(AbtmMetadataFirstStats {
            nrows: self.topology.nrows,
            ncols: self.topology.ncols,
            structural_nnz: self.topology.structural_nnz,
            topology_metadata_bytes: 4 * (self.topology.nrows + 1)
                + 12 * self.topology.word_indices.len(),
            value_row_ptr_bytes: 4 * self.row_value_ptr.len(),
            packed_value_bytes: 8 * self.values.len(),
        })
    }
}

fn check_row(packed: AbtmMetadataFirstMatrix, row: usize) -> Result<(), HybitError>
    ensures { told result ≡ store_row_answer (lent_store packed.entry) row }
{
    packed.check()?;
    if row >= packed.topology.nrows {
        return Err(HybitError::NoSuchPlace);
    }
    Ok(())
}
