// dense_block.rs: `structural_slots` of `DenseBlockCsrOperator::from_csr32`, the distinct places with an entry. The Rust counts them
// block by block; they are the same for either width, so here they are counted row by row.
#![tactic(auto)]

ghost use Rattle.std.specs.Prelude.{◌≡◌, false};
ghost use Rattle.hybit_core.specs.Answer.{answers};
ghost use Rattle.hybit_core.specs.Table.{given};
ghost use Rattle.word.specs.Bits.{count};
ghost use Rattle.mask.specs.Mask.{mask_words};
ghost use Rattle.mask.specs.Calls.{listed};
ghost use Rattle.csr32.specs.Csr.{csr_answer};
ghost use Rattle.dense_block.specs.Blocks.{structural_slots};
ghost use Rattle.csr32.specs.Matrix.{lent_csr};

use csr32::{CheckedCsr32, Csr32Matrix, CsrRow};
use hybit_core::HybitError;

// How many distinct columns a row has, by a bitmap that is empty before and after.
// One bitmap, without the two above it: what it shares with the builds of words and blocks are levels::mark and forget.
fn distinct(row: CsrRow, bits: &mut [u64]) -> usize
    requires { bits.old ≡ mask_words (λ c. false) row.ncols }
    ensures count { result ≡ count (listed row.entry.cols.now) row.entry.ncols }
    ensures bits { bits.new ≡ mask_words (λ c. false) row.entry.ncols }
{
    let mut found: usize = 0;
    for column in row.cols {
        let col = *column as usize;
        found += usize::from(!word::contains_offset(bits[col / 64], col % 64));
        levels::mark(bits, col);
    }
    levels::forget(row.cols, bits);
    found
}

// The distinct places with an entry, through 128 KiB of local bits.
pub fn count_structural(csr: CheckedCsr32) -> usize
    ensures { result ≡ structural_slots (lent_csr csr.entry.matrix) }
{
    // The library has no heap: the room is that of the largest input.
    let mut bits = [0u64; 16384];
    let nwords = csr.matrix.ncols.div_ceil(64);
    let mut slots: usize = 0;
    for row in 0..csr.matrix.nrows {
        slots += distinct(csr.row(row), &mut bits[..nwords]);
    }
    slots
}

// `count_structural` of a list that it checks.
pub fn structural_slots(csr: Csr32Matrix) -> Result<usize, HybitError>
    ensures { given result ≡ answers (csr_answer (lent_csr csr.entry)) (structural_slots (lent_csr csr.entry)) }
{
    Ok(count_structural(csr.checked()?))
}
