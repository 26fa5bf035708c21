// abtm.rs: `AbtmMatrix::expand_mask_one_hop`.
#![tactic(auto)]

ghost use Rattle.std.specs.Prelude.{◌≡◌, true, ◌&&◌, ◌||◌, ℕ, eqb, ltb, length, get_or};
ghost use mathlib.Core.List.{zip};
ghost use Rattle.hybit_core.specs.Answer.{accepted};
ghost use Rattle.hybit_core.specs.Table.{told};
ghost use Rattle.lent.specs.Lists.{each, every, some};
ghost use Rattle.lent.specs.Lent.{built};
ghost use Rattle.word.specs.Bits.{has, word_of};
ghost use Rattle.mask.specs.Mask.{mask_words};
ghost use Rattle.abtm.specs.Tiles.{word_in};
ghost use Rattle.abtm_expand.specs.Expand.{expanded, expand_answer};
ghost use Rattle.abtm.specs.Matrix.{lent_tiles};
ghost use Rattle.mask.specs.Dof.{lent_mask};

use abtm::AbtmMatrix;
use hybit_core::HybitError;
use mask::DofMask;

// Joins a row's tile masks into the words.
fn join_tiles(masks: &[u64], metas: &[u32], words: &mut [u64])
    requires paired { length metas.now ≡ length masks.now }
    requires inside { every (λ m. ltb (word_in m) (length words.old)) metas.now ≡ true }
    ensures { words.new ≡ each (λ w. word_of (λ i. has (get_or words.old w 0) i || some (λ (e : ℕ × ℕ). eqb (word_in e.1) w && has e.0 i) (zip masks.now metas.now))) (length words.old) }
{
    for (place, columns) in masks.iter().enumerate() {
        let index = abtm::word_in(metas[place]) as usize;
        words[index] = word::union(words[index], *columns);
    }
}

// A loop: copy_from_slice would ask the C library for memmove.
fn copy_words(from: &[u64], out: &mut [u64])
    requires { length out.old ≡ length from.now }
    ensures { out.new ≡ from.now }
{
    for (k, bits) in from.iter().enumerate() {
        out[k] = *bits;
    }
}

// The proofs know of a list that a call answers that its numbers have 64 bits, as they know it of a parameter, but not of a field.
fn masks_of<'a>(tiles: AbtmMatrix<'a, 'a, 'a, 'a>) -> &'a [u64]
    ensures { result.now ≡ tiles.entry.masks.now }
{
    tiles.masks
}

// The mask, and the columns of its rows: the rows are those of the mask that is lent, not of the one in the making.
// A row's pointers are read once for its two parts: lent::part would read and compare them for each.
fn fill_mask<'a>(tiles: AbtmMatrix<'a, 'a, 'a, 'a>, mask: DofMask, out: &mut [u64])
    requires valid { expand_answer (lent_tiles tiles) (lent_mask mask) (length out.old) ≡ accepted }
    requires long { length out.old ≡ length mask.words.now }
    ensures { out.new ≡ mask_words (expanded (lent_tiles tiles.entry) (lent_mask mask.entry)) mask.entry.len }
{
    let masks = masks_of(tiles);
    copy_words(mask.words, out);
    for row in 0..tiles.nrows {
        if mask.is_member(row) {
            let start = tiles.row_tile_ptr[row] as usize;
            let end = tiles.row_tile_ptr[row + 1] as usize;
            join_tiles(&masks[start..end], &tiles.metas[start..end], out);
        }
    }
}

// The mismatch stands beside its test: a function that takes both numbers and answers them would be no plainer.
fn examine_expand(tiles: AbtmMatrix, mask: DofMask, room: usize) -> Result<(), HybitError>
    ensures { told result ≡ expand_answer (lent_tiles tiles.entry) (lent_mask mask.entry) room }
{
    if !hybit_core::dimension_fits(mask.len) {
        return Err(HybitError::SizeOverflow);
    }
    abtm_check::check(tiles)?;
    mask.check()?;
    if tiles.nrows != tiles.ncols {
        return Err(HybitError::NotSquare);
    }
    if mask.len != tiles.nrows {
        return Err(HybitError::DimensionMismatch {
            expected: tiles.nrows,
            actual: mask.len,
        });
    }
    if room < mask.words.len() {
        return Err(HybitError::ShortList);
    }
    Ok(())
}

// The mask joined with the columns of its rows, in `out`: the used part is as many words as the mask has.
pub fn expand_mask_one_hop(
    tiles: AbtmMatrix,
    mask: DofMask,
    out: &mut [u64],
) -> Result<(), HybitError>
    ensures answer { told result ≡ expand_answer (lent_tiles tiles.entry) (lent_mask mask.entry) (length out.old) }
    ensures mask { out.new ≡ built 0 (length out.old) (expand_answer (lent_tiles tiles.entry) (lent_mask mask.entry) (length out.old)) (mask_words (expanded (lent_tiles tiles.entry) (lent_mask mask.entry)) mask.entry.len) }
{
    if let Err(e) = examine_expand(tiles, mask, out.len()) {
        lent::clear_from(out, 0);
        return Err(e);
    }
    let used = mask.words.len();
    fill_mask(tiles, mask, &mut out[..used]);
    lent::clear_from(out, used);
    Ok(())
}
