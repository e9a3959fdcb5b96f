//! Rows of one pixel throughout.
ghost use Rattle.std.specs.Prelude.{◌≡◌, ℕ, ◌≤◌, ◌<◌, length, slice_index_or, map};
ghost use Rattle.std.specs.Bool.{OnTrue, OnFalse};
ghost use Rattle.spec_document.specs.declared.Pixel.{Pixel};
ghost use Rattle.spec_document.specs.Over.{clear};
ghost use Rattle.xl_blend.specs.Rows.{over_rows};
ghost use Rattle.xl_blend.specs.Uniform.{IsFirstAt, IsUniform};

use crate::pixels::over_pixel;
use crate::words::{of_word, word};
use spec_document::{Mode, Pixel};

/// The pixels of each row that are compared before the comparison may stop.
const BLOCK: usize = 32;

/// Whether each pixel of two rows, from a place to another, is the first of its row.
#[inline(always)]
fn are_firsts(below: &[Pixel], above: &[Pixel], from: usize, to: usize) -> bool
    requires some { 0 < length below.now }
    requires lengths { length below.now ≡ length above.now }
    requires order { from ≤ to }
    requires within { to ≤ length below.now }
    ensures each { OnTrue result ((k : ℕ) → from ≤ k → k < to → IsFirstAt k below.now × IsFirstAt
        k above.now) }
    ensures one_is_not { OnFalse result (¬ ((k : ℕ) → from ≤ k → k < to → IsFirstAt k below.now
        × IsFirstAt k above.now)) }
{
    let lower = word(below[0]);
    let upper = word(above[0]);
    let mut same = true;
    for i in from..to {
        same &= (word(below[i]) == lower) & (word(above[i]) == upper);
    }
    same
}

/// Whether each of two rows is uniform. A block that is not ends the comparison.
#[inline(never)]
fn are_throughout(below: &[Pixel], above: &[Pixel]) -> bool
    requires some { 0 < length below.now }
    requires lengths { length below.now ≡ length above.now }
    ensures below { OnTrue result (IsUniform below.now) }
    ensures above { OnTrue result (IsUniform above.now) }
    ensures otherwise { OnFalse result (¬ (IsUniform below.now × IsUniform above.now)) }
{
    let mut at = 0;
    while at < below.len() {
        let end = (below.len() - at).min(BLOCK) + at;
        if !are_firsts(below, above, at, end) {
            return false;
        }
        at = end;
    }
    true
}

/// Whether the first pixel of a row is its last; of an empty row the answer is no.
fn has_same_ends(row: &[Pixel]) -> bool
    ensures some { OnTrue result (0 < length row.now) }
    ensures otherwise { OnFalse result (¬ (0 < length row.now × IsUniform row.now)) }
{
    match row.first() {
        Some(first) => word(*first) == word(row[row.len() - 1]),
        None => false,
    }
}

/// Whether each of two rows is uniform; of empty rows the answer is no.
///
/// Most rows that are not are known by their ends, and are not read further.
#[inline]
pub fn are_uniform(below: &[Pixel], above: &[Pixel]) -> bool
    requires { length below.now ≡ length above.now }
    ensures some { OnTrue result (0 < length below.now) }
    ensures below { OnTrue result (IsUniform below.now) }
    ensures above { OnTrue result (IsUniform above.now) }
    ensures otherwise { OnFalse result (¬ (0 < length below.now × IsUniform below.now × IsUniform
        above.now)) }
{
    if has_same_ends(above) && has_same_ends(below) {
        are_throughout(below, above)
    } else {
        false
    }
}

/// Each pixel becomes this one, which is put together from its word, so that the loop is compiled to vectors.
fn fill(row: &mut [Pixel], pixel: Pixel)
    ensures { row.new ≡ map (λ (_ : Pixel). pixel) row.old }
{
    let word = word(pixel);
    for place in row {
        *place = of_word(word);
    }
}

/// A row over another, where the pixels of each are one throughout.
#[inline(never)]
pub fn lay_uniform(mode: Mode, below: &mut [Pixel], above: &[Pixel])
    requires some { 0 < length below.old }
    requires lengths { length below.old ≡ length above.now }
    requires below { IsUniform below.old }
    requires above { IsUniform above.now }
    ensures { below.new ≡ over_rows mode below.old above.now }
{
    let pixel = over_pixel(mode, below[0], above[0]);
    fill(below, pixel);
}
