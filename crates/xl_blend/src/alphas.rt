//! The alphas of rows of pixels.
ghost use Rattle.std.specs.Prelude.{◌≡◌, ℕ, ◌<◌, ◌≤◌, length, slice_index, slice_index_or};
ghost use Rattle.std.specs.Bool.{OnTrue};
ghost use Rattle.spec_document.specs.Over.{clear, IsPixel};
ghost use Rattle.xl_blend.specs.Words.{word_of, alpha_over, reciprocal_of, weight};

use crate::normal::alpha_of;
use crate::pixels::weight_of;
use crate::reciprocals::reciprocal;
use crate::words::word;
use spec_document::Pixel;

/// Whether a row is opaque; of an empty row the answer is no.
///
/// Most rows that are not are known by their first pixel, and are not read further.
#[inline]
pub fn is_opaque(row: &[Pixel]) -> bool
    ensures { OnTrue result ((k : ℕ) → k < length row.now → (slice_index_or row.now k clear).a
        ≡ 255) }
{
    match row.first() {
        Some(first) if first.a == 255 => least_word(row) >= OPAQUE,
        _ => false,
    }
}

/// Whether a row has no alpha anywhere; of an empty row the answer is no.
#[inline]
pub fn is_clear(row: &[Pixel]) -> bool
    ensures { OnTrue result ((k : ℕ) → k < length row.now → (slice_index_or row.now k clear).a
        ≡ 0) }
{
    match row.first() {
        Some(first) if first.a == 0 => greatest_word(row) < SOME,
        _ => false,
    }
}

/// The least word of an opaque pixel.
const OPAQUE: u32 = 0xff00_0000;

/// The least word of a pixel with some alpha.
const SOME: u32 = 0x0100_0000;

/// The least of the words of the pixels, whose highest byte is the alpha.
fn least_word(row: &[Pixel]) -> u32
    ensures least { (k : ℕ) → k < length row.now
        → result ≤ word_of (slice_index_or row.now k clear) }
    ensures pixels { (k : ℕ) → k < length row.now → IsPixel (slice_index_or row.now k clear) }
{
    let mut least = u32::MAX;
    for pixel in row {
        least = word(*pixel).min(least);
    }
    least
}

/// The greatest of the words of the pixels, and 0 where there is none.
fn greatest_word(row: &[Pixel]) -> u32
    ensures { (k : ℕ) → k < length row.now → word_of (slice_index_or row.now k clear) ≤ result }
{
    let mut greatest = 0;
    for pixel in row {
        greatest = word(*pixel).max(greatest);
    }
    greatest
}

/// The alpha of each pixel over the one below it.
#[inline]
pub fn wholes_of(below: &[Pixel], above: &[Pixel], wholes: &mut [u32])
    requires above { length below.now ≡ length above.now }
    requires wholes { length below.now ≡ length wholes.old }
    ensures each { (k : ℕ) → k < length below.now → slice_index wholes.new k ≡ alpha_over
        (slice_index_or below.now k clear) (slice_index_or above.now k clear) }
    ensures bytes { (k : ℕ) → k < length below.now → slice_index wholes.new k ≤ 255 }
{
    for i in 0..below.len() {
        wholes[i] = alpha_of(below[i], above[i]);
    }
}

/// The whole weight of the colours of each pixel and the one below it, in any mode but the normal one.
#[inline]
pub fn weights_of(below: &[Pixel], above: &[Pixel], weights: &mut [u32])
    requires above { length below.now ≡ length above.now }
    requires weights { length below.now ≡ length weights.old }
    ensures each { (k : ℕ) → k < length below.now → slice_index weights.new k ≡ weight
        (slice_index_or below.now k clear) (slice_index_or above.now k clear) }
    ensures bytes { (k : ℕ) → k < length below.now → slice_index weights.new k ≤ 255 }
{
    for i in 0..below.len() {
        weights[i] = weight_of(below[i], above[i]);
    }
}

/// The reciprocal of each whole.
#[inline]
pub fn reciprocals_of(wholes: &[u32], reciprocals: &mut [u32])
    requires lengths { length wholes.now ≡ length reciprocals.old }
    requires bytes { (k : ℕ) → k < length wholes.now → slice_index wholes.now k ≤ 255 }
    ensures { (k : ℕ) → k < length wholes.now → slice_index reciprocals.new k ≡ reciprocal_of
        (slice_index wholes.now k) }
{
    for i in 0..wholes.len() {
        reciprocals[i] = reciprocal(wholes[i]);
    }
}
