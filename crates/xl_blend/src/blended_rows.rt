//! Pieces of rows in the modes other than the normal one.
ghost use Rattle.std.specs.Prelude.{◌≡◌, ◌≢◌, ℕ, ◌<◌, ◌≤◌, length, slice_index, slice_index_or};
ghost use Rattle.spec_document.specs.Over.{clear};
ghost use Rattle.xl_blend.specs.Rows.{blended_rows, over_rows};
ghost use Rattle.xl_blend.specs.Words.{reciprocal_of, weight};

use crate::alphas::{is_clear, is_opaque, reciprocals_of, weights_of};
use crate::normal_rows::PIECE;
use crate::opaque_rows::lay_over_opaque;
use crate::pixels::blend_by;
use crate::uniform_rows::{are_uniform, lay_uniform};
use spec_document::{Mode, Pixel};

/// Pixels over others, by what weighs their colours and the reciprocals of that.
#[inline(always)]
fn lay_by(mode: Mode, below: &mut [Pixel], above: &[Pixel], weights: &[u32], reciprocals: &[u32])
    requires above { length below.old ≡ length above.now }
    requires weights { length below.old ≡ length weights.now }
    requires reciprocals { length below.old ≡ length reciprocals.now }
    requires each { (k : ℕ) → k < length below.old → slice_index weights.now k ≡ weight
        (slice_index_or below.old k clear) (slice_index_or above.now k clear) }
    requires reciprocal { (k : ℕ) → k < length below.old
        → slice_index reciprocals.now k ≡ reciprocal_of (slice_index weights.now k) }
    ensures { below.new ≡ blended_rows mode below.old above.now }
{
    for i in 0..below.len() {
        below[i] = blend_by(mode, below[i], above[i], weights[i], reciprocals[i]);
    }
}

/// The same as `lay_by`, in a mode that is not the normal one. Each arm names its mode, so that its loop is compiled for
/// that mode alone.
fn lay_by_each(
    mode: Mode,
    below: &mut [Pixel],
    above: &[Pixel],
    weights: &[u32],
    reciprocals: &[u32],
)
    requires other { mode ≢ Mode.Normal }
    requires above { length below.old ≡ length above.now }
    requires weights { length below.old ≡ length weights.now }
    requires reciprocals { length below.old ≡ length reciprocals.now }
    requires each { (k : ℕ) → k < length below.old → slice_index weights.now k ≡ weight
        (slice_index_or below.old k clear) (slice_index_or above.now k clear) }
    requires reciprocal { (k : ℕ) → k < length below.old
        → slice_index reciprocals.now k ≡ reciprocal_of (slice_index weights.now k) }
    ensures { below.new ≡ blended_rows mode below.old above.now }
{
    match mode {
        Mode::Normal => unreachable!(),
        Mode::Multiply => lay_by(Mode::Multiply, below, above, weights, reciprocals),
        Mode::Screen => lay_by(Mode::Screen, below, above, weights, reciprocals),
        Mode::Overlay => lay_by(Mode::Overlay, below, above, weights, reciprocals),
        Mode::Difference => lay_by(Mode::Difference, below, above, weights, reciprocals),
        Mode::Addition => lay_by(Mode::Addition, below, above, weights, reciprocals),
        Mode::Subtract => lay_by(Mode::Subtract, below, above, weights, reciprocals),
        Mode::DarkenOnly => lay_by(Mode::DarkenOnly, below, above, weights, reciprocals),
        Mode::LightenOnly => lay_by(Mode::LightenOnly, below, above, weights, reciprocals),
        Mode::Divide => lay_by(Mode::Divide, below, above, weights, reciprocals),
        Mode::Dodge => lay_by(Mode::Dodge, below, above, weights, reciprocals),
        Mode::Burn => lay_by(Mode::Burn, below, above, weights, reciprocals),
        Mode::HardLight => lay_by(Mode::HardLight, below, above, weights, reciprocals),
        Mode::SoftLight => lay_by(Mode::SoftLight, below, above, weights, reciprocals),
        Mode::GrainExtract => lay_by(Mode::GrainExtract, below, above, weights, reciprocals),
        Mode::GrainMerge => lay_by(Mode::GrainMerge, below, above, weights, reciprocals),
    }
}

/// Pixels over any others, in a mode that is not the normal one.
fn lay_over_any(mode: Mode, below: &mut [Pixel], above: &[Pixel])
    requires other { mode ≢ Mode.Normal }
    requires lengths { length below.old ≡ length above.now }
    requires piece { length below.old ≤ PIECE }
    ensures { below.new ≡ blended_rows mode below.old above.now }
{
    let count = below.len();
    let mut weights = [0; PIECE];
    let mut reciprocals = [0; PIECE];
    let weights = &mut weights[..count];
    let reciprocals = &mut reciprocals[..count];
    weights_of(below, above, weights);
    reciprocals_of(weights, reciprocals);
    lay_by_each(mode, below, above, weights, reciprocals);
}

/// A piece of a row over another in a mode that is not the normal one.
pub fn lay_blended(mode: Mode, below: &mut [Pixel], above: &[Pixel])
    requires other { mode ≢ Mode.Normal }
    requires lengths { length below.old ≡ length above.now }
    requires piece { length below.old ≤ PIECE }
    ensures { below.new ≡ over_rows mode below.old above.now }
{
    if is_clear(above) {
        return;
    }
    if are_uniform(below, above) {
        lay_uniform(mode, below, above);
    } else if is_opaque(below) {
        lay_over_opaque(mode, below, above);
    } else {
        lay_over_any(mode, below, above);
    }
}
