//! Pieces of rows over opaque ones, in any mode.
ghost use Rattle.std.specs.Prelude.{◌≡◌, ℕ, ◌+◌, ◌≤◌, ◌<◌, true, length, slice_index_or};
ghost use Rattle.spec_document.specs.Over.{clear, IsPixel};
ghost use Rattle.xl_blend.specs.Lanes.{has_lanes};
ghost use Rattle.xl_blend.specs.Rows.{opaque_rows, opaque_so_far};

use crate::fours::{four_at, over_four, put_four};
use crate::pixels::over_opaque;
use spec_document::{Mode, Pixel};

/// Four pixels at a time, as long as there are four. Gives how many are done.
#[inline(always)]
fn lay_fours(mode: Mode, below: &mut [Pixel], above: &[Pixel]) -> usize
    requires lengths { length below.old ≡ length above.now }
    requires mode { has_lanes mode ≡ true }
    ensures within { result ≤ length below.new }
    ensures most { length below.new < result + 4 }
    ensures pixels { (k : ℕ) → k < result → IsPixel (slice_index_or above.now k clear) }
    ensures done { opaque_so_far mode result below.new above.now ≡ opaque_rows mode below.old
        above.now }
{
    let mut at = 0;
    while below.len() - at >= 4 {
        let four = over_four(mode, four_at(below, at), four_at(above, at));
        put_four(below, at, four);
        at += 4;
    }
    at
}

/// The pixels from a place on, one at a time.
#[inline(always)]
fn lay_ones(mode: Mode, below: &mut [Pixel], above: &[Pixel], from: usize)
    requires lengths { length below.old ≡ length above.now }
    requires within { from ≤ length below.old }
    ensures pixels { (k : ℕ) → from ≤ k → k < length above.now
        → IsPixel (slice_index_or above.now k clear) }
    ensures done { below.new ≡ opaque_so_far mode from below.old above.now }
{
    for i in from..below.len() {
        below[i] = over_opaque(mode, below[i], above[i]);
    }
}

/// All pixels, as many as can be four at a time.
#[inline(always)]
fn lay_in_lanes(mode: Mode, below: &mut [Pixel], above: &[Pixel])
    requires lengths { length below.old ≡ length above.now }
    requires mode { has_lanes mode ≡ true }
    ensures pixels { (k : ℕ) → k < length above.now → IsPixel (slice_index_or above.now k clear) }
    ensures done { below.new ≡ opaque_rows mode below.old above.now }
{
    let done = lay_fours(mode, below, above);
    lay_ones(mode, below, above, done);
}

/// Pixels over opaque ones. Each arm names its mode, so that its loop is compiled for that mode
/// alone. The clause `pixels` is there for the callers, which read no pixel.
#[tactic(auto, unfolding(crate::specs::Rows::so_far))]
pub fn lay_over_opaque(mode: Mode, below: &mut [Pixel], above: &[Pixel])
    requires { length below.old ≡ length above.now }
    ensures pixels { (k : ℕ) → k < length above.now → IsPixel (slice_index_or above.now k clear) }
    ensures done { below.new ≡ opaque_rows mode below.old above.now }
{
    match mode {
        Mode::Normal => lay_in_lanes(Mode::Normal, below, above),
        Mode::Multiply => lay_in_lanes(Mode::Multiply, below, above),
        Mode::Screen => lay_in_lanes(Mode::Screen, below, above),
        Mode::Overlay => lay_in_lanes(Mode::Overlay, below, above),
        Mode::Difference => lay_in_lanes(Mode::Difference, below, above),
        Mode::Addition => lay_in_lanes(Mode::Addition, below, above),
        Mode::Subtract => lay_in_lanes(Mode::Subtract, below, above),
        Mode::DarkenOnly => lay_in_lanes(Mode::DarkenOnly, below, above),
        Mode::LightenOnly => lay_in_lanes(Mode::LightenOnly, below, above),
        Mode::Divide => lay_ones(Mode::Divide, below, above, 0),
        Mode::Dodge => lay_ones(Mode::Dodge, below, above, 0),
        Mode::Burn => lay_ones(Mode::Burn, below, above, 0),
        Mode::HardLight => lay_in_lanes(Mode::HardLight, below, above),
        Mode::SoftLight => lay_in_lanes(Mode::SoftLight, below, above),
        Mode::GrainExtract => lay_in_lanes(Mode::GrainExtract, below, above),
        Mode::GrainMerge => lay_in_lanes(Mode::GrainMerge, below, above),
    }
}
