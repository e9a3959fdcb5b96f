//! One pixel laid over another.
ghost use Rattle.std.specs.Prelude.{◌≡◌, ◌+◌, ◌≤◌};
ghost use Rattle.spec_document.specs.Over.{over as laid_over, over_blended as laid_blended, IsPixel};
ghost use Rattle.xl_blend.specs.Rows.{over_opaque as laid_opaque};
ghost use Rattle.xl_blend.specs.Words.{reciprocal_of, weight};

use crate::bytes::{mean, mean_by};
use crate::colours::blend;
use crate::count::Steps;
use crate::normal::over_normal;
use crate::words::{alpha, mix_byte, mul_bytes, of_bytes, wide_of};
use spec_document::{Mode, Pixel};
use std::sync::ledger::Ledger;

/// A pixel laid over another in any mode but the normal one.
#[inline(always)]
pub fn over_blended(mode: Mode, below: Pixel, above: Pixel) -> Pixel
    ensures { result ≡ laid_blended mode below above }
{
    let part = u32::from(above.a.min(below.a));
    let alpha = u32::from(below.a);
    let total = alpha + mul_bytes(255 - alpha, part);
    if part == 0 {
        return below;
    }
    Pixel {
        r: mean(total, part, blend(mode, below.r, above.r), below.r),
        g: mean(total, part, blend(mode, below.g, above.g), below.g),
        b: mean(total, part, blend(mode, below.b, above.b), below.b),
        a: below.a,
    }
}

/// The whole weight of the colours of two pixels in any mode but the normal one, and 1 where that is nothing, so that
/// it can divide.
#[inline(always)]
pub fn weight_of(below: Pixel, above: Pixel) -> u32
    ensures value { result ≡ weight below above }
    ensures byte { result ≤ 255 }
{
    let lower = alpha(below);
    let part = alpha(above).min(lower);
    (lower + mul_bytes(255 - lower, part)).max(1)
}

/// A pixel laid over another in any mode but the normal one, by their whole weight and its reciprocal.
#[inline(always)]
pub fn blend_by(mode: Mode, below: Pixel, above: Pixel, whole: u32, reciprocal: u32) -> Pixel
    requires whole { whole ≡ weight below above }
    requires is { reciprocal ≡ reciprocal_of whole }
    ensures { result ≡ laid_blended mode below above }
{
    let lower = wide_of(below);
    let upper = wide_of(above);
    let part = upper.a.min(lower.a);
    let red = u32::from(blend(mode, lower.r as u8, upper.r as u8));
    let green = u32::from(blend(mode, lower.g as u8, upper.g as u8));
    let blue = u32::from(blend(mode, lower.b as u8, upper.b as u8));
    let r = mean_by(whole, reciprocal, part, red, lower.r);
    let g = mean_by(whole, reciprocal, part, green, lower.g);
    let b = mean_by(whole, reciprocal, part, blue, lower.b);
    of_bytes(r, g, b, lower.a)
}

/// A pixel laid in a mode over one that is taken as opaque, whatever its alpha.
#[inline(always)]
pub fn over_opaque(mode: Mode, below: Pixel, above: Pixel) -> Pixel
    ensures value { result ≡ laid_opaque mode below above }
    ensures pixel { IsPixel above }
{
    let lower = wide_of(below);
    let upper = wide_of(above);
    let red = u32::from(blend(mode, lower.r as u8, upper.r as u8));
    let green = u32::from(blend(mode, lower.g as u8, upper.g as u8));
    let blue = u32::from(blend(mode, lower.b as u8, upper.b as u8));
    let r = mix_byte(upper.a, red, lower.r);
    let g = mix_byte(upper.a, green, lower.g);
    let b = mix_byte(upper.a, blue, lower.b);
    of_bytes(r, g, b, 255)
}

/// A pixel laid over another in a mode.
pub fn over_pixel(mode: Mode, below: Pixel, above: Pixel) -> Pixel
    ensures { result ≡ laid_over mode below above }
{
    match mode {
        Mode::Normal => over_normal(below, above),
        _ => over_blended(mode, below, above),
    }
}

/// A pixel laid over another, which is one step.
pub fn over<L: Ledger>(mode: Mode, below: Pixel, above: Pixel, steps: &mut Steps<L>) -> Pixel
    ensures pixel { result ≡ laid_over mode below above }
    ensures cost { steps.new ≡ steps.old + 1 }
{
    steps.add(1);
    over_pixel(mode, below, above)
}
