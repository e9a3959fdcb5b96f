//! Single pixels in the normal mode, by words.
ghost use Rattle.std.specs.Prelude.{◌≡◌, ◌≤◌};
ghost use Rattle.spec_document.specs.Over.{over_normal as laid_normal};
ghost use Rattle.xl_blend.specs.Words.{alpha_over, reciprocal_of};
ghost use Rattle.xl_blend.specs.Shown.{shown};

use crate::bytes::mean_by;
use crate::reciprocals::reciprocal;
use crate::words::{alpha, mul_bytes, of_bytes, of_word, wide_of, word};
use spec_document::Pixel;

/// The pixel, with no colour where it has no alpha.
#[inline(always)]
pub fn shown_of(pixel: Pixel) -> Pixel
    ensures { result ≡ shown pixel }
{
    of_word(if alpha(pixel) == 0 { 0 } else { word(pixel) })
}

/// The alpha of a pixel over another.
#[inline(always)]
pub fn alpha_of(below: Pixel, above: Pixel) -> u32
    ensures value { result ≡ alpha_over below above }
    ensures byte { result ≤ 255 }
{
    let part = alpha(above);
    part + mul_bytes(alpha(below), 255 - part)
}

/// A pixel over another, by its alpha and the reciprocal of that.
#[inline(always)]
pub fn over_by(below: Pixel, above: Pixel, whole: u32, reciprocal: u32) -> Pixel
    requires whole { whole ≡ alpha_over below above }
    requires is { reciprocal ≡ reciprocal_of whole }
    ensures { result ≡ laid_normal below above }
{
    let below = wide_of(below);
    let above = wide_of(above);
    let r = mean_by(whole, reciprocal, above.a, above.r, below.r);
    let g = mean_by(whole, reciprocal, above.a, above.g, below.g);
    let b = mean_by(whole, reciprocal, above.a, above.b, below.b);
    of_bytes(r, g, b, whole)
}

/// A pixel over another.
#[inline]
pub fn over_normal(below: Pixel, above: Pixel) -> Pixel
    ensures { result ≡ laid_normal below above }
{
    let whole = alpha_of(below, above);
    over_by(below, above, whole, reciprocal(whole))
}
