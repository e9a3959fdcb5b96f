//! The blend modes on lanes of 16 bits, each with the colour byte of a pixel. Four pixels are sixteen lanes.
//!
//! The sums and products fit 16 bits, and where twice a product does not, its half is rounded.
ghost use Rattle.std.specs.Prelude.{◌≡◌, ◌+◌, ◌-◌, ◌/◌, min, max, true, map};
ghost use Rattle.std.specs.Simd.Lanes.{zip2};
ghost use Rattle.spec_document.specs.Blend.{blend as blended, mul as product, screen as screened};
ghost use Rattle.xl_blend.specs.Lanes.{AreBytes, has_lanes, means};

use spec_document::Mode;
use std::simd::prelude::*;

/// The lesser number of each two lanes.
#[inline(always)]
fn least(a: u16x16, b: u16x16) -> u16x16
    ensures { result ≡ zip2 min a b }
{
    a.simd_min(b)
}

/// The greater number of each two lanes.
#[inline(always)]
fn greatest(a: u16x16, b: u16x16) -> u16x16
    ensures { result ≡ zip2 max a b }
{
    a.simd_max(b)
}

/// The difference of each two lanes, which stops at 0.
#[inline(always)]
fn less(a: u16x16, b: u16x16) -> u16x16
    ensures { result ≡ zip2 (λ x y. x - y) a b }
{
    a.saturating_sub(b)
}

/// The numbers (n + n / 256) / 256. Where n is a product and 128, this is the product divided by 255, rounded to
/// the nearest. With the high halves of products it takes one instruction.
#[inline(always)]
fn divided_by_255(of: u16x16) -> u16x16
    ensures { result ≡ map (λ n. (n + n / 256) / 256) of }
{
    ((of.cast::<u32>() * u32x16::splat(257)) >> 16).cast::<u16>()
}

/// The products in parts of 255.
#[inline(always)]
fn products(a: u16x16, b: u16x16) -> u16x16
    requires a { AreBytes a }
    requires b { AreBytes b }
    ensures value { result ≡ zip2 product a b }
    ensures bytes { AreBytes result }
{
    divided_by_255(a * b + u16x16::splat(128))
}

/// The values of `Screen`.
#[inline(always)]
fn screens(i: u16x16, m: u16x16) -> u16x16
    requires below { AreBytes i }
    requires above { AreBytes m }
    ensures value { result ≡ zip2 screened i m }
    ensures bytes { AreBytes result }
{
    i + m - products(i, m)
}

/// The values of `Overlay`. Twice the inner product takes 17 bits.
#[inline(always)]
fn overlays(i: u16x16, m: u16x16) -> u16x16
    requires below { AreBytes i }
    requires above { AreBytes m }
    ensures { result ≡ zip2 (blended Mode.Overlay) i m }
{
    let half = m * (u16x16::splat(255) - i) + u16x16::splat(64);
    let double = (half + (((half >> 7) + (half >> 15)) >> 1)) >> 7;
    divided_by_255(i * (i + double) + u16x16::splat(128))
}

/// The values of `HardLight`.
#[inline(always)]
fn hard_lights(i: u16x16, m: u16x16) -> u16x16
    requires below { AreBytes i }
    requires above { AreBytes m }
    ensures { result ≡ zip2 (blended Mode.HardLight) i m }
{
    let dark = (i * m) >> 7;
    let light = ((u16x16::splat(255) - i) * (u16x16::splat(511) - m - m)) >> 8;
    m.simd_gt(u16x16::splat(128))
        .select(u16x16::splat(255) - light, dark)
}

/// The values of `SoftLight`.
#[inline(always)]
fn soft_lights(i: u16x16, m: u16x16) -> u16x16
    requires below { AreBytes i }
    requires above { AreBytes m }
    ensures { result ≡ zip2 (blended Mode.SoftLight) i m }
{
    let part = products(i, m);
    part - products(i, part) + products(i, screens(i, m))
}

/// The colour bytes that a mode gives for `i` below and `m` above.
#[inline(always)]
pub fn blends(mode: Mode, i: u16x16, m: u16x16) -> u16x16
    requires mode { has_lanes mode ≡ true }
    requires below { AreBytes i }
    requires above { AreBytes m }
    ensures value { result ≡ zip2 (blended mode) i m }
    ensures bytes { AreBytes result }
{
    match mode {
        Mode::Normal => m,
        Mode::Multiply => products(i, m),
        Mode::Screen => screens(i, m),
        Mode::Overlay => overlays(i, m),
        Mode::Difference => less(i, m) + less(m, i),
        Mode::Addition => least(i + m, u16x16::splat(255)),
        Mode::Subtract => less(i, m),
        Mode::DarkenOnly => least(i, m),
        Mode::LightenOnly => greatest(i, m),
        Mode::HardLight => hard_lights(i, m),
        Mode::SoftLight => soft_lights(i, m),
        Mode::GrainExtract => least(less(i + u16x16::splat(128), m), u16x16::splat(255)),
        Mode::GrainMerge => least(less(i + m, u16x16::splat(128)), u16x16::splat(255)),
        Mode::Divide | Mode::Dodge | Mode::Burn => unreachable!(),
    }
}

/// The means of lanes, where those above have some weights of 255.
#[inline(always)]
pub fn mixes(weights: u16x16, above: u16x16, below: u16x16) -> u16x16
    requires weights { AreBytes weights }
    requires above { AreBytes above }
    requires below { AreBytes below }
    ensures value { result ≡ means weights above below }
    ensures bytes { AreBytes result }
{
    divided_by_255(above * weights + below * (u16x16::splat(255) - weights) + u16x16::splat(128))
}
