//! Products and means of bytes, rounded to the nearest.
ghost use Rattle.std.specs.Prelude.{◌≡◌, ◌≤◌, ◌<◌};
ghost use Rattle.spec_document.specs.Blend.{mul as product};
ghost use Rattle.spec_document.specs.Over.{mean as laid_mean};
ghost use Rattle.xl_blend.specs.Words.{reciprocal_of};

use crate::reciprocals::{quotient, reciprocal};

/// The product in parts of 255.
#[inline]
pub fn mul(a: u32, b: u32) -> u32
    requires left { a ≤ 1024 }
    requires right { b ≤ 1024 }
    ensures exact { result ≡ product a b }
    ensures part_of_right { a ≤ 255 → result ≤ b }
    ensures part_of_left { b ≤ 255 → result ≤ a }
{
    (2 * a * b + 255) / 510
}

/// The mean of two bytes, by the reciprocal of the whole.
#[inline(always)]
pub fn mean_by(whole: u32, reciprocal: u32, part: u32, above: u32, below: u32) -> u32
    requires byte { whole ≤ 255 }
    requires is { reciprocal ≡ reciprocal_of whole }
    requires within { part ≤ whole }
    requires above { above ≤ 255 }
    requires below { below ≤ 255 }
    ensures value { result ≡ laid_mean whole part above below }
    ensures byte { result ≤ 255 }
{
    let sum = above * part + below * (whole - part) + (whole >> 1);
    quotient(sum, whole, reciprocal)
}

/// The mean of two bytes, where the upper one has the weight `weight` of `total`.
#[inline(always)]
pub fn mean(total: u32, weight: u32, above: u8, below: u8) -> u8
    requires some { 0 < total }
    requires within { weight ≤ total }
    requires byte { total ≤ 255 }
    ensures { result ≡ laid_mean total weight above below }
{
    let reciprocal = reciprocal(total);
    mean_by(
        total,
        reciprocal,
        weight,
        u32::from(above),
        u32::from(below),
    ) as u8
}
