//! The modes whose formula has several products, with as few of them as give the same.
ghost use Rattle.std.specs.Prelude.{◌≡◌, ◌+◌, ◌-◌, ◌*◌, ◌≤◌};
ghost use Rattle.spec_document.specs.Blend.{mul as product, screen as screened};

use crate::words::mul_bytes;

/// Twice the product of two bytes, in parts of 255. The sum takes 17 bits.
#[inline(always)]
fn double_product(a: u32, b: u32) -> u32
    requires left { a ≤ 255 }
    requires right { b ≤ 255 }
    ensures exact { result ≡ product (2 * a) b }
    ensures part_of_right { result ≤ 2 * b }
{
    let sum = 2 * a * b + 128;
    sum + (sum >> 8) + (sum >> 16) >> 8
}

/// The product in parts of 255, of numbers whose product is at most that of two bytes.
#[inline(always)]
fn small_product(a: u32, b: u32) -> u32
    requires { a * b ≤ 65025 }
    ensures { result ≡ product a b }
{
    let sum = a * b + 128;
    sum + (sum >> 8) >> 8
}

/// The value of `Screen`.
#[inline(always)]
pub fn screen(i: u32, m: u32) -> u32
    requires below { i ≤ 255 }
    requires above { m ≤ 255 }
    ensures { result ≡ screened i m }
{
    i + m - mul_bytes(i, m)
}

/// The value of `Overlay`.
#[inline(always)]
pub fn overlay(i: u32, m: u32) -> u32
    requires below { i ≤ 255 }
    requires above { m ≤ 255 }
    ensures { result ≡ product i (i + product (2 * m) (255 - i)) }
{
    small_product(i, i + double_product(m, 255 - i))
}

/// The value of `SoftLight`.
#[inline(always)]
pub fn soft_light(i: u32, m: u32) -> u32
    requires below { i ≤ 255 }
    requires above { m ≤ 255 }
    ensures { result ≡ product (255 - i) (product i m) + product i (screened i m) }
{
    let part = mul_bytes(i, m);
    part - mul_bytes(i, part) + mul_bytes(i, screen(i, m))
}
