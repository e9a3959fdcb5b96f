//! Pixels as words. Loops over words, in place of fields, are compiled to vector instructions.
ghost use Rattle.std.specs.Prelude.{◌≡◌, ◌≤◌};
ghost use Rattle.spec_document.specs.Blend.{mul as product};
ghost use Rattle.spec_document.specs.Over.{IsPixel, mean as laid_mean};
ghost use Rattle.xl_blend.specs.Words.{word_of, pixel_of};

use spec_document::Pixel;

/// The bytes of a pixel as a word, red lowest and alpha highest.
#[inline(always)]
pub fn word(of: Pixel) -> u32
    ensures value { result ≡ word_of of }
    ensures bytes { IsPixel of }
{
    u32::from_le_bytes([of.r, of.g, of.b, of.a])
}

/// The pixel of a word.
#[inline(always)]
pub fn of_word(word: u32) -> Pixel
    ensures { result ≡ pixel_of word }
{
    let [r, g, b, a] = word.to_le_bytes();
    Pixel { r, g, b, a }
}

/// The alpha of a pixel.
#[inline(always)]
pub fn alpha(of: Pixel) -> u32
    ensures value { result ≡ of.a }
    ensures byte { result ≤ 255 }
{
    word(of) >> 24
}

/// The pixel of four bytes.
#[inline(always)]
pub fn of_bytes(r: u32, g: u32, b: u32, a: u32) -> Pixel
    requires red { r ≤ 255 }
    requires green { g ≤ 255 }
    requires blue { b ≤ 255 }
    requires alpha { a ≤ 255 }
    ensures { result ≡ record { r = r; g = g; b = b; a = a } }
{
    of_word(r + (g << 8) + (b << 16) + (a << 24))
}

/// The bytes of a pixel as numbers of 32 bits.
#[derive(Clone, Copy)]
pub struct Wide {
    pub r: u32,
    pub g: u32,
    pub b: u32,
    pub a: u32,
}

/// The bytes of a pixel as numbers of 32 bits.
#[inline(always)]
pub fn wide_of(pixel: Pixel) -> Wide
    ensures { result ≡ record { r = pixel.r; g = pixel.g; b = pixel.b; a = pixel.a } }
{
    let word = word(pixel);
    Wide {
        r: word & 0xff,
        g: word >> 8 & 0xff,
        b: word >> 16 & 0xff,
        a: word >> 24,
    }
}

/// The product of two bytes in parts of 255.
#[inline(always)]
pub fn mul_bytes(a: u32, b: u32) -> u32
    requires left { a ≤ 255 }
    requires right { b ≤ 255 }
    ensures exact { result ≡ product a b }
    ensures part_of_right { result ≤ b }
    ensures part_of_left { result ≤ a }
{
    let sum = a * b + 128;
    sum + (sum >> 8) >> 8
}

/// The mean of two bytes, where the one above has the weight `part` of 255.
#[inline(always)]
pub fn mix_byte(part: u32, above: u32, below: u32) -> u32
    requires part { part ≤ 255 }
    requires above { above ≤ 255 }
    requires below { below ≤ 255 }
    ensures value { result ≡ laid_mean 255 part above below }
    ensures byte { result ≤ 255 }
{
    let sum = above * part + below * (255 - part) + 128;
    sum + (sum >> 8) >> 8
}
