//! Four pixels laid over opaque ones, in lanes.
ghost use Rattle.std.specs.Prelude.{◌≡◌, ◌+◌, ◌≤◌, true, [], ◌∷◌, length, slice_index, slice_index_or, slice_set};
ghost use Rattle.spec_document.specs.Over.{clear, IsPixel};
ghost use Rattle.xl_blend.specs.Lanes.{AreBytes, has_lanes};
ghost use Rattle.xl_blend.specs.Rows.{over_opaque};

use crate::lanes::{blends, mixes};
use crate::words::word;
use spec_document::{Mode, Pixel};
use std::simd::prelude::*;

/// Four pixels that stand side by side.
#[derive(Clone, Copy)]
pub struct Four {
    pub p: Pixel,
    pub q: Pixel,
    pub r: Pixel,
    pub s: Pixel,
}

/// The four pixels at a place of a row.
#[inline(always)]
pub fn four_at(row: &[Pixel], at: usize) -> Four
    requires { at + 4 ≤ length row.now }
    ensures { result ≡ record {
      p = slice_index_or row.now at clear;
      q = slice_index_or row.now (at + 1) clear;
      r = slice_index_or row.now (at + 2) clear;
      s = slice_index_or row.now (at + 3) clear;
    } }
{
    Four {
        p: row[at],
        q: row[at + 1],
        r: row[at + 2],
        s: row[at + 3],
    }
}

/// Four pixels put at a place of a row.
#[inline(always)]
pub fn put_four(row: &mut [Pixel], at: usize, four: Four)
    requires { at + 4 ≤ length row.old }
    ensures { row.new ≡ slice_set (slice_set (slice_set (slice_set row.old at four.p) (at + 1) four.q) (at + 2) four.r)
        (at + 3) four.s }
{
    row[at] = four.p;
    row[at + 1] = four.q;
    row[at + 2] = four.r;
    row[at + 3] = four.s;
}

/// The bytes of four pixels. By way of words they are read in one block.
#[inline(always)]
fn bytes_of(of: Four) -> u8x16
    ensures { result ≡ of.p.r ∷ of.p.g ∷ of.p.b ∷ of.p.a ∷ of.q.r ∷ of.q.g ∷ of.q.b ∷ of.q.a
        ∷ of.r.r ∷ of.r.g ∷ of.r.b ∷ of.r.a ∷ of.s.r ∷ of.s.g ∷ of.s.b ∷ of.s.a ∷ [] }
{
    u32x4::from_array([word(of.p), word(of.q), word(of.r), word(of.s)]).to_le_bytes()
}

/// Bytes in lanes of 16 bits.
#[inline(always)]
fn widen(bytes: u8x16) -> u16x16
    ensures value { result ≡ bytes }
    ensures bytes { AreBytes result }
{
    bytes.cast::<u16>()
}

/// The bytes of four pixels in lanes of 16 bits.
#[inline(always)]
fn lanes_of(of: Four) -> u16x16
    ensures value { result ≡ of.p.r ∷ of.p.g ∷ of.p.b ∷ of.p.a ∷ of.q.r ∷ of.q.g ∷ of.q.b ∷ of.q.a
        ∷ of.r.r ∷ of.r.g ∷ of.r.b ∷ of.r.a ∷ of.s.r ∷ of.s.g ∷ of.s.b ∷ of.s.a ∷ [] }
    ensures bytes { AreBytes result }
{
    widen(bytes_of(of))
}

/// The alpha of each pixel in its four lanes.
#[inline(always)]
fn alphas_of(of: Four) -> u16x16
    ensures value { result ≡ of.p.a ∷ of.p.a ∷ of.p.a ∷ of.p.a ∷ of.q.a ∷ of.q.a ∷ of.q.a ∷ of.q.a
        ∷ of.r.a ∷ of.r.a ∷ of.r.a ∷ of.r.a ∷ of.s.a ∷ of.s.a ∷ of.s.a ∷ of.s.a ∷ [] }
    ensures bytes { AreBytes result }
{
    lanes_of(of).swizzle([3, 3, 3, 3, 7, 7, 7, 7, 11, 11, 11, 11, 15, 15, 15, 15])
}

/// The opaque pixels whose colours are in lanes.
#[inline(always)]
fn opaque_of(lanes: u16x16) -> Four
    requires { AreBytes lanes }
    ensures { result ≡ record {
      p = record { r = slice_index lanes 0; g = slice_index lanes 1; b = slice_index lanes 2; a = 255 };
      q = record { r = slice_index lanes 4; g = slice_index lanes 5; b = slice_index lanes 6; a = 255 };
      r = record { r = slice_index lanes 8; g = slice_index lanes 9; b = slice_index lanes 10; a = 255 };
      s = record { r = slice_index lanes 12; g = slice_index lanes 13; b = slice_index lanes 14; a = 255 };
    } }
{
    let bytes = lanes.cast::<u8>().to_array();
    Four {
        p: Pixel {
            r: bytes[0],
            g: bytes[1],
            b: bytes[2],
            a: 255,
        },
        q: Pixel {
            r: bytes[4],
            g: bytes[5],
            b: bytes[6],
            a: 255,
        },
        r: Pixel {
            r: bytes[8],
            g: bytes[9],
            b: bytes[10],
            a: 255,
        },
        s: Pixel {
            r: bytes[12],
            g: bytes[13],
            b: bytes[14],
            a: 255,
        },
    }
}

/// Four pixels over opaque ones.
#[inline(always)]
pub fn over_four(mode: Mode, below: Four, above: Four) -> Four
    requires { has_lanes mode ≡ true }
    ensures pixels { IsPixel above.p × IsPixel above.q × IsPixel above.r × IsPixel above.s }
    ensures value { result ≡ record {
      p = over_opaque mode below.p above.p;
      q = over_opaque mode below.q above.q;
      r = over_opaque mode below.r above.r;
      s = over_opaque mode below.s above.s;
    } }
{
    let lower = lanes_of(below);
    let blended = blends(mode, lower, lanes_of(above));
    opaque_of(mixes(alphas_of(above), blended, lower))
}
