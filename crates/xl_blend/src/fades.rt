//! Rows of pixels with a part of their alpha.
ghost use Rattle.std.specs.Prelude.{◌≡◌, length};
ghost use Rattle.xl_blend.specs.Rows.{faded, faded_row, faded_row_by};

use crate::words::{mul_bytes, of_bytes, wide_of};
use spec_document::Pixel;

/// The pixel with a part, of 255, of its alpha. Its bytes are taken apart and put together as words, so that the loops
/// below are compiled to vectors.
#[inline(always)]
fn fade(pixel: Pixel, part: u8) -> Pixel
    ensures { result ≡ faded part pixel }
{
    let wide = wide_of(pixel);
    let a = mul_bytes(wide.a, u32::from(part));
    of_bytes(wide.r, wide.g, wide.b, a)
}

/// Leaves of each pixel the same part, of 255, of its alpha.
pub fn fade_row(row: &mut [Pixel], part: u8)
    ensures { row.new ≡ faded_row part row.old }
{
    if part == 255 {
        return;
    }
    for pixel in row {
        *pixel = fade(*pixel, part);
    }
}

/// Leaves of each pixel a part of its own, of 255, of its alpha.
pub fn fade_row_by(row: &mut [Pixel], parts: &[u8])
    requires { length row.old ≡ length parts.now }
    ensures { row.new ≡ faded_row_by parts.now row.old }
{
    for i in 0..row.len() {
        row[i] = fade(row[i], parts[i]);
    }
}
