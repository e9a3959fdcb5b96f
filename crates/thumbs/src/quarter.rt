//! A picture made a quarter as wide and as high.
ghost use Rattle.std.specs.Prelude.{◌<◌};

use std::alloc::{AllocError, Global};
use xcf::Picture;

/// The bytes of a pixel: red, green, blue and alpha.
const BYTES: usize = 4;

/// The sides of a block of pixels that becomes one.
pub const BLOCK: u32 = 4;

// The average of one byte of the pixels in a block, in whole numbers: of each row of a band, so many from `first` on.
fn average(band: &[u8], row_len: usize, first: usize) -> u8
    requires { 0 < row_len }
{
    let mut sum: u32 = 0;
    let mut count: u32 = 0;
    for row in band.chunks(row_len) {
        for value in row.iter().skip(first).step_by(BYTES).take(BLOCK as usize) {
            sum = sum.saturating_add(u32::from(*value));
            count = count.saturating_add(1);
        }
    }
    let average = sum.checked_div(count).unwrap_or(0);
    u8::try_from(average).unwrap_or(u8::MAX)
}

/// The bytes of the picture in which each block of four by four pixels is one, their average, byte by byte. A block at
/// the right or lower edge has the pixels that are there.
pub fn quarter(alloc: Global, picture: &Picture) -> Result<Vec<u8>, AllocError> {
    let row_len = picture.width() as usize * BYTES;
    let mut bytes = Vec::new(alloc);
    for band in picture.bytes().chunks(row_len * BLOCK as usize) {
        for pixel in (0..row_len).step_by(BYTES * BLOCK as usize) {
            for byte in 0..BYTES {
                bytes.push(average(band, row_len, pixel + byte))?;
            }
        }
    }
    Ok(bytes)
}
