//! The pixels of a layer, from its bytes: one loop for each kind of layer.
ghost use Rattle.std.specs.Prelude.{◌≡◌, ◌*◌, ◌<◌, ◌≤◌, ◌^◌, ℕ, length, slice_get};
ghost use Rattle.spec_document.specs.Document.{bytes_of_kind};
ghost use Rattle.spec_document.specs.Source.{mapped};
ghost use Rattle.xl_compose.specs.Own.{ArePixels};

use xl_blend::Pixel;

// A colour of the map. One past its end is black.
fn colour(colours: &[[u8; 3]], index: u8, a: u8) -> Pixel
    ensures { result ≡ mapped (slice_get colours.now index) a }
{
    match colours.get(index as usize) {
        Some([r, g, b]) => Pixel {
            r: *r,
            g: *g,
            b: *b,
            a,
        },
        None => Pixel {
            r: 0,
            g: 0,
            b: 0,
            a,
        },
    }
}

fn rgb_row(bytes: &[u8], row: &mut [Pixel])
    requires { length bytes.now ≡ length row.old * 3 }
    ensures { (colours : _) → ArePixels 0 colours bytes.now row.new }
{
    for k in 0..row.len() {
        row[k] = Pixel {
            r: bytes[3 * k],
            g: bytes[3 * k + 1],
            b: bytes[3 * k + 2],
            a: 255,
        };
    }
}

// The pixel of four bytes, by way of a word: a loop over such pixels is compiled to a copy.
#[inline(always)]
fn pixel_of(r: u8, g: u8, b: u8, a: u8) -> Pixel
    ensures { result ≡ record { r = r; g = g; b = b; a = a } }
{
    let word = u32::from_le_bytes([r, g, b, a]);
    let [r, g, b, a] = word.to_le_bytes();
    Pixel { r, g, b, a }
}

fn rgba_row(bytes: &[u8], row: &mut [Pixel])
    requires { length bytes.now ≡ length row.old * 4 }
    ensures { (colours : _) → ArePixels 1 colours bytes.now row.new }
{
    for k in 0..row.len() {
        row[k] = pixel_of(
            bytes[4 * k],
            bytes[4 * k + 1],
            bytes[4 * k + 2],
            bytes[4 * k + 3],
        );
    }
}

fn grey_row(bytes: &[u8], row: &mut [Pixel])
    requires { length bytes.now ≡ length row.old * 1 }
    ensures { (colours : _) → ArePixels 2 colours bytes.now row.new }
{
    for k in 0..row.len() {
        let grey = bytes[k];
        row[k] = Pixel {
            r: grey,
            g: grey,
            b: grey,
            a: 255,
        };
    }
}

fn grey_alpha_row(bytes: &[u8], row: &mut [Pixel])
    requires { length bytes.now ≡ length row.old * 2 }
    ensures { (colours : _) → ArePixels 3 colours bytes.now row.new }
{
    for k in 0..row.len() {
        let grey = bytes[2 * k];
        row[k] = Pixel {
            r: grey,
            g: grey,
            b: grey,
            a: bytes[2 * k + 1],
        };
    }
}

fn indexed_row(colours: &[[u8; 3]], bytes: &[u8], row: &mut [Pixel])
    requires { length bytes.now ≡ length row.old * 1 }
    ensures { ArePixels 4 colours.now bytes.now row.new }
{
    for k in 0..row.len() {
        row[k] = colour(colours, bytes[k], 255);
    }
}

fn indexed_alpha_row(colours: &[[u8; 3]], bytes: &[u8], row: &mut [Pixel])
    requires { length bytes.now ≡ length row.old * 2 }
    ensures { ArePixels 5 colours.now bytes.now row.new }
{
    for k in 0..row.len() {
        row[k] = colour(colours, bytes[2 * k], bytes[2 * k + 1]);
    }
}

/// The pixels of a row of a layer of a kind, 0 to 5, whose bytes are given, before opacity and mask.
pub fn own_row(kind: u8, colours: &[[u8; 3]], bytes: &[u8], row: &mut [Pixel])
    requires kind { kind ≤ 5 }
    requires bytes { length bytes.now ≡ length row.old * bytes_of_kind kind }
    ensures { ArePixels kind colours.now bytes.now row.new }
{
    match kind {
        0 => rgb_row(bytes, row),
        1 => rgba_row(bytes, row),
        2 => grey_row(bytes, row),
        3 => grey_alpha_row(bytes, row),
        4 => indexed_row(colours, bytes, row),
        _ => indexed_alpha_row(colours, bytes, row),
    }
}
