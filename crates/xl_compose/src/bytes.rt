//! A row of pixels as bytes.
ghost use Rattle.std.specs.Prelude.{◌≡◌, ◌*◌, length};
ghost use Rattle.xl_compose.specs.Rows.{row_bytes};

use xl_blend::Pixel;

/// Writes the RGBA bytes of the pixels, four for each.
pub fn write_row(row: &[Pixel], out: &mut [u8])
    requires { length out.old ≡ 4 * length row.now }
    ensures { out.new ≡ row_bytes row.now }
{
    for k in 0..row.len() {
        let pixel = row[k];
        out[4 * k..4 * k + 4].copy_from_slice(&[pixel.r, pixel.g, pixel.b, pixel.a]);
    }
}
