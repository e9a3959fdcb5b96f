//! New bytes that leave alpha as it is.
ghost use Rattle.std.specs.Prelude.{◌≡◌, ℕ, ◌+◌, ◌*◌, ◌<◌, ◌==◌, cond, true, length, slice_index, IfOk};
ghost use Rattle.xl_paint.specs.Filling.{but_alpha_in, in_rows, AreRows};
ghost use Rattle.xl_tiles.specs.Written.{IsWithin};

use crate::weighing::old_bytes;
use std::alloc::{AllocError, Global};
use xl_checks::corner;
use xl_doc::{Plane, Rect};

// One byte of each of so many pixels becomes the old one. All others stay.
fn keep_bytes(bytes: &mut [u8], old: &[u8], count: usize, bpp: usize, kept: usize)
    requires whole { length bytes.old ≡ count * bpp }
    requires old { length old.now ≡ count * bpp }
    requires kept { kept < bpp }
    ensures size { length bytes.new ≡ length bytes.old }
    ensures each { (k c : ℕ) → k < count → c < bpp → slice_index bytes.new (k * bpp + c)
        ≡ cond (c == kept) (slice_index old.now (k * bpp + c))
        (slice_index bytes.old (k * bpp + c)) }
{
    for k in 0..count {
        bytes[k * bpp + kept] = old[k * bpp + kept];
    }
}

/// New bytes of a rectangle of a plane, row by row, with the alpha that the plane has there.
pub(crate) fn with_old_alpha(
    alloc: Global,
    plane: &Plane,
    rect: Rect,
    new: Vec<u8>,
) -> Result<Vec<u8>, AllocError>
    requires within { IsWithin plane.now.width plane.now.height rect }
    requires new { length new.items ≡ rect.w * rect.h * plane.now.bpp }
    ensures { IfOk result (λ bytes. AreRows rect.w rect.h plane.now.bpp
        (but_alpha_in true plane.now rect (in_rows (rect.w * plane.now.bpp) plane.now.bpp
        new.items)) bytes.items) }
{
    corner(plane, rect);
    let old = old_bytes(alloc, plane, rect)?;
    let count = rect.w as usize * rect.h as usize;
    let bpp = plane.bpp() as usize;
    let mut bytes = new;
    keep_bytes(&mut bytes, &old, count, bpp, bpp - 1);
    Ok(bytes)
}
