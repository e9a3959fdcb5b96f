ghost use Rattle.std.specs.Prelude.{◌≡◌, IfOk};
ghost use Rattle.xcf.specs.WholePlane.{whole_of};
ghost use Rattle.xl_tiles.specs.Area.{bytes_in};

use std::alloc::{AllocError, Global};
use xl_doc::{Plane, Rect, SCRATCH};

/// The bytes of all pixels of a plane, row by row, as many for each as `bpp` of the plane says: of a layer, without its
/// opacity and its mask, or of a mask. Its one error is that memory ran out.
pub fn plane_bytes(alloc: Global, plane: &Plane) -> Result<Vec<u8>, AllocError>
    ensures { IfOk result (λ bytes. bytes.items ≡ bytes_in plane.now (whole_of plane.now)) }
{
    let rect = Rect {
        x: 0,
        y: 0,
        w: plane.width(),
        h: plane.height(),
    };
    let count = plane.width() as usize * plane.height() as usize * plane.bpp() as usize;
    let mut bytes = vec![in alloc; 0; count]?;
    let mut scratch = vec![in alloc; 0; SCRATCH]?;
    plane.read_rect(rect, bytes.as_mut_slice(), scratch.as_mut_slice());
    Ok(bytes)
}
