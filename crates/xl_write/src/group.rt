//! The picture of a group, as it is written beside its layers.
ghost use Rattle.std.specs.Prelude.{◌≡◌, ◌*◌, ◌≤◌, length, IfOk};
ghost use Rattle.spec_document.specs.Document.{bytes_of_kind, picture_kind};
ghost use Rattle.spec_document.specs.Limits.{IsSide};
ghost use Rattle.spec_document.specs.Rect.{part_above_0};
ghost use Rattle.spec_layout.specs.Layout as layout;
ghost use Rattle.spec_document.specs.Greys.{pixels_of_base};
ghost use Rattle.spec_document.specs.Picture.{picture_bytes};
ghost use Rattle.xl_doc.specs.Canvas.{IsInside};
ghost use Rattle.xl_write.specs.Groups.{IsGroupOf};

use std::alloc::{AllocError, Global};
use xl_doc::{Base, Document, MAX_SIDE, NodeId, Pictures, Plane, Rect, pixels_of_base};
use xl_grid::is_empty;

/// The part of the canvas that a group covers, or one pixel at the origin where that is empty.
pub fn group_rect(doc: &Document, id: NodeId) -> Rect
    requires { IsGroupOf doc.now id.0 }
    ensures value { result ≡ layout.group_rect doc.now id.0 }
    ensures width { IsSide result.w }
    ensures height { IsSide result.h }
    ensures inside { IsInside doc.now.width doc.now.height result }
{
    prove!(doc.width <= MAX_SIDE);
    prove!(doc.height <= MAX_SIDE);
    let extent = doc.group_extent(id);
    if is_empty(extent) {
        Rect {
            x: 0,
            y: 0,
            w: 1,
            h: 1,
        }
    } else {
        extent
    }
}

// The picture of a group over a rectangle: RGBA bytes, row by row.
fn picture_of<P: Pictures>(
    alloc: Global,
    doc: &Document,
    id: NodeId,
    rect: Rect,
    pictures: &mut P,
) -> Result<Vec<u8>, AllocError>
    requires group { IsGroupOf doc.now id.0 }
    requires width { IsSide rect.w }
    requires height { IsSide rect.h }
    requires inside { IsInside doc.now.width doc.now.height rect }
    ensures { IfOk result (λ bytes. bytes.items
        ≡ picture_bytes doc.now id.0 (part_above_0 rect.x) (part_above_0 rect.y) rect.w rect.h) }
{
    let mut bytes = vec![in alloc; 0; 4 * (rect.w as usize * rect.h as usize)]?;
    pictures.fill(alloc, doc, id, rect, bytes.as_mut_slice())?;
    Ok(bytes)
}

// How many bytes a pixel of a group has.
fn group_bpp(base: Base) -> u32
    ensures value { result ≡ bytes_of_kind (picture_kind base) }
    ensures some { 1 ≤ result }
    ensures few { result ≤ 4 }
{
    match base {
        Base::Rgb | Base::Indexed => 4,
        Base::Grey => 2,
    }
}

// A picture over a rectangle, of its RGBA bytes.
fn plane_over(alloc: Global, base: Base, rect: Rect, rgba: Vec<u8>) -> Result<Plane, AllocError>
    requires width { IsSide rect.w }
    requires height { IsSide rect.h }
    requires full { length (pixels_of_base base rgba.items) ≡ rect.w * rect.h
        * bytes_of_kind (picture_kind base) }
    ensures { IfOk result (λ plane. plane ≡ layout.plane_over base rect rgba.items) }
{
    let pixels = pixels_of_base(alloc, base, rgba)?;
    Plane::of_pixels(alloc, rect.w, rect.h, group_bpp(base), &pixels)
}

/// The picture of a group over a rectangle, with the bytes of a pixel that the base of the document has.
pub fn group_plane<P: Pictures>(
    alloc: Global,
    doc: &Document,
    id: NodeId,
    rect: Rect,
    pictures: &mut P,
) -> Result<Plane, AllocError>
    requires group { IsGroupOf doc.now id.0 }
    requires width { IsSide rect.w }
    requires height { IsSide rect.h }
    requires inside { IsInside doc.now.width doc.now.height rect }
    ensures { IfOk result (λ plane. plane ≡ layout.group_plane doc.now id.0 rect) }
{
    let rgba = picture_of(alloc, doc, id, rect, pictures)?;
    plane_over(alloc, doc.base, rect, rgba)
}
