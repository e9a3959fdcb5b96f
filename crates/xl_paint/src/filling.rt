//! The bytes that an edit leaves in a rectangle of a plane.
ghost use Rattle.std.specs.Prelude.{◌≡◌, ◌*◌, ◌≤◌, true, length, slice_index, IfOk};
ghost use Rattle.xl_paint.specs.Filling.{but_alpha_in, byte_in, in_rows, AreRows, IsNearby};
ghost use Rattle.xl_paint.specs.Paint.{spread_over, PaintsPlane};
ghost use Rattle.xl_tiles.specs.Written.{IsWithin};
ghost use Rattle.spec_document.specs.declared.TheConstants.{MAX_SIDE};

use crate::alpha::with_old_alpha;
use crate::places::{NewBytes, Site, Spread};
use crate::weighing::{NewRows, is_whole, weigh_bytes};
use std::alloc::{AllocError, Global};
use xl_checks::corner;
use xl_doc::{Document, Plane, Rect};
use xl_tiles::repeat;

// Uniform rows, each pixel of which is this one.
fn uniform_rows(alloc: Global, w: u32, h: u32, pixel: &[u8]) -> Result<Vec<u8>, AllocError>
    requires wide { w ≤ MAX_SIDE }
    requires high { h ≤ MAX_SIDE }
    requires few { length pixel.now ≤ 4 }
    ensures { IfOk result (λ bytes. AreRows w h (length pixel.now)
        (λ column row c. slice_index pixel.now c) bytes.items) }
{
    let row = repeat(alloc, pixel, w as usize)?;
    repeat(alloc, &row, h as usize)
}

/// The bytes of a rectangle of a plane after a fill with a pixel through the selection.
pub(crate) fn bytes_after_fill(
    alloc: Global,
    doc: &Document,
    plane: &Plane,
    site: Site,
    rect: Rect,
    pixel: &[u8],
) -> Result<NewBytes, AllocError>
    requires within { IsWithin plane.now.width plane.now.height rect }
    requires site { IsNearby site }
    requires pixel { length pixel.now ≡ plane.now.bpp }
    ensures { IfOk result (λ bytes. AreRows rect.w rect.h plane.now.bpp
        (byte_in doc.now site plane.now rect (λ column row c. slice_index pixel.now c))
        (spread_over rect bytes.spread bytes.given.items)) }
{
    if is_whole(doc) {
        return Ok(NewBytes {
            given: Vec::from_slice(alloc, pixel)?,
            spread: Spread::Pixel,
        });
    }
    let given = weighed_fill(alloc, doc, plane, site, rect, pixel)?;
    Ok(NewBytes {
        given,
        spread: Spread::Rows,
    })
}

// The bytes of the rectangle, row by row, with each pixel weighed.
fn weighed_fill(
    alloc: Global,
    doc: &Document,
    plane: &Plane,
    site: Site,
    rect: Rect,
    pixel: &[u8],
) -> Result<Vec<u8>, AllocError>
    requires within { IsWithin plane.now.width plane.now.height rect }
    requires site { IsNearby site }
    requires pixel { length pixel.now ≡ plane.now.bpp }
    ensures { IfOk result (λ bytes. AreRows rect.w rect.h plane.now.bpp
        (byte_in doc.now site plane.now rect (λ column row c. slice_index pixel.now c))
        bytes.items) }
{
    corner(plane, rect);
    let row = repeat(alloc, pixel, rect.w as usize)?;
    let new = NewRows {
        bytes: &row,
        step: 0,
    };
    weigh_bytes(alloc, doc, plane, site, rect, new)
}

/// The bytes of a rectangle of a plane, row by row, after new bytes, row by row too, went in through the selection.
pub(crate) fn bytes_after_write(
    alloc: Global,
    doc: &Document,
    plane: &Plane,
    site: Site,
    rect: Rect,
    new: &[u8],
) -> Result<Vec<u8>, AllocError>
    requires within { IsWithin plane.now.width plane.now.height rect }
    requires site { IsNearby site }
    requires new { length new.now ≡ rect.w * rect.h * plane.now.bpp }
    ensures { IfOk result (λ bytes. AreRows rect.w rect.h plane.now.bpp
        (byte_in doc.now site plane.now rect (in_rows (rect.w * plane.now.bpp) plane.now.bpp
        new.now)) bytes.items) }
{
    corner(plane, rect);
    let step = rect.w as usize * plane.bpp() as usize;
    let new = NewRows { bytes: new, step };
    weigh_bytes(alloc, doc, plane, site, rect, new)
}

/// The same as `bytes_after_write`, of new bytes that are given away: without a selection they are the answer.
pub(crate) fn bytes_after_own_write(
    alloc: Global,
    doc: &Document,
    plane: &Plane,
    site: Site,
    rect: Rect,
    new: Vec<u8>,
) -> Result<Vec<u8>, AllocError>
    requires within { IsWithin plane.now.width plane.now.height rect }
    requires site { IsNearby site }
    requires new { length new.items ≡ rect.w * rect.h * plane.now.bpp }
    ensures { IfOk result (λ bytes. AreRows rect.w rect.h plane.now.bpp
        (byte_in doc.now site plane.now rect (in_rows (rect.w * plane.now.bpp) plane.now.bpp
        new.items)) bytes.items) }
{
    if is_whole(doc) {
        return Ok(new);
    }
    bytes_after_write(alloc, doc, plane, site, rect, &new)
}

// The same as `bytes_after_own_write`, where the alpha of the plane stays.
fn bytes_after_colours(
    alloc: Global,
    doc: &Document,
    plane: &Plane,
    site: Site,
    rect: Rect,
    new: Vec<u8>,
) -> Result<Vec<u8>, AllocError>
    requires within { IsWithin plane.now.width plane.now.height rect }
    requires site { IsNearby site }
    requires new { length new.items ≡ rect.w * rect.h * plane.now.bpp }
    ensures { IfOk result (λ bytes. AreRows rect.w rect.h plane.now.bpp
        (byte_in doc.now site plane.now rect (but_alpha_in true plane.now rect
        (in_rows (rect.w * plane.now.bpp) plane.now.bpp new.items))) bytes.items) }
{
    let kept = with_old_alpha(alloc, plane, rect, new)?;
    bytes_after_own_write(alloc, doc, plane, site, rect, kept)
}

/// The bytes of a rectangle of a layer after a fill with a pixel through the selection. `keeps` says whether alpha
/// stays.
pub(crate) fn bytes_after_layer_fill(
    alloc: Global,
    doc: &Document,
    plane: &Plane,
    site: Site,
    rect: Rect,
    pixel: &[u8],
    keeps: bool,
) -> Result<NewBytes, AllocError>
    requires within { IsWithin plane.now.width plane.now.height rect }
    requires site { IsNearby site }
    requires pixel { length pixel.now ≡ plane.now.bpp }
    ensures { IfOk result (λ bytes. AreRows rect.w rect.h plane.now.bpp
        (byte_in doc.now site plane.now rect
        (but_alpha_in keeps plane.now rect (λ column row c. slice_index pixel.now c)))
        (spread_over rect bytes.spread bytes.given.items)) }
{
    if !keeps {
        return bytes_after_fill(alloc, doc, plane, site, rect, pixel);
    }
    corner(plane, rect);
    let new = uniform_rows(alloc, rect.w, rect.h, pixel)?;
    let given = bytes_after_colours(alloc, doc, plane, site, rect, new)?;
    Ok(NewBytes {
        given,
        spread: Spread::Rows,
    })
}

/// The bytes of a rectangle of a layer, row by row, after new bytes, row by row too, went in through the selection.
/// `keeps` says whether alpha stays.
pub(crate) fn bytes_after_layer_write(
    alloc: Global,
    doc: &Document,
    plane: &Plane,
    site: Site,
    rect: Rect,
    new: &[u8],
    keeps: bool,
) -> Result<Vec<u8>, AllocError>
    requires within { IsWithin plane.now.width plane.now.height rect }
    requires site { IsNearby site }
    requires new { length new.now ≡ rect.w * rect.h * plane.now.bpp }
    ensures { IfOk result (λ bytes. AreRows rect.w rect.h plane.now.bpp
        (byte_in doc.now site plane.now rect (but_alpha_in keeps plane.now rect
        (in_rows (rect.w * plane.now.bpp) plane.now.bpp new.now))) bytes.items) }
{
    if !keeps {
        return bytes_after_write(alloc, doc, plane, site, rect, new);
    }
    let own = Vec::from_slice(alloc, new)?;
    bytes_after_colours(alloc, doc, plane, site, rect, own)
}

/// The same as `bytes_after_layer_write`, of new bytes that are given away.
pub(crate) fn bytes_after_layer_copy(
    alloc: Global,
    doc: &Document,
    plane: &Plane,
    site: Site,
    rect: Rect,
    new: Vec<u8>,
    keeps: bool,
) -> Result<Vec<u8>, AllocError>
    requires within { IsWithin plane.now.width plane.now.height rect }
    requires site { IsNearby site }
    requires new { length new.items ≡ rect.w * rect.h * plane.now.bpp }
    ensures { IfOk result (λ bytes. AreRows rect.w rect.h plane.now.bpp
        (byte_in doc.now site plane.now rect (but_alpha_in keeps plane.now rect
        (in_rows (rect.w * plane.now.bpp) plane.now.bpp new.items))) bytes.items) }
{
    if !keeps {
        return bytes_after_own_write(alloc, doc, plane, site, rect, new);
    }
    bytes_after_colours(alloc, doc, plane, site, rect, new)
}

/// The bytes of a rectangle of a plane of one byte per pixel after a fill with a byte through the selection.
pub(crate) fn bytes_after_flat_fill(
    alloc: Global,
    doc: &Document,
    plane: &Plane,
    site: Site,
    rect: Rect,
    value: u8,
) -> Result<NewBytes, AllocError>
    requires within { IsWithin plane.now.width plane.now.height rect }
    requires site { IsNearby site }
    requires bpp { plane.now.bpp ≡ 1 }
    ensures { IfOk result (λ bytes. PaintsPlane doc.now site rect value
        (spread_over rect bytes.spread bytes.given.items) plane.now) }
{
    bytes_after_fill(alloc, doc, plane, site, rect, &[value])
}
