//! The edits of the pixels and of the mask of a layer.
ghost use Rattle.std.specs.Prelude.{◌≡◌, IfOk, OnOk, IfErr, None, Some, is_none, true, false};
ghost use Rattle.std.specs.Bool.{OnTrue};
ghost use Rattle.spec_edit.specs.Edit as edits;
ghost use Rattle.spec_edit.specs.Refusal.{node, refusal};
ghost use Rattle.xl_paint.specs.declared.places.LayerPart.TheVariants.{Pixels, Mask};
ghost use Rattle.xl_paint.specs.Applied.{IsCause, Makes};
ghost use Rattle.xl_paint.specs.Filling.{IsNearby};
ghost use Rattle.xl_checks.specs.Found.{IsLayer, alpha_stays};
ghost use Rattle.xl_tiles.specs.Area.{bytes_in};
ghost use Rattle.xl_tiles.specs.Written.{IsWithin};
ghost use Rattle.xl_paint.specs.Paint.{spread_over, Paints, PaintsMask, fills, writes, copies, fills_mask, site_of_sheet, site_of_mask};
ghost use Rattle.xl_checks.specs.Rects.{rect_from};

use crate::filling::{
    bytes_after_flat_fill, bytes_after_layer_copy, bytes_after_layer_fill, bytes_after_layer_write,
};
use crate::painting::put;
use crate::places::{LayerPart, NewBytes, Site, Spread};
use crate::refused::EditRefusedOrMemory;
use crate::weighing::{is_whole, old_bytes};
use spec_edit::EditRefused;
use std::alloc::{AllocError, Global};
use xl_checks::{copyable, fillable, is_indexed, keeps_alpha, mask_fillable, rect_from, writable};
use xl_doc::{Document, Layer, NodeId, Rect};

/// Where the pixels of a layer lie.
pub(crate) fn site_of(doc: &Document, layer: &Layer) -> Site
    ensures value { result ≡ site_of_sheet doc.now layer.now }
    ensures near { IsNearby result }
{
    Site {
        x: layer.x,
        y: layer.y,
        indexed: is_indexed(doc),
    }
}

// Where the mask of a layer lies.
fn mask_site(layer: &Layer) -> Site
    ensures value { result ≡ site_of_mask layer.now }
    ensures near { IsNearby result }
{
    Site {
        x: layer.x,
        y: layer.y,
        indexed: false,
    }
}

/// Fills a rectangle of a layer with a pixel, through the selection. Errors: `NoNode`, `IsGroup`, `OutsideLayer`,
/// `OtherType`, `Locked`.
pub fn fill(
    alloc: Global,
    doc: &mut Document,
    id: NodeId,
    rect: Rect,
    pixel: &[u8],
) -> Result<(), EditRefusedOrMemory>
    ensures { Makes doc.old doc.new (edits.fill id.0 rect pixel.now) result }
{
    let new = fill_bytes(alloc, doc, id, rect, pixel)?;
    put(
        alloc,
        doc,
        id,
        LayerPart::Pixels,
        rect,
        &new.given,
        new.spread,
    )?;
    Ok(())
}

// The bytes of the rectangle after the fill.
fn fill_bytes(
    alloc: Global,
    doc: &Document,
    id: NodeId,
    rect: Rect,
    pixel: &[u8],
) -> Result<NewBytes, EditRefusedOrMemory>
    ensures refused { IfErr result (IsCause (refusal doc.now (edits.fill id.0 rect pixel.now))) }
    ensures allowed { IfOk result (λ bytes. refusal doc.now (edits.fill id.0 rect pixel.now)
        ≡ None) }
    ensures paints { IfOk result
        (λ bytes. IsLayer (Paints Pixels rect (spread_over rect bytes.spread bytes.given.items) (fills doc.now rect pixel.now))
        (node doc.now id.0)) }
{
    let layer = fillable(doc, id, rect, pixel)?;
    let site = site_of(doc, layer);
    let keeps = keeps_alpha(doc, id);
    let bytes = bytes_after_layer_fill(alloc, doc, &layer.plane, site, rect, pixel, keeps)?;
    Ok(bytes)
}

/// Writes pixels into a rectangle of a layer, row by row, through the selection. Errors: `NoNode`, `IsGroup`,
/// `OutsideLayer`, `OtherType`, `Locked`.
pub fn write(
    alloc: Global,
    doc: &mut Document,
    id: NodeId,
    rect: Rect,
    bytes: &[u8],
) -> Result<(), EditRefusedOrMemory>
    ensures { Makes doc.old doc.new (edits.write id.0 rect bytes.now) result }
{
    if takes_as_given(doc, id) {
        check_given(doc, id, rect, bytes)?;
        put(alloc, doc, id, LayerPart::Pixels, rect, bytes, Spread::Rows)?;
        return Ok(());
    }
    let mixed = write_bytes(alloc, doc, id, rect, bytes)?;
    put(
        alloc,
        doc,
        id,
        LayerPart::Pixels,
        rect,
        &mixed,
        Spread::Rows,
    )?;
    Ok(())
}

// Whether new bytes of a layer's pixels go in as they are: without a selection, where no alpha has to stay.
fn takes_as_given(doc: &Document, id: NodeId) -> bool
    ensures whole { OnTrue result (is_none doc.now.selection ≡ true) }
    ensures free { OnTrue result (alpha_stays (node doc.now id.0) ≡ false) }
{
    if keeps_alpha(doc, id) {
        return false;
    }
    is_whole(doc)
}

// Whether bytes may be written as they are.
fn check_given(doc: &Document, id: NodeId, rect: Rect, bytes: &[u8]) -> Result<(), EditRefused>
    requires whole { is_none doc.now.selection ≡ true }
    requires free { alpha_stays (node doc.now id.0) ≡ false }
    ensures refused { IfErr result (λ cause. refusal doc.now (edits.write id.0 rect bytes.now)
        ≡ Some cause) }
    ensures allowed { OnOk result (refusal doc.now (edits.write id.0 rect bytes.now) ≡ None) }
    ensures paints { OnOk result
        (IsLayer (Paints Pixels rect bytes.now (writes doc.now rect bytes.now))
        (node doc.now id.0)) }
{
    writable(doc, id, rect, bytes)?;
    Ok(())
}

// The bytes of the rectangle after the write, row by row.
fn write_bytes(
    alloc: Global,
    doc: &Document,
    id: NodeId,
    rect: Rect,
    bytes: &[u8],
) -> Result<Vec<u8>, EditRefusedOrMemory>
    ensures refused { IfErr result (IsCause (refusal doc.now (edits.write id.0 rect bytes.now))) }
    ensures allowed { IfOk result (λ mixed. refusal doc.now (edits.write id.0 rect bytes.now)
        ≡ None) }
    ensures paints { IfOk result
        (λ mixed. IsLayer (Paints Pixels rect mixed.items (writes doc.now rect bytes.now))
        (node doc.now id.0)) }
{
    let layer = writable(doc, id, rect, bytes)?;
    let site = site_of(doc, layer);
    let keeps = keeps_alpha(doc, id);
    let mixed = bytes_after_layer_write(alloc, doc, &layer.plane, site, rect, bytes, keeps)?;
    Ok(mixed)
}

/// Copies the pixels that a layer has at `u`, `v` into a rectangle of a layer of the same type, through the selection.
/// Where both are one layer the pixels are those before the edit. Errors: `NoNode`, `IsGroup`, `OutsideLayer`,
/// `OtherType`, `Locked`.
pub fn copy_rect(
    alloc: Global,
    doc: &mut Document,
    id: NodeId,
    rect: Rect,
    from: NodeId,
    u: u32,
    v: u32,
) -> Result<(), EditRefusedOrMemory>
    ensures { Makes doc.old doc.new (edits.copy_rect id.0 rect from.0 u v) result }
{
    let bytes = copy_bytes(alloc, doc, id, rect, from, u, v)?;
    put(
        alloc,
        doc,
        id,
        LayerPart::Pixels,
        rect,
        &bytes,
        Spread::Rows,
    )?;
    Ok(())
}

// The bytes of the rectangle after the copy, row by row.
fn copy_bytes(
    alloc: Global,
    doc: &Document,
    id: NodeId,
    rect: Rect,
    from: NodeId,
    u: u32,
    v: u32,
) -> Result<Vec<u8>, EditRefusedOrMemory>
    ensures refused { IfErr result
        (IsCause (refusal doc.now (edits.copy_rect id.0 rect from.0 u v))) }
    ensures allowed { IfOk result (λ bytes. refusal doc.now (edits.copy_rect id.0 rect from.0 u v)
        ≡ None) }
    ensures paints { IfOk result
        (λ bytes. IsLayer (Paints Pixels rect bytes.items (copies doc.now rect from.0 u v))
        (node doc.now id.0)) }
{
    let two = copyable(doc, id, rect, from, u, v)?;
    let to = two.to;
    let site = site_of(doc, to);
    let new = bytes_from(alloc, two.from, rect, u, v)?;
    let keeps = keeps_alpha(doc, id);
    let bytes = bytes_after_layer_copy(alloc, doc, &to.plane, site, rect, new, keeps)?;
    Ok(bytes)
}

// The bytes that a layer has at a column and row, row by row.
fn bytes_from(
    alloc: Global,
    layer: &Layer,
    rect: Rect,
    u: u32,
    v: u32,
) -> Result<Vec<u8>, AllocError>
    requires { IsWithin layer.now.plane.width layer.now.plane.height (rect_from u v rect) }
    ensures { IfOk result (λ bytes. bytes.items ≡ bytes_in layer.now.plane (rect_from u v rect)) }
{
    let _sides = (layer.plane.width(), layer.plane.height());
    old_bytes(alloc, &layer.plane, rect_from(rect, u, v))
}

/// Fills a rectangle of a layer's mask with a byte, through the selection. Errors: `NoNode`, `IsGroup`, `NoMask`,
/// `OutsideLayer`.
pub fn fill_mask(
    alloc: Global,
    doc: &mut Document,
    id: NodeId,
    rect: Rect,
    value: u8,
) -> Result<(), EditRefusedOrMemory>
    ensures { Makes doc.old doc.new (edits.fill_mask id.0 rect value) result }
{
    let new = mask_bytes(alloc, doc, id, rect, value)?;
    put(
        alloc,
        doc,
        id,
        LayerPart::Mask,
        rect,
        &new.given,
        new.spread,
    )?;
    Ok(())
}

// The bytes of the rectangle of the mask after the fill.
fn mask_bytes(
    alloc: Global,
    doc: &Document,
    id: NodeId,
    rect: Rect,
    value: u8,
) -> Result<NewBytes, EditRefusedOrMemory>
    ensures refused { IfErr result (IsCause (refusal doc.now (edits.fill_mask id.0 rect value))) }
    ensures allowed { IfOk result (λ bytes. refusal doc.now (edits.fill_mask id.0 rect value)
        ≡ None) }
    ensures paints { IfOk result
        (λ bytes. IsLayer (Paints Mask rect (spread_over rect bytes.spread bytes.given.items) (fills_mask doc.now rect value))
        (node doc.now id.0)) }
{
    let layer = mask_fillable(doc, id, rect, value)?;
    let bytes = filled_mask(alloc, doc, layer, rect, value)?;
    Ok(bytes)
}

fn filled_mask(
    alloc: Global,
    doc: &Document,
    layer: &Layer,
    rect: Rect,
    value: u8,
) -> Result<NewBytes, AllocError>
    requires mask { is_none layer.now.mask ≡ false }
    requires within { IsWithin layer.now.plane.width layer.now.plane.height rect }
    ensures { IfOk result (λ bytes. PaintsMask doc.now (site_of_mask layer.now) rect value
        (spread_over rect bytes.spread bytes.given.items) layer.now.mask) }
{
    let site = mask_site(layer);
    match &layer.mask {
        Some(mask) => bytes_after_flat_fill(alloc, doc, &mask.plane, site, rect, value),
        None => unreachable!(),
    }
}
