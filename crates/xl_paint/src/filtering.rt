//! The edit by a filter: the colour bytes in a rectangle of a layer go through a table.
ghost use Rattle.std.specs.Prelude.{◌≡◌, ℕ, ◌+◌, ◌-◌, ◌*◌, ◌<◌, ◌≤◌, cond, nat_lt, length, slice_index, IfOk, IfErr, None};
ghost use Rattle.spec_document.specs.Document.{has_alpha, bytes_of_kind};
ghost use Rattle.spec_edit.specs.Edit as edits;
ghost use Rattle.spec_edit.specs.Refusal.{node, refusal};
ghost use Rattle.xl_paint.specs.declared.places.LayerPart.TheVariants.{Pixels};
ghost use Rattle.xl_paint.specs.Applied.{IsCause, MakesBy};
ghost use Rattle.xl_paint.specs.Filtered.{AreFiltered, colours_of, filters};
ghost use Rattle.xl_checks.specs.Found.{IsLayer};
ghost use Rattle.xl_paint.specs.Paint.{Paints};
ghost use Rattle.xl_tiles.specs.Area.{bytes_in};
ghost use Rattle.xl_tiles.specs.Block.{byte_after};
ghost use Rattle.xl_tiles.specs.Written.{IsWithin};

use crate::filling::bytes_after_own_write;
use crate::painting::put;
use crate::pixels::site_of;
use crate::places::{LayerPart, Spread};
use crate::refused::EditRefusedOrMemory;
use crate::weighing::old_bytes;
use std::alloc::{AllocError, Global};
use xl_checks::{corner, filterable};
use xl_doc::{Document, Layer, NodeId, Rect};
use xl_filters::Table;

/// Each colour byte in a rectangle of a layer goes through the table, and through the selection; alpha stays. Errors:
/// `NoNode`, `IsGroup`, `OutsideLayer`, `OtherType`, `Locked`.
pub fn filter(
    alloc: Global,
    doc: &mut Document,
    id: NodeId,
    rect: Rect,
    table: &Table,
) -> Result<(), EditRefusedOrMemory>
    ensures { (slot : ℕ) → MakesBy table.now doc.old doc.new (edits.filter id.0 rect slot) result }
{
    let bytes = filter_bytes(alloc, doc, id, rect, table)?;
    put(
        alloc,
        doc,
        id,
        LayerPart::Pixels,
        rect,
        &bytes,
        Spread::Rows,
    )?;
    Ok(())
}

// The bytes of the rectangle after the filter, row by row. The slot that an edit names is no part of its rules.
fn filter_bytes(
    alloc: Global,
    doc: &Document,
    id: NodeId,
    rect: Rect,
    table: &Table,
) -> Result<Vec<u8>, EditRefusedOrMemory>
    ensures refused { IfErr result (IsCause (refusal doc.now (edits.filter id.0 rect 0))) }
    ensures allowed { IfOk result (λ bytes. refusal doc.now (edits.filter id.0 rect 0) ≡ None) }
    ensures paints { IfOk result
        (λ bytes. IsLayer (Paints Pixels rect bytes.items (filters doc.now rect table.now))
        (node doc.now id.0)) }
{
    let layer = filterable(doc, id, rect)?;
    let site = site_of(doc, layer);
    let new = bytes_through(alloc, layer, rect, table)?;
    let bytes = bytes_after_own_write(alloc, doc, &layer.plane, site, rect, new)?;
    Ok(bytes)
}

// The bytes that a rectangle of a layer has, row by row, the colour bytes through a table.
fn bytes_through(
    alloc: Global,
    layer: &Layer,
    rect: Rect,
    table: &Table,
) -> Result<Vec<u8>, AllocError>
    requires { IsWithin layer.now.plane.width layer.now.plane.height rect }
    ensures { IfOk result (λ bytes. AreFiltered table.now (colours_of layer.now) rect
        layer.now.plane bytes.items) }
{
    let colours = colour_bytes(layer);
    corner(&layer.plane, rect);
    let mut bytes = old_bytes(alloc, &layer.plane, rect)?;
    let count = rect.w as usize * rect.h as usize;
    let bpp = layer.plane.bpp() as usize;
    pixels_through(&mut bytes, count, bpp, colours, table.as_slice());
    Ok(bytes)
}

// How many bytes of each pixel are colours: all but alpha.
fn colour_bytes(layer: &Layer) -> usize
    ensures value { result ≡ colours_of layer.now }
    ensures few { result ≤ layer.now.plane.bpp }
{
    let bpp = layer.plane.bpp() as usize;
    if layer.kind % 2 == 1 { bpp - 1 } else { bpp }
}

// The first bytes of each of so many pixels go through a table. All others stay.
fn pixels_through(bytes: &mut [u8], count: usize, bpp: usize, colours: usize, table: &[u8])
    requires whole { length bytes.old ≡ count * bpp }
    requires few { colours ≤ bpp }
    requires table { length table.now ≡ 256 }
    ensures size { length bytes.new ≡ length bytes.old }
    ensures each { (k c : ℕ) → k < count → c < bpp → slice_index bytes.new (k * bpp + c)
        ≡ cond (nat_lt c colours) (slice_index table.now (slice_index bytes.old (k * bpp + c)))
        (slice_index bytes.old (k * bpp + c)) }
{
    for k in 0..count {
        part_through(bytes, k * bpp, colours, table);
    }
}

// So many bytes from a place on go through a table. All others stay.
fn part_through(bytes: &mut [u8], at: usize, n: usize, table: &[u8])
    requires fits { at + n ≤ length bytes.old }
    requires table { length table.now ≡ 256 }
    ensures size { length bytes.new ≡ length bytes.old }
    ensures each { (k : ℕ) → slice_index bytes.new k ≡ byte_after at n (slice_index bytes.old k)
        (slice_index table.now (slice_index bytes.old k)) k }
{
    for c in 0..n {
        bytes[at + c] = table[bytes[at + c] as usize];
    }
}
