//! The selection, the channels and the colours.
ghost use Rattle.std.specs.Prelude.{◌≡◌, ◌+◌, ◌*◌, ℕ, ◌<◌, ◌≤◌, length, take, drop, slice_index, IfOk, OnOk};
ghost use Rattle.spec_edit.specs.Edit as edits;
ghost use Rattle.spec_edit.specs.Edit.{IsEdit};
ghost use Rattle.spec_edit.specs.Effect.{colours_from, selection_of, with_plane, with_rect};
ghost use Rattle.spec_document.specs.Limits.{AreBytes};
ghost use Rattle.xl_paint.specs.Applied.{Makes};
ghost use Rattle.xl_edit.specs.Flat.{AreFlat};
ghost use Rattle.xl_tiles.specs.Written.{IsWithin};

use crate::blank::zeros;
use std::alloc::{AllocError, Global};
use xl_checks::{check_channel, check_colours, check_new_channel, check_select};
use xl_doc::{Bytes, Channel, ColourMap, Document, Rect};
use xl_paint::EditRefusedOrMemory;
use xl_tiles::repeat;

/// Sets the bytes of the selection in a rectangle of the canvas to one value. Where there is no selection, all its
/// other bytes are 0. Errors: `OutsideLayer`, `TooLarge`.
pub(crate) fn select(
    alloc: Global,
    doc: &mut Document,
    rect: Rect,
    value: u8,
) -> Result<(), EditRefusedOrMemory>
    ensures { Makes doc.old doc.new (edits.select rect value) result }
{
    check_select(doc, rect)?;
    let bytes = flat_bytes(alloc, doc, rect, value)?;
    let mut selection = own_selection(alloc, doc)?;
    write_channel(alloc, &mut selection, rect, value, &bytes)?;
    doc.selection = Some(selection);
    Ok(())
}

// The selection, or one of zeros where there is none. Its tiles are shared.
fn own_selection(alloc: Global, doc: &Document) -> Result<Channel, AllocError>
    ensures { IfOk result (λ own. own ≡ selection_of doc.now doc.now.selection) }
{
    match &doc.selection {
        None => zeros(alloc, doc, Bytes::new(alloc)),
        Some(selection) => selection.share(alloc),
    }
}

// Writes bytes of one value into a rectangle of a channel.
fn write_channel(
    alloc: Global,
    channel: &mut Channel,
    rect: Rect,
    value: u8,
    bytes: &[u8],
) -> Result<(), AllocError>
    requires within { IsWithin channel.old.plane.width channel.old.plane.height rect }
    requires flat { AreFlat (rect.w * rect.h) value bytes.now }
    ensures { OnOk result (channel.new ≡ with_plane (with_rect rect (λ x y c. value)) channel.old) }
{
    channel.plane.write_rect(alloc, rect, bytes)
}

// So many bytes of one value as a rectangle of the canvas has.
fn flat_bytes(alloc: Global, doc: &Document, rect: Rect, value: u8) -> Result<Vec<u8>, AllocError>
    requires { IsWithin doc.now.width doc.now.height rect }
    ensures { IfOk result (λ bytes. AreFlat (rect.w * rect.h) value bytes.items) }
{
    let _sides = (doc.width, doc.height);
    repeat(alloc, &[value], rect.w as usize * rect.h as usize)
}

/// Takes the selection away, where there is one. This is never refused.
pub(crate) fn select_none(doc: &mut Document) -> Result<(), EditRefusedOrMemory>
    ensures { Makes doc.old doc.new edits.select_none result }
{
    doc.selection = None;
    Ok(())
}

/// Puts a channel of zeros behind all others. Errors: `BadName`, `TooMany`, `TooLarge`.
pub(crate) fn add_channel(
    alloc: Global,
    doc: &mut Document,
    name: &Bytes,
) -> Result<(), EditRefusedOrMemory>
    requires { AreBytes name.now }
    ensures { Makes doc.old doc.new (edits.add_channel name.now) result }
{
    check_new_channel(doc, name)?;
    let own = name.share(alloc)?;
    let channel = zeros(alloc, doc, own)?;
    doc.channels.push(channel);
    Ok(())
}

/// Takes away the channel with an index, counted from 0. Errors: `NoChannel`.
pub(crate) fn drop_channel(doc: &mut Document, index: u32) -> Result<(), EditRefusedOrMemory>
    ensures { Makes doc.old doc.new (edits.drop_channel index) result }
{
    check_channel(doc, index)?;
    doc.channels.remove(index);
    Ok(())
}

/// Makes the colour map of these bytes, three for each colour: red, green and blue. Errors: `NotIndexed`.
pub(crate) fn set_colours(
    alloc: Global,
    doc: &mut Document,
    bytes: &Bytes,
) -> Result<(), EditRefusedOrMemory>
    requires { IsEdit (edits.set_colours bytes.now) }
    ensures { Makes doc.old doc.new (edits.set_colours bytes.now) result }
{
    check_colours(doc, bytes)?;
    doc.colours = colours_of(alloc, bytes.as_slice())?;
    Ok(())
}

// Colours of three bytes each.
fn colours_of(alloc: Global, bytes: &[u8]) -> Result<ColourMap, AllocError>
    ensures { IfOk result (λ colours. colours ≡ colours_from bytes.now) }
{
    let mut colours = ColourMap::new(alloc);
    for i in 0..bytes.len() / 3 {
        colours.push(colour(bytes, i))?;
    }
    Ok(colours)
}

fn colour(bytes: &[u8], i: usize) -> [u8; 3]
    requires { 3 * i + 3 ≤ length bytes.now }
    ensures { result ≡ take 3 (drop (3 * i) bytes.now) }
{
    let part = &bytes[3 * i..3 * i + 3];
    [part[0], part[1], part[2]]
}
