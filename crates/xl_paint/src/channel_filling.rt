//! The edit of the bytes of a channel.
ghost use Rattle.std.specs.Prelude.{◌≡◌, ◌<◌, ◌≤◌, length, pos, false, slice_index_or, None, Some, IfOk, IfErr, OnOk, OnErr};
ghost use Rattle.spec_document.specs.Document as doc;
ghost use Rattle.spec_edit.specs.Edit as edits;
ghost use Rattle.spec_edit.specs.Effect.{changed_at, with_plane};
ghost use Rattle.spec_edit.specs.Refusal.{refusal};
ghost use Rattle.xl_tiles.specs.Written.{IsWithin, written};
ghost use Rattle.xl_paint.specs.Applied.{IsCause, Makes};
ghost use Rattle.xl_paint.specs.Channels.{IsChannelPiece, PaintsChannel};
ghost use Rattle.xl_paint.specs.Paint.{spread_over};

use crate::filling::bytes_after_flat_fill;
use crate::painting::put_plane;
use crate::places::{NewBytes, Site, Spread};
use crate::refused::EditRefusedOrMemory;
use spec_edit::EditRefused;
use std::alloc::{AllocError, Global};
use xl_checks::lies_on;
use xl_doc::{Channel, Channels, Document, Rect};

/// Fills a rectangle of a channel with a byte, through the selection. Errors: `NoChannel`, `OutsideLayer`.
pub fn fill_channel(
    alloc: Global,
    doc: &mut Document,
    index: u32,
    rect: Rect,
    value: u8,
) -> Result<(), EditRefusedOrMemory>
    ensures { Makes doc.old doc.new (edits.fill_channel index rect value) result }
{
    let new = channel_bytes(alloc, doc, index, rect, value)?;
    put_channel(
        alloc,
        &mut doc.channels,
        index,
        rect,
        &new.given,
        new.spread,
    )?;
    Ok(())
}

// The bytes of the rectangle after the fill.
fn channel_bytes(
    alloc: Global,
    doc: &Document,
    index: u32,
    rect: Rect,
    value: u8,
) -> Result<NewBytes, EditRefusedOrMemory>
    ensures refused { IfErr result
        (IsCause (refusal doc.now (edits.fill_channel index rect value))) }
    ensures allowed { IfOk result (λ bytes. refusal doc.now (edits.fill_channel index rect value)
        ≡ None) }
    ensures there { IfOk result (λ bytes. index < length doc.now.channels) }
    ensures paints { IfOk result (λ bytes. PaintsChannel doc.now index rect value
        (spread_over rect bytes.spread bytes.given.items)) }
{
    let channel = fillable_channel(doc, index, rect, value)?;
    let canvas = Site {
        x: 0,
        y: 0,
        indexed: false,
    };
    let bytes = bytes_after_flat_fill(alloc, doc, &channel.plane, canvas, rect, value)?;
    Ok(bytes)
}

// The channel that may be filled. Errors: `NoChannel`, `OutsideLayer`.
fn fillable_channel(
    doc: &Document,
    index: u32,
    rect: Rect,
    value: u8,
) -> Result<&Channel, EditRefused>
    ensures refused { IfErr result (λ cause. refusal doc.now (edits.fill_channel index rect value)
        ≡ Some cause) }
    ensures allowed { IfOk result (λ channel. refusal doc.now (edits.fill_channel index rect value)
        ≡ None) }
    ensures there { IfOk result (λ channel. index < length doc.now.channels) }
    ensures channel { IfOk result (λ channel. channel.now ≡ slice_index_or doc.now.channels index
        channel.now) }
    ensures within { IfOk result (λ channel. IsWithin channel.now.plane.width
        channel.now.plane.height rect) }
    ensures bpp { IfOk result (λ channel. channel.now.plane.bpp ≡ 1) }
{
    if index as usize >= doc.channels.len() {
        return Err(EditRefused::NoChannel(index));
    }
    if !lies_on(doc.width, doc.height, rect) {
        return Err(EditRefused::OutsideLayer);
    }
    Ok(&doc.channels.as_slice()[index as usize])
}

// Writes the bytes of a rectangle of a channel. After out of memory all is as before.
fn put_channel(
    alloc: Global,
    channels: &mut Channels,
    index: u32,
    rect: Rect,
    bytes: &[u8],
    spread: Spread,
) -> Result<(), AllocError>
    requires there { index < length channels.old }
    requires piece { IsChannelPiece rect (spread_over rect spread bytes.now) index channels.old }
    ensures ok { OnOk result (channels.new ≡ changed_at index
        (with_plane (λ p. written p rect (spread_over rect spread bytes.now))) channels.old) }
    ensures err { OnErr result (channels.new ≡ channels.old) }
{
    let channel = channels.get_mut(index);
    put_plane(alloc, &mut channel.plane, rect, bytes, spread)
}
