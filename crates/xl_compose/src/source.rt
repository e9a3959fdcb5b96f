//! The pixels of a layer with its opacity and its mask, and the layer laid over a band of the canvas.
ghost use Rattle.std.specs.Prelude.{◌≡◌, ◌+◌, ◌*◌, ◌<◌, ◌≤◌, ℕ, length};
ghost use Rattle.spec_document.specs.Over.{over};
ghost use Rattle.spec_document.specs.Rect.{part_above_0};
ghost use Rattle.spec_document.specs.Source.{mask_part};
ghost use Rattle.xl_tiles.specs.Area.{bytes_in};
ghost use Rattle.xl_tiles.specs.Written.{IsWithin};
ghost use Rattle.xl_compose.specs.Laid.{pixel};
ghost use Rattle.xl_compose.specs.Masks.{AreMasks};
ghost use Rattle.xl_compose.specs.Source.{at_place, sheet_source, sheet_pixel};
ghost use Rattle.xl_compose.specs.Span.{place_by};
ghost use Rattle.xl_compose.specs.Neat.{IsNeat};
ghost use Rattle.spec_document.specs.declared.TheConstants.{MAX_SIDE};

use crate::lay::lay_part;
use crate::own::own_row;
use crate::span::{Band, Meeting, SharedPart, overlap};
use spec_document::MAX_SIDE;
use std::sync::ledger::Ledger;
use xl_blend::{Mode, Pixel, Steps, fade_row, fade_row_by};
use xl_doc::{Layer, Rect};
use xl_tiles::SCRATCH;

/// A layer as it is laid: how, in which colours of the image, and with how much opacity.
#[derive(Clone, Copy)]
pub struct LaidLayer<'a> {
    pub mode: Mode,
    pub colours: &'a [[u8; 3]],
    pub opacity: u8,
    pub layer: &'a Layer,
}

// A part of a layer, unpacked: its bytes, those of its mask, and the column and the row of a band where it begins.
#[derive(Clone, Copy)]
struct UnpackedPart<'a> {
    part: Rect,
    bytes: &'a [u8],
    masks: &'a [u8],
    left: u32,
    top: u32,
}

// Fades a row by the mask, where there is one and it is applied. The bytes are those of a part of the mask.
fn mask_row(layer: &Layer, part: Rect, masks: &[u8], y: u32, row: &mut [Pixel])
    requires within { IsWithin layer.now.plane.width layer.now.plane.height part }
    requires masks { AreMasks layer.now.mask layer.now.apply_mask part masks.now }
    requires row { y < part.h }
    requires wide { length row.old ≡ part.w }
    ensures length { length row.new ≡ length row.old }
    ensures each { (k : ℕ) → k < length row.old → pixel row.new k ≡ mask_part layer.now.mask
        layer.now.apply_mask (part_above_0 part.x + k) (part_above_0 part.y + y) (pixel row.old k) }
{
    if !layer.apply_mask {
        return;
    }
    if let Some(mask) = &layer.mask {
        fade_row_by(row, mask.plane.row_in(part, masks, y));
    }
}

// The pixels of a row of a patch.
fn source_row(laid: LaidLayer<'_>, patch: UnpackedPart<'_>, y: u32, row: &mut [Pixel])
    requires within { IsWithin laid.layer.now.plane.width laid.layer.now.plane.height patch.part }
    requires bytes { patch.bytes.now ≡ bytes_in laid.layer.now.plane patch.part }
    requires masks { AreMasks laid.layer.now.mask laid.layer.now.apply_mask patch.part
        patch.masks.now }
    requires row { y < patch.part.h }
    requires wide { length row.old ≡ patch.part.w }
    ensures length { length row.new ≡ length row.old }
    ensures each { (k : ℕ) → k < length row.old → pixel row.new k ≡ sheet_pixel
        laid.entry.colours.now laid.entry.opacity laid.entry.layer.now
        (part_above_0 patch.entry.part.x + k) (part_above_0 patch.entry.part.y + y) }
{
    let LaidLayer {
        colours,
        opacity,
        layer,
        ..
    } = laid;
    let part = patch.part;
    own_row(
        layer.kind,
        colours,
        layer.plane.row_in(part, patch.bytes, y),
        row,
    );
    if opacity < 255 {
        fade_row(row, opacity);
    }
    mask_row(layer, part, patch.masks, y, row);
}

// Reads a part of a layer's mask, where there is one and it is applied.
fn read_mask(layer: &Layer, part: Rect, masks: &mut [u8], tile: &mut [u8])
    requires within { IsWithin layer.now.plane.width layer.now.plane.height part }
    requires masks { length masks.old ≡ part.w * part.h }
    requires tile { length tile.old ≡ SCRATCH }
    ensures { AreMasks layer.now.mask layer.now.apply_mask part masks.new }
{
    if !layer.apply_mask {
        return;
    }
    if let Some(mask) = &layer.mask {
        mask.plane.read_rect(part, masks, tile);
    }
}

// Lays a patch over a band, row by row.
fn lay_rows<L: Ledger>(
    laid: LaidLayer<'_>,
    patch: UnpackedPart<'_>,
    band: Band,
    picture: &mut [Pixel],
    source: &mut [Pixel],
    steps: &mut Steps<L>,
)
    requires within { IsWithin laid.layer.now.plane.width laid.layer.now.plane.height patch.part }
    requires bytes { patch.bytes.now ≡ bytes_in laid.layer.now.plane patch.part }
    requires masks { AreMasks laid.layer.now.mask laid.layer.now.apply_mask patch.part
        patch.masks.now }
    requires across { patch.left + patch.part.w ≤ band.w }
    requires down { patch.top + patch.part.h ≤ band.h }
    requires wide { band.w ≤ MAX_SIDE }
    requires high { band.h ≤ 64 }
    requires picture { length picture.old ≡ band.h * band.w }
    requires source { patch.part.w ≤ length source.old }
    requires neat { (v k : ℕ) → v < band.h → k < band.w
        → IsNeat (pixel picture.old (v * band.w + k)) }
    ensures length { length picture.new ≡ length picture.old }
    ensures each { (v k : ℕ) → v < band.h → k < band.w → pixel picture.new (v * band.w + k)
        ≡ over laid.entry.mode (pixel picture.old (v * band.w + k))
        (at_place (place_by patch.entry.left (part_above_0 patch.entry.part.x) patch.entry.part.w k)
        (place_by patch.entry.top (part_above_0 patch.entry.part.y) patch.entry.part.h v)
        (sheet_pixel laid.entry.colours.now laid.entry.opacity laid.entry.layer.now)) }
    ensures cost { steps.new ≡ steps.old + patch.entry.part.h * patch.entry.part.w }
{
    let mode = laid.mode;
    let row = &mut source[..patch.part.w as usize];
    for r in 0..patch.part.h {
        source_row(laid, patch, r, row);
        let at = (patch.top + r) as usize * band.w as usize + patch.left as usize;
        lay_part(mode, picture, at, row, steps);
    }
}

// The common part of a band and a layer, in the layer's own coordinates.
fn common(layer: &Layer, meeting: Meeting) -> Rect
    requires columns { meeting.across.from + meeting.across.count ≤ layer.now.plane.width }
    requires rows { meeting.down.from + meeting.down.count ≤ layer.now.plane.height }
    ensures within { IsWithin layer.now.plane.width layer.now.plane.height result }
    ensures x { part_above_0 result.x ≡ meeting.across.from }
    ensures y { part_above_0 result.y ≡ meeting.down.from }
    ensures w { result.w ≡ meeting.across.count }
    ensures h { result.h ≡ meeting.down.count }
{
    prove!(layer.plane.width() <= MAX_SIDE);
    prove!(layer.plane.height() <= MAX_SIDE);
    Rect {
        x: meeting.across.from as i32,
        y: meeting.down.from as i32,
        w: meeting.across.count,
        h: meeting.down.count,
    }
}

// How many pixels a part of a layer has, and how many bytes.
fn size_of(layer: &Layer, part: Rect, band: Band) -> (usize, usize)
    requires across { part.w ≤ band.w }
    requires down { part.h ≤ 64 }
    requires wide { band.w ≤ MAX_SIDE }
    ensures pixels { result.0 ≡ part.w * part.h }
    ensures bytes { result.1 ≡ part.w * part.h * layer.now.plane.bpp }
    ensures few { result.0 ≤ 64 * band.w }
    ensures room { result.1 ≤ 256 * band.w }
{
    let pixels = part.w as usize * part.h as usize;
    (pixels, pixels * layer.plane.bpp() as usize)
}

// Lays the common columns and rows of a layer and a band, which are unpacked all at once.
fn lay_rect<L: Ledger>(
    laid: LaidLayer<'_>,
    meeting: Meeting,
    band: Band,
    picture: &mut [Pixel],
    source: &mut [Pixel],
    bytes: &mut [u8],
    steps: &mut Steps<L>,
)
    requires columns { meeting.across.from + meeting.across.count ≤ laid.layer.now.plane.width }
    requires rows { meeting.down.from + meeting.down.count ≤ laid.layer.now.plane.height }
    requires across { meeting.across.skip + meeting.across.count ≤ band.w }
    requires down { meeting.down.skip + meeting.down.count ≤ band.h }
    requires wide { band.w ≤ MAX_SIDE }
    requires high { band.h ≤ 64 }
    requires picture { length picture.old ≡ band.h * band.w }
    requires source { band.w ≤ length source.old }
    requires bytes { SCRATCH + 320 * band.w ≤ length bytes.old }
    requires neat { (v k : ℕ) → v < band.h → k < band.w
        → IsNeat (pixel picture.old (v * band.w + k)) }
    ensures length { length picture.new ≡ length picture.old }
    ensures each { (v k : ℕ) → v < band.h → k < band.w → pixel picture.new (v * band.w + k)
        ≡ over laid.entry.mode (pixel picture.old (v * band.w + k))
        (at_place (place_by meeting.across.skip meeting.across.from meeting.across.count k)
        (place_by meeting.down.skip meeting.down.from meeting.down.count v)
        (sheet_pixel laid.entry.colours.now laid.entry.opacity laid.entry.layer.now)) }
    ensures cost { steps.new ≡ steps.old + meeting.down.count * meeting.across.count }
{
    let layer = laid.layer;
    let part = common(layer, meeting);
    let (tile, rest) = bytes.split_at_mut(SCRATCH);
    let (count, size) = size_of(layer, part, band);
    let (masks, rest) = rest.split_at_mut(count);
    let pixels = &mut rest[..size];
    layer.plane.read_rect(part, pixels, tile);
    read_mask(layer, part, masks, tile);
    let patch = UnpackedPart {
        part,
        bytes: pixels,
        masks,
        left: meeting.across.skip,
        top: meeting.down.skip,
    };
    lay_rows(laid, patch, band, picture, source, steps);
}

// The most columns of a layer that are unpacked at a time. The pixels of so many are still in the processor's cache
// when their rows are laid; those of a whole row of tiles are not.
const COLUMNS: u32 = 512;

// How many of the columns that are left are laid at a time, from a column of a layer on: up to the edge of a tile, so
// that no tile is unpacked twice.
fn columns_at(from: u32, left: u32) -> u32
    requires some { 0 < left }
    ensures some { 0 < result }
    ensures within { result ≤ left }
{
    (COLUMNS - from % 64).min(left)
}

// Lays the common columns and rows of a layer and a band, some columns at a time.
fn lay_columns<L: Ledger>(
    laid: LaidLayer<'_>,
    meeting: Meeting,
    band: Band,
    picture: &mut [Pixel],
    source: &mut [Pixel],
    bytes: &mut [u8],
    steps: &mut Steps<L>,
)
    requires columns { meeting.across.from + meeting.across.count ≤ laid.layer.now.plane.width }
    requires rows { meeting.down.from + meeting.down.count ≤ laid.layer.now.plane.height }
    requires across { meeting.across.skip + meeting.across.count ≤ band.w }
    requires down { meeting.down.skip + meeting.down.count ≤ band.h }
    requires wide { band.w ≤ MAX_SIDE }
    requires high { band.h ≤ 64 }
    requires picture { length picture.old ≡ band.h * band.w }
    requires source { band.w ≤ length source.old }
    requires bytes { SCRATCH + 320 * band.w ≤ length bytes.old }
    requires neat { (v k : ℕ) → v < band.h → k < band.w
        → IsNeat (pixel picture.old (v * band.w + k)) }
    ensures length { length picture.new ≡ length picture.old }
    ensures each { (v k : ℕ) → v < band.h → k < band.w → pixel picture.new (v * band.w + k)
        ≡ over laid.entry.mode (pixel picture.old (v * band.w + k))
        (at_place (place_by meeting.across.skip meeting.across.from meeting.across.count k)
        (place_by meeting.down.skip meeting.down.from meeting.down.count v)
        (sheet_pixel laid.entry.colours.now laid.entry.opacity laid.entry.layer.now)) }
    ensures cost { steps.new ≡ steps.old + meeting.down.count * meeting.across.count }
{
    let layer = laid.layer;
    prove!(layer.plane.width() <= MAX_SIDE);
    let Meeting { across, down } = meeting;
    let mut done = 0;
    while done < across.count {
        let span = SharedPart {
            skip: across.skip + done,
            from: across.from + done,
            count: columns_at(across.from + done, across.count - done),
        };
        let run = Meeting { across: span, down };
        lay_rect(laid, run, band, picture, source, bytes, steps);
        done += span.count;
    }
}

/// Lays the part of a layer that lies in a band of the canvas over the band's picture, some columns at a time and these
/// row by row. `source` has room for a row, and `bytes` for a tile and for the bytes of the part and of its mask. Each
/// tile is unpacked once.
pub fn lay_layer<L: Ledger>(
    laid: LaidLayer<'_>,
    band: Band,
    picture: &mut [Pixel],
    source: &mut [Pixel],
    bytes: &mut [u8],
    steps: &mut Steps<L>,
)
    requires right { band.x + band.w ≤ MAX_SIDE }
    requires below { band.y + band.h ≤ MAX_SIDE }
    requires high { band.h ≤ 64 }
    requires picture { length picture.old ≡ band.h * band.w }
    requires source { band.w ≤ length source.old }
    requires bytes { SCRATCH + 320 * band.w ≤ length bytes.old }
    requires neat { (v k : ℕ) → v < band.h → k < band.w
        → IsNeat (pixel picture.old (v * band.w + k)) }
    ensures length { length picture.new ≡ length picture.old }
    ensures each { (v k : ℕ) → v < band.h → k < band.w → pixel picture.new (v * band.w + k)
        ≡ over laid.entry.mode (pixel picture.old (v * band.w + k))
        (sheet_source laid.entry.colours.now laid.entry.opacity laid.entry.layer.now (band.x + k)
        (band.y + v)) }
    ensures cost { steps.new ≤ steps.old + band.h * band.w }
{
    let layer = laid.layer;
    let down = overlap(layer.y, layer.plane.height(), band.y, band.h);
    let across = overlap(layer.x, layer.plane.width(), band.x, band.w);
    if down.count == 0 || across.count == 0 {
        return;
    }
    let meeting = Meeting { across, down };
    lay_columns(laid, meeting, band, picture, source, bytes, steps);
}
