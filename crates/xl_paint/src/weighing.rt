//! Rectangles of planes whose new bytes go through the selection.
ghost use Rattle.std.specs.Prelude.{◌≡◌, ℕ, ◌+◌, ◌*◌, ◌<◌, ◌≤◌, ◌+ℤ◌, pos, length, vec_len, slice_index, IfOk, is_none};
ghost use Rattle.spec_document.specs.Rect.{part_above_0};
ghost use Rattle.xl_doc.specs.Selecting.{IsNear};
ghost use Rattle.xl_paint.specs.Filling.{weight_at, byte_in, in_rows, AreRows, HasRows, IsNearby};
ghost use Rattle.xl_tiles.specs.Area.{bytes_in};
ghost use Rattle.xl_tiles.specs.Sized.{IsSized};
ghost use Rattle.xl_tiles.specs.Written.{IsWithin};
ghost use Rattle.spec_document.specs.declared.TheConstants.{MAX_SIDE};

use crate::mixing::{mix_at, spread, threshold};
use crate::places::Site;
use std::alloc::{AllocError, Global};
use xl_checks::corner;
use xl_doc::{Document, Plane, ROW_SCRATCH, Rect};
use xl_tiles::SCRATCH;

// A column and row of a plane on the canvas.
fn on_canvas(site: Site, x: u32, y: u32) -> (i32, i32)
    requires site { IsNearby site }
    requires column { x ≤ MAX_SIDE }
    requires row { y ≤ MAX_SIDE }
    ensures column { result.0 ≡ site.x +ℤ pos x }
    ensures row { result.1 ≡ site.y +ℤ pos y }
    ensures near { IsNear result.0 }
{
    (site.x + x as i32, site.y + y as i32)
}

// The weights of the pixels of a row of a plane.
fn weigh_pixels(doc: &Document, site: Site, x: u32, y: u32, weights: &mut [u8], scratch: &mut [u8])
    requires site { IsNearby site }
    requires scratch { length scratch.old ≡ ROW_SCRATCH }
    requires column { x ≤ MAX_SIDE }
    requires row { y ≤ MAX_SIDE }
    requires short { length weights.old ≤ MAX_SIDE }
    ensures size { length weights.new ≡ length weights.old }
    ensures each { (k : ℕ) → k < length weights.old → slice_index weights.new k ≡ weight_at doc.now
        site (x + k) y }
{
    let (column, row) = on_canvas(site, x, y);
    doc.selected_row(column, row, weights, scratch);
    if site.indexed {
        threshold(weights);
    }
}

// The weights of a row of a plane, of its pixels and of its bytes, and scratch for reading the selection.
#[derive(Drop)]
struct RowWeights {
    pixels: Vec<u8>,
    bytes: Vec<u8>,
    scratch: Vec<u8>,
}

// Room for the weights of a row.
fn row_weights(alloc: Global, columns: usize, bpp: usize) -> Result<RowWeights, AllocError>
    requires columns { columns ≤ MAX_SIDE }
    requires bpp { bpp ≤ 4 }
    ensures pixels { IfOk result (λ weights. vec_len weights.pixels ≡ columns) }
    ensures bytes { IfOk result (λ weights. vec_len weights.bytes ≡ columns * bpp) }
    ensures scratch { IfOk result (λ weights. vec_len weights.scratch ≡ ROW_SCRATCH) }
{
    Ok(RowWeights {
        bytes: vec![in alloc; 0; columns * bpp]?,
        pixels: vec![in alloc; 0; columns]?,
        scratch: vec![in alloc; 0; ROW_SCRATCH]?,
    })
}

// The weights of the bytes of a row of a plane.
fn weigh_row(doc: &Document, site: Site, x: u32, y: u32, bpp: usize, weights: &mut RowWeights)
    requires site { IsNearby site }
    requires column { x ≤ MAX_SIDE }
    requires row { y ≤ MAX_SIDE }
    requires short { vec_len weights.old.pixels ≤ MAX_SIDE }
    requires bytes { vec_len weights.old.bytes ≡ vec_len weights.old.pixels * bpp }
    requires scratch { vec_len weights.old.scratch ≡ ROW_SCRATCH }
    ensures pixels { vec_len weights.new.pixels ≡ vec_len weights.old.pixels }
    ensures bytes { vec_len weights.new.bytes ≡ vec_len weights.old.bytes }
    ensures scratch { vec_len weights.new.scratch ≡ ROW_SCRATCH }
    ensures each { (k c : ℕ) → k < vec_len weights.old.pixels → c < bpp
        → slice_index weights.new.bytes.items (k * bpp + c) ≡ weight_at doc.now site (x + k) y }
{
    weigh_pixels(doc, site, x, y, &mut weights.pixels, &mut weights.scratch);
    spread(&weights.pixels, bpp, &mut weights.bytes);
}

// So many bytes, from a place on.
fn part(bytes: &[u8], from: usize, n: usize) -> &[u8]
    requires { from + n ≤ length bytes.now }
    ensures length { length result.now ≡ n }
    ensures each { (k : ℕ) → k < n → slice_index result.now k ≡ slice_index bytes.now (from + k) }
{
    &bytes[from..from + n]
}

/// Rows of new bytes. Each begins `step` bytes behind the one above it: with 0 all rows are the first one.
#[derive(Clone, Copy)]
pub(crate) struct NewRows<'a> {
    pub bytes: &'a [u8],
    pub step: usize,
}

// New bytes go into the bytes of a rectangle of a plane, through the selection.
fn mix_rows(
    doc: &Document,
    plane: &Plane,
    site: Site,
    rect: Rect,
    new: NewRows<'_>,
    weights: &mut RowWeights,
    bytes: &mut [u8],
)
    requires within { IsWithin plane.now.width plane.now.height rect }
    requires site { IsNearby site }
    requires new { HasRows rect.w rect.h plane.now.bpp new.step new.bytes.now }
    requires pixels { vec_len weights.old.pixels ≡ rect.w }
    requires wide { vec_len weights.old.bytes ≡ rect.w * plane.now.bpp }
    requires scratch { vec_len weights.old.scratch ≡ ROW_SCRATCH }
    requires bytes { bytes.old ≡ bytes_in plane.now rect }
    ensures { AreRows rect.w rect.h plane.now.bpp
        (byte_in doc.now site plane.now rect (in_rows new.entry.step plane.now.bpp new.entry.bytes.now)) bytes.new }
{
    let (x, y) = corner(plane, rect);
    let bpp = plane.bpp() as usize;
    let len = rect.w as usize * bpp;
    for row in 0..rect.h {
        weigh_row(doc, site, x, y + row, bpp, weights);
        let line = part(new.bytes, row as usize * new.step, len);
        mix_at(bytes, row as usize * len, &weights.bytes, line);
    }
}

/// The bytes of a rectangle of a plane, row by row. Each tile is unpacked once.
pub(crate) fn old_bytes(alloc: Global, plane: &Plane, rect: Rect) -> Result<Vec<u8>, AllocError>
    requires within { IsWithin plane.now.width plane.now.height rect }
    ensures { IfOk result (λ bytes. bytes.items ≡ bytes_in plane.now rect) }
{
    corner(plane, rect);
    let count = rect.w as usize * rect.h as usize;
    let mut tile = vec![in alloc; 0; SCRATCH]?;
    let mut bytes = vec![in alloc; 0; count * plane.bpp() as usize]?;
    plane.read_rect(rect, &mut bytes, &mut tile);
    Ok(bytes)
}

/// The bytes of a rectangle of a plane, row by row, after new ones went into them through the selection.
pub(crate) fn weigh_bytes(
    alloc: Global,
    doc: &Document,
    plane: &Plane,
    site: Site,
    rect: Rect,
    new: NewRows<'_>,
) -> Result<Vec<u8>, AllocError>
    requires within { IsWithin plane.now.width plane.now.height rect }
    requires site { IsNearby site }
    requires new { HasRows rect.w rect.h plane.now.bpp new.step new.bytes.now }
    ensures { IfOk result (λ bytes. AreRows rect.w rect.h plane.now.bpp
        (byte_in doc.now site plane.now rect (in_rows new.entry.step plane.now.bpp new.entry.bytes.now)) bytes.items) }
{
    corner(plane, rect);
    let mut weights = row_weights(alloc, rect.w as usize, plane.bpp() as usize)?;
    let mut bytes = old_bytes(alloc, plane, rect)?;
    mix_rows(doc, plane, site, rect, new, &mut weights, &mut bytes);
    Ok(bytes)
}

/// Whether all is selected, because there is no selection.
pub(crate) fn is_whole(doc: &Document) -> bool
    ensures { result ≡ is_none doc.now.selection }
{
    doc.selection.is_none()
}
