//! How much of the points of a canvas is selected.
ghost use Rattle.std.specs.Prelude.{◌≡◌, ℕ, ◌+◌, ◌-◌, ◌*◌, ◌<◌, ◌≤◌, pos, negsuc, ◌+ℤ◌, ◌-ℤ◌, ◌≤ℤ◌, length, slice_index};
ghost use Rattle.spec_document.specs.Plane.{byte_at};
ghost use Rattle.spec_document.specs.Selection.{selected};
ghost use Rattle.spec_document.specs.Rect.{has_point, part_above_0, sheet};
ghost use Rattle.xl_doc.specs.Selecting.{byte_or_0, IsNear};
ghost use Rattle.xl_tiles.specs.Block.{byte_after};

use crate::document::Document;
use xl_grid::MAX_SIDE;
use xl_tiles::{Plane, SCRATCH};

// Whether a point lies on a sheet of these sides.
fn is_on(width: u32, height: u32, x: i32, y: i32) -> bool
    ensures { result ≡ has_point (sheet width height) x y }
{
    0 <= x && (x as u32) < width && 0 <= y && (y as u32) < height
}

// The part of a number from 0 up.
fn above_0(z: i32) -> u32
    ensures { result ≡ part_above_0 z }
{
    if z < 0 { 0 } else { z as u32 }
}

// How far a number lies below 0.
fn below_0(z: i32) -> u32
    requires { IsNear z }
    ensures { result ≡ part_above_0 (pos 0 -ℤ z) }
{
    if z < 0 { z.unsigned_abs() } else { 0 }
}

// Puts a row into another one, from a place on.
fn put(out: &mut [u8], at: usize, row: &[u8])
    requires { at + length row.now ≤ length out.old }
    ensures size { length out.new ≡ length out.old }
    ensures each { (k : ℕ) → slice_index out.new k
        ≡ byte_after at (length row.now) (slice_index out.old k) (slice_index row.now (k - at)) k }
{
    out[at..at + row.len()].copy_from_slice(row);
}

/// How many bytes of scratch `selected_row` needs: for a row, and for a tile of the selection.
pub const ROW_SCRATCH: usize = MAX_SIDE as usize + SCRATCH;

// The bytes of n pixels of row y, from column x on, in the scratch.
fn row_of<'a>(plane: &Plane, x: u32, y: u32, n: u32, scratch: &'a mut [u8]) -> &'a [u8]
    requires bpp { plane.now.bpp ≡ 1 }
    requires columns { x + n ≤ plane.now.width }
    requires row { y < plane.now.height }
    requires few { n ≤ MAX_SIDE }
    requires scratch { length scratch.old ≡ ROW_SCRATCH }
    ensures length { length result.now ≡ n * plane.now.bpp }
    ensures each { (k c : ℕ) → k < n → c < plane.now.bpp
        → slice_index result.now (k * plane.now.bpp + c) ≡ byte_at plane.now (x + k) y c }
{
    let (line, tile) = scratch.split_at_mut(MAX_SIDE as usize);
    let row = &mut line[..n as usize];
    plane.read_row(x, y, n, row, tile);
    row
}

// The bytes of a row of points, from a point on. Outside the plane they are 0.
fn plane_row(plane: &Plane, x: i32, y: i32, out: &mut [u8], scratch: &mut [u8])
    requires bpp { plane.now.bpp ≡ 1 }
    requires scratch { length scratch.old ≡ ROW_SCRATCH }
    requires near { IsNear x }
    requires short { length out.old ≤ MAX_SIDE }
    ensures length { length out.new ≡ length out.old }
    ensures each { (k : ℕ) → k < length out.old → slice_index out.new k ≡ byte_or_0 plane.now
        (x +ℤ pos k) y }
{
    out.fill(0);
    let from = above_0(x);
    let skip = below_0(x) as usize;
    if y < 0 || y as u32 >= plane.height() || from >= plane.width() || skip >= out.len() {
        return;
    }
    let count = (plane.width() - from).min((out.len() - skip) as u32);
    put(out, skip, row_of(plane, from, y as u32, count, scratch));
}

impl Document {
    /// How much of a point is selected, of 255: all of it where there is no selection, and nothing of it off the canvas
    /// where there is one.
    pub fn selected(&self, x: i32, y: i32) -> u8
        ensures { result ≡ selected self.now x y }
    {
        match &self.selection {
            None => 255,
            Some(selection) => {
                if !is_on(self.width, self.height, x, y) {
                    return 0;
                }
                selection.plane.get(x as u32, y as u32, 0)
            }
        }
    }

    /// How much of each point of a row is selected, as `selected` says, from a point on. `scratch` has `ROW_SCRATCH`
    /// bytes.
    pub fn selected_row(&self, x: i32, y: i32, out: &mut [u8], scratch: &mut [u8])
        requires scratch { length scratch.old ≡ ROW_SCRATCH }
        requires near { IsNear x }
        requires short { length out.old ≤ MAX_SIDE }
        ensures length { length out.new ≡ length out.old }
        ensures each { (k : ℕ) → k < length out.old → slice_index out.new k ≡ selected self.now
            (x +ℤ pos k) y }
    {
        match &self.selection {
            None => out.fill(255),
            Some(selection) => plane_row(&selection.plane, x, y, out, scratch),
        }
    }
}
