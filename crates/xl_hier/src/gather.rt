ghost use Rattle.std.specs.Prelude.{◌≡◌, ℕ, ◌+◌, ◌-◌, ◌*◌, ◌<◌, ◌≤◌, ◌++◌, length, min, slice_index, OnOk};
ghost use Rattle.spec_document.specs.Grid as grid;
ghost use Rattle.spec_hierarchy.specs.Tiles as tiles;
ghost use Rattle.xl_tile.specs.declared.tile.TheConstants.{SCRATCH};

use std::alloc::{AllocError, Global};
use xl_bytes::FileBytes;
use xl_grid::TileAt;
use xl_tiles::Plane;

// The first column or row of a tile, and how many it has.
fn span(side: u32, at: u32) -> (u32, u32)
    requires { at < grid.tiles_along side }
    ensures first { result.0 ≡ 64 * at }
    ensures count { result.1 ≡ min 64 (side - 64 * at) }
    ensures within { result.0 + result.1 ≤ side }
    ensures some { 1 ≤ result.1 }
{
    let first = 64 * at;
    (first, (side - first).min(64))
}

/// Appends the pixels of a tile, row by row. They are shared where they stand so. The scratch is for a tile.
pub fn append_tile(
    alloc: Global,
    plane: &Plane,
    spot: TileAt,
    out: &mut FileBytes,
    scratch: &mut [u8],
) -> Result<(), AllocError>
    requires column { spot.col < grid.tiles_along plane.now.width }
    requires row { spot.row < grid.tiles_along plane.now.height }
    requires scratch { length scratch.old ≡ SCRATCH }
    ensures { OnOk result (out.new ≡ out.old ++ tiles.tile_bytes plane.now spot) }
{
    match plane.plain_tile(spot)? {
        Some(bytes) => out.append_part(alloc, bytes),
        None => out.append(alloc, plane.tile_bytes(spot, scratch)),
    }
}

// Byte c of each pixel.
fn gather_pixels(tile: &[u8], bpp: usize, c: usize, out: &mut [u8])
    requires tile { length tile.now ≡ length out.old * bpp }
    requires byte { c < bpp }
    ensures { (k : ℕ) → k < length out.old → slice_index out.new k ≡ slice_index tile.now
        (k * bpp + c) }
{
    for k in 0..out.len() {
        out[k] = tile[k * bpp + c];
    }
}

/// Byte c of each pixel of a tile, whose bytes are given, row by row.
pub fn gather(plane: &Plane, spot: TileAt, tile: &[u8], c: u32, out: &mut [u8])
    requires column { spot.col < grid.tiles_along plane.now.width }
    requires row { spot.row < grid.tiles_along plane.now.height }
    requires tile { tile.now ≡ tiles.tile_bytes plane.now spot }
    requires byte { c < plane.now.bpp }
    requires out { length out.old ≡ tiles.tile_width plane.now.width spot * tiles.tile_height
        plane.now.height spot }
    ensures { out.new ≡ tiles.tile_plane plane.now spot c }
{
    gather_pixels(tile, plane.bpp() as usize, c as usize, out);
}

/// How many pixels a tile has.
pub fn tile_pixels(plane: &Plane, spot: TileAt) -> usize
    requires column { spot.col < grid.tiles_along plane.now.width }
    requires row { spot.row < grid.tiles_along plane.now.height }
    ensures value { result ≡ tiles.tile_width plane.now.width spot * tiles.tile_height
        plane.now.height spot }
    ensures some { 1 ≤ result }
    ensures few { result ≤ 4096 }
{
    let (_, across) = span(plane.width(), spot.col);
    let (_, down) = span(plane.height(), spot.row);
    across as usize * down as usize
}
