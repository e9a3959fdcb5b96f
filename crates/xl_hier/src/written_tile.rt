ghost use Rattle.std.specs.Prelude.{◌≡◌, ◌<◌, ◌≤◌, ◌+◌, length, IfOk, IfSome, OnOk};
ghost use Rattle.spec_document.specs.Grid as grid;
ghost use Rattle.spec_hierarchy.specs.BytePlanes.{tile_planes};
ghost use Rattle.spec_hierarchy.specs.Layout.{AreSpelled};
ghost use Rattle.xl_fields.specs.Behind.{BeginsWith};
ghost use Rattle.xl_hier.specs.Appended.{TileAppended};
ghost use Rattle.xl_rle.specs.Follows.{FollowsEach};
ghost use Rattle.xl_tile.specs.declared.tile.TheConstants.{SCRATCH};

use crate::gather::{append_tile, gather, tile_pixels};
use spec_rle::MAX_EXCESS;
use std::alloc::{AllocError, Global};
use xl_bytes::{FileBytes, Part};
use xl_grid::TileAt;
use xl_rle::PlaneCoder;
use xl_tiles::{Plane, SCRATCH};

/// A plane of a tile has at most 64 by 64 bytes.
pub const MAX_PLANE: usize = 4096;

// The spellings of all planes of a tile have at most so many bytes: a pixel has at most four.
const MAX_SPELLINGS: usize = 4 * (MAX_PLANE + MAX_EXCESS);

// Codes each of the bytes of a pixel, and appends the spellings.
fn append_spellings<C: PlaneCoder>(
    alloc: Global,
    plane: &Plane,
    spot: TileAt,
    out: &mut Vec<u8>,
    scratch: &mut [u8],
    coder: &mut C,
) -> Result<(), AllocError>
    requires column { spot.col < grid.tiles_along plane.now.width }
    requires row { spot.row < grid.tiles_along plane.now.height }
    requires scratch { length scratch.old ≡ MAX_PLANE + SCRATCH }
    ensures ok { OnOk result (TileAppended C.fits 1 plane.now spot out.old.items out.new.items) }
    ensures followed { OnOk result (FollowsEach C.follows coder.old (tile_planes 1 plane.now spot)
        coder.new) }
    ensures front { BeginsWith out.new.items out.old.items }
{
    let n = tile_pixels(plane, spot);
    let (own, unpacked) = scratch.split_at_mut(MAX_PLANE);
    let tile = plane.tile_bytes(spot, unpacked);
    for c in 0..plane.bpp() {
        gather(plane, spot, tile, c, &mut own[..n]);
        coder.encode_plane(alloc, &own[..n], out)?;
    }
    Ok(())
}

// Appends the spellings that the coder gives to the planes of a tile.
fn append_coded<C: PlaneCoder>(
    alloc: Global,
    plane: &Plane,
    spot: TileAt,
    out: &mut FileBytes,
    scratch: &mut [u8],
    coder: &mut C,
) -> Result<(), AllocError>
    requires column { spot.col < grid.tiles_along plane.now.width }
    requires row { spot.row < grid.tiles_along plane.now.height }
    requires scratch { length scratch.old ≡ MAX_PLANE + SCRATCH }
    ensures ok { OnOk result (TileAppended C.fits 1 plane.now spot out.old out.new) }
    ensures followed { OnOk result (FollowsEach C.follows coder.old (tile_planes 1 plane.now spot)
        coder.new) }
{
    let mut spellings = Vec::with_capacity(alloc, MAX_SPELLINGS)?;
    append_spellings(alloc, plane, spot, &mut spellings, scratch, coder)?;
    out.append(alloc, &spellings)
}

// The codes of a tile as they stand in a file, where the coder keeps them.
fn kept_codes<C: PlaneCoder>(
    plane: &Plane,
    spot: TileAt,
    coder: &C,
) -> Result<Option<Part>, AllocError>
    requires column { spot.col < grid.tiles_along plane.now.width }
    requires row { spot.row < grid.tiles_along plane.now.height }
    ensures codes { IfOk result (λ found. IfSome found (λ codes. AreSpelled C.fits codes
        (tile_planes 1 plane.now spot))) }
    ensures followed { IfOk result (λ found. IfSome found (λ codes. FollowsEach C.follows coder.now
        (tile_planes 1 plane.now spot) coder.now)) }
{
    if coder.keeps() {
        plane.tile_codes(spot)
    } else {
        Ok(None)
    }
}

// Appends a spelling for each of the bytes of a pixel: the one that stands in a file, where the coder keeps it.
fn append_run_length<C: PlaneCoder>(
    alloc: Global,
    plane: &Plane,
    spot: TileAt,
    out: &mut FileBytes,
    scratch: &mut [u8],
    coder: &mut C,
) -> Result<(), AllocError>
    requires column { spot.col < grid.tiles_along plane.now.width }
    requires row { spot.row < grid.tiles_along plane.now.height }
    requires scratch { length scratch.old ≡ MAX_PLANE + SCRATCH }
    ensures ok { OnOk result (TileAppended C.fits 1 plane.now spot out.old out.new) }
    ensures followed { OnOk result (FollowsEach C.follows coder.old (tile_planes 1 plane.now spot)
        coder.new) }
{
    match kept_codes(plane, spot, coder)? {
        Some(codes) => out.append_part(alloc, codes),
        None => append_coded(alloc, plane, spot, out, scratch, coder),
    }
}

/// Appends a tile: its pixels as they are where the compression is 0, and else the spellings of its planes, which the
/// coder followed. The scratch has room for a plane of the tile, and behind that for the tile.
///
/// Codes that the coder keeps, and a tile that stands plain and is written plain, are shared with the file that was
/// read, or with the plane where the tile was edited, unless they are shorter than 512 bytes.
pub fn write_tile<C: PlaneCoder>(
    alloc: Global,
    plane: &Plane,
    spot: TileAt,
    compression: u8,
    out: &mut FileBytes,
    scratch: &mut [u8],
    coder: &mut C,
) -> Result<(), AllocError>
    requires column { spot.col < grid.tiles_along plane.now.width }
    requires row { spot.row < grid.tiles_along plane.now.height }
    requires compression { compression ≤ 1 }
    requires scratch { length scratch.old ≡ MAX_PLANE + SCRATCH }
    ensures ok { OnOk result (TileAppended C.fits compression plane.now spot out.old out.new) }
    ensures followed { OnOk result (FollowsEach C.follows coder.old
        (tile_planes compression plane.now spot) coder.new) }
{
    if compression == 0 {
        append_tile(alloc, plane, spot, out, &mut scratch[MAX_PLANE..])
    } else {
        append_run_length(alloc, plane, spot, out, scratch, coder)
    }
}
