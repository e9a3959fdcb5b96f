ghost use Rattle.std.specs.Prelude.{◌≡◌, ◌+◌, ◌*◌, ◌<◌, ◌≤◌, ◌^◌, ◌++◌, [], ◌∷◌, length};
ghost use Rattle.std.specs.Prelude.{vec_len, IfOk, OnOk, OnErr};
ghost use Rattle.spec_document.specs.Grid as grid;
ghost use Rattle.spec_hierarchy.specs.BytePlanes.{byte_planes};
ghost use Rattle.spec_hierarchy.specs.Holds.{HasPlane};
ghost use Rattle.spec_hierarchy.specs.Layout.{words, IsWrittenPlane};
ghost use Rattle.xl_hier.specs.Appended.{PlaneAppended};
ghost use Rattle.xl_hier.specs.TilesMade.{TilesMade};
ghost use Rattle.xl_rle.specs.Follows.{FollowsEach};

use crate::written_tile::{MAX_PLANE, write_tile};
use std::alloc::{AllocError, Global};
use xl_bytes::FileBytes;
use xl_fields::put_u32;
use xl_grid::TileAt;
use xl_rle::PlaneCoder;
use xl_tiles::{Plane, SCRATCH};

// The bytes in front of a plane's tiles but for the pointers to them: five words of the hierarchy, two of the level,
// and the zero behind the pointers.
const HEADS: usize = 4 * (5 + 2 + 1);

// The first tile of a plane stands below this: a plane begins below 2^31, and in front of its tiles stand the heads and
// a pointer to each of at most 256 times 256 tiles.
const FIRST_TILE_BELOW: usize = (1 << 31) + HEADS + 4 * (256 * 256);

fn append_words(out: &mut Vec<u8>, values: &[u32]) -> Result<(), AllocError>
    ensures { OnOk result (out.new.items ≡ out.old.items ++ words values.now) }
{
    for value in values {
        put_u32(out, *value)?;
    }
    Ok(())
}

// The hierarchy at an offset, and its level behind it, whose tiles begin at these offsets.
fn heads(alloc: Global, plane: &Plane, at: u32, begins: &[u32]) -> Result<Vec<u8>, AllocError>
    requires { at < 2 ^ 31 }
    ensures { IfOk result (λ bytes. bytes.items ≡ words (plane.now.width ∷ plane.now.height
        ∷ plane.now.bpp ∷ (at + 20) ∷ 0 ∷ plane.now.width ∷ plane.now.height ∷ [])
        ++ (words begins.now ++ words (0 ∷ []))) }
{
    let width = plane.width();
    let height = plane.height();
    let mut bytes = Vec::with_capacity(alloc, HEADS)?;
    let front = [width, height, plane.bpp(), at + 20, 0, width, height];
    append_words(&mut bytes, &front)?;
    append_words(&mut bytes, begins)?;
    append_words(&mut bytes, &[0])?;
    Ok(bytes)
}

// Tiles one behind another, and where each begins.
#[derive(Drop)]
struct TileBytes {
    bytes: FileBytes,
    begins: Vec<u32>,
}

// Fills `tiles`, which is empty, with the tiles of a plane, the first of which begins at the offset `first`. The
// scratch has room for a plane of a tile, and behind that for a tile.
fn write_tiles<C: PlaneCoder>(
    alloc: Global,
    plane: &Plane,
    compression: u8,
    first: usize,
    tiles: &mut TileBytes,
    scratch: &mut [u8],
    coder: &mut C,
) -> Result<(), AllocError>
    requires compression { compression ≤ 1 }
    requires short { first < FIRST_TILE_BELOW }
    requires bytes { tiles.old.bytes ≡ [] }
    requires begins { tiles.old.begins.items ≡ [] }
    requires scratch { length scratch.old ≡ MAX_PLANE + SCRATCH }
    ensures ok { OnOk result (TilesMade C.fits compression plane.now first tiles.new.bytes
        tiles.new.begins.items) }
    ensures followed { OnOk result (FollowsEach C.follows coder.old
        (byte_planes compression plane.now) coder.new) }
{
    let (columns, rows) = xl_grid::grid(plane.width(), plane.height());
    for k in 0..columns * rows {
        let spot = TileAt {
            col: k % columns,
            row: k / columns,
        };
        let place = first + tiles.bytes.len();
        tiles.begins.push(place as u32)?;
        write_tile(
            alloc,
            plane,
            spot,
            compression,
            &mut tiles.bytes,
            scratch,
            coder,
        )?;
    }
    Ok(())
}

// The tiles of a plane, the first of which begins at an offset.
fn tiles_of<C: PlaneCoder>(
    alloc: Global,
    plane: &Plane,
    compression: u8,
    first: usize,
    coder: &mut C,
) -> Result<TileBytes, AllocError>
    requires compression { compression ≤ 1 }
    requires short { first < FIRST_TILE_BELOW }
    ensures ok { IfOk result (λ tiles. TilesMade C.fits compression plane.now first tiles.bytes
        tiles.begins.items) }
    ensures followed { OnOk result (FollowsEach C.follows coder.old
        (byte_planes compression plane.now) coder.new) }
{
    let mut tiles = TileBytes {
        bytes: FileBytes::new(alloc),
        begins: Vec::with_capacity(alloc, plane.tile_count() as usize)?,
    };
    let mut scratch = vec![in alloc; 0; MAX_PLANE + SCRATCH]?;
    write_tiles(
        alloc,
        plane,
        compression,
        first,
        &mut tiles,
        &mut scratch,
        coder,
    )?;
    Ok(tiles)
}

/// The bytes of a plane that stands at an offset of a file: its hierarchy, its one level and its tiles, whose pointers
/// count from the start of the file.
///
/// The tiles stand as they are where the compression is 0, and as the coder spells their planes where it is 1; so the
/// coder followed these planes, in the order in which they stand. Tiles may share the bytes of the file that was read,
/// or those of the plane (`write_tile`).
pub fn hierarchy<C: PlaneCoder>(
    alloc: Global,
    at: usize,
    plane: &Plane,
    compression: u8,
    coder: &mut C,
) -> Result<FileBytes, AllocError>
    requires short { at < 2 ^ 31 }
    requires compression { compression ≤ 1 }
    ensures written { IfOk result (λ bytes. IsWrittenPlane C.fits compression at plane.now bytes) }
    ensures followed { OnOk result (FollowsEach C.follows coder.old
        (byte_planes compression plane.now) coder.new) }
{
    let (columns, rows) = xl_grid::grid(plane.width(), plane.height());
    let first = at + HEADS + 4 * (rows * columns) as usize;
    let tiles = tiles_of(alloc, plane, compression, first, coder)?;
    let begins = tiles.begins.as_slice();
    let front = heads(alloc, plane, at as u32, begins)?;
    let mut bytes = FileBytes::new(alloc);
    bytes.append(alloc, front.as_slice())?;
    bytes.append_all(alloc, tiles.bytes)?;
    Ok(bytes)
}

/// Appends a plane: its hierarchy, its one level and its tiles, whose pointers count from the start of `out`.
///
/// The tiles stand as they are where the compression is 0, and as the coder spells their planes where it is 1; so the
/// coder followed these planes, in the order in which they stand. Out of memory, `out` is as before.
pub fn write_hierarchy<C: PlaneCoder>(
    alloc: Global,
    out: &mut Vec<u8>,
    plane: &Plane,
    compression: u8,
    coder: &mut C,
) -> Result<(), AllocError>
    requires short { vec_len out.old < 2 ^ 31 }
    requires compression { compression ≤ 1 }
    ensures written { OnOk result (PlaneAppended C.fits compression plane.now out.old.items
        out.new.items) }
    ensures held { OnOk result (HasPlane out.new.items (length out.old.items) compression
        plane.now) }
    ensures followed { OnOk result (FollowsEach C.follows coder.old
        (byte_planes compression plane.now) coder.new) }
    ensures err { OnErr result (out.new.items ≡ out.old.items) }
{
    // The sides are small, so what stands in front and the plane are below 4 GiB.
    let _width = plane.width();
    let bytes = hierarchy(alloc, out.len(), plane, compression, coder)?;
    bytes.append_to(out)
}
