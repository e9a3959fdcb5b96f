ghost use Rattle.std.specs.Prelude.{◌≡◌, ◌+◌, ◌*◌, ◌<◌, ◌≤◌, length, min, take, true, IfOk, OnOk, OnErr};
ghost use Rattle.std.specs.Arc.{arc_value};
ghost use Rattle.spec_document.specs.Grid as grid;
ghost use Rattle.spec_document.specs.Limits.{AreBytes};
ghost use Rattle.spec_hierarchy.specs.Tiles as sheets;
ghost use Rattle.xl_tile.specs.Overlay.{overlaid, Fits};
ghost use Rattle.xl_tiles.specs.Area.{IsArea, Touches, rect_of};
ghost use Rattle.xl_tiles.specs.Repeated.{repeated, IsRepeated};
ghost use Rattle.xl_tiles.specs.Swapped.{Swapped};
ghost use Rattle.xl_tiles.specs.Table.{AreTiled, plane_by, tile, tile_of};
ghost use Rattle.xl_tiles.specs.Written.{written};

use crate::area::{Area, Sheet, TilePlace, Tiles, spot_of, tiles_of_area};
use crate::fill::repeat_in_rows;
use crate::reading::tile_in;
use crate::table::TileTable;
use crate::writing::{copied_tile, overlay_of, tile_pixels};
use std::alloc::{AllocError, Global};
use std::sync::Arc;
use xl_grid::tiles_along;
use xl_tile::{Overlay, Spot, TileRef};

// A pixel, and as many of it as a rectangle has in a tile at most, for tiles to share.
#[derive(Drop)]
struct Uniform<'a> {
    pixel: &'a [u8],
    buffer: Arc<Vec<u8>>,
}

// As many of a pixel as a rectangle has in a tile at most.
fn uniform_of(
    alloc: Global,
    area: Area,
    bpp: usize,
    pixel: &[u8],
) -> Result<Uniform<'_>, AllocError>
    requires few { bpp ≤ 4 }
    requires bytes { length (repeated (area.w * area.h) pixel.now) ≡ area.w * area.h * bpp }
    ensures pixel { IfOk result (λ uniform. uniform.pixel.now ≡ pixel.now) }
    ensures buffer { IfOk result (λ uniform. IsRepeated pixel.now (min 64 area.w * min 64 area.h)
        (arc_value uniform.buffer).items) }
{
    let bytes = repeat_in_rows(alloc, pixel, area.w.min(64), area.h.min(64))?;
    Ok(Uniform {
        pixel,
        buffer: Arc::new(alloc, bytes)?,
    })
}

// A tile with a block of a buffer over it, which is not all of it.
fn partly_filled(
    alloc: Global,
    sheet: Sheet,
    tiles: &TileTable,
    spot: TilePlace,
    overlay: Overlay,
    buffer: &Arc<Vec<u8>>,
) -> Result<TileRef, AllocError>
    requires tiled { AreTiled sheet.width sheet.height sheet.bpp tiles.now }
    requires column { spot.col < grid.tiles_along sheet.width }
    requires row { spot.row < grid.tiles_along sheet.height }
    requires fits { Fits overlay (length (tile_of sheet.width tiles.now spot.col spot.row))
        (length (arc_value buffer.now).items) }
    ensures { IfOk result (λ t. t ≡ overlaid overlay (arc_value buffer.now).items
        (tile_of sheet.width tiles.now spot.col spot.row)) }
{
    let old = tile_in(sheet, tiles, spot.col, spot.row);
    match old.patched(alloc, overlay, buffer)? {
        Some(tile) => Ok(tile),
        None => copied_tile(alloc, sheet, tiles, spot, overlay, buffer.as_slice()),
    }
}

// The same place in the tile, of pixels that stand at the front of a buffer.
fn from_front(overlay: Overlay) -> Overlay
    ensures { result ≡ record overlay { from = record { x = 0; y = 0; stride = overlay.block.w } } }
{
    Overlay {
        from: Spot {
            x: 0,
            y: 0,
            stride: overlay.block.w,
        },
        ..overlay
    }
}

// A tile with the pixels that a filled rectangle has in it: a share of the buffer where they are all of it.
fn filled_tile(
    alloc: Global,
    sheet: Sheet,
    tiles: &TileTable,
    spot: TilePlace,
    area: Area,
    uniform: &Uniform,
) -> Result<TileRef, AllocError>
    requires tiled { AreTiled sheet.width sheet.height sheet.bpp tiles.now }
    requires within { IsArea sheet.width sheet.height area }
    requires touches { Touches sheet.width sheet.height spot.col spot.row area }
    requires bytes { length (repeated (area.w * area.h) uniform.now.pixel.now)
        ≡ area.w * area.h * sheet.bpp }
    requires buffer { IsRepeated uniform.now.pixel.now (min 64 area.w * min 64 area.h)
        (arc_value uniform.now.buffer).items }
    ensures value { IfOk result (λ t. t ≡ sheets.tile_bytes
        (written (plane_by sheet.width sheet.height sheet.bpp tiles.now) (rect_of area)
        (repeated (area.w * area.h) uniform.now.pixel.now)) (tile spot.col spot.row)) }
    ensures bytes { IfOk result (λ t. AreBytes t) }
{
    let overlay = overlay_of(sheet, spot, area);
    if overlay.covers() {
        let n = tile_pixels(sheet, spot.col, spot.row);
        return TileRef::of_front(&uniform.buffer, n, sheet.bpp);
    }
    let front = from_front(overlay);
    let tile = partly_filled(alloc, sheet, tiles, spot, front, &uniform.buffer)?;
    // Asked for its clause that these are bytes.
    tile.len();
    Ok(tile)
}

// The table with the pixels of a filled rectangle.
fn filled_table(
    alloc: Global,
    sheet: Sheet,
    tiles: &TileTable,
    area: Area,
    range: Tiles,
    uniform: &Uniform,
) -> Result<TileTable, AllocError>
    requires tiled { AreTiled sheet.width sheet.height sheet.bpp tiles.now }
    requires within { IsArea sheet.width sheet.height area }
    requires left { area.x ≤ 64 * range.col + 64 }
    requires right { 64 * (range.col + range.across) ≤ area.x + area.w + 63 }
    requires top { area.y ≤ 64 * range.row + 64 }
    requires bottom { 64 * (range.row + range.down) ≤ area.y + area.h + 63 }
    requires bytes { length (repeated (area.w * area.h) uniform.now.pixel.now)
        ≡ area.w * area.h * sheet.bpp }
    requires buffer { IsRepeated uniform.now.pixel.now (min 64 area.w * min 64 area.h)
        (arc_value uniform.now.buffer).items }
    ensures { IfOk result (λ next. Swapped sheet.width sheet.height
        (written (plane_by sheet.width sheet.height sheet.bpp tiles.now) (rect_of area)
        (repeated (area.w * area.h) uniform.now.pixel.now)) range (range.across * range.down)
        tiles.now next) }
{
    let columns = tiles_along(sheet.width);
    let mut next = tiles.share()?;
    for k in 0..range.across * range.down {
        let spot = spot_of(range, k);
        let tile = filled_tile(alloc, sheet, tiles, spot, area, uniform)?;
        next.replace(alloc, spot.row * columns + spot.col, tile)?;
    }
    Ok(next)
}

/// Fills a rectangle with one pixel. All memory is taken first, and all other pixels stay. The tiles that lie in it
/// share their bytes.
pub fn fill_area(
    alloc: Global,
    sheet: Sheet,
    tiles: &mut TileTable,
    area: Area,
    pixel: &[u8],
) -> Result<(), AllocError>
    requires tiled { AreTiled sheet.width sheet.height sheet.bpp tiles.old }
    requires within { IsArea sheet.width sheet.height area }
    requires bytes { length (repeated (area.w * area.h) pixel.now) ≡ area.w * area.h * sheet.bpp }
    ensures tiled { AreTiled sheet.width sheet.height sheet.bpp tiles.new }
    ensures ok { OnOk result (plane_by sheet.width sheet.height sheet.bpp tiles.new ≡ written
        (plane_by sheet.width sheet.height sheet.bpp tiles.old) (rect_of area)
        (repeated (area.w * area.h) pixel.now)) }
    ensures err { OnErr result (tiles.new ≡ tiles.old) }
{
    let range = tiles_of_area(area);
    let uniform = uniform_of(alloc, area, sheet.bpp, pixel)?;
    *tiles = filled_table(alloc, sheet, tiles, area, range, &uniform)?;
    Ok(())
}
