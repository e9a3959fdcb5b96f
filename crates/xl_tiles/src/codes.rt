ghost use Rattle.std.specs.Prelude.{◌≡◌, ◌<◌, IfOk, IfSome};
ghost use Rattle.spec_document.specs.Grid as grid;
ghost use Rattle.spec_hierarchy.specs.BytePlanes.{tile_planes};
ghost use Rattle.spec_hierarchy.specs.Layout.{AreSpelled};
ghost use Rattle.spec_hierarchy.specs.Tiles.{tile_bytes};
ghost use Rattle.spec_rle.specs.Codes.{AnySpelling};
ghost use Rattle.xl_tiles.specs.Table.{AreTiled, plane_by, tile};

use crate::area::Sheet;
use crate::reading::tile_in;
use crate::table::TileTable;
use crate::writing::tile_pixels;
use std::alloc::AllocError;
use xl_bytes::Part;

/// The codes of the tile of a column and a row, if they stand in a file and a writer may copy them.
pub fn tile_codes(
    sheet: Sheet,
    tiles: &TileTable,
    col: usize,
    row: usize,
) -> Result<Option<Part>, AllocError>
    requires tiled { AreTiled sheet.width sheet.height sheet.bpp tiles.now }
    requires column { col < grid.tiles_along sheet.width }
    requires row { row < grid.tiles_along sheet.height }
    ensures { IfOk result (λ found. IfSome found (λ codes. AreSpelled AnySpelling codes
        (tile_planes 1 (plane_by sheet.width sheet.height sheet.bpp tiles.now) (tile col row)))) }
{
    let n = tile_pixels(sheet, col, row);
    tile_in(sheet, tiles, col, row).codes(n, sheet.bpp)
}

/// The bytes of the tile of a column and a row, if they stand plain.
pub fn plain_tile(
    sheet: Sheet,
    tiles: &TileTable,
    col: usize,
    row: usize,
) -> Result<Option<Part>, AllocError>
    requires tiled { AreTiled sheet.width sheet.height sheet.bpp tiles.now }
    requires column { col < grid.tiles_along sheet.width }
    requires row { row < grid.tiles_along sheet.height }
    ensures { IfOk result (λ found. IfSome found (λ bytes. bytes
        ≡ tile_bytes (plane_by sheet.width sheet.height sheet.bpp tiles.now) (tile col row))) }
{
    tile_in(sheet, tiles, col, row).plain()
}
