ghost use Rattle.std.specs.Prelude.{◌≡◌, ◌≤◌, ◌^◌, IsTrue};
ghost use Rattle.spec_document.specs.Grid as tiles;

use spec_document::{Rect, TileAt};

/// The side of a tile. Those in the last column and row may be smaller.
pub const TILE_SIDE: u32 = 64;

/// How many tiles lie along a side.
pub fn tiles_along(side: usize) -> usize
    ensures { result ≡ tiles.tiles_along side }
{
    side.div_ceil(TILE_SIDE as usize)
}

/// The columns and rows of tiles of a sheet of these sides.
pub fn grid(w: u32, h: u32) -> (u32, u32)
    ensures columns { result.0 ≡ tiles.tiles_along w }
    ensures rows { result.1 ≡ tiles.tiles_along h }
{
    let columns = tiles_along(w as usize);
    let rows = tiles_along(h as usize);
    (columns as u32, rows as u32)
}

/// The rectangle of a tile of a sheet of these sides.
pub fn tile_rect(w: u32, h: u32, at: TileAt) -> Rect
    requires width { w ≤ 2 ^ 20 }
    requires height { h ≤ 2 ^ 20 }
    requires on_grid { IsTrue (tiles.is_on_grid w h at) }
    ensures { result ≡ tiles.tile_rect w h at }
{
    let x = TILE_SIDE * at.col;
    let y = TILE_SIDE * at.row;
    Rect {
        x: x as i32,
        y: y as i32,
        w: (w - x).min(TILE_SIDE),
        h: (h - y).min(TILE_SIDE),
    }
}
