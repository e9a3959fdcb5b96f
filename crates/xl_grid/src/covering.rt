ghost use Rattle.std.specs.Prelude.{◌≡◌, ◌++◌, ◌≤◌, ◌<◌, ◌^◌, IfOk, OnOk, IsTrue};
ghost use Rattle.spec_document.specs.Grid as tiles;
ghost use Rattle.spec_document.specs.Rect.{do_meet};
ghost use Rattle.xl_grid.specs.Covering.{row_of};
ghost use Rattle.xl_grid.specs.Small.{IsSmall};

use crate::rects::{is_empty, meet};
use crate::tiling::{grid, tile_rect};
use spec_document::{Rect, TileAt};
use std::alloc::{AllocError, Global};

// Whether a tile shares a point with a rectangle.
fn do_meet(rect: Rect, w: u32, h: u32, at: TileAt) -> bool
    requires rect { IsSmall rect }
    requires width { w ≤ 2 ^ 20 }
    requires height { h ≤ 2 ^ 20 }
    requires on_grid { IsTrue (tiles.is_on_grid w h at) }
    ensures { result ≡ do_meet rect (tiles.tile_rect w h at) }
{
    !is_empty(meet(rect, tile_rect(w, h, at)))
}

// Adds the tiles of a row that share a point with a rectangle.
fn add_row(list: &mut Vec<TileAt>, rect: Rect, w: u32, h: u32, row: u32) -> Result<(), AllocError>
    requires rect { IsSmall rect }
    requires width { w ≤ 2 ^ 20 }
    requires height { h ≤ 2 ^ 20 }
    requires row { row < tiles.tiles_along h }
    ensures { OnOk result (list.new.items ≡ list.old.items ++ row_of rect w h row
        (tiles.tiles_along w)) }
{
    for col in 0..grid(w, h).0 {
        let at = TileAt { col, row };
        if do_meet(rect, w, h, at) {
            list.push(at)?;
        }
    }
    Ok(())
}

/// The tiles of a sheet of these sides that share a point with a rectangle, row by row.
pub fn tiles_of(alloc: Global, rect: Rect, w: u32, h: u32) -> Result<Vec<TileAt>, AllocError>
    requires rect { IsSmall rect }
    requires width { w ≤ 2 ^ 20 }
    requires height { h ≤ 2 ^ 20 }
    ensures { IfOk result (λ list. list.items ≡ tiles.tiles_of rect w h) }
{
    let mut list = Vec::new(alloc);
    for row in 0..grid(w, h).1 {
        add_row(&mut list, rect, w, h, row)?;
    }
    Ok(list)
}
