ghost use Rattle.std.specs.Prelude.{◌≡◌, ◌*◌, ◌≤◌, length, IsTrue};
ghost use Rattle.spec_document.specs.Grid.{is_on_grid};
ghost use Rattle.spec_document.specs.Picture.{project};
ghost use Rattle.xcf.specs.TilePicture.{tile_picture};

use std::marker::Model;
use xl_compose::Picture as Tile;
use xl_doc::{Document, MAX_SIDE, NodeId, TileAt};
use xl_grid::tile_rect;

/// The picture of one tile, cut to the canvas: its sides in pixels, and RGBA, four bytes a pixel, row by row.
#[derive(Drop)]
pub struct Picture {
    width: u32,
    height: u32,
    tile: Tile,
}

impl Model for Picture {
    ghost use Rattle.xcf.specs.TilePicture.{TilePicture, IsTilePicture};

    ghost Value = { TilePicture };

    ghost view = { λ p. record { width = p.width; height = p.height; bytes = p.tile } };

    ghost invariant = { λ p. IsTilePicture (record { width = p.width; height = p.height; bytes = p.tile }) };
}

impl Picture {
    // The picture of a tile that is there, from its bytes.
    pub(crate) fn of(document: &Document, stack: NodeId, at: TileAt, tile: Tile) -> Picture
        requires on_grid { IsTrue (is_on_grid document.now.width document.now.height at) }
        requires bytes { tile ≡ project document.now stack.0 at }
        ensures { result ≡ tile_picture document.now stack.0 at }
    {
        prove!(document.width <= MAX_SIDE);
        prove!(document.height <= MAX_SIDE);
        let rect = tile_rect(document.width, document.height, at);
        Picture {
            width: rect.w,
            height: rect.h,
            tile,
        }
    }

    /// How many pixels a row has: 64, and fewer in the last column of tiles where the canvas ends there.
    pub fn width(&self) -> u32
        ensures value { result ≡ self.now.width }
        ensures some { 1 ≤ result }
        ensures few { result ≤ 64 }
    {
        self.width
    }

    /// How many rows there are: 64, and fewer in the last row of tiles where the canvas ends there.
    pub fn height(&self) -> u32
        ensures value { result ≡ self.now.height }
        ensures some { 1 ≤ result }
        ensures few { result ≤ 64 }
    {
        self.height
    }

    /// The RGBA bytes, row by row: four for each pixel of the tile.
    pub fn bytes(&self) -> &[u8]
        ensures value { result.now ≡ self.now.bytes }
        ensures length { length result.now ≡ 4 * (self.now.width * self.now.height) }
    {
        self.tile.bytes()
    }
}
