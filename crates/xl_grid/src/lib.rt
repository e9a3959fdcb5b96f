//! Rectangles of pixels, and the grid of 64 by 64 tiles.
#![tactic(auto)]

mod covering;
mod rects;
mod tiling;

pub use covering::tiles_of;
pub use rects::{hull, is_empty, meet};
pub use spec_document::{MAX_SIDE, Rect, TileAt};
pub use tiling::{TILE_SIDE, grid, tile_rect, tiles_along};
