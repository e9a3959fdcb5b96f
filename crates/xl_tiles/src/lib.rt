//! Planes of pixels.
#![tactic(auto)]

mod area;
mod changes;
mod codes;
mod fill;
mod filling;
mod plane;
mod reading;
mod row_list;
mod rows;
mod table;
mod tile_row;
mod uniform;
mod writing;

pub use fill::repeat;
pub use plane::Plane;
pub use xl_grid::{Rect, TileAt};
pub use xl_tile::{SCRATCH, TileRef, know_bytes};
