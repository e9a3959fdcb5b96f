//! One tile of pixels.
#![tactic(auto)]

mod block;
mod codes;
mod join;
mod overlay;
mod packed;
mod planes;
mod rows;
mod run_length;
mod stored;
mod tile;

pub use block::{Block, Spot};
pub use codes::know_bytes;
pub use overlay::Overlay;
pub use rows::piece;
pub use tile::{MAX_TILE, SCRATCH, TileRef};
