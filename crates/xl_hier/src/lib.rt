//! A plane of pixels in a file: a hierarchy, its level in use, and the tiles.
#![tactic(auto)]

mod band;
mod beside;
mod file;
mod frame;
mod gather;
mod laws;
mod level;
mod reading;
mod tile;
mod writing;
mod written_tile;

pub use file::{FileBeside, TileFile};
pub use frame::Frame;
pub use laws::written_planes_are_read;
pub use reading::read_hierarchy;
pub use writing::{hierarchy, write_hierarchy};
pub use xl_bytes::FileBytes;
pub use xl_fields::ReadRefusedOrMemory;
pub use xl_rle::{Greedy, Keeping, PlaneCoder};
pub use xl_tiles::{Plane, TileRef};
