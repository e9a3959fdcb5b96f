//! What stays the same while a script is viewed.
use std::alloc::Global;

/// The memory, and how many columns and rows of tiles a window has.
#[derive(Drop)]
pub struct Viewing {
    pub alloc: Global,
    pub cols: u32,
    pub rows: u32,
}
