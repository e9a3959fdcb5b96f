//! Blocks of pixels that lie over a tile.
ghost use Rattle.std.specs.Prelude.{◌≡◌, ◌+◌, ◌*◌, ◌≤◌, length};
ghost use Rattle.std.specs.Arc.{arc_value};
ghost use Rattle.xl_tile.specs.Overlay.{is_whole, overlaid, Fits};

use crate::block::{Block, Spot, copy_block};
use std::sync::Arc;

/// Where a block of the pixels of a buffer lies in a tile, which has so many rows.
#[derive(Clone, Copy)]
pub struct Overlay {
    pub to: Spot,
    pub rows: usize,
    pub from: Spot,
    pub block: Block,
}

impl Overlay {
    /// Whether the block is all of the tile.
    pub fn covers(self) -> bool
        ensures { result ≡ is_whole self }
    {
        self.to.x == 0
            && self.to.y == 0
            && self.block.w == self.to.stride
            && self.block.h == self.rows
    }

    /// Writes the block over the bytes of a tile.
    pub fn put(self, tile: &mut [u8], buffer: &[u8])
        requires { Fits self (length tile.old) (length buffer.now) }
        ensures { tile.new ≡ overlaid self buffer.now tile.old }
    {
        copy_block(tile, self.to, buffer, self.from, self.block);
    }
}

/// A block of the pixels of a buffer, which several tiles may share, and where it lies in a tile.
#[derive(Drop)]
pub struct Patch {
    pub overlay: Overlay,
    pub buffer: Arc<Vec<u8>>,
}

impl Patch {
    /// Writes the block over the bytes of a tile.
    pub fn put(&self, tile: &mut [u8])
        requires { Fits self.now.overlay (length tile.old) (length (arc_value self.now.buffer).items) }
        ensures { tile.new ≡ overlaid self.now.overlay (arc_value self.now.buffer).items tile.old }
    {
        self.overlay.put(tile, self.buffer.as_slice());
    }
}
