ghost use Rattle.std.specs.Prelude.{◌≡◌, ℕ, ◌+◌, ◌*◌, ◌≤◌, ◌<◌, ◌^◌, length, slice_index, take, vec_len, IfOk, IfSome};
ghost use Rattle.std.specs.Arc.{arc_value};
ghost use Rattle.spec_document.specs.Limits.{AreBytes};
ghost use Rattle.spec_hierarchy.specs.Reading.{tile_at};
ghost use Rattle.spec_document.specs.declared.TheConstants.{MAX_SIDE};
ghost use Rattle.xl_fields.specs.Gives.{Gives};
ghost use Rattle.xl_tile.specs.Block.{pixel_byte};
ghost use Rattle.xl_tile.specs.Coded.{IsCoded};
ghost use Rattle.xl_tile.specs.Overlay.{overlaid, Fits};

use crate::block::{Block, Spot, copy_block};
use crate::codes::know_bytes;
use crate::overlay::{Overlay, Patch};
use crate::stored::Stored;
use std::alloc::{AllocError, Global};
use std::marker::Model;
use std::sync::Arc;
use xl_bytes::Part;
use xl_fields::ReadRefusedOrMemory;

/// The most bytes of a tile: 64 by 64 pixels of four bytes.
pub const MAX_TILE: usize = 16384;

/// How many bytes of scratch reading a tile needs: for its planes, and for the tile.
pub const SCRATCH: usize = 32768;

/// The bytes of a tile, its pixels row by row, which several planes may hold.
///
/// They stand in a file or are the tile's own, and one block of other pixels may lie over those of a file in runs, so that
/// the first small write unpacks nothing.
#[derive(Drop)]
pub struct TileRef {
    stored: Stored,
    patch: Option<Arc<Patch>>,
}

impl Model for TileRef {
    ghost use Rattle.std.specs.Prelude.{List, ℕ, length};
    ghost use Rattle.spec_document.specs.Limits.{AreBytes};
    ghost use Rattle.xl_tile.specs.Overlay.{under, FitsOver};

    ghost Value = { List ℕ };

    ghost view = { λ t. under t.patch t.stored };

    ghost invariant = { λ t. FitsOver t.patch (length t.stored) × AreBytes (under t.patch t.stored) };
}

impl TileRef {
    /// The tile of n pixels at an offset of a file, or why none stands there: Truncated, or in runs BadRun. Its bytes
    /// stay as the file has them.
    pub fn of_file(
        file: &Arc<Vec<u8>>,
        at: usize,
        n: usize,
        bpp: usize,
        compression: u8,
    ) -> Result<TileRef, ReadRefusedOrMemory>
        requires small { at < 2 ^ 32 }
        requires some { 1 ≤ n }
        requires few { n ≤ 4096 }
        requires some_bytes { 1 ≤ bpp }
        requires few_bytes { bpp ≤ 4 }
        requires compression { compression ≤ 1 }
        ensures value { Gives result (tile_at (arc_value file.now).items at n bpp compression) }
        ensures size { IfOk result (λ t. length t ≡ n * bpp) }
        ensures bytes { IfOk result (λ t. AreBytes t) }
    {
        let stored = Stored::of_file(file, at, n, bpp, compression)?;
        Ok(TileRef::whole(stored))
    }

    // The stored tile, with no block over it.
    fn whole(stored: Stored) -> TileRef
        requires { AreBytes stored }
        ensures { result ≡ stored }
    {
        TileRef {
            stored,
            patch: None,
        }
    }

    /// How many bytes it has.
    pub fn len(&self) -> usize
        ensures value { result ≡ length self.now }
        ensures bytes { AreBytes self.now }
    {
        self.stored.len()
    }

    /// The tile of n pixels that these bytes begin with.
    pub fn of_front(bytes: &Arc<Vec<u8>>, n: usize, bpp: usize) -> Result<TileRef, AllocError>
        requires some { 1 ≤ n }
        requires few { n ≤ 4096 }
        requires some_bytes { 1 ≤ bpp }
        requires few_bytes { bpp ≤ 4 }
        requires full { n * bpp ≤ length (arc_value bytes.now).items }
        ensures value { IfOk result (λ t. t ≡ take (n * bpp) (arc_value bytes.now).items) }
        ensures bytes { IfOk result (λ t. AreBytes t) }
    {
        let stored = Stored::of_front(bytes, n, bpp)?;
        Ok(TileRef::whole(stored))
    }

    /// The tile of these bytes.
    pub fn of_bytes(
        alloc: Global,
        bytes: Vec<u8>,
        n: usize,
        bpp: usize,
    ) -> Result<TileRef, AllocError>
        requires some { 1 ≤ n }
        requires few { n ≤ 4096 }
        requires some_bytes { 1 ≤ bpp }
        requires few_bytes { bpp ≤ 4 }
        requires full { vec_len bytes ≡ n * bpp }
        ensures value { IfOk result (λ t. t ≡ bytes.items) }
        ensures bytes { IfOk result (λ t. AreBytes t) }
    {
        let stored = Stored::of_bytes(alloc, bytes, n, bpp)?;
        Ok(TileRef::whole(stored))
    }

    /// The tile with a block of a buffer's pixels over it, or none where nothing is to be unpacked, or such a block is
    /// there already.
    pub fn patched(
        &self,
        alloc: Global,
        overlay: Overlay,
        buffer: &Arc<Vec<u8>>,
    ) -> Result<Option<TileRef>, AllocError>
        requires { Fits overlay (length self.now) (length (arc_value buffer.now).items) }
        ensures { IfOk result (λ found. IfSome found (λ t. t
            ≡ overlaid overlay (arc_value buffer.now).items self.now)) }
    {
        if self.stored.stands_plain() {
            return Ok(None);
        }
        let None = &self.patch else {
            return Ok(None);
        };
        know_bytes(buffer.as_slice());
        let patch = Patch {
            overlay,
            buffer: Arc::try_clone(buffer)?,
        };
        Ok(Some(TileRef {
            stored: self.stored.share()?,
            patch: Some(Arc::new(alloc, patch)?),
        }))
    }

    /// The bytes, in the scratch where they do not stand plain.
    pub fn bytes<'a>(&'a self, scratch: &'a mut [u8]) -> &'a [u8]
        requires { length scratch.old ≡ SCRATCH }
        ensures { result.now ≡ self.now }
    {
        match &self.patch {
            None => self.stored.bytes(scratch),
            Some(patch) => {
                let (planes, tile) = scratch.split_at_mut(MAX_TILE);
                let out = &mut tile[..self.stored.len()];
                self.stored.read(planes, out);
                patch.put(out);
                out
            }
        }
    }

    /// Fills `out` with the bytes. `planes` is scratch of `MAX_TILE` bytes.
    pub fn read(&self, planes: &mut [u8], out: &mut [u8])
        requires planes { length planes.old ≡ MAX_TILE }
        requires out { length out.old ≡ length self.now }
        ensures value { out.new ≡ self.now }
        ensures planes { length planes.new ≡ MAX_TILE }
    {
        self.stored.read(planes, out);
        if let Some(patch) = &self.patch {
            patch.put(out);
        }
    }

    /// Its codes as they stand in the file, where it has n pixels of so many bytes and stands in runs, with no block over
    /// it. None, too, where one of its planes is spelled longer than a writer may.
    pub fn codes(&self, n: usize, bpp: usize) -> Result<Option<Part>, AllocError>
        ensures { IfOk result (λ found. IfSome found (λ codes. IsCoded self.now n bpp codes)) }
    {
        match &self.patch {
            None => self.stored.codes(n, bpp),
            Some(_) => Ok(None),
        }
    }

    /// Its bytes where they stand plain, with no block over them.
    pub fn plain(&self) -> Result<Option<Part>, AllocError>
        ensures { IfOk result (λ found. IfSome found (λ bytes. bytes ≡ self.now)) }
    {
        match &self.patch {
            None => self.stored.plain(),
            Some(_) => Ok(None),
        }
    }

    /// Copies a block of its pixels from one place to another. All other bytes stay. The scratch is for the tile.
    pub fn copy_block(&self, out: &mut [u8], to: Spot, from: Spot, block: Block, scratch: &mut [u8])
        requires to_across { to.x + block.w ≤ to.stride }
        requires to_down { to.stride * (to.y + block.h) * block.bpp ≤ length out.old }
        requires to_tall { to.y + block.h ≤ MAX_SIDE }
        requires out_small { length out.old ≤ 2 ^ 30 }
        requires from_across { from.x + block.w ≤ from.stride }
        requires from_down { from.stride * (from.y + block.h) * block.bpp ≤ length self.now }
        requires from_tall { from.y + block.h ≤ MAX_SIDE }
        requires some { 1 ≤ block.bpp }
        requires few { block.bpp ≤ 4 }
        requires short { block.w ≤ MAX_SIDE }
        requires scratch { length scratch.old ≡ SCRATCH }
        ensures size { length out.new ≡ length out.old }
        ensures each { (x y c : ℕ) → x < to.stride → c < block.bpp
            → slice_index out.new ((y * to.stride + x) * block.bpp + c)
            ≡ pixel_byte to from block.w block.h block.bpp self.now
            (slice_index out.old ((y * to.stride + x) * block.bpp + c)) x y c }
    {
        match &self.patch {
            None => self.stored.copy_block(out, to, from, block, scratch),
            Some(_) => copy_block(out, to, self.bytes(scratch), from, block),
        }
    }

    /// The same tile: one count, or two where a block lies over it.
    pub fn share(&self) -> Result<TileRef, AllocError>
        ensures { IfOk result (λ t. t ≡ self.now) }
    {
        let patch = match &self.patch {
            None => None,
            Some(patch) => Some(Arc::try_clone(patch)?),
        };
        Ok(TileRef {
            stored: self.stored.share()?,
            patch,
        })
    }
}
