//! Where the bytes of a tile stand.
ghost use Rattle.std.specs.Prelude.{◌≡◌, ℕ, ◌+◌, ◌*◌, ◌≤◌, ◌<◌, ◌^◌, length, slice_index};
ghost use Rattle.std.specs.Prelude.{take, vec_len, IfOk, IfSome};
ghost use Rattle.std.specs.Arc.{arc_value};
ghost use Rattle.spec_document.specs.Limits.{AreBytes};
ghost use Rattle.spec_hierarchy.specs.Reading.{tile_at};
ghost use Rattle.spec_document.specs.declared.TheConstants.{MAX_SIDE};
ghost use Rattle.xl_fields.specs.Gives.{Gives};
ghost use Rattle.xl_tile.specs.Block.{pixel_byte};
ghost use Rattle.xl_tile.specs.Coded.{IsCoded};
ghost use Rattle.xl_tile.specs.declared.tile.TheConstants.{MAX_TILE, SCRATCH};

use crate::block::{Block, Spot, copy_block};
use crate::codes::{codes_at, know_bytes};
use crate::packed::{check_tile, plain_bytes, unpack, unpack_planes};
use crate::planes::join_block;
use crate::tile::MAX_TILE;
use std::alloc::{AllocError, Global};
use std::marker::Model;
use std::sync::Arc;
use xl_bytes::Part;
use xl_fields::ReadRefusedOrMemory;

/// The bytes of a tile, its pixels row by row, at an offset of bytes that are shared: a file, which has them plain or in
/// runs, or bytes of the tile's own.
#[derive(Drop)]
pub struct Stored {
    shared: Arc<Vec<u8>>,
    at: u32,
    pixels: u16,
    bpp: u8,
    compression: u8,
}

impl Model for Stored {
    ghost use Rattle.std.specs.Prelude.{List, ℕ};
    ghost use Rattle.std.specs.Arc.{arc_value};
    ghost use Rattle.xl_tile.specs.Packed.{packed, IsPacked};

    ghost Value = { List ℕ };

    ghost view = { λ t. packed (arc_value t.shared).items t.at t.pixels t.bpp t.compression };

    ghost invariant = { λ t. IsPacked (arc_value t.shared).items t.at t.pixels t.bpp t.compression };
}

impl Stored {
    /// The tile of n pixels at an offset of a file, or why none stands there: Truncated, or in runs BadRun. Its bytes
    /// stay as the file has them.
    pub fn of_file(
        file: &Arc<Vec<u8>>,
        at: usize,
        n: usize,
        bpp: usize,
        compression: u8,
    ) -> Result<Stored, ReadRefusedOrMemory>
        requires small { at < 2 ^ 32 }
        requires some { 1 ≤ n }
        requires few { n ≤ 4096 }
        requires some_bytes { 1 ≤ bpp }
        requires few_bytes { bpp ≤ 4 }
        requires compression { compression ≤ 1 }
        ensures value { Gives result (tile_at (arc_value file.now).items at n bpp compression) }
        ensures size { IfOk result (λ t. length t ≡ n * bpp) }
        ensures bytes { IfOk result (λ t. AreBytes t) }
    {
        let bytes = file.as_slice();
        know_bytes(bytes);
        check_tile(bytes, at, n, bpp, compression)?;
        Ok(Stored {
            shared: Arc::try_clone(file)?,
            at: at as u32,
            pixels: n as u16,
            bpp: bpp as u8,
            compression,
        })
    }

    /// How many bytes it has.
    pub fn len(&self) -> usize
        ensures value { result ≡ length self.now }
        ensures few { result ≤ MAX_TILE }
        ensures bytes { AreBytes self.now }
    {
        self.pixels as usize * self.bpp as usize
    }

    /// The tile of n pixels that these bytes begin with.
    pub fn of_front(bytes: &Arc<Vec<u8>>, n: usize, bpp: usize) -> Result<Stored, AllocError>
        requires some { 1 ≤ n }
        requires few { n ≤ 4096 }
        requires some_bytes { 1 ≤ bpp }
        requires few_bytes { bpp ≤ 4 }
        requires full { n * bpp ≤ length (arc_value bytes.now).items }
        ensures value { IfOk result (λ t. t ≡ take (n * bpp) (arc_value bytes.now).items) }
        ensures bytes { IfOk result (λ t. AreBytes t) }
    {
        know_bytes(bytes.as_slice());
        Ok(Stored {
            shared: Arc::try_clone(bytes)?,
            at: 0,
            pixels: n as u16,
            bpp: bpp as u8,
            compression: 0,
        })
    }

    /// The tile of these bytes.
    pub fn of_bytes(
        alloc: Global,
        bytes: Vec<u8>,
        n: usize,
        bpp: usize,
    ) -> Result<Stored, AllocError>
        requires some { 1 ≤ n }
        requires few { n ≤ 4096 }
        requires some_bytes { 1 ≤ bpp }
        requires few_bytes { bpp ≤ 4 }
        requires full { vec_len bytes ≡ n * bpp }
        ensures value { IfOk result (λ t. t ≡ bytes.items) }
        ensures bytes { IfOk result (λ t. AreBytes t) }
    {
        know_bytes(&bytes);
        Ok(Stored {
            shared: Arc::new(alloc, bytes)?,
            at: 0,
            pixels: n as u16,
            bpp: bpp as u8,
            compression: 0,
        })
    }

    /// The bytes, in the scratch where the file has them in runs.
    pub fn bytes<'a>(&'a self, scratch: &'a mut [u8]) -> &'a [u8]
        requires { length scratch.old ≡ SCRATCH }
        ensures { result.now ≡ self.now }
    {
        let n = self.pixels as usize;
        let bpp = self.bpp as usize;
        let file = self.shared.as_slice();
        if self.compression == 0 {
            return plain_bytes(file, self.at as usize, n, bpp);
        }
        let (planes, tile) = scratch.split_at_mut(MAX_TILE);
        let out = &mut tile[..n * bpp];
        unpack(file, self.at as usize, n, bpp, planes, out);
        out
    }

    /// Fills `out` with the bytes. `planes` is scratch of `MAX_TILE` bytes.
    pub fn read(&self, planes: &mut [u8], out: &mut [u8])
        requires planes { length planes.old ≡ MAX_TILE }
        requires out { length out.old ≡ length self.now }
        ensures value { out.new ≡ self.now }
        ensures planes { length planes.new ≡ MAX_TILE }
    {
        let n = self.pixels as usize;
        let bpp = self.bpp as usize;
        let file = self.shared.as_slice();
        if self.compression == 0 {
            out.copy_from_slice(plain_bytes(file, self.at as usize, n, bpp));
        } else {
            unpack(file, self.at as usize, n, bpp, planes, out);
        }
    }

    /// Its codes as they stand in the file, where it has n pixels of so many bytes and stands in runs. None, too, where
    /// one of its planes is spelled longer than a writer may.
    pub fn codes(&self, n: usize, bpp: usize) -> Result<Option<Part>, AllocError>
        ensures { IfOk result (λ found. IfSome found (λ codes. IsCoded self.now n bpp codes)) }
    {
        if self.compression == 0 || self.pixels as usize != n || self.bpp as usize != bpp {
            return Ok(None);
        }
        know_bytes(self.shared.as_slice());
        codes_at(&self.shared, self.at as usize, n, bpp)
    }

    /// Its bytes where they stand plain.
    pub fn plain(&self) -> Result<Option<Part>, AllocError>
        ensures { IfOk result (λ found. IfSome found (λ bytes. bytes ≡ self.now)) }
    {
        if self.compression != 0 {
            return Ok(None);
        }
        let from = self.at as usize;
        let end = from + self.pixels as usize * self.bpp as usize;
        Ok(Some(Part::of(&self.shared, from, end)?))
    }

    /// Copies a block of its pixels from one place to another. All other bytes stay. The scratch is for the tile.
    pub(crate) fn copy_block(
        &self,
        out: &mut [u8],
        to: Spot,
        from: Spot,
        block: Block,
        scratch: &mut [u8],
    )
        requires to_across { to.x + block.w ≤ to.stride }
        requires to_down { to.stride * (to.y + block.h) * block.bpp ≤ length out.old }
        requires to_tall { to.y + block.h ≤ MAX_SIDE }
        requires out_small { length out.old ≤ 2 ^ 30 }
        requires from_across { from.x + block.w ≤ from.stride }
        requires from_down { from.stride * (from.y + block.h) * block.bpp ≤ length self.now }
        requires from_tall { from.y + block.h ≤ MAX_SIDE }
        requires some { 1 ≤ block.bpp }
        requires few { block.bpp ≤ 4 }
        requires short { block.w ≤ MAX_SIDE }
        requires scratch { length scratch.old ≡ SCRATCH }
        ensures size { length out.new ≡ length out.old }
        ensures each { (x y c : ℕ) → x < to.stride → c < block.bpp
            → slice_index out.new ((y * to.stride + x) * block.bpp + c)
            ≡ pixel_byte to from block.w block.h block.bpp self.now
            (slice_index out.old ((y * to.stride + x) * block.bpp + c)) x y c }
    {
        let n = self.pixels as usize;
        let bpp = self.bpp as usize;
        if self.compression == 0 || bpp != block.bpp {
            copy_block(out, to, self.bytes(scratch), from, block);
        } else {
            let file = self.shared.as_slice();
            let planes = &mut scratch[..bpp * n];
            unpack_planes(file, self.at as usize, n, bpp, planes);
            join_block(out, to, planes, n, from, block);
        }
    }

    /// Whether the bytes stand plain.
    pub fn stands_plain(&self) -> bool {
        self.compression == 0
    }

    /// The same tile: one count.
    pub fn share(&self) -> Result<Stored, AllocError>
        ensures { IfOk result (λ t. t ≡ self.now) }
    {
        Ok(Stored {
            shared: Arc::try_clone(&self.shared)?,
            at: self.at,
            pixels: self.pixels,
            bpp: self.bpp,
            compression: self.compression,
        })
    }
}
