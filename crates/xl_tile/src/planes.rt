//! Blocks of pixels of a tile in runs. Its planes are joined where the pixels are to stand, so that no byte is moved
//! twice.
ghost use Rattle.std.specs.Prelude.{◌≡◌, ℕ, ◌+◌, ◌-◌, ◌*◌, ◌<◌, ◌≤◌, ◌^◌, length, slice_index};
ghost use Rattle.spec_hierarchy.specs.Tiles.{interleaved};
ghost use Rattle.xl_tile.specs.Block.{byte_after, pixel_byte};
ghost use Rattle.xl_tile.specs.Joined.{pieces};
ghost use Rattle.spec_document.specs.declared.TheConstants.{MAX_SIDE};

use crate::block::{Block, Spot, row_start};
use crate::join::join_pixels;

// Writes w pixels of planes of n bytes, from a pixel on, to a place.
fn put_joined(
    out: &mut [u8],
    at: usize,
    planes: &[u8],
    n: usize,
    bpp: usize,
    first: usize,
    w: usize,
)
    requires some { 1 ≤ bpp }
    requires few { bpp ≤ 4 }
    requires planes { length planes.now ≡ bpp * n }
    requires within { first + w ≤ n }
    requires out { at + w * bpp ≤ length out.old }
    ensures size { length out.new ≡ length out.old }
    ensures each { (k : ℕ) → slice_index out.new k
        ≡ byte_after at (w * bpp) (slice_index out.old k)
        (slice_index (interleaved n (pieces bpp n planes.now)) (first * bpp + (k - at))) k }
{
    join_pixels(planes, n, bpp, first, w, &mut out[at..at + w * bpp]);
}

/// Joins a block of the pixels of planes of n bytes, one after another, to a place. All other bytes stay.
pub fn join_block(out: &mut [u8], to: Spot, planes: &[u8], n: usize, from: Spot, block: Block)
    requires to_across { to.x + block.w ≤ to.stride }
    requires to_down { to.stride * (to.y + block.h) * block.bpp ≤ length out.old }
    requires to_tall { to.y + block.h ≤ MAX_SIDE }
    requires out_small { length out.old ≤ 2 ^ 30 }
    requires from_across { from.x + block.w ≤ from.stride }
    requires from_down { from.stride * (from.y + block.h) ≤ n }
    requires from_tall { from.y + block.h ≤ MAX_SIDE }
    requires planes { length planes.now ≡ block.bpp * n }
    requires small { n ≤ 4096 }
    requires some { 1 ≤ block.bpp }
    requires few { block.bpp ≤ 4 }
    ensures size { length out.new ≡ length out.old }
    ensures each { (x y c : ℕ) → x < to.stride → c < block.bpp
        → slice_index out.new ((y * to.stride + x) * block.bpp + c) ≡ pixel_byte to from block.w
        block.h block.bpp (interleaved n (pieces block.bpp n planes.now))
        (slice_index out.old ((y * to.stride + x) * block.bpp + c)) x y c }
{
    let pixels = Block { bpp: 1, ..block };
    for r in 0..block.h {
        let at = row_start(to, r, block, out.len());
        let first = row_start(from, r, pixels, n);
        put_joined(out, at, planes, n, block.bpp, first, block.w);
    }
}
