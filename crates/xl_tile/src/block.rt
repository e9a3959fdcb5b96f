ghost use Rattle.std.specs.Prelude.{◌≡◌, ℕ, ◌+◌, ◌-◌, ◌*◌, ◌<◌, ◌≤◌, ◌^◌, length, slice_index};
ghost use Rattle.xl_tile.specs.Block.{byte_after, pixel_byte};
ghost use Rattle.spec_document.specs.declared.TheConstants.{MAX_SIDE};

/// A column and a row among rows of `stride` pixels.
#[derive(Clone, Copy)]
pub struct Spot {
    pub x: usize,
    pub y: usize,
    pub stride: usize,
}

/// The sides of a block of pixels, and the bytes of a pixel.
#[derive(Clone, Copy)]
pub struct Block {
    pub w: usize,
    pub h: usize,
    pub bpp: usize,
}

// Writes bytes from a place on.
fn put(out: &mut [u8], at: usize, bytes: &[u8], from: usize, len: usize)
    requires out { at + len ≤ length out.old }
    requires bytes { from + len ≤ length bytes.now }
    ensures size { length out.new ≡ length out.old }
    ensures each { (k : ℕ) → slice_index out.new k
        ≡ byte_after at len (slice_index out.old k) (slice_index bytes.now (from + (k - at))) k }
{
    out[at..at + len].copy_from_slice(&bytes[from..from + len]);
}

/// The byte at which a row of a block begins, in a buffer of `len` bytes, which contracts alone look at.
pub fn row_start(spot: Spot, row: usize, block: Block, len: usize) -> usize
    requires across { spot.x + block.w ≤ spot.stride }
    requires row { row < block.h }
    requires down { spot.stride * (spot.y + block.h) * block.bpp ≤ len }
    requires small { len ≤ 2 ^ 30 }
    requires some { 1 ≤ block.bpp }
    requires tall { spot.y + block.h ≤ MAX_SIDE }
    ensures value { result ≡ ((spot.y + row) * spot.stride + spot.x) * block.bpp }
    ensures fits { result + block.w * block.bpp ≤ len }
{
    ((spot.y + row) * spot.stride + spot.x) * block.bpp
}

/// Copies a block of pixels from one place to another. All other bytes stay.
pub fn copy_block(out: &mut [u8], to: Spot, bytes: &[u8], from: Spot, block: Block)
    requires to_across { to.x + block.w ≤ to.stride }
    requires to_down { to.stride * (to.y + block.h) * block.bpp ≤ length out.old }
    requires to_tall { to.y + block.h ≤ MAX_SIDE }
    requires out_small { length out.old ≤ 2 ^ 30 }
    requires from_across { from.x + block.w ≤ from.stride }
    requires from_down { from.stride * (from.y + block.h) * block.bpp ≤ length bytes.now }
    requires from_tall { from.y + block.h ≤ MAX_SIDE }
    requires bytes_small { length bytes.now ≤ 2 ^ 30 }
    requires some { 1 ≤ block.bpp }
    requires few { block.bpp ≤ 4 }
    requires short { block.w ≤ MAX_SIDE }
    ensures size { length out.new ≡ length out.old }
    ensures each { (x y c : ℕ) → x < to.stride → c < block.bpp
        → slice_index out.new ((y * to.stride + x) * block.bpp + c) ≡ pixel_byte to from block.w
        block.h block.bpp bytes.now (slice_index out.old ((y * to.stride + x) * block.bpp + c)) x y
        c }
{
    let len = block.w * block.bpp;
    for r in 0..block.h {
        let at = row_start(to, r, block, out.len());
        let first = row_start(from, r, block, bytes.len());
        put(out, at, bytes, first, len);
    }
}
