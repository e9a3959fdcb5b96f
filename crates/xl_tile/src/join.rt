ghost use Rattle.std.specs.Prelude.{◌≡◌, ℕ, ◌+◌, ◌*◌, ◌<◌, ◌≤◌, [], ◌∷◌, length, slice_index};
ghost use Rattle.xl_tile.specs.Joined.{IsJoined};

use crate::rows::piece;

// Byte by byte, here and below: so the loops are compiled to shuffles of bytes, and none is widened to a word.
fn put_two(tile: &mut [u8], at: usize, first: u8, second: u8)
    requires { at + 2 ≤ length tile.old }
    ensures before { (j : ℕ) → j < at → slice_index tile.new j ≡ slice_index tile.old j }
    ensures first { slice_index tile.new at ≡ first }
    ensures second { slice_index tile.new (at + 1) ≡ second }
{
    tile[at] = first;
    tile[at + 1] = second;
}

fn put_three(tile: &mut [u8], at: usize, first: u8, second: u8, third: u8)
    requires { at + 3 ≤ length tile.old }
    ensures before { (j : ℕ) → j < at → slice_index tile.new j ≡ slice_index tile.old j }
    ensures first { slice_index tile.new at ≡ first }
    ensures second { slice_index tile.new (at + 1) ≡ second }
    ensures third { slice_index tile.new (at + 2) ≡ third }
{
    tile[at] = first;
    tile[at + 1] = second;
    tile[at + 2] = third;
}

fn put_four(tile: &mut [u8], at: usize, first: u8, second: u8, third: u8, fourth: u8)
    requires { at + 4 ≤ length tile.old }
    ensures before { (j : ℕ) → j < at → slice_index tile.new j ≡ slice_index tile.old j }
    ensures first { slice_index tile.new at ≡ first }
    ensures second { slice_index tile.new (at + 1) ≡ second }
    ensures third { slice_index tile.new (at + 2) ≡ third }
    ensures fourth { slice_index tile.new (at + 3) ≡ fourth }
{
    tile[at] = first;
    tile[at + 1] = second;
    tile[at + 2] = third;
    tile[at + 3] = fourth;
}

/// Joins two planes of equal length: the two bytes of each pixel come to stand side by side.
pub fn join_two(first: &[u8], second: &[u8], tile: &mut [u8])
    requires second { length second.now ≡ length first.now }
    requires tile { length tile.old ≡ length first.now * 2 }
    ensures { IsJoined 2 (length first.now) (first.now ∷ second.now ∷ []) tile.new }
{
    for k in 0..first.len() {
        put_two(tile, k * 2, first[k], second[k]);
    }
}

/// Joins three planes of equal length, as `join_two` does two.
pub fn join_three(first: &[u8], second: &[u8], third: &[u8], tile: &mut [u8])
    requires second { length second.now ≡ length first.now }
    requires third { length third.now ≡ length first.now }
    requires tile { length tile.old ≡ length first.now * 3 }
    ensures { IsJoined 3 (length first.now) (first.now ∷ second.now ∷ third.now ∷ []) tile.new }
{
    for k in 0..first.len() {
        put_three(tile, k * 3, first[k], second[k], third[k]);
    }
}

/// Joins four planes of equal length, as `join_two` does two.
pub fn join_four(first: &[u8], second: &[u8], third: &[u8], fourth: &[u8], tile: &mut [u8])
    requires second { length second.now ≡ length first.now }
    requires third { length third.now ≡ length first.now }
    requires fourth { length fourth.now ≡ length first.now }
    requires tile { length tile.old ≡ length first.now * 4 }
    ensures { IsJoined 4 (length first.now) (first.now ∷ second.now ∷ third.now ∷ fourth.now ∷ [])
        tile.new }
{
    for k in 0..first.len() {
        put_four(tile, k * 4, first[k], second[k], third[k], fourth[k]);
    }
}

/// Joins w pixels of planes of n bytes, one after another, from a pixel on.
pub fn join_pixels(planes: &[u8], n: usize, bpp: usize, first: usize, w: usize, pixels: &mut [u8])
    requires some { 1 ≤ bpp }
    requires few { bpp ≤ 4 }
    requires planes { length planes.now ≡ bpp * n }
    requires within { first + w ≤ n }
    requires pixels { length pixels.old ≡ w * bpp }
    ensures { (k c : ℕ) → k < w → c < bpp → slice_index pixels.new (k * bpp + c)
        ≡ slice_index planes.now (c * n + (first + k)) }
{
    let front = piece(planes, first, w);
    match bpp {
        1 => pixels.copy_from_slice(front),
        2 => join_two(front, piece(planes, n + first, w), pixels),
        3 => join_three(
            front,
            piece(planes, n + first, w),
            piece(planes, 2 * n + first, w),
            pixels,
        ),
        _ => join_four(
            front,
            piece(planes, n + first, w),
            piece(planes, 2 * n + first, w),
            piece(planes, 3 * n + first, w),
            pixels,
        ),
    }
}
