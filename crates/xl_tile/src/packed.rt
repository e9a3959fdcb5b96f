ghost use Rattle.std.specs.Prelude.{◌≡◌, ◌+◌, ◌*◌, ◌≤◌, ◌<◌, ◌^◌, length, Ok};
ghost use Rattle.spec_hierarchy.specs.Reading as hierarchy;
ghost use Rattle.spec_hierarchy.specs.Tiles.{interleaved};
ghost use Rattle.xl_tile.specs.Joined.{pieces};
ghost use Rattle.xl_tile.specs.Packed.{packed, IsPacked, done};
ghost use Rattle.xl_tile.specs.declared.tile.TheConstants.{MAX_TILE};

use crate::join::join_pixels;
use crate::rows::piece;
use crate::run_length::planes_at;
use xl_fields::{Kind, ReadRefused, refuse};
use xl_rle::check_plane;

// Refuses codes that are not those of as many planes of n bytes as a pixel has bytes.
fn check_run_length(bytes: &[u8], at: usize, n: usize, bpp: usize) -> Result<(), ReadRefused>
    requires some { 1 ≤ n }
    requires few { n ≤ 4096 }
    requires bpp { bpp ≤ 4 }
    ensures { result ≡ done (hierarchy.planes_at bpp bytes.now at n) }
{
    let mut at = at;
    for _c in 0..bpp {
        at = check_plane(bytes, at, n)?;
    }
    Ok(())
}

// Refuses an offset behind which n bytes do not stand.
fn check_plain(bytes: &[u8], at: usize, n: usize) -> Result<(), ReadRefused>
    requires small { at < 2 ^ 32 }
    requires few { n ≤ MAX_TILE }
    ensures { result ≡ done (hierarchy.plain_at bytes.now at n) }
{
    if bytes.len() < at + n {
        return Err(refuse(Kind::Truncated, at));
    }
    Ok(())
}

/// Whether a tile of n pixels stands at an offset, or the refusal of its reading. No byte of it is written.
pub fn check_tile(
    bytes: &[u8],
    at: usize,
    n: usize,
    bpp: usize,
    compression: u8,
) -> Result<(), ReadRefused>
    requires small { at < 2 ^ 32 }
    requires some { 1 ≤ n }
    requires few { n ≤ 4096 }
    requires bpp { bpp ≤ 4 }
    ensures { result ≡ done (hierarchy.tile_at bytes.now at n bpp compression) }
{
    if compression == 0 {
        check_plain(bytes, at, n * bpp)
    } else {
        check_run_length(bytes, at, n, bpp)
    }
}

/// The bytes of a tile that stands plain.
pub fn plain_bytes(bytes: &[u8], at: usize, n: usize, bpp: usize) -> &[u8]
    requires small { at < 2 ^ 32 }
    requires packed { IsPacked bytes.now at n bpp 0 }
    ensures { result.now ≡ packed bytes.now at n bpp 0 }
{
    piece(bytes, at, n * bpp)
}

/// Fills `planes` with the planes of a tile in runs, one after another.
pub fn unpack_planes(bytes: &[u8], at: usize, n: usize, bpp: usize, planes: &mut [u8])
    requires packed { IsPacked bytes.now at n bpp 1 }
    requires planes { length planes.old ≡ bpp * n }
    ensures { interleaved n (pieces bpp n planes.new) ≡ packed bytes.now at n bpp 1 }
{
    let _never = planes_at(bytes, at, n, bpp, planes);
}

/// Fills `out` with the bytes of a tile in runs. `planes` is scratch of `MAX_TILE` bytes.
pub fn unpack(bytes: &[u8], at: usize, n: usize, bpp: usize, planes: &mut [u8], out: &mut [u8])
    requires packed { IsPacked bytes.now at n bpp 1 }
    requires planes { length planes.old ≡ MAX_TILE }
    requires out { length out.old ≡ n * bpp }
    ensures value { out.new ≡ packed bytes.now at n bpp 1 }
    ensures planes { length planes.new ≡ MAX_TILE }
{
    let some = &mut planes[..n * bpp];
    unpack_planes(bytes, at, n, bpp, some);
    join_pixels(some, n, bpp, 0, n, out);
}
