ghost use Rattle.std.specs.Prelude.{◌≡◌, ◌+◌, ◌*◌, ◌≤◌, ◌^◌, take, drop, length, MatchResult, Ok, Err};
ghost use Rattle.spec_rle.specs.Reading.{plane_at};
ghost use Rattle.spec_hierarchy.specs.Reading as hierarchy;
ghost use Rattle.xl_tile.specs.Joined.{pieces};

use xl_fields::ReadRefused;
use xl_rle::decode_plane;

// Decodes a plane of n bytes into its place. Gives the offset after its last code.
fn plane_into(
    bytes: &[u8],
    at: usize,
    planes: &mut [u8],
    from: usize,
    n: usize,
) -> Result<usize, ReadRefused>
    requires some { 1 ≤ n }
    requires few { n ≤ 4096 }
    requires fits { from + n ≤ length planes.old }
    ensures before { take from planes.new ≡ take from planes.old }
    ensures plane { MatchResult result (λ next. plane_at bytes.now at n
        ≡ Ok (record { pixels = take n (drop from planes.new); next = next }))
        (λ e. plane_at bytes.now at n ≡ Err e) }
{
    decode_plane(bytes, at, &mut planes[from..from + n])
}

/// Decodes as many planes of n bytes as a pixel has bytes, one after another.
pub fn planes_at(
    bytes: &[u8],
    at: usize,
    n: usize,
    bpp: usize,
    planes: &mut [u8],
) -> Result<(), ReadRefused>
    requires some { 1 ≤ n }
    requires few { n ≤ 4096 }
    requires bpp { bpp ≤ 4 }
    requires planes { length planes.old ≡ bpp * n }
    ensures { MatchResult result (λ _. hierarchy.planes_at bpp bytes.now at n
        ≡ Ok (pieces bpp n planes.new)) (λ e. hierarchy.planes_at bpp bytes.now at n ≡ Err e) }
{
    let mut at = at;
    for c in 0..bpp {
        at = plane_into(bytes, at, planes, c * n, n)?;
    }
    Ok(())
}
