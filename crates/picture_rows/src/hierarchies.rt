//! A plane in the bytes of a file.
ghost use Rattle.std.specs.Prelude.{◌≤◌};

use std::alloc::{AllocError, Global};
use std::test::Fail;
use xl_hier::{Greedy, Plane, write_hierarchy};

// The two bytes in front, and the hierarchy at offset 2: its words, and its level at 22 with the tile at 38.
const FRONT: [u8; 38] = [
    1, 2, // in front
    0, 0, 0, 2, 0, 0, 0, 1, 0, 0, 0, 1, 0, 0, 0, 22, 0, 0, 0, 0, // hierarchy
    0, 0, 0, 2, 0, 0, 0, 1, 0, 0, 0, 38, 0, 0, 0, 0, // level
];

/// The tile in a run: two bytes as they are.
const IN_RUNS: [u8; 3] = [254, 7, 9];

const PLAIN: [u8; 2] = [7, 9];

// A plane of two pixels behind two bytes.
fn bytes_of(alloc: Global, compression: u8) -> Result<Vec<u8>, AllocError>
    requires { compression ≤ 1 }
{
    let plane = Plane::of_pixels(alloc, 2, 1, 1, &PLAIN)?;
    let mut out = [1, 2].to_vec(alloc)?;
    write_hierarchy(alloc, &mut out, &plane, compression, &mut Greedy)?;
    Ok(out)
}

// Whether these are the front and the tile.
fn ends_with(bytes: &[u8], tile: &[u8]) -> bool {
    match bytes.strip_prefix(&FRONT) {
        Some(rest) => rest == tile,
        None => false,
    }
}

// Whether the plane ends with this tile.
fn is_written(alloc: Global, compression: u8, tile: &[u8]) -> Result<bool, AllocError>
    requires { compression ≤ 1 }
{
    let out = bytes_of(alloc, compression)?;
    Ok(ends_with(out.as_slice(), tile))
}

#[test]
fn a_plane_is_written_plain_and_in_runs(rt: HostRuntime) -> Result<(), Fail> {
    assert!(rt; is_written(rt.alloc(), 0, &PLAIN)?);
    assert!(rt; is_written(rt.alloc(), 1, &IN_RUNS)?);
    Ok(())
}
