//! The codes of a tile as they stand in a file.

ghost use Rattle.std.specs.Prelude.{◌≤◌, length, IfOk, IfSome};
ghost use Rattle.std.specs.Arc.{arc_value};
ghost use Rattle.spec_document.specs.Limits.{AreBytes};
ghost use Rattle.xl_tile.specs.Codes.{AreCodes, StandTo};

use spec_rle::MAX_EXCESS;
use std::alloc::AllocError;
use std::sync::Arc;
use xl_bytes::Part;
use xl_rle::check_plane;

/// Tells contracts that bytes are numbers below 256.
pub fn know_bytes(bytes: &[u8])
    ensures { AreBytes bytes.now }
{
    let _len = bytes.len();
}

// The offset behind the codes of so many planes of n bytes, which stand one after another from an offset on.
fn end_of_codes(bytes: &[u8], at: usize, n: usize, planes: usize) -> Option<usize>
    requires some { 1 ≤ n }
    requires few { n ≤ 4096 }
    requires inside { at ≤ length bytes.now }
    ensures { IfSome result (λ end. StandTo bytes.now at n planes end) }
{
    know_bytes(bytes);
    let mut end = at;
    for _c in 0..planes {
        let Ok(next) = check_plane(bytes, end, n) else {
            return None;
        };
        if next.saturating_sub(end) > n + MAX_EXCESS {
            return None;
        }
        end = next;
    }
    Some(end)
}

/// The codes of so many planes of n bytes, which stand one after another in a file from an offset on.
///
/// `None` where no such planes stand there, or where the spelling of one is longer than a writer's may be.
pub fn codes_at(
    file: &Arc<Vec<u8>>,
    at: usize,
    n: usize,
    planes: usize,
) -> Result<Option<Part>, AllocError>
    requires some { 1 ≤ n }
    requires few { n ≤ 4096 }
    requires inside { at ≤ length (arc_value file.now).items }
    ensures { IfOk result (λ found. IfSome found (λ codes. AreCodes (arc_value file.now).items at n
        planes codes)) }
{
    match end_of_codes(file.as_slice(), at, n, planes) {
        None => Ok(None),
        Some(end) => Ok(Some(Part::of(file, at, end)?)),
    }
}
