ghost use Rattle.std.specs.Prelude.{◌≡◌, ◌≤◌, length};
ghost use Rattle.spec_rle.specs.Reading.{plane_at};
ghost use Rattle.xl_rle.specs.NextOf.{next_of};

use crate::head::{BLOCK, body_length, head_at, is_ample, short_literal, short_run};
use spec_rle::MAX_CODES;
use xl_fields::{Kind, ReadRefused, refuse};

/// Walks the codes of a plane of so many bytes that begin at an offset, and writes none of it. Gives the offset after
/// the last code, or the refusal that `decode_plane` gives.
// Out of line, so that the loop keeps its state in registers.
#[inline(never)]
pub fn check_plane(bytes: &[u8], at: usize, count: usize) -> Result<usize, ReadRefused>
    requires some { 1 ≤ count }
    requires few { count ≤ 4096 }
    ensures { result ≡ next_of (plane_at bytes.now at count) }
{
    let mut at = at;
    let mut wanted = count;
    let mut left = MAX_CODES as usize;
    while wanted > 0 {
        // short codes, where one test at first stands for the tests of each
        let ample = is_ample(bytes, at, wanted, left);
        while ample && wanted > BLOCK {
            let first = bytes[at];
            // two branches, so that the next code's place need not wait for this one's byte
            if let Some(count) = short_run(first) {
                at += 2;
                wanted -= count;
            } else if let Some(count) = short_literal(first) {
                at += 1 + count;
                wanted -= count;
            } else {
                break;
            }
            left -= 1;
        }
        let Some(head) = head_at(bytes, at) else {
            return Err(refuse(Kind::Truncated, at));
        };
        if wanted < head.count || left == 0 {
            return Err(refuse(Kind::BadRun, at));
        }
        let body = body_length(head);
        if bytes.len() - head.body < body {
            return Err(refuse(Kind::Truncated, at));
        }
        at = head.body + body;
        wanted -= head.count;
        left -= 1;
    }
    Ok(at)
}
