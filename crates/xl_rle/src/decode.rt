ghost use Rattle.std.specs.Prelude.{◌≡◌, ◌<◌, ◌≤◌, ◌+◌, ◌-◌, ◌++◌, length, take, drop, replicate};
ghost use Rattle.spec_rle.specs.Reading.{code_at, plane_at};
ghost use Rattle.xl_rle.specs.Placed.{PutsCode};
ghost use Rattle.xl_rle.specs.PlaneOf.{PlaneOf};

use crate::head::{BLOCK, body_length, head_at, is_ample, short_literal, short_run};
use spec_rle::MAX_CODES;
use xl_fields::{Kind, ReadRefused, refuse};

// Out of line, since most runs are short.
#[inline(never)]
fn put_run(out: &mut [u8], at: usize, len: usize, value: u8)
    requires { at + len ≤ length out.old }
    ensures { take (at + len) out.new ≡ take at out.old ++ replicate len value }
{
    out[at..at + len].fill(value);
}

fn put_literal(out: &mut [u8], at: usize, bytes: &[u8], from: usize, len: usize)
    requires out { at + len ≤ length out.old }
    requires bytes { from + len ≤ length bytes.now }
    ensures { take (at + len) out.new ≡ take at out.old ++ take len (drop from bytes.now) }
{
    out[at..at + len].copy_from_slice(&bytes[from..from + len]);
}

// What stands in the plane behind the run is unspecified.
#[inline(always)]
fn put_short_run(out: &mut [u8], at: usize, len: usize, value: u8)
    requires out { at + BLOCK ≤ length out.old }
    requires short { len ≤ BLOCK }
    ensures { take (at + len) out.new ≡ take at out.old ++ replicate len value }
{
    out[at..at + BLOCK].fill(value);
}

// What stands in the plane behind the bytes is unspecified.
#[inline(always)]
fn put_short_literal(out: &mut [u8], at: usize, bytes: &[u8], from: usize, len: usize)
    requires out { at + BLOCK ≤ length out.old }
    requires bytes { from + BLOCK ≤ length bytes.now }
    requires short { len ≤ BLOCK }
    ensures { take (at + len) out.new ≡ take at out.old ++ take len (drop from bytes.now) }
{
    out[at..at + BLOCK].copy_from_slice(&bytes[from..from + BLOCK]);
}

// What a code left: how many bytes of the plane are filled, and where the next code begins.
#[derive(Clone, Copy)]
struct Placed {
    filled: usize,
    at: usize,
}

// Puts the bytes of the code at an offset behind those that are filled, where so many codes are still allowed.
#[inline(never)]
fn put_code(
    bytes: &[u8],
    at: usize,
    out: &mut [u8],
    filled: usize,
    left: usize,
) -> Result<Placed, ReadRefused>
    requires { filled < length out.old }
    ensures { PutsCode result filled left out.old out.new
        (code_at bytes.now at left (length out.old - filled)) }
{
    let Some(head) = head_at(bytes, at) else {
        return Err(refuse(Kind::Truncated, at));
    };
    if out.len() - filled < head.count || left == 0 {
        return Err(refuse(Kind::BadRun, at));
    }
    let body = body_length(head);
    if bytes.len() - head.body < body {
        return Err(refuse(Kind::Truncated, at));
    }
    if head.is_run {
        put_run(out, filled, head.count, bytes[head.body]);
    } else {
        put_literal(out, filled, bytes, head.body, head.count);
    }
    Ok(Placed {
        filled: filled + head.count,
        at: head.body + body,
    })
}

/// Fills a plane from the codes that begin at an offset. Gives the offset after the last code.
///
/// Truncated at a code that does not fit the file; BadRun at one that gives more bytes than the plane has left, and at
/// one code too many. The bytes of the plane are then unspecified.
// Out of line, so that the loop keeps its state in registers.
#[inline(never)]
pub fn decode_plane(bytes: &[u8], at: usize, out: &mut [u8]) -> Result<usize, ReadRefused>
    requires some { 1 ≤ length out.old }
    requires few { length out.old ≤ 4096 }
    ensures { PlaneOf result out.new (plane_at bytes.now at (length out.old)) }
{
    let mut at = at;
    let mut filled = 0;
    let mut left = MAX_CODES as usize;
    let last = out.len().saturating_sub(BLOCK);
    while filled < out.len() {
        // short codes, where one test at first stands for the tests of each, and one write for each stays in the plane
        let ample = is_ample(bytes, at, out.len() - filled, left);
        while ample && filled < last {
            let first = bytes[at];
            if let Some(count) = short_run(first) {
                put_short_run(out, filled, count, bytes[at + 1]);
                at += 2;
                filled += count;
            } else if let Some(count) = short_literal(first) {
                put_short_literal(out, filled, bytes, at + 1, count);
                at += 1 + count;
                filled += count;
            } else {
                break;
            }
            left -= 1;
        }
        let placed = put_code(bytes, at, out, filled, left)?;
        filled = placed.filled;
        at = placed.at;
        left -= 1;
    }
    Ok(at)
}
