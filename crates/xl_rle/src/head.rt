ghost use Rattle.std.specs.Prelude.{◌≡◌, ◌<◌, ◌≤◌, ◌+◌, ◌*◌, ◌&&◌, length, nat_le, slice_index};
ghost use Rattle.spec_rle.specs.Reading as plane;
ghost use Rattle.xl_rle.specs.HeadAt.{HeadAt, as_read, short_literal_length, short_run_length};

use spec_rle::{LONG_LITERAL, LONG_RUN};

/// The head of a code: how many bytes of the plane it gives, and where its value or its bytes begin.
#[derive(Clone, Copy)]
pub struct CodeHead {
    pub is_run: bool,
    pub count: usize,
    pub body: usize,
}

/// Most codes give at most so many bytes. They are put by one write of so many: the codes behind put the rest.
pub const BLOCK: usize = 16;

// The two bytes behind the first one of a code, as a number.
fn long_count(bytes: &[u8], at: usize) -> usize
    requires { at + 2 < length bytes.now }
    ensures { result ≡ 256 * slice_index bytes.now (at + 1) + slice_index bytes.now (at + 2) }
{
    256 * bytes[at + 1] as usize + bytes[at + 2] as usize
}

/// The head of the code at an offset, or None where it does not fit.
pub fn head_at(bytes: &[u8], at: usize) -> Option<CodeHead>
    ensures { HeadAt bytes.now at result }
{
    if bytes.len() <= at {
        return None;
    }
    let first = bytes[at];
    if first < LONG_RUN {
        return Some(CodeHead {
            is_run: true,
            count: first as usize + 1,
            body: at + 1,
        });
    }
    if first > LONG_LITERAL {
        return Some(CodeHead {
            is_run: false,
            count: 256 - first as usize,
            body: at + 1,
        });
    }
    if bytes.len() - at < 3 {
        return None;
    }
    Some(CodeHead {
        is_run: first == LONG_RUN,
        count: long_count(bytes, at),
        body: at + 3,
    })
}

/// How many bytes a code has after its head.
pub fn body_length(head: CodeHead) -> usize
    ensures { result ≡ plane.body_length (as_read head) }
{
    if head.is_run { 1 } else { head.count }
}

/// How many bytes of the plane a run gives that begins with this byte, where it is a short one of a block at most. Its
/// value is the byte behind it.
#[inline(always)]
pub fn short_run(first: u8) -> Option<usize>
    ensures { result ≡ short_run_length first }
{
    if first as usize >= BLOCK {
        return None;
    }
    Some(first as usize + 1)
}

/// How many bytes of the plane stand behind this byte, where it begins short literals of a block at most.
#[inline(always)]
pub fn short_literal(first: u8) -> Option<usize>
    ensures { result ≡ short_literal_length first }
{
    if (first as usize) < 256 - BLOCK {
        return None;
    }
    Some(256 - first as usize)
}

/// Whether short codes can give so many bytes, whichever they are, with no test of the file's end or of the count of
/// codes: a code that gives n bytes takes 2 n at most. A block behind the head of each is in the file too.
pub fn is_ample(bytes: &[u8], at: usize, wanted: usize, left: usize) -> bool
    requires few { wanted ≤ 4096 }
    ensures { result ≡ (nat_le wanted left && nat_le (at + 2 * wanted + BLOCK) (length bytes.now)) }
{
    wanted <= left && 2 * wanted + BLOCK <= bytes.len().saturating_sub(at)
}
