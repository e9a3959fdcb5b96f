ghost use Rattle.std.specs.Prelude.{◌≡◌, ◌≤◌, ◌<◌, vec_len, take, OnOk};

use std::alloc::AllocError;

// How many bytes of room are made at a time: as many as are filled, and no fewer and no more than this.
const LEAST: usize = 1 << 16;

const MOST: usize = 1 << 20;

/// Makes room behind the bytes that are filled in, where there is none, and none past the limit.
///
/// The room is zeroed in pieces that fit the cache, right before they are read into.
pub fn make_room(bytes: &mut Vec<u8>, filled: usize, limit: usize) -> Result<(), AllocError>
    requires below { filled < limit }
    requires filled { filled ≤ vec_len bytes.old }
    requires short { vec_len bytes.old ≤ limit }
    ensures front { take filled bytes.new.items ≡ take filled bytes.old.items }
    ensures filled { filled ≤ vec_len bytes.new }
    ensures short { vec_len bytes.new ≤ limit }
    ensures room { OnOk result (filled < vec_len bytes.new) }
{
    if filled < bytes.len() {
        return Ok(());
    }
    let piece = filled.clamp(LEAST, MOST).min(limit - filled);
    bytes.resize(filled + piece, 0)
}
