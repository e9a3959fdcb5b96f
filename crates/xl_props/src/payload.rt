ghost use Rattle.std.specs.Prelude.{◌≡◌, ◌+◌, ◌≤◌, length, true, IfOk};
ghost use Rattle.spec_document.specs.Limits.{is_unit};
ghost use Rattle.spec_props.specs.Unit.{true_length};
ghost use Rattle.spec_props.specs.Reading.{is_colour_map, payload_length_at};
ghost use Rattle.xl_props.specs.Checked.{IsMapLength};

use crate::unit::unit_len;
use spec_document::numbers::{COLOUR_MAP, USER_UNIT};
use spec_document::{MAX_COLOURS, MAX_PAYLOAD, Owner};
use xl_fields::{Kind, ReadRefused, refuse, u32_at};

fn is_map(owner: Owner, kind: u32) -> bool
    ensures { result ≡ is_colour_map owner kind }
{
    match owner {
        Owner::Image => kind == COLOUR_MAP,
        _ => false,
    }
}

fn is_user_unit(owner: Owner, kind: u32) -> bool
    ensures { result ≡ is_unit owner kind }
{
    match owner {
        Owner::Image => kind == USER_UNIT,
        _ => false,
    }
}

/// How many bytes a payload at an offset has, where `n` is its length word.
fn true_len(bytes: &[u8], owner: Owner, kind: u32, at: usize, n: usize) -> usize
    requires place { at ≤ length bytes.now }
    requires length_word { n ≤ MAX_PAYLOAD }
    ensures read { result ≡ true_length bytes.now owner kind at n }
    ensures few { result ≤ MAX_PAYLOAD }
{
    if is_user_unit(owner, kind) {
        unit_len(bytes, at, n)
    } else {
        n
    }
}

/// How many bytes of payload the property at an offset has, or its first fault.
#[tactic(auto, unfolding(spec_props::specs::Reading::payload_length_at))]
pub fn payload_len(bytes: &[u8], owner: Owner, kind: u32, at: usize) -> Result<usize, ReadRefused>
    requires place { at + 4 ≤ length bytes.now }
    ensures read { result ≡ payload_length_at bytes.now owner kind at }
    ensures fits { IfOk result (λ n. at + 8 + n ≤ length bytes.now) }
    ensures few { IfOk result (λ n. n ≤ MAX_PAYLOAD) }
    ensures colours { IfOk result (λ n. is_colour_map owner kind ≡ true
        → IsMapLength bytes.now (at + 8) n) }
{
    let n = u32_at(bytes, at + 4)?;
    if is_map(owner, kind) {
        let count = u32_at(bytes, at + 8)?;
        if count > MAX_COLOURS {
            return Err(refuse(Kind::BadProperty, at + 8));
        }
        if bytes.len() < at + 12 + 3 * count as usize {
            return Err(refuse(Kind::Truncated, at + 12));
        }
        return Ok(4 + 3 * count as usize);
    }
    if n > MAX_PAYLOAD {
        return Err(refuse(Kind::BadProperty, at + 4));
    }
    let len = true_len(bytes, owner, kind, at + 8, n as usize);
    if bytes.len() < at + 8 + len {
        return Err(refuse(Kind::Truncated, at + 8));
    }
    Ok(len)
}
