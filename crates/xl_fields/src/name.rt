ghost use Rattle.std.specs.Prelude.{◌≡◌, ◌==◌, ◌<◌, ◌≤◌, ◌^◌, ◌++◌, ◌+◌, length, position, IfOk};
ghost use Rattle.spec_fields.specs.Field.{name_at, zero_place};
ghost use Rattle.xl_fields.specs.Gives.{SpanOf};

use crate::refusal::refuse;
use crate::word::u32_at;
use spec_fields::{Kind, MAX_NAME_IN_FILE, ReadRefused};
use std::alloc::AllocError;

/// Where a name stands in the file, without its zero byte, and the offset after the field.
#[derive(Clone, Copy, Debug, PartialEq, Eq)]
pub struct Span {
    pub start: usize,
    pub len: usize,
    pub next: usize,
}

fn first_zero(text: &[u8]) -> Option<usize>
    ensures { result ≡ position (λ b. b == 0) text.now }
{
    text.iter().position(|b| *b == 0)
}

fn until_zero_len(text: &[u8]) -> usize
    ensures exact { result ≡ zero_place text.now }
    ensures within { result ≤ length text.now }
{
    match first_zero(text) {
        Some(place) => place,
        None => text.len(),
    }
}

/// The name at an offset: a word n, and then n bytes, the last of them zero.
///
/// BadString at the length word, where it is above `MAX_NAME_IN_FILE` or the last byte is not zero. Truncated at
/// the length word, or at the first byte behind it, where the field begins that does not fit.
#[tactic(auto, unfolding(spec_fields::specs::Field::name_at))]
pub fn string_at(bytes: &[u8], at: usize) -> Result<Span, ReadRefused>
    ensures read { SpanOf bytes.now result (name_at bytes.now at) }
    ensures start { IfOk result (λ s. s.start ≡ at + 4) }
    ensures after { IfOk result (λ s. (at + 4 ≤ s.next) × (s.next ≤ at + 4101)) }
    ensures inside { IfOk result (λ s. (s.start + s.len ≤ s.next) × (s.next ≤ length bytes.now)) }
{
    let n = u32_at(bytes, at)? as usize;
    if n > MAX_NAME_IN_FILE {
        return Err(refuse(Kind::BadString, at));
    }
    if bytes.len() - at - 4 < n {
        return Err(refuse(Kind::Truncated, at + 4));
    }
    if n > 0 && bytes[at + 3 + n] != 0 {
        return Err(refuse(Kind::BadString, at));
    }
    let text = &bytes[at + 4..at + 4 + n];
    let len = until_zero_len(text);
    Ok(Span {
        start: at + 4,
        len,
        next: at + 4 + n,
    })
}
