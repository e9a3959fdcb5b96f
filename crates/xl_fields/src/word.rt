ghost use Rattle.std.specs.Prelude.{◌≡◌, ◌+◌, ◌≤◌, ◌++◌, length, take, drop, OnOk, OnErr};
ghost use Rattle.std.specs.Int.{w32, to_be_bytes};
ghost use Rattle.spec_fields.specs.Field.{word_at, int_at};

use crate::refusal::refuse;
use spec_fields::{Kind, ReadRefused};
use std::alloc::AllocError;

/// The word at an offset. Truncated there, where fewer than four bytes are left.
pub fn u32_at(bytes: &[u8], at: usize) -> Result<u32, ReadRefused>
    ensures { result ≡ word_at bytes.now at }
{
    if at > bytes.len() || bytes.len() - at < 4 {
        return Err(refuse(Kind::Truncated, at));
    }
    let part = &bytes[at..at + 4];
    Ok(u32::from_be_bytes([part[0], part[1], part[2], part[3]]))
}

/// The signed word at an offset. Truncated there, where fewer than four bytes are left.
pub fn i32_at(bytes: &[u8], at: usize) -> Result<i32, ReadRefused>
    ensures { result ≡ int_at bytes.now at }
{
    let word = u32_at(bytes, at)?;
    Ok(word.cast_signed())
}

/// Appends a word. Out of memory, `out` is as before.
pub fn put_u32(out: &mut Vec<u8>, value: u32) -> Result<(), AllocError>
    ensures ok { OnOk result (out.new.items ≡ out.old.items ++ to_be_bytes w32 value) }
    ensures err { OnErr result (out.new.items ≡ out.old.items) }
{
    out.extend_from_slice(&value.to_be_bytes())
}

/// Sets a word that stands already.
pub fn set_word(out: &mut [u8], at: usize, value: u32)
    requires { at + 4 ≤ length out.old }
    ensures { out.new ≡ take at out.old ++ (to_be_bytes w32 value ++ drop (at + 4) out.old) }
{
    out[at..at + 4].copy_from_slice(&value.to_be_bytes());
}
