ghost use Rattle.std.specs.Prelude.{◌≡◌, ◌+◌, ◌≤◌, ◌<◌, ◌^◌, length, OnOk, IfOk};
ghost use Rattle.spec_fields.specs.declared.Kind.TheVariants.{BadHierarchy};
ghost use Rattle.spec_hierarchy.specs.Reading as hierarchy;
ghost use Rattle.xl_hier.specs.Level.{level_at};

use crate::frame::Frame;
use xl_fields::{Kind, ReadRefused, refuse, u32_at};

// Refuses a word that is not this one, as BadHierarchy.
fn same_word_at(bytes: &[u8], at: usize, n: usize) -> Result<(), ReadRefused>
    ensures value { result ≡ hierarchy.same_word_at bytes.now at n BadHierarchy }
    ensures within { OnOk result (at + 4 ≤ length bytes.now) }
{
    let word = u32_at(bytes, at)?;
    if word as usize != n {
        return Err(refuse(Kind::BadHierarchy, at));
    }
    Ok(())
}

/// The pointer at an offset. BadHierarchy there where it is 0.
pub fn pointer_at(bytes: &[u8], at: usize) -> Result<usize, ReadRefused>
    ensures value { result ≡ hierarchy.pointer_at bytes.now at BadHierarchy }
    ensures within { OnOk result (at + 4 ≤ length bytes.now) }
    ensures small { IfOk result (λ pointer. pointer < 2 ^ 32) }
{
    let pointer = u32_at(bytes, at)?;
    if pointer == 0 {
        return Err(refuse(Kind::BadHierarchy, at));
    }
    Ok(pointer as usize)
}

/// The offset of the level in use of the hierarchy at an offset. BadHierarchy at the first word of either that does not
/// repeat the frame, and at a pointer of 0.
pub fn level_at(bytes: &[u8], at: usize, frame: Frame) -> Result<usize, ReadRefused>
    ensures value { result ≡ level_at bytes.now at frame.width frame.height frame.bpp }
    ensures within { IfOk result (λ level. level + 8 ≤ length bytes.now) }
    ensures small { IfOk result (λ level. level < 2 ^ 32) }
{
    same_word_at(bytes, at, frame.width)?;
    same_word_at(bytes, at + 4, frame.height)?;
    same_word_at(bytes, at + 8, frame.bpp)?;
    let level = pointer_at(bytes, at + 12)?;
    same_word_at(bytes, level, frame.width)?;
    same_word_at(bytes, level + 4, frame.height)?;
    Ok(level)
}
