ghost use Rattle.std.specs.Prelude.{◌≡◌, ◌≢◌, ◌+◌, ◌≤◌, ◌++◌, length, OnOk, OnErr};
ghost use Rattle.std.specs.List.{AllByRecursion};
ghost use Rattle.spec_fields.specs.declared.TheConstants.{MAX_NAME_IN_FILE};
ghost use Rattle.spec_fields.specs.Put.{text};
ghost use Rattle.xl_fields.specs.Behind.{BeginsWith};

use crate::word::put_u32;
use std::alloc::AllocError;

// Out of memory, a part of the name may stand behind what was there.
fn append_name(out: &mut Vec<u8>, name: &[u8]) -> Result<(), AllocError>
    requires { length name.now + 1 ≤ MAX_NAME_IN_FILE }
    ensures whole { OnOk result (out.new.items ≡ out.old.items ++ text name.now) }
    ensures front { BeginsWith out.new.items out.old.items }
{
    if name.is_empty() {
        return put_u32(out, 0);
    }
    put_u32(out, name.len() as u32 + 1)?;
    out.extend_from_slice(name)?;
    out.push(0)?;
    Ok(())
}

/// Appends a name: the word 0 where it is empty, and else its length with a zero byte, its bytes and that byte.
///
/// Out of memory, `out` is as before.
pub fn put_string(out: &mut Vec<u8>, name: &[u8]) -> Result<(), AllocError>
    requires short { length name.now + 1 ≤ MAX_NAME_IN_FILE }
    requires no_zero { AllByRecursion (λ b. b ≢ 0) name.now }
    ensures ok { OnOk result (out.new.items ≡ out.old.items ++ text name.now) }
    ensures err { OnErr result (out.new.items ≡ out.old.items) }
{
    let before = out.len();
    let put = append_name(out, name);
    if put.is_err() {
        out.truncate(before);
    }
    put
}
