//! Words and planes, appended to the bytes of a file.
ghost use Rattle.std.specs.Prelude.{◌≡◌, ◌<◌, ◌≤◌, ◌++◌, length, OnOk};
ghost use Rattle.spec_fields.specs.Put.{word};
ghost use Rattle.spec_file.specs.declared.TheConstants.{FILE_LIMIT};
ghost use Rattle.spec_hierarchy.specs.BytePlanes.{byte_planes};
ghost use Rattle.xl_hier.specs.Appended.{PlaneAppended};
ghost use Rattle.xl_rle.specs.Follows.{FollowsEach};

use std::alloc::{AllocError, Global};
use xl_bytes::FileBytes;
use xl_hier::{Plane, PlaneCoder, hierarchy};

/// Appends a word.
pub fn put_word(alloc: Global, out: &mut FileBytes, value: u32) -> Result<(), AllocError>
    ensures { OnOk result (out.new ≡ out.old ++ word value) }
{
    out.append(alloc, &value.to_be_bytes())
}

/// Appends a plane: its hierarchy, its one level and its tiles.
pub fn put_hierarchy<C: PlaneCoder>(
    alloc: Global,
    out: &mut FileBytes,
    plane: &Plane,
    compression: u8,
    coder: &mut C,
) -> Result<(), AllocError>
    requires short { length out.old < FILE_LIMIT }
    requires compression { compression ≤ 1 }
    ensures written { OnOk result (PlaneAppended C.fits compression plane.now out.old out.new) }
    ensures followed { OnOk result (FollowsEach C.follows coder.old
        (byte_planes compression plane.now) coder.new) }
{
    let bytes = hierarchy(alloc, out.len(), plane, compression, coder)?;
    out.append_all(alloc, bytes)
}
