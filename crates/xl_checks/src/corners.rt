//! Where a rectangle of a plane begins.
ghost use Rattle.std.specs.Prelude.{◌≡◌, ◌+◌, ◌≤◌};
ghost use Rattle.spec_document.specs.Rect.{part_above_0};
ghost use Rattle.xl_doc.specs.Sized.{IsSized};
ghost use Rattle.xl_doc.specs.Written.{IsWithin};

use xl_doc::{Plane, Rect};

// Tells contracts of the sides of a plane.
fn know_sides(plane: &Plane)
    ensures { IsSized plane.now }
{
    let _width = plane.width();
}

/// The corner of a rectangle of a plane.
pub fn corner(plane: &Plane, rect: Rect) -> (u32, u32)
    requires { IsWithin plane.now.width plane.now.height rect }
    ensures x { result.0 ≡ part_above_0 rect.x }
    ensures y { result.1 ≡ part_above_0 rect.y }
    ensures across { result.0 + rect.w ≤ plane.now.width }
    ensures down { result.1 + rect.h ≤ plane.now.height }
    ensures sized { IsSized plane.now }
{
    know_sides(plane);
    (rect.x as u32, rect.y as u32)
}
