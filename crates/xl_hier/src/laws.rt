ghost use Rattle.std.specs.Prelude.{◌≡◌, ℕ, ◌+◌, ◌^◌, ◌<◌, List, length, Ok};
ghost use Rattle.spec_document.specs.Plane.{Plane};
ghost use Rattle.spec_fields.specs.Field.{HasBytes};
ghost use Rattle.spec_hierarchy.specs.Layout.{IsWrittenPlane};
ghost use Rattle.spec_hierarchy.specs.Reading.{hierarchy_at};
ghost use Rattle.xl_tiles.specs.Sized.{IsSized};

use xl_rle::PlaneCoder;

/// A plane that was written is read back where it stands in a file, whatever is before it and behind it.
pub fn written_planes_are_read<C: PlaneCoder>()
    ensures { (file bytes : List ℕ) (at compression : ℕ) (p : Plane) → IsSized p
        → IsWrittenPlane C.fits compression at p bytes → HasBytes file at bytes → at + length bytes
        < 2 ^ 32 → hierarchy_at file at p.width p.height p.bpp compression ≡ Ok p }
{}
