//! The smallest file of a document whose tiles are run-length coded.

ghost use Rattle.std.specs.Prelude.{◌≡◌, ℕ, ◌≤◌, List, length, IfOk, OnOk, Ok};
ghost use Rattle.spec_document.specs.Document.{renumber};
ghost use Rattle.spec_file.specs.Reading.{reading};
ghost use Rattle.spec_layout.specs.BytePlanes.{planes_of};
ghost use Rattle.spec_layout.specs.Layout.{Written};
ghost use Rattle.spec_small.specs.Shortest.{IsShortest};
ghost use Rattle.xl_rle.specs.Follows.{FollowsEach};

use std::alloc::{AllocError, Global};
use xl_doc::{Document, Pictures};
use xl_write::encode_parts;
pub use xl_write::{FileBytes, PlaneCoder};

/// The file of a document, with the pictures of its groups, than which no file that is laid out for it is shorter,
/// where the coder spells each plane as shortly as it can be. It is read back as the document, with the ids 1, 2 and so
/// on. The coder followed the planes that are spelled in it, in the order in which they stand.
pub fn encode_smallest<C: PlaneCoder, P: Pictures>(
    alloc: Global,
    doc: &Document,
    coder: &mut C,
    pictures: &mut P,
) -> Result<FileBytes, AllocError>
    requires { (plane bytes : List ℕ) → C.fits plane bytes → IsShortest bytes plane }
    ensures written { IfOk result (λ file. Written file doc.now) }
    ensures least { IfOk result (λ file. (other : List ℕ) → Written other doc.now
        → length file ≤ length other) }
    ensures read { IfOk result (λ file. reading file ≡ Ok (renumber doc.now)) }
    ensures followed { OnOk result (FollowsEach C.follows coder.old (planes_of doc.now) coder.new) }
{
    encode_parts(alloc, doc, coder, pictures)
}
