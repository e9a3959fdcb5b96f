//! Opening a core on a document.
ghost use Rattle.std.specs.Prelude.{◌≡◌, [], IfOk, IfErr, IsSome, Some};
ghost use Rattle.spec_document.specs.Limits.{IsDocument};
ghost use Rattle.xl_doc.specs.Numbered.{AreNumbered};
ghost use Rattle.xl_run.specs.Opening.{KeepsExactly};

use std::alloc::Global;
use xl_core::Core;
use xl_doc::Document;
use xl_ports::Shelf;

/// A core on a document that has no history, and on the shelf for its saves. The shelf comes back where memory ran out.
pub fn open_core<D: Shelf>(alloc: Global, document: Document, shelf: D) -> Result<Core<D>, D>
    requires limits { IsDocument document }
    requires numbered { AreNumbered document.nodes }
    requires selected { IsSome (D.shelf_state shelf).selected }
    ensures base { IfOk result (λ core. core.history.base ≡ document) }
    ensures fresh { IfOk result (λ core. core.history.entries ≡ []) }
    ensures shelf { IfOk result (λ core. core.shelf ≡ Some shelf) }
    ensures opening { IfOk result (λ core. core.opening ≡ shelf) }
    ensures inside { IfOk result (λ core. IsSome core.shelf) }
    ensures selected { IfOk result (λ core. IsSome (D.shelf_state core.opening).selected) }
    ensures kept { IfOk result (λ core. KeepsExactly core) }
    ensures back { IfErr result (λ back. back ≡ shelf) }
{
    match Core::open(alloc, document, shelf) {
        Ok(core) => Ok(core),
        Err(failed) => {
            let (_document, shelf) = failed.value;
            Err(shelf)
        }
    }
}
