//! The save of a packed file.
ghost use Rattle.std.specs.Prelude.{◌≡◌, false, length, IfSome, IsSome, OnErr, OnOk};
ghost use Rattle.spec_document.specs.Document.{Document};
ghost use Rattle.spec_shortest.specs.Files.{IsSmallestFile};
ghost use Rattle.xl_pack.specs.Saving.{HasSmallest, MayHaveSmallest};
ghost use Rattle.xl_ports.specs.Disk.{Between};
ghost use Rattle.xl_ports.specs.Faults.{HasCause};
ghost use Rattle.xl_save.specs.Save.{SavesOnly, HasSaved};

use crate::smallest::FileBytes;
use xl_ports::{Failed, Shelf};
use xl_save::save_parts;

/// Saves a file of a document, the smallest one, in the place of the selected one.
///
/// At each moment a crash leaves what it might have left before, or the file; after Ok the file alone.
pub fn save_smallest<D: Shelf>(file: &FileBytes, shelf: &mut D) -> Result<(), Failed>
    requires { IsSome (D.shelf_state shelf.old).selected }
    ensures moments { IfSome (D.shelf_state shelf.old).selected
        (λ name. Between (D.shelf_state shelf.old).disk (D.shelf_state shelf.new).disk
        (SavesOnly name file.now)) }
    ensures whole { OnOk result (IfSome (D.shelf_state shelf.old).selected
        (λ name. IfSome (D.shelf_state shelf.new).disk (HasSaved name file.now))) }
    ensures saved { OnOk result ((d : Document) → IsSmallestFile file.now d
        → IfSome (D.shelf_state shelf.old).selected (λ name. HasSmallest name d (length file.now)
        (D.shelf_state shelf.old).disk (D.shelf_state shelf.new).disk)) }
    ensures stopped { OnErr result ((d : Document) → IsSmallestFile file.now d
        → IfSome (D.shelf_state shelf.old).selected (λ name. MayHaveSmallest name d
        (D.shelf_state shelf.old).disk (D.shelf_state shelf.new).disk)) }
    ensures closed { OnOk result ((D.shelf_state shelf.new).is_open ≡ false) }
    ensures selected { (D.shelf_state shelf.new).selected ≡ (D.shelf_state shelf.old).selected }
    ensures loads { (D.shelf_state shelf.new).loads ≡ (D.shelf_state shelf.old).loads }
    ensures reading { (D.shelf_state shelf.new).reading ≡ (D.shelf_state shelf.old).reading }
    ensures cause { HasCause (D.shelf_state shelf.old).saving (D.shelf_state shelf.new).saving
        result }
{
    save_parts(file, shelf)
}
