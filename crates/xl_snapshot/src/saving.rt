ghost use Rattle.std.specs.Prelude.{◌≡◌, false, IfOk, OnOk, OnErr, IfSome, IsSome};
ghost use Rattle.spec_document.specs.Document.{Document as Plain};
ghost use Rattle.spec_layout.specs.BytePlanes.{planes_of};
ghost use Rattle.spec_layout.specs.Layout.{Written, WrittenBy};
ghost use Rattle.spec_world.specs.declared.SaveEnd.TheVariants as save_end;
ghost use Rattle.xl_ports.specs.Disk.{Between};
ghost use Rattle.xl_ports.specs.Faults.{HasCause};
ghost use Rattle.xl_rle.specs.Follows.{FollowsEach};
ghost use Rattle.xl_save.specs.Save.{SavesOnly, HasSaved};
ghost use Rattle.xl_snapshot.specs.Saving.{IsCodedOn, IsSavedOn};

use spec_world::SaveEnd;
use std::alloc::{AllocError, Global};
use xl_compose::Recompose;
use xl_doc::Document;
use xl_ports::{Failed, Shelf};
use xl_rle::PlaneCoder;
use xl_save::save_parts;
use xl_write::{FileBytes, encode_parts};

/// The file of a document, whose planes this coder codes. Tiles may share the bytes of the file that was read.
pub fn file_of<C: PlaneCoder>(
    alloc: Global,
    document: &Document,
    coder: &mut C,
) -> Result<FileBytes, AllocError>
    ensures written { IfOk result (λ file. Written file document.now) }
    ensures coded { IfOk result (λ file. WrittenBy C.fits file document.now) }
    ensures followed { OnOk result (FollowsEach C.follows coder.old (planes_of document.now)
        coder.new) }
{
    let mut pictures = Recompose::new();
    match encode_parts(alloc, document, coder, &mut pictures) {
        Ok(file) => Ok(file),
        Err(_) => Err(AllocError),
    }
}

/// Saves the file of a document on a shelf.
pub fn save_file<D: Shelf>(file: &FileBytes, shelf: &mut D) -> Result<(), Failed>
    requires { IsSome (D.shelf_state shelf.old).selected }
    ensures moments { IfSome (D.shelf_state shelf.old).selected
        (λ name. Between (D.shelf_state shelf.old).disk (D.shelf_state shelf.new).disk
        (SavesOnly name file.now)) }
    ensures whole { OnOk result (IfSome (D.shelf_state shelf.old).selected
        (λ name. IfSome (D.shelf_state shelf.new).disk (HasSaved name file.now))) }
    ensures saved { OnOk result ((d : Plain) → Written file.now d
        → IsSavedOn (D.shelf_state shelf.old) d save_end.Done
        (D.shelf_state shelf.new)) }
    ensures failed { OnErr result ((d : Plain) → Written file.now d
        → IsSavedOn (D.shelf_state shelf.old) d save_end.Fault
        (D.shelf_state shelf.new)) }
    ensures closed { OnOk result ((D.shelf_state shelf.new).is_open ≡ false) }
    ensures loads { (D.shelf_state shelf.new).loads ≡ (D.shelf_state shelf.old).loads }
    ensures selected { (D.shelf_state shelf.new).selected ≡ (D.shelf_state shelf.old).selected }
    ensures reading { (D.shelf_state shelf.new).reading ≡ (D.shelf_state shelf.old).reading }
    ensures cause { HasCause (D.shelf_state shelf.old).saving (D.shelf_state shelf.new).saving
        result }
{
    save_parts(file, shelf)
}

/// Saves a document on a shelf, and answers how that ended. Without memory for the file the shelf is not touched.
pub fn save_document<D: Shelf, C: PlaneCoder>(
    alloc: Global,
    document: &Document,
    coder: &mut C,
    shelf: &mut D,
) -> SaveEnd
    requires { IsSome (D.shelf_state shelf.old).selected }
    ensures saved { IsSavedOn (D.shelf_state shelf.old) document.now result
        (D.shelf_state shelf.new) }
    ensures untouched { result ≡ save_end.Memory → shelf.new ≡ shelf.old }
    ensures coded { IsCodedOn C.fits (D.shelf_state shelf.old) document.now result
        (D.shelf_state shelf.new) }
{
    let Ok(file) = file_of(alloc, document, coder) else {
        return SaveEnd::Memory;
    };
    match save_file(&file, shelf) {
        Ok(()) => SaveEnd::Done,
        Err(Failed) => SaveEnd::Fault,
    }
}
