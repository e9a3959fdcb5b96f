ghost use Rattle.std.specs.Prelude.{◌≡◌, ◌<◌, ◌⊎◌, OnOk, IsSome, Some};
ghost use Rattle.spec_command.specs.Arguments.{flatten as flatten_of};
ghost use Rattle.spec_document.specs.Document.{Document as Plain};
ghost use Rattle.spec_layout.specs.Layout.{Written};
ghost use Rattle.xl_doc.specs.Numbered.{AreNumbered};
ghost use Rattle.xl_outcome.specs.Flattening.{GivesFlatFile, SavesAndTells};
ghost use Rattle.xl_outcome.specs.Outcome.{Given, ComesTo, LoadsFew, ShelfCauseOf};
ghost use Rattle.xl_outcome.specs.Parts.{StopsFlatten};
ghost use Rattle.xl_ports.specs.Disk.{read_at};

use crate::loading::read_document;
use std::alloc::Global;
use std::marker::Brand;
use std::sync::ledger::{Blank, Ledger};
use std::thread::Threads;
use xl_blend::Steps;
use xl_doc::{Document, NodeId};
use xl_flat::{FlatRefusedOrMemory, flatten as make_flat};
use xl_outcome::Stopped;
use xl_play::next_id_of;
use xl_ports::{Shelf, Sink, write_all};
use xl_rle::Keeping;
use xl_snapshot::{FileBytes, file_of, save_file};

/// Puts one layer, which shows what all nodes of a file's image show, in their place, saves that and writes the number
/// of its version.
///
/// The file is made before the save begins.
pub fn flatten<R: Threads + Sync, K: Sink, D: Shelf>(
    rt: &R,
    alloc: Global,
    name: &str,
    sink: &mut K,
    shelf: &mut D,
) -> Result<(), Stopped>
    ensures comes { (given : Given) → ComesTo K.held K.faults given
        (D.shelf_state shelf.old)
        (D.shelf_state shelf.new)
        (flatten_of name.now) sink.old sink.new result }
    ensures stops { StopsFlatten (read_at (D.shelf_state shelf.old).disk name.now) result }
    ensures cause { ShelfCauseOf (D.shelf_state shelf.old)
        (D.shelf_state shelf.new) (flatten_of name.now) result }
    ensures few_loads { LoadsFew (D.shelf_state shelf.old) (D.shelf_state shelf.new) }
    ensures selected { ((D.shelf_state shelf.new).selected ≡ (D.shelf_state shelf.old).selected) ⊎
        ((D.shelf_state shelf.new).selected ≡ Some name.now) }
    ensures named { OnOk result ((D.shelf_state shelf.new).selected ≡ Some name.now) }
{
    let document = read_document(rt, alloc, name, shelf)?;
    let file = flat_file::<Brand>(alloc, document, Blank::new(1))?;
    save_flat(&file, sink, shelf)
}

// The file of a document that is made flat.
fn flat_file<L: Ledger>(
    alloc: Global,
    mut document: Document,
    blank: Blank,
) -> Result<FileBytes, Stopped>
    requires name { blank.name ≡ L.name }
    requires parts { blank.parts ≡ L.parts }
    requires some { 0 < blank.parts }
    requires numbered { AreNumbered document.nodes }
    ensures { GivesFlatFile document result }
{
    let id = NodeId(next_id_of(&document));
    let mut steps = Steps::<L>::new(blank);
    match make_flat(alloc, &mut document, id, &mut steps) {
        Ok(()) => {
            let Ok(file) = file_of(alloc, &document, &mut Keeping) else {
                return Err(Stopped::Memory);
            };
            Ok(file)
        }
        Err(FlatRefusedOrMemory::Memory) => Err(Stopped::Memory),
        Err(FlatRefusedOrMemory::Refused(why)) => Err(Stopped::NotFlattened(why)),
    }
}

// Saves a file, and writes the line that tells of it.
fn save_flat<K: Sink, D: Shelf>(
    file: &FileBytes,
    sink: &mut K,
    shelf: &mut D,
) -> Result<(), Stopped>
    requires { IsSome (D.shelf_state shelf.old).selected }
    ensures saved { (d : Plain) → Written file.now d → SavesAndTells K.held K.faults d
        (D.shelf_state shelf.old)
        (D.shelf_state shelf.new) sink.old sink.new result }
    ensures loads { (D.shelf_state shelf.new).loads ≡ (D.shelf_state shelf.old).loads }
    ensures selected { (D.shelf_state shelf.new).selected ≡ (D.shelf_state shelf.old).selected }
{
    if save_file(file, shelf).is_err() {
        return Err(Stopped::ShelfFault);
    }
    if write_all(sink, b"flattened 1\n").is_err() {
        return Err(Stopped::SinkFault);
    }
    Ok(())
}
