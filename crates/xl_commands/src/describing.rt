ghost use Rattle.std.specs.Prelude.{◌≡◌, ◌⊎◌, Some, IfOk, OnOk, string_bytes};
ghost use Rattle.spec_command.specs.Arguments.{info as info_of};
ghost use Rattle.spec_listing.specs.Listing as spec;
ghost use Rattle.xl_outcome.specs.Outcome.{Given, ComesTo, LoadsFew, ShelfCause};
ghost use Rattle.xl_outcome.specs.Parts.{StopsReport};
ghost use Rattle.xl_ports.specs.Disk.{read_at};

use crate::loading::read_document;
use std::alloc::{AllocError, Global};
use std::thread::Threads;
use xl_doc::Document;
use xl_listing::listing;
use xl_outcome::Stopped;
use xl_ports::{Shelf, Sink, write_all};
use xl_report::info;

// The line that is asked for, with all or without.
fn line_of(alloc: Global, with_all: bool, document: &Document) -> Result<String, AllocError>
    ensures { IfOk result (λ text. string_bytes text ≡ spec.line with_all document.now) }
{
    if with_all {
        listing(alloc, document)
    } else {
        info(alloc, document)
    }
}

/// Writes the document of a file as a line of JSON, with all that is listed of it where that is asked for. The line is
/// made before its first byte is written.
pub fn describe<R: Threads + Sync, K: Sink, D: Shelf>(
    rt: &R,
    alloc: Global,
    name: &str,
    with_all: bool,
    sink: &mut K,
    shelf: &mut D,
) -> Result<(), Stopped>
    ensures comes { (given : Given) → ComesTo K.held K.faults given
        (D.shelf_state shelf.old)
        (D.shelf_state shelf.new)
        (info_of name.now with_all) sink.old sink.new result }
    ensures stops { StopsReport (read_at (D.shelf_state shelf.old).disk name.now) result }
    ensures cause { ShelfCause (D.shelf_state shelf.old).reading (D.shelf_state shelf.new).reading
        result }
    ensures few_loads { LoadsFew (D.shelf_state shelf.old) (D.shelf_state shelf.new) }
    ensures selected { ((D.shelf_state shelf.new).selected ≡ (D.shelf_state shelf.old).selected) ⊎
        ((D.shelf_state shelf.new).selected ≡ Some name.now) }
    ensures named { OnOk result ((D.shelf_state shelf.new).selected ≡ Some name.now) }
{
    let document = read_document(rt, alloc, name, shelf)?;
    let Ok(line) = line_of(alloc, with_all, &document) else {
        return Err(Stopped::Memory);
    };
    if write_all(sink, line.as_bytes()).is_err() {
        return Err(Stopped::SinkFault);
    }
    Ok(())
}
