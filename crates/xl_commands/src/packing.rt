ghost use Rattle.std.specs.Prelude.{◌≡◌, ◌⊎◌, Some, OnOk};
ghost use Rattle.spec_command.specs.Arguments.{pack as pack_of};
ghost use Rattle.xl_outcome.specs.Outcome.{Given, ComesTo, LoadsFew, ShelfCauseOf};
ghost use Rattle.xl_outcome.specs.Parts.{StopsReport};
ghost use Rattle.xl_ports.specs.Disk.{read_at};

use crate::loading::load_document;
use std::alloc::Global;
use std::thread::Threads;
use xl_outcome::Stopped;
use xl_pack::save_smallest;
use xl_ports::{Shelf, Sink, write_all};

/// Saves the document of a file in the smallest file that has its tiles run-length coded, and writes the lengths before
/// and after with the number of planes; before that, where it is asked for, a line for the plan of each plane.
///
/// The file and the text are made before the save begins.
pub fn pack<R: Threads + Sync, K: Sink, D: Shelf>(
    rt: &R,
    alloc: Global,
    name: &str,
    with_plans: bool,
    sink: &mut K,
    shelf: &mut D,
) -> Result<(), Stopped>
    ensures comes { (given : Given) → ComesTo K.held K.faults given
        (D.shelf_state shelf.old)
        (D.shelf_state shelf.new)
        (pack_of name.now with_plans) sink.old sink.new result }
    ensures stops { StopsReport (read_at (D.shelf_state shelf.old).disk name.now) result }
    ensures cause { ShelfCauseOf (D.shelf_state shelf.old)
        (D.shelf_state shelf.new) (pack_of name.now with_plans) result }
    ensures few_loads { LoadsFew (D.shelf_state shelf.old) (D.shelf_state shelf.new) }
    ensures selected { ((D.shelf_state shelf.new).selected ≡ (D.shelf_state shelf.old).selected) ⊎
        ((D.shelf_state shelf.new).selected ≡ Some name.now) }
    ensures named { OnOk result ((D.shelf_state shelf.new).selected ≡ Some name.now) }
{
    let loaded = load_document(rt, alloc, name, shelf)?;
    let Ok(packed) = xl_pack::pack(alloc, loaded.document, loaded.length, with_plans) else {
        return Err(Stopped::Memory);
    };
    if save_smallest(&packed.file, shelf).is_err() {
        return Err(Stopped::ShelfFault);
    }
    if write_all(sink, &packed.text).is_err() {
        return Err(Stopped::SinkFault);
    }
    Ok(())
}
