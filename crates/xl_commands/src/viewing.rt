ghost use Rattle.std.specs.Prelude.{◌≡◌, ◌<◌, ◌^◌, ◌⊎◌, [], ◌∷◌, length, Some, IfOk, OnOk, IsSome, string_bytes};
ghost use Rattle.std.specs.List.{AllByRecursion};
ghost use Rattle.spec_command.specs.Arguments.{view as view_of};
ghost use Rattle.spec_document.specs.Limits.{IsDocument};
ghost use Rattle.spec_script.specs.Fits.{FitsFilters};
ghost use Rattle.spec_script.specs.Script.{list_at};
ghost use Rattle.spec_view.specs.Script.{IsViewedLine};
ghost use Rattle.spec_view.specs.Text.{Views};
ghost use Rattle.spec_window.specs.Window.{IsWindowSize};
ghost use Rattle.xl_doc.specs.Numbered.{AreNumbered};
ghost use Rattle.xl_ports.specs.Disk.{read_at};
ghost use Rattle.xl_outcome.specs.AtSource.{IfOfSource};
ghost use Rattle.xl_outcome.specs.Outcome.{given_of, ComesTo, LoadsFew, ReadsToEnd, SourceCause, ShelfCause, TakesFront};
ghost use Rattle.xl_outcome.specs.Parts.{StopsView, WritesViewed};
ghost use Rattle.xl_script.specs.Lines.{lists_of};
ghost use Rattle.xl_filters.specs.Chests.{states_of};

use crate::loading::read_document;
use crate::viewed_scripts::read_viewed;
use std::alloc::AllocError;
use std::thread::Threads;
use xl_doc::Document;
use xl_filters::PointFilter;
use xl_outcome::{CommandEnd, Stopped};
use xl_play::{Viewing, open_core};
use xl_ports::{Shelf, Sink, Source, write_all};
use xl_script::Script;

/// Makes the calls of a script of session 0 on the document of a file, without threads, and writes the replies. The
/// digest of a tile's line is that of the tiles from there on to its right and below, as many as `view` says, as far as
/// the grid goes.
///
/// The script is read before the file, and all the text is made before its first byte is written. Nothing is saved. The
/// shelf comes back always.
pub fn view<R: Threads + Sync, S: Source, K: Sink, D: Shelf>(
    rt: &R,
    view: &Viewing,
    name: &str,
    source: &mut S,
    sink: &mut K,
    mut shelf: D,
    chest: Vec<Vec<Box<dyn PointFilter + Send>>>,
) -> CommandEnd<D>
    requires boxes { AllByRecursion (λ boxes. length boxes.items < 2 ^ 32) chest.items }
    requires size { IsWindowSize view.now.cols view.now.rows }
    ensures comes { ComesTo K.held K.faults (given_of (S.left source.old) (λ b. state b)
        chest.items) (D.shelf_state shelf) (D.shelf_state result.shelf)
        (view_of name.now view.now.cols view.now.rows) sink.old sink.new result.result }
    ensures stops { StopsView (given_of (S.left source.old) (λ b. state b) chest.items)
        (read_at (D.shelf_state shelf).disk name.now) result.result }
    ensures takes { TakesFront S.left S.faults S.reads source.old source.new }
    ensures ended { ReadsToEnd (S.left source.new) result.result }
    ensures source_cause { SourceCause (S.faults source.old) (S.faults source.new) result.result }
    ensures shelf_cause { ShelfCause (D.shelf_state shelf).reading
        (D.shelf_state result.shelf).reading result.result }
    ensures few_loads { LoadsFew (D.shelf_state shelf) (D.shelf_state result.shelf) }
    ensures selected { ((D.shelf_state result.shelf).selected ≡ (D.shelf_state shelf).selected) ⊎
        ((D.shelf_state result.shelf).selected ≡ Some name.now) }
    ensures named { OnOk result.result ((D.shelf_state result.shelf).selected ≡ Some name.now) }
    ensures shelf_as_before { IfOfSource result.result (result.shelf ≡ shelf) }
{
    let alloc = view.alloc;
    let script = match read_viewed(alloc, source, &chest) {
        Ok(script) => script,
        Err(stopped) => return CommandEnd {
            result: Err(stopped),
            shelf,
        },
    };
    let document = match read_document(rt, alloc, name, &mut shelf) {
        Ok(document) => document,
        Err(stopped) => return CommandEnd {
            result: Err(stopped),
            shelf,
        },
    };
    let viewed = view_document(view, document, script, chest, shelf);
    CommandEnd {
        result: write_text(sink, viewed.text),
        shelf: viewed.shelf,
    }
}

// The text of a run, and the shelf as it was handed in.
#[derive(Drop)]
struct Viewed<D> {
    text: Result<String, AllocError>,
    shelf: D,
}

// Makes the calls of a script on a document.
fn view_document<D: Shelf>(
    view: &Viewing,
    document: Document,
    script: Script,
    chest: Vec<Vec<Box<dyn PointFilter + Send>>>,
    shelf: D,
) -> Viewed<D>
    requires limits { IsDocument document }
    requires numbered { AreNumbered document.nodes }
    requires selected { IsSome (D.shelf_state shelf).selected }
    requires size { IsWindowSize view.now.cols view.now.rows }
    requires boxes { AllByRecursion (λ boxes. length boxes.items < 2 ^ 32) chest.items }
    requires fits { FitsFilters (length (list_at (states_of (λ b. state b) chest.items) 0) ∷ [])
        (lists_of script) }
    requires viewed { AllByRecursion IsViewedLine (list_at (lists_of script) 0) }
    ensures shelf { result.shelf ≡ shelf }
    ensures views { IfOk result.text (λ text. Views (string_bytes text) document
        (list_at (lists_of script) 0) (list_at (states_of (λ b. state b) chest.items) 0)
        view.now.cols view.now.rows) }
{
    let mut core = match open_core(view.alloc, document, shelf) {
        Ok(core) => core,
        Err(shelf) => return Viewed {
            text: Err(AllocError),
            shelf,
        },
    };
    let text = view.view_script(&mut core, script, chest);
    Viewed {
        text,
        shelf: core.into_shelf(),
    }
}

// Writes the text of a run.
fn write_text<K: Sink>(sink: &mut K, text: Result<String, AllocError>) -> Result<(), Stopped>
    ensures writes { WritesViewed K.held K.faults sink.old sink.new text result }
    ensures past_source { IfOfSource result ⊥ }
{
    let Ok(text) = text else {
        return Err(Stopped::Memory);
    };
    if write_all(sink, text.as_bytes()).is_err() {
        return Err(Stopped::SinkFault);
    }
    Ok(())
}
