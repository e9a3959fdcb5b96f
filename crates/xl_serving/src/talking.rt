//! A talk over the document of a file.
ghost use Rattle.std.specs.Prelude.{◌≡◌, ◌<◌, ◌^◌, ℕ, Bool, List, [], length, Some, IfOk, IsSome};
ghost use Rattle.std.specs.List.{AllByRecursion};
ghost use Rattle.spec_document.specs.Limits.{IsDocument};
ghost use Rattle.spec_run.specs.Failed.{WhetherFailed};
ghost use Rattle.spec_run.specs.Versions.{AreWithin};
ghost use Rattle.spec_saves.specs.Names.{save_faults};
ghost use Rattle.spec_serve.specs.Said.{told_text};
ghost use Rattle.xl_commands.specs.Outcome.{given_of};
ghost use Rattle.xl_doc.specs.Numbered.{AreNumbered};
ghost use Rattle.xl_history.specs.Editing.{IsRight};
ghost use Rattle.xl_ports.specs.State.{ShelfState};
ghost use Rattle.xl_serve.specs.Talking.{IsKeptOf};
ghost use Rattle.xl_serving.specs.Opened.{IsOpened};
ghost use Rattle.xl_serving.specs.Served.{Serves, ShelfGoes};
ghost use Rattle.xl_serving.specs.Written.{IsWritten};

use crate::closing::write_end;
use std::alloc::{AllocError, Global};
use std::marker::Brand;
use std::sync::ledger::Blank;
use xl_commands::{Core, DONE, Ended, MEMORY, SINK_FAULT, Stopped, open_core};
use xl_doc::Document;
use xl_filters::PointFilter;
use xl_play::{has_save_fault, next_id_of};
use xl_ports::{Shelf, Sink, Source};
use xl_script::{BadLine, Cause};
use xl_serve::{Server, TalkEnd, answer_all};
use xl_told::ready_line;

// How wide a canvas is.
fn width(document: &Document) -> u32
    ensures { result ≡ document.now.width }
{
    document.width
}

// And how high.
fn height(document: &Document) -> u32
    ensures { result ≡ document.now.height }
{
    document.height
}

// What is said before the first line.
fn first_text(alloc: Global, document: &Document) -> Result<Vec<u8>, AllocError>
    requires { AreNumbered document.now.nodes }
    ensures { IfOk result (λ out. out.items ≡ told_text document.now []) }
{
    let next = next_id_of(document);
    let line = ready_line(alloc, width(document), height(document), next)?;
    Ok(line.into_bytes())
}

// How a run ends where memory ran out before the first line.
fn without_memory<D>(shelf: D) -> Ended<D>
    ensures status { result.status ≡ 8 }
    ensures shelf { result.shelf ≡ shelf }
{
    Ended {
        status: MEMORY,
        cause: Some(Stopped::Memory),
        shelf,
    }
}

// Why a talk that ended so came to this status, for people to be told.
fn cause_of(end: TalkEnd, status: u8) -> Option<Stopped> {
    if status == DONE {
        return None;
    }
    if status == SINK_FAULT {
        return Some(Stopped::SinkFault);
    }
    if status == MEMORY {
        return Some(Stopped::Memory);
    }
    match end {
        TalkEnd::Ended => Some(Stopped::SaveFault),
        TalkEnd::TooLong(line) => Some(Stopped::BadLine(BadLine {
            line,
            cause: Cause::TooLong,
        })),
        TalkEnd::SourceFault => Some(Stopped::SourceFault),
        TalkEnd::SinkFault => Some(Stopped::SinkFault),
        TalkEnd::Memory | TalkEnd::NotBegun => Some(Stopped::Memory),
    }
}

// Writes what is kept of a talk that has ended so, and gives the shelf back.
fn end_talk<K: Sink, D: Shelf>(
    alloc: Global,
    core: Core<D>,
    end: TalkEnd,
    sink: &mut K,
    mut out: Vec<u8>,
) -> Ended<D>
    requires { IsSome core.shelf }
    ensures right { IsRight D.shelf_state core result.shelf }
    ensures within { AreWithin core.history.base core.history.entries }
    ensures written { (begun : K) (told : List ℕ) → IsKeptOf K.held K.faults begun sink.old told
        out.items end → (failed : Bool) × WhetherFailed failed (save_faults core.history.entries)
        × IsWritten K.held K.faults begun sink.new told core.history.entries end failed
        result.status }
{
    let failed = has_save_fault(core.entries());
    let status = write_end(alloc, &core, end, failed, sink, &mut out);
    core.know_versions();
    Ended {
        status,
        cause: cause_of(end, status),
        shelf: core.into_shelf(),
    }
}

// Answers the lines of the source over an opened document, after what is said before them.
fn talk<S: Source, K: Sink, D: Shelf>(
    alloc: Global,
    core: Core<D>,
    source: &mut S,
    sink: &mut K,
    mut out: Vec<u8>,
    chest: Vec<Vec<Box<dyn PointFilter + Send>>>,
) -> Ended<D>
    requires fresh { core.history.entries ≡ [] }
    requires inside { core.shelf ≡ Some core.opening }
    requires selected { IsSome (D.shelf_state core.opening).selected }
    requires boxes { AllByRecursion (λ boxes. length boxes.items < 2 ^ 32) chest.items }
    requires ready { out.items ≡ told_text core.history.base [] }
    ensures { (before : ShelfState) (name : List ℕ) → IsOpened name before (D.shelf_state core.opening)
        core.history.base → Serves K.held K.faults S.faults (given_of (S.left source.old)
        (λ b. state b) chest.items) (Some name) before (D.shelf_state result.shelf) source.old
        source.new sink.old sink.new result.status
        × ShelfGoes (Some name) before (D.shelf_state result.shelf) result.status }
{
    match Server::new(alloc, core, chest) {
        Ok(mut server) => {
            let blank = Blank::new(1);
            let end = answer_all::<Brand, S, K, D>(
                alloc,
                &mut server,
                source,
                sink,
                &mut out,
                blank,
            );
            end_talk(alloc, server.into_core(), end, sink, out)
        }
        Err(failed) => without_memory(failed.value.into_shelf()),
    }
}

/// Answers the lines of the source over a document that was read, and gives the shelf back.
pub(crate) fn talk_over<S: Source, K: Sink, D: Shelf>(
    alloc: Global,
    document: Document,
    source: &mut S,
    sink: &mut K,
    shelf: D,
    chest: Vec<Vec<Box<dyn PointFilter + Send>>>,
) -> Ended<D>
    requires limits { IsDocument document }
    requires numbered { AreNumbered document.nodes }
    requires selected { IsSome (D.shelf_state shelf).selected }
    requires boxes { AllByRecursion (λ boxes. length boxes.items < 2 ^ 32) chest.items }
    ensures { (before : ShelfState) (name : List ℕ) → IsOpened name before (D.shelf_state shelf)
        document → Serves K.held K.faults S.faults (given_of (S.left source.old)
        (λ b. state b) chest.items) (Some name) before (D.shelf_state result.shelf) source.old
        source.new sink.old sink.new result.status
        × ShelfGoes (Some name) before (D.shelf_state result.shelf) result.status }
{
    let Ok(out) = first_text(alloc, &document) else {
        return without_memory(shelf);
    };
    match open_core(alloc, document, shelf) {
        Ok(core) => talk(alloc, core, source, sink, out, chest),
        Err(shelf) => without_memory(shelf),
    }
}
