ghost use Rattle.std.specs.Prelude.{◌≡◌, ◌<◌, ◌≤◌, ◌^◌, ◌⊎◌, length, map, Some, IfOk, OnOk};
ghost use Rattle.std.specs.List.{AllByRecursion};
ghost use Rattle.spec_audit.specs.Limited.{AreNumbers};
ghost use Rattle.spec_command.specs.Arguments.{audit as audit_of};
ghost use Rattle.spec_script.specs.Fits.{FitsFilters};
ghost use Rattle.xl_ports.specs.Disk.{read_at};
ghost use Rattle.xl_ports.specs.Source.{IsEnded};
ghost use Rattle.xl_outcome.specs.AtSource.{IfOfSource};
ghost use Rattle.xl_outcome.specs.Outcome.{given_of, ComesTo, LoadsFew, ReadsToEnd, SourceCause, ShelfCause};
ghost use Rattle.xl_outcome.specs.Outcome.{most_audit_reads, TakesWithin};
ghost use Rattle.xl_outcome.specs.Parts.{ReadsSourceOf, StopsAudit, WritesVerdict};
ghost use Rattle.xl_script.specs.Lines.{lists_of};
ghost use Rattle.xl_filters.specs.Chests.{states_of};

use crate::loading::read_document;
use std::alloc::{AllocError, Global};
use std::thread::Threads;
use xl_audit::{Verdict, find_verdict};
use xl_filters::PointFilter;
use xl_outcome::Stopped;
use xl_play::filter_counts;
use xl_ports::{Shelf, Sink, Source, write_all};
use xl_printed::{Audit, Unread, read_audit, rejection_of, verdict_line};

/// Judges whether a printed run is one of an edit of a file by a script, with the filters of the sessions, and writes
/// the verdict. Both stand in the source, behind a head that says how long the script is.
///
/// The source is read before the file, and the line is made before its first byte is written. Nothing is saved.
pub fn audit<R: Threads + Sync, S: Source, K: Sink, D: Shelf>(
    rt: &R,
    alloc: Global,
    name: &str,
    source: &mut S,
    sink: &mut K,
    shelf: &mut D,
    chest: Vec<Vec<Box<dyn PointFilter + Send>>>,
) -> Result<(), Stopped>
    requires lists { length chest.items ≤ 8 }
    requires boxes { AllByRecursion (λ boxes. length boxes.items < 2 ^ 32) chest.items }
    ensures comes { ComesTo K.held K.faults (given_of (S.left source.old) (λ b. state b)
        chest.items) (D.shelf_state shelf.old) (D.shelf_state shelf.new) (audit_of name.now)
        sink.old sink.new result }
    ensures stops { StopsAudit (given_of (S.left source.old) (λ b. state b) chest.items)
        (read_at (D.shelf_state shelf.old).disk name.now) result }
    ensures takes { TakesWithin S.left S.faults S.reads most_audit_reads source.old source.new }
    ensures ended { ReadsToEnd (S.left source.new) result }
    ensures source_cause { SourceCause (S.faults source.old) (S.faults source.new) result }
    ensures shelf_cause { ShelfCause (D.shelf_state shelf.old).reading
        (D.shelf_state shelf.new).reading result }
    ensures few_loads { LoadsFew (D.shelf_state shelf.old) (D.shelf_state shelf.new) }
    ensures selected { ((D.shelf_state shelf.new).selected ≡ (D.shelf_state shelf.old).selected) ⊎
        ((D.shelf_state shelf.new).selected ≡ Some name.now) }
    ensures named { OnOk result ((D.shelf_state shelf.new).selected ≡ Some name.now) }
    ensures shelf_as_before { IfOfSource result (shelf.new ≡ shelf.old) }
{
    // No `?`: clauses tell of the cause, and behind a conversion it is another one.
    let given = match read_source(alloc, source, &chest) {
        Ok(given) => given,
        Err(stopped) => return Err(stopped),
    };
    let document = match read_document(rt, alloc, name, shelf) {
        Ok(document) => document,
        Err(stopped) => return Err(stopped),
    };
    write_verdict(alloc, sink, find_verdict(alloc, document, &given, chest))
}

// The script and the output behind the head of the source.
fn read_source<S: Source>(
    alloc: Global,
    source: &mut S,
    chest: &Vec<Vec<Box<dyn PointFilter + Send>>>,
) -> Result<Audit, Stopped>
    requires { AllByRecursion (λ boxes. length boxes.items < 2 ^ 32) chest.now.items }
    ensures reads { ReadsSourceOf (given_of (S.left source.old) (λ b. state b) chest.now.items)
        result }
    ensures fits { IfOk result
        (λ audit. FitsFilters (map length (states_of (λ b. state b) chest.now.items))
        (lists_of audit.script)) }
    ensures numbers { IfOk result (λ audit. AreNumbers (lists_of audit.script)) }
    ensures takes { TakesWithin S.left S.faults S.reads most_audit_reads source.old source.new }
    ensures ended { OnOk result (IsEnded (S.left source.new)) }
    ensures cause { SourceCause (S.faults source.old) (S.faults source.new) result }
{
    let Ok(counts) = filter_counts(alloc, chest) else {
        return Err(Stopped::Memory);
    };
    match read_audit(alloc, source, &counts) {
        Ok(audit) => Ok(audit),
        Err(Unread::SourceFault) => Err(Stopped::SourceFault),
        Err(Unread::BadHead) => Err(Stopped::BadHead),
        Err(Unread::BadLine(bad)) => Err(Stopped::BadLine(bad)),
        Err(Unread::Memory) => Err(Stopped::Memory),
    }
}

// Writes the line of a verdict.
fn write_verdict<K: Sink>(
    alloc: Global,
    sink: &mut K,
    verdict: Result<Verdict, AllocError>,
) -> Result<(), Stopped>
    ensures writes { WritesVerdict K.held K.faults sink.old sink.new verdict result }
    ensures past_source { IfOfSource result ⊥ }
{
    let Ok(verdict) = verdict else {
        return Err(Stopped::Memory);
    };
    let Ok(line) = verdict_line(alloc, verdict) else {
        return Err(Stopped::Memory);
    };
    if write_all(sink, line.as_bytes()).is_err() {
        return Err(Stopped::SinkFault);
    }
    match rejection_of(verdict) {
        None => Ok(()),
        Some(why) => Err(Stopped::Rejected(why)),
    }
}
