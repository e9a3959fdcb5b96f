//! A talk from its first line to its last.
ghost use Rattle.std.specs.Prelude.{◌≡◌, ◌++◌, ◌<◌, ◌^◌, ℕ, List, [], map, IfOk, IsSome, IfErr, MatchResult, Option, OnErr, OnOk, ◌+◌};
ghost use Rattle.spec_text.specs.Printed.{order_text};
ghost use Rattle.xl_serve.specs.Talked.{closing};
ghost use Rattle.spec_document.specs.Document.{Document as Plain};
ghost use Rattle.spec_filters.specs.declared.FilterState.{FilterState};
ghost use Rattle.spec_history.specs.History.{Entry};
ghost use Rattle.spec_script.specs.declared.TheConstants.{MAX_SCRIPT_BYTES};
ghost use Rattle.spec_serve.specs.Said.{told_text};
ghost use Rattle.xl_filters.specs.Chests.{states_in};
ghost use Rattle.xl_lines.specs.Lines.{lines_left, IsNext};
ghost use Rattle.xl_ports.specs.Sink.{Writes};
ghost use Rattle.xl_ports.specs.Source.{led_by};
ghost use Rattle.xl_serve.specs.Causes.{HasEndCause, HasTurnCause};
ghost use Rattle.xl_serve.specs.Played.{GoesOn, IsReady};
ghost use Rattle.xl_serve.specs.Serving.{now_of, Answers, IsCutAt, Stands, StandsSomehow};
ghost use Rattle.xl_serve.specs.declared.ends.TalkEnd.TheVariants.{SinkFault, Memory};
ghost use Rattle.xl_serve.specs.Talking.{HasSaid, IsUnderWay, Moves, NoLine};

use crate::ends::TalkEnd;
use crate::server::Server;
use std::alloc::{AllocError, Global};
use std::sync::ledger::{Blank, Ledger};
use xl_answers::print_order;
use xl_blend::Steps;
use xl_core::{Core, Entry};
use xl_filters::PointFilter;
use xl_lines::{LineFault, Lines};
use xl_ports::{Failed, Shelf, Sink, Source, write_all};
use xl_run::order_words;
use xl_script::MAX_SCRIPT_BYTES;
use xl_told::{append, bad_line};

// How many bytes of replies are kept at most before they are written, where more lines are there already.
const MOST_KEPT: usize = 1 << 16;

// Writes what was said so far.
fn flush<K: Sink>(sink: &mut K, out: &mut Vec<u8>) -> Result<(), Failed>
    ensures written { Writes K.held K.faults sink.old sink.new out.old.items result }
    ensures none { out.new.items ≡ [] }
{
    let written = write_all(sink, out);
    out.clear();
    written
}

// Whether what was said so far is to be written: where the source is to be read for the next line, or where it is much.
fn is_due(lines: &Lines, out: &Vec<u8>) -> bool {
    !lines.has_line() || out.len() >= MOST_KEPT
}

// Writes what was said so far, where it is due.
fn make_way<K: Sink>(lines: &Lines, sink: &mut K, out: &mut Vec<u8>) -> Result<(), TalkEnd>
    ensures moved { Moves K.held K.faults sink.old sink.new out.old.items out.new.items result }
    ensures end { IfErr result (λ end. end ≡ SinkFault) }
{
    if !is_due(lines, out) {
        return Ok(());
    }
    match flush(sink, out) {
        Ok(()) => Ok(()),
        Err(_) => Err(TalkEnd::SinkFault),
    }
}

// Takes the next line, of this number.
fn next_line<S: Source>(
    lines: &mut Lines,
    source: &mut S,
    line: &mut Vec<u8>,
    number: u32,
) -> Result<bool, TalkEnd>
    ensures line { IfOk result (λ there. IsNext there line.new.items
        (lines_left lines.old (S.left source.old)) (lines_left lines.new (S.left source.new))) }
    ensures none { NoLine number (led_by lines.old (S.left source.old)) result }
    ensures cause { HasTurnCause (S.faults source.old) (S.faults source.new) result }
{
    match lines.next(source, MAX_SCRIPT_BYTES, line) {
        Ok(there) => Ok(there),
        Err(LineFault::TooLong) => Err(TalkEnd::TooLong(number)),
        Err(LineFault::Failed) => Err(TalkEnd::SourceFault),
        Err(LineFault::Memory) => Err(TalkEnd::Memory),
    }
}

// Answers a line, and keeps what is said.
fn answer_line<L: Ledger, D: Shelf>(
    alloc: Global,
    server: &mut Server<D>,
    number: u32,
    line: &[u8],
    steps: &mut Steps<L>,
    out: &mut Vec<u8>,
) -> Result<(), TalkEnd>
    requires ready { IsReady server.old.core }
    requires selected { IsSome (D.shelf_state server.old.core.opening).selected }
    requires stands { StandsSomehow (now_of server.old.core.history server.old.hearing server.old.seen
        (map (λ d. states_in state d.chest) server.old.desks.items) server.old.viewer.seen) }
    ensures goes_on { GoesOn server.old.core server.new.core }
    ensures answered { OnOk result ((text : List ℕ) × Answers number line.now (now_of server.old.core.history server.old.hearing server.old.seen
        (map (λ d. states_in state d.chest) server.old.desks.items) server.old.viewer.seen)
        (now_of server.new.core.history server.new.hearing server.new.seen
        (map (λ d. states_in state d.chest) server.new.desks.items) server.new.viewer.seen) text × (out.new.items ≡ out.old.items ++ text)) }
    ensures kept { OnErr result (out.new.items ≡ out.old.items) }
    ensures cut { OnErr result (IsCutAt number line.now
        (now_of server.old.core.history server.old.hearing server.old.seen
        (map (λ d. states_in state d.chest) server.old.desks.items) server.old.viewer.seen)
        (now_of server.new.core.history server.new.hearing server.new.seen
        (map (λ d. states_in state d.chest) server.new.desks.items) server.new.viewer.seen)) }
    ensures end { IfErr result (λ end. end ≡ Memory) }
{
    let Ok(text) = server.answer(alloc, number, line, steps) else {
        return Err(TalkEnd::Memory);
    };
    match append(out, &text) {
        Ok(()) => Ok(()),
        Err(_) => Err(TalkEnd::Memory),
    }
}

// Takes the line of this number and answers it, where what was said so far needs not be written; or says why there is no
// further line.
fn take_line<L: Ledger, S: Source, K: Sink, D: Shelf>(
    alloc: Global,
    server: &mut Server<D>,
    lines: &mut Lines,
    line: &mut Vec<u8>,
    number: u32,
    source: &mut S,
    sink: &K,
    out: &mut Vec<u8>,
    steps: &mut Steps<L>,
) -> Result<(), TalkEnd>
    requires ready { IsReady server.old.core }
    requires selected { IsSome (D.shelf_state server.old.core.opening).selected }
    requires stands { StandsSomehow (now_of server.old.core.history server.old.hearing server.old.seen
        (map (λ d. states_in state d.chest) server.old.desks.items) server.old.viewer.seen) }
    ensures goes_on { GoesOn server.old.core server.new.core }
    ensures turned { (base : Plain) (filters : List (List FilterState)) (left : Option (List ℕ))
        (begun : K) → IsUnderWay K.held K.faults base filters left begun sink.now out.old.items number
        (led_by lines.old (S.left source.old)) (now_of server.old.core.history server.old.hearing server.old.seen
        (map (λ d. states_in state d.chest) server.old.desks.items) server.old.viewer.seen) → MatchResult result
        (λ _. IsUnderWay K.held K.faults base filters left begun sink.now out.new.items (number + 1)
        (led_by lines.new (S.left source.new)) (now_of server.new.core.history server.new.hearing server.new.seen
        (map (λ d. states_in state d.chest) server.new.desks.items) server.new.viewer.seen))
        (λ end. HasSaid K.held K.faults base filters left begun sink.now out.new.items
        server.new.core.history.entries end) }
    ensures cause { HasTurnCause (S.faults source.old) (S.faults source.new) result }
{
    match next_line(lines, source, line, number) {
        Ok(true) => answer_line(alloc, server, number, line, steps, out),
        Ok(false) => Err(TalkEnd::Ended),
        Err(end) => Err(end),
    }
}

// Takes the line of this number and answers it, or says why no further line is taken. What is said and not yet written is in
// `out`.
fn take_turn<L: Ledger, S: Source, K: Sink, D: Shelf>(
    alloc: Global,
    server: &mut Server<D>,
    lines: &mut Lines,
    line: &mut Vec<u8>,
    number: u32,
    source: &mut S,
    sink: &mut K,
    out: &mut Vec<u8>,
    steps: &mut Steps<L>,
) -> Result<(), TalkEnd>
    requires ready { IsReady server.old.core }
    requires selected { IsSome (D.shelf_state server.old.core.opening).selected }
    requires stands { StandsSomehow (now_of server.old.core.history server.old.hearing server.old.seen
        (map (λ d. states_in state d.chest) server.old.desks.items) server.old.viewer.seen) }
    ensures goes_on { GoesOn server.old.core server.new.core }
    ensures turned { (base : Plain) (filters : List (List FilterState)) (left : Option (List ℕ))
        (begun : K) → IsUnderWay K.held K.faults base filters left begun sink.old out.old.items number
        (led_by lines.old (S.left source.old)) (now_of server.old.core.history server.old.hearing server.old.seen
        (map (λ d. states_in state d.chest) server.old.desks.items) server.old.viewer.seen) → MatchResult result
        (λ _. IsUnderWay K.held K.faults base filters left begun sink.new out.new.items (number + 1)
        (led_by lines.new (S.left source.new)) (now_of server.new.core.history server.new.hearing server.new.seen
        (map (λ d. states_in state d.chest) server.new.desks.items) server.new.viewer.seen))
        (λ end. HasSaid K.held K.faults base filters left begun sink.new out.new.items
        server.new.core.history.entries end) }
    ensures cause { HasTurnCause (S.faults source.old) (S.faults source.new) result }
{
    match make_way(lines, sink, out) {
        Ok(()) => take_line(alloc, server, lines, line, number, source, sink, out, steps),
        Err(end) => Err(end),
    }
}

/// Answers line after line, and says why no further line is taken. What is said and not yet written is in `out`.
pub fn answer_all<L: Ledger, S: Source, K: Sink, D: Shelf>(
    alloc: Global,
    server: &mut Server<D>,
    source: &mut S,
    sink: &mut K,
    out: &mut Vec<u8>,
    blank: Blank,
) -> TalkEnd
    requires name { blank.name ≡ L.name }
    requires parts { blank.parts ≡ L.parts }
    requires some { 0 < blank.parts }
    requires ready { IsReady server.old.core }
    requires selected { IsSome (D.shelf_state server.old.core.opening).selected }
    requires stands { (base : Plain) × (filters : List (List FilterState)) × Stands base filters [] []
        (now_of server.old.core.history server.old.hearing server.old.seen
        (map (λ d. states_in state d.chest) server.old.desks.items) server.old.viewer.seen) × (out.old.items ≡ told_text base []) }
    ensures goes_on { GoesOn server.old.core server.new.core }
    ensures said { (base : Plain) (filters : List (List FilterState)) → Stands base filters [] []
        (now_of server.old.core.history server.old.hearing server.old.seen
        (map (λ d. states_in state d.chest) server.old.desks.items) server.old.viewer.seen) → out.old.items ≡ told_text base [] → HasSaid K.held K.faults base filters
        (S.left source.old) sink.old sink.new out.new.items server.new.core.history.entries result }
    ensures cause { HasEndCause (S.faults source.old) (S.faults source.new) result }
{
    let mut steps = Steps::<L>::new(blank);
    let mut lines = Lines::new(alloc);
    let mut line = Vec::new(alloc);
    for number in 1..u32::MAX {
        match take_turn(
            alloc, server, &mut lines, &mut line, number, source, sink, out, &mut steps,
        ) {
            Ok(()) => {}
            Err(end) => return end,
        }
    }
    TalkEnd::TooLong(u32::MAX)
}

// Appends the order line.
fn append_order(alloc: Global, entries: &[Entry], out: &mut Vec<u8>) -> Result<(), AllocError>
    ensures ok { OnOk result (out.new.items ≡ out.old.items ++ order_text entries.now) }
    ensures err { OnErr result (out.new.items ≡ out.old.items) }
{
    let words = order_words(alloc, entries)?;
    let mut line = String::new(alloc);
    print_order(alloc, &mut line, words.as_slice())?;
    append(out, line.as_bytes())
}

/// Appends what stands behind all that was said.
pub fn close<D: Shelf>(
    alloc: Global,
    core: &Core<D>,
    end: TalkEnd,
    out: &mut Vec<u8>,
) -> Result<(), AllocError>
    ensures ok { OnOk result (out.new.items ≡ out.old.items
        ++ closing core.now.history.entries end) }
    ensures err { OnErr result (out.new.items ≡ out.old.items) }
{
    match end {
        TalkEnd::Ended => append_order(alloc, core.entries(), out),
        TalkEnd::TooLong(number) => {
            let line = bad_line(alloc, number)?;
            append(out, line.as_bytes())
        }
        TalkEnd::SourceFault => append(out, b"source fault\n"),
        TalkEnd::SinkFault | TalkEnd::Memory | TalkEnd::NotBegun => Ok(()),
    }
}
