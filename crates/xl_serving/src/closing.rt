//! What is written when a talk has ended, and the status of it.
ghost use Rattle.std.specs.Prelude.{◌≡◌, ℕ, List, true};
ghost use Rattle.xl_serve.specs.Talking.{IsKeptOf};
ghost use Rattle.xl_serving.specs.Written as written;
ghost use Rattle.xl_serving.specs.Written.{IsWritten, WritesOr};

use std::alloc::Global;
use xl_commands::{
    BAD_SOURCE, Core, DONE, MEMORY, SHELF_FAULT, SINK_FAULT, SOURCE_FAULT, write_line,
};
use xl_ports::{Shelf, Sink, write_all};
use xl_serve::{TalkEnd, close};

// Whether something stands behind what was said.
fn is_closed(end: TalkEnd) -> bool
    ensures { result ≡ written.is_closed end }
{
    match end {
        TalkEnd::Ended | TalkEnd::TooLong(_) | TalkEnd::SourceFault => true,
        TalkEnd::SinkFault | TalkEnd::Memory | TalkEnd::NotBegun => false,
    }
}

// Whether the sink failed in the talk.
fn is_cut(end: TalkEnd) -> bool
    ensures { result ≡ written.is_cut end }
{
    match end {
        TalkEnd::SinkFault => true,
        TalkEnd::Ended | TalkEnd::TooLong(_) | TalkEnd::SourceFault => false,
        TalkEnd::Memory | TalkEnd::NotBegun => false,
    }
}

// The status where all is written, by whether a save failed.
fn closed_status(failed: bool, end: TalkEnd) -> u8
    ensures { result ≡ written.closed_status failed end }
{
    match end {
        TalkEnd::Ended => { if failed { SHELF_FAULT } else { DONE } }
        TalkEnd::TooLong(_) => BAD_SOURCE,
        TalkEnd::SourceFault => SOURCE_FAULT,
        TalkEnd::SinkFault => SINK_FAULT,
        TalkEnd::Memory | TalkEnd::NotBegun => MEMORY,
    }
}

// Writes a text, and answers this status or that of a fault.
fn write_or<K: Sink>(sink: &mut K, text: &[u8], all: u8) -> u8
    ensures { WritesOr K.held K.faults sink.old sink.new text.now all result }
{
    match write_all(sink, text) {
        Ok(()) => all,
        Err(_) => SINK_FAULT,
    }
}

// Writes what is kept, and what stands behind it.
fn write_closed<K: Sink, D: Shelf>(
    alloc: Global,
    core: &Core<D>,
    end: TalkEnd,
    failed: bool,
    sink: &mut K,
    out: &mut Vec<u8>,
) -> u8
    requires { written.is_closed end ≡ true }
    ensures { (begun : K) (told : List ℕ) → IsKeptOf K.held K.faults begun sink.old told
        out.old.items end → IsWritten K.held K.faults begun sink.new told
        core.now.history.entries end failed result }
{
    match close(alloc, core, end, out) {
        Ok(()) => write_or(sink, out, closed_status(failed, end)),
        Err(_) => {
            write_line(sink, out);
            MEMORY
        }
    }
}

/// Writes what is kept of a talk that has ended so, with what stands behind it, and answers the status by whether a
/// save failed.
pub(crate) fn write_end<K: Sink, D: Shelf>(
    alloc: Global,
    core: &Core<D>,
    end: TalkEnd,
    failed: bool,
    sink: &mut K,
    out: &mut Vec<u8>,
) -> u8
    ensures { (begun : K) (told : List ℕ) → IsKeptOf K.held K.faults begun sink.old told
        out.old.items end → IsWritten K.held K.faults begun sink.new told
        core.now.history.entries end failed result }
{
    if is_closed(end) {
        return write_closed(alloc, core, end, failed, sink, out);
    }
    if is_cut(end) {
        return SINK_FAULT;
    }
    write_line(sink, out);
    MEMORY
}
