ghost use Rattle.std.specs.Prelude.{◌≡◌, MatchResult, string_bytes};
ghost use Rattle.xl_outcome.specs.Lines.{WritesLine};
ghost use Rattle.xl_outcome.specs.Outcome.{WritesStop};

use crate::line::{bad_line_text, flat_refusal_text, refusal_text, write_line};
use crate::stopped::Stopped;
use std::alloc::{AllocError, Global};
use xl_ports::Sink;

/// The status where a line of the script, or the head of what is audited, is refused.
pub const BAD_SOURCE: u8 = 3;

/// The status where the file holds no document.
const REFUSED: u8 = 4;

/// The status where the source failed.
pub const SOURCE_FAULT: u8 = 5;

/// The status where the file could not be read, or a save failed.
pub const SHELF_FAULT: u8 = 6;

/// The status where the sink failed.
pub const SINK_FAULT: u8 = 7;

/// The status where memory ran out.
pub const MEMORY: u8 = 8;

/// The status where the image cannot be made flat.
const NOT_FLATTENED: u8 = 9;

/// The status where the printed run is rejected.
const REJECTED: u8 = 10;

// Writes a line and answers its status, unless memory ran out for it.
fn write_text<K: Sink>(sink: &mut K, text: Result<String, AllocError>, status: u8) -> u8
    ensures { MatchResult text (λ text. (result ≡ status) × WritesLine K.held K.faults sink.old
        sink.new (string_bytes text)) (λ _. (result ≡ 8) × (sink.new ≡ sink.old)) }
{
    match text {
        Ok(text) => {
            write_line(sink, text.as_bytes());
            status
        }
        Err(_) => MEMORY,
    }
}

/// Writes why a command stopped, and answers the status.
pub fn write_stop<K: Sink>(alloc: Global, sink: &mut K, stopped: Stopped) -> u8
    ensures { WritesStop K.held K.faults sink.old sink.new stopped result }
{
    match stopped {
        Stopped::SourceFault => {
            write_line(sink, b"source fault\n");
            SOURCE_FAULT
        }
        Stopped::BadHead => {
            write_line(sink, b"bad head\n");
            BAD_SOURCE
        }
        Stopped::BadLine(bad) => write_text(sink, bad_line_text(alloc, bad.line), BAD_SOURCE),
        Stopped::ShelfFault => {
            write_line(sink, b"shelf fault\n");
            SHELF_FAULT
        }
        Stopped::Refused(refused) => write_text(sink, refusal_text(alloc, refused), REFUSED),
        Stopped::NotFlattened(why) => {
            write_text(sink, flat_refusal_text(alloc, why), NOT_FLATTENED)
        }
        Stopped::SaveFault => SHELF_FAULT,
        Stopped::Rejected(_) => REJECTED,
        Stopped::SinkFault => SINK_FAULT,
        Stopped::Memory => MEMORY,
    }
}
