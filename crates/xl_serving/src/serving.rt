//! The command.
ghost use Rattle.std.specs.Prelude.{◌≡◌, ◌≢◌, ◌<◌, ◌≤◌, ◌^◌, ◌↔◌, length, Some, None};
ghost use Rattle.std.specs.List.{AllByRecursion};
ghost use Rattle.spec_command.specs.Ends as stop;
ghost use Rattle.xl_command.specs.Asking.{arguments_of, served_in};
ghost use Rattle.xl_commands.specs.Lines.{WritesLine};
ghost use Rattle.xl_commands.specs.Outcome.{given_of};
ghost use Rattle.xl_serving.specs.Served.{Serves, ShelfGoes};

use crate::talking::talk_over;
use std::alloc::Global;
use std::sync::Wait;
use std::thread::Threads;
use xl_command::served_file;
use xl_commands::{Ended, MEMORY, Stopped, USAGE, read_document, write_line, write_stop};
use xl_filters::PointFilter;
use xl_ports::{Shelf, Sink, Source};

// Serves the file of a name.
fn serve_file<R: Threads + Sync, S: Source, K: Sink, D: Shelf>(
    rt: &R,
    alloc: Global,
    name: &str,
    source: &mut S,
    sink: &mut K,
    mut shelf: D,
    chest: Vec<Vec<Box<dyn PointFilter + Send>>>,
) -> Ended<D>
    requires { AllByRecursion (λ boxes. length boxes.items < 2 ^ 32) chest.items }
    ensures serves { Serves K.held K.faults S.faults (given_of (S.left source.old) (λ b. state b)
        chest.items) (Some name.now) (D.shelf_state shelf) (D.shelf_state result.shelf) source.old
        source.new sink.old sink.new result.status }
    ensures shelf { ShelfGoes (Some name.now) (D.shelf_state shelf) (D.shelf_state result.shelf)
        result.status }
{
    match read_document(rt, alloc, name, &mut shelf) {
        Ok(document) => talk_over(alloc, document, source, sink, shelf, chest),
        Err(stopped) => Ended {
            status: write_stop(alloc, sink, stopped),
            cause: Some(stopped),
            shelf,
        },
    }
}

/// Serves the file that the words name: its document is edited by the lines of the source, each of which is answered
/// before the next is read, and saved where a line asks for it. The shelf comes back always.
///
/// `chest` holds the filters of each session, as in `run`. The file is read before the first line.
///
/// The statuses: 0 the lines have ended, 2 the words are no `serve`, 3 a line is too long, 4 the file holds no
/// document, 5 the source failed, 6 the file could not be read, or a save failed and all was written, 7 the sink
/// failed, 8 memory ran out.
///
/// No clause says that memory is there, or that a device does not fail.
pub fn serve<R: Threads + Wait + Sync, S: Source, K: Sink, D: Shelf>(
    rt: &R,
    alloc: Global,
    words: &[&str],
    source: &mut S,
    sink: &mut K,
    shelf: D,
    chest: Vec<Vec<Box<dyn PointFilter + Send>>>,
) -> Ended<D>
    requires lists { length chest.items ≤ 8 }
    requires boxes { AllByRecursion (λ boxes. length boxes.items < 2 ^ 32) chest.items }

    // Where the words ask for something else.
    ensures usage { (result.status ≡ 2) ↔ ((served_in (arguments_of words.now) ≡ None)
        × (result.status ≢ 8)) }
    ensures usage_written { result.status ≡ 2 → WritesLine K.held K.faults sink.old sink.new
        (stop.stop_line stop.usage) }
    ensures as_before { result.status ≡ 2 → (result.shelf ≡ shelf) × (source.new ≡ source.old) }

    // What is said and what is saved, and what becomes of the shelf.
    ensures serves { result.status ≢ 2 → Serves K.held K.faults S.faults (given_of
        (S.left source.old) (λ b. state b) chest.items) (served_in (arguments_of words.now))
        (D.shelf_state shelf) (D.shelf_state result.shelf) source.old source.new sink.old sink.new
        result.status }
    ensures shelf { ShelfGoes (served_in (arguments_of words.now)) (D.shelf_state shelf)
        (D.shelf_state result.shelf) result.status }
{
    let Ok(asked) = served_file(alloc, words) else {
        return Ended {
            status: MEMORY,
            cause: Some(Stopped::Memory),
            shelf,
        };
    };
    let Some(name) = asked else {
        write_line(sink, b"usage\n");
        return Ended {
            status: USAGE,
            cause: None,
            shelf,
        };
    };
    serve_file(rt, alloc, name, source, sink, shelf, chest)
}
