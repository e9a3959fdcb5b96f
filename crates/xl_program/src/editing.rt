ghost use Rattle.std.specs.Prelude.{◌≡◌, ◌<◌, ◌≤◌, ◌^◌, ◌⊎◌, length, Some, OnOk};
ghost use Rattle.std.specs.List.{AllByRecursion};
ghost use Rattle.spec_command.specs.Arguments.{edit as edit_of};
ghost use Rattle.xl_ports.specs.Disk.{read_at};
ghost use Rattle.xl_commands.specs.AtSource.{IfOfSource};
ghost use Rattle.xl_commands.specs.Outcome.{given_of, ComesTo, LoadsFew, ReadsToEnd, SourceCause, ShelfCause, TakesFront};
ghost use Rattle.xl_commands.specs.Parts.{StopsEdit};

use crate::host::Host;
use crate::script_runs::run_script;
use std::sync::Wait;
use std::thread::Threads;
use xl_commands::{CommandEnd, read_document, read_script, write_replies};
use xl_filters::PointFilter;
use xl_ports::{Gate, Shelf, Sink, Source};

/// Makes the calls and saves of a script on the document of a file, and writes the replies. The sessions are played
/// beside each other, and beside workers; session 0 alone, where no worker is asked for, without threads.
///
/// The script is read before the file, and all the text is made before its first byte is written. The shelf comes back
/// always.
pub fn edit<R: Threads + Wait + Sync, S: Source, K: Sink, D: Shelf, G: Gate>(
    host: &Host<'_, R, G>,
    name: &str,
    workers: u8,
    source: &mut S,
    sink: &mut K,
    mut shelf: D,
    chest: Vec<Vec<Box<dyn PointFilter + Send>>>,
) -> CommandEnd<D>
    requires boxes { AllByRecursion (λ boxes. length boxes.items < 2 ^ 32) chest.items }
    requires workers { workers ≤ 8 }
    ensures comes { ComesTo K.held K.faults (given_of (S.left source.old) (λ b. state b)
        chest.items) (D.shelf_state shelf) (D.shelf_state result.shelf) (edit_of name.now workers)
        sink.old sink.new result.result }
    ensures stops { StopsEdit (given_of (S.left source.old) (λ b. state b) chest.items)
        (read_at (D.shelf_state shelf).disk name.now) result.result }
    ensures takes { TakesFront S.left S.faults S.reads source.old source.new }
    ensures ended { ReadsToEnd (S.left source.new) result.result }
    ensures source_cause { SourceCause (S.faults source.old) (S.faults source.new) result.result }
    ensures shelf_cause { ShelfCause (D.shelf_state shelf).reading
        (D.shelf_state result.shelf).reading result.result }
    ensures few_loads { LoadsFew (D.shelf_state shelf) (D.shelf_state result.shelf) }
    ensures selected { ((D.shelf_state result.shelf).selected ≡ (D.shelf_state shelf).selected) ⊎
        ((D.shelf_state result.shelf).selected ≡ Some name.now) }
    ensures named { OnOk result.result ((D.shelf_state result.shelf).selected ≡ Some name.now) }
    ensures shelf_as_before { IfOfSource result.result (result.shelf ≡ shelf) }
{
    let alloc = host.alloc;
    let script = match read_script(alloc, source, &chest) {
        Ok(script) => script,
        Err(stopped) => return CommandEnd {
            result: Err(stopped),
            shelf,
        },
    };
    let document = match read_document(host.rt, alloc, name, &mut shelf) {
        Ok(document) => document,
        Err(stopped) => return CommandEnd {
            result: Err(stopped),
            shelf,
        },
    };
    let played = run_script(host, document, script, chest, workers, shelf);
    CommandEnd {
        result: write_replies(sink, played.replies),
        shelf: played.shelf,
    }
}
