ghost use Rattle.std.specs.Prelude.{◌≡◌, ◌≢◌, ◌<◌, ◌≤◌, ◌^◌, ◌⊎◌, ◌↔◌, length, Some, None, Err, option_map, IfSome};
ghost use Rattle.std.specs.List.{AllByRecursion};
ghost use Rattle.spec_command.specs.Arguments.{Asked, name_of};
ghost use Rattle.spec_command.specs.Ends as stop;
ghost use Rattle.spec_command.specs.Grammar.{asked_in};
ghost use Rattle.spec_fields.specs.declared.ReadRefused.{ReadRefused};
ghost use Rattle.spec_flat.specs.declared.FlatRefused.{FlatRefused};
ghost use Rattle.xl_command.specs.Asking.{arguments_of};
ghost use Rattle.xl_ports.specs.Faults.{Rose};
ghost use Rattle.xl_ports.specs.Shelf.{selected_content};
ghost use Rattle.xl_ports.specs.Source.{IsEnded};
ghost use Rattle.xl_ports.specs.Disk.{read_at};
ghost use Rattle.xl_commands.specs.AtSource.{StopsBeforeShelf};
ghost use Rattle.xl_commands.specs.Command.{IsFlatten, ReadsFile, ReadsSource};
ghost use Rattle.xl_commands.specs.Files.{CannotBeFlat, HasFault};
ghost use Rattle.xl_commands.specs.Lines.{WritesLine};
ghost use Rattle.xl_commands.specs.Outcome.{given_of, ComesWell, ShelfFails, WritesInPart, WritesRejection, ComesAfterScript};
ghost use Rattle.xl_commands.specs.Outcome.{MaySave, IsUntouched, StopsBefore, RefusesSource, InGrammar, Keeps};
ghost use Rattle.xl_commands.specs.Outcome.{ComesTo, Takes, IsStatus, LoadsFew, OtherNamesStay, WritesStop};
ghost use Rattle.xl_commands.specs.Parts.{StopsFor};
ghost use Rattle.xl_commands.specs.declared.Stopped.TheVariants.{Memory};

use crate::host::Host;
use crate::obeying::obey;
use std::alloc::Global;
use std::sync::Wait;
use std::thread::Threads;
use xl_command::command_of;
use xl_commands::{DONE, Ended, MEMORY, Stopped, USAGE, write_line, write_stop};
use xl_filters::PointFilter;
use xl_ports::{Gate, Shelf, Sink, Source};

/// Does what the words ask for. The shelf comes back always.
///
/// `chest` holds the filters of each session, those of session 0 first, each in the slot of its place; a session
/// without a list has none. A box is dropped where its session forgets it, and at the latest when all sessions have
/// ended.
///
/// `edit` and `make` play the sessions of their script beside each other, in threads where these can be made, and
/// beside workers: two, or as many as the words of an edit name. An edit by session 0 alone with 0 workers is played
/// without a thread. `gate` is passed by sessions and workers on their way. `view` plays a script of session 0 alone,
/// without a thread or the gate; `pack` and `flatten` make one save. `audit` judges a printed run of an `edit` with
/// these filters, and saves nothing. Each command that reads a file walks the tiles of its large planes in threads,
/// where these can be made.
///
/// The statuses: 0 done, 2 the words are no command, 3 the head or a line of the script is refused, 4 the file holds no
/// document, 5 the source failed, 6 the file could not be read, or the save of `pack` and `flatten` or the first save
/// of what is made failed, or a later save after which all was written, 7 the sink failed while the output was written,
/// 8 memory ran out, 9 the image of the file cannot be made flat, 10 the printed run is rejected, which is written.
///
/// No clause says that memory is there, that a device does not fail, or that a run of sessions, which may wait,
/// returns. Where memory runs out for the line of a stop, the status is 8 and not that of the stop; the cause that is
/// answered is still that of the stop.
pub fn run<R: Threads + Wait + Sync, S: Source, K: Sink, D: Shelf, G: Gate>(
    rt: &R,
    alloc: Global,
    words: &[&str],
    source: &mut S,
    sink: &mut K,
    shelf: D,
    chest: Vec<Vec<Box<dyn PointFilter + Send>>>,
    gate: &G,
) -> Ended<D>
    requires lists { length chest.items ≤ 8 }
    requires boxes { AllByRecursion (λ boxes. length boxes.items < 2 ^ 32) chest.items }

    ensures statuses { IsStatus result.status }

    // What is written and what is saved, where the command comes to its end.
    ensures done { result.status ≡ 0 → ComesWell K.held K.faults
        (given_of (S.left source.old) (λ b. state b) chest.items) (D.shelf_state shelf)
        (D.shelf_state result.shelf) (asked_in (arguments_of words.now)) sink.old sink.new }
    ensures shelf_fault { result.status ≡ 6 → ShelfFails K.held K.faults
        (given_of (S.left source.old) (λ b. state b) chest.items) (D.shelf_state shelf)
        (D.shelf_state result.shelf) (asked_in (arguments_of words.now)) sink.old sink.new }
    ensures sink_fault { result.status ≡ 7 → WritesInPart K.held K.faults
        (given_of (S.left source.old) (λ b. state b) chest.items) (D.shelf_state shelf)
        (D.shelf_state result.shelf) (asked_in (arguments_of words.now)) sink.old sink.new }
    ensures rejected { result.status ≡ 10 → WritesRejection K.held K.faults
        (given_of (S.left source.old) (λ b. state b) chest.items) (D.shelf_state shelf)
        (D.shelf_state result.shelf) (asked_in (arguments_of words.now)) sink.old sink.new }
    ensures memory { result.status ≡ 8 → Keeps K.held K.faults sink.old sink.new
        × MaySave (given_of (S.left source.old) (λ b. state b) chest.items) (D.shelf_state shelf)
        (D.shelf_state result.shelf) (asked_in (arguments_of words.now)) }

    // Where it stops before.
    ensures usage { (result.status ≡ 2) ↔ ((asked_in (arguments_of words.now) ≡ None)
        × (result.status ≢ 8)) }
    ensures usage_written { result.status ≡ 2 → WritesLine K.held K.faults sink.old sink.new
        (stop.stop_line stop.usage) }
    ensures bad_source { result.status ≡ 3 → RefusesSource K.held K.faults
        (given_of (S.left source.old) (λ b. state b) chest.items)
        (asked_in (arguments_of words.now)) sink.old sink.new }
    ensures refused { result.status ≡ 4 → (why : ReadRefused)
        × ReadsFile (asked_in (arguments_of words.now))
        × IfSome (selected_content (option_map name_of (asked_in (arguments_of words.now)))
        (read_at (D.shelf_state shelf).disk)) (λ c. HasFault c why)
        × WritesLine K.held K.faults sink.old sink.new (stop.stop_line (stop.refused why)) }
    ensures flat_refused { result.status ≡ 9 → (why : FlatRefused)
        × IsFlatten (asked_in (arguments_of words.now))
        × IfSome (selected_content (option_map name_of (asked_in (arguments_of words.now)))
        (read_at (D.shelf_state shelf).disk)) (λ c. CannotBeFlat c why)
        × WritesLine K.held K.faults sink.old sink.new (stop.stop_line (stop.flat_refused why)) }
    ensures script_first { (result.status ≡ 4) ⊎ (result.status ≡ 6)
        → InGrammar (given_of (S.left source.old) (λ b. state b) chest.items)
        (asked_in (arguments_of words.now)) }
    ensures source_fault { result.status ≡ 5 → Rose (S.faults source.old) (S.faults source.new) }
    ensures no_source_fault { result.status ≢ 5 → S.faults source.new ≡ S.faults source.old }
    ensures source_fault_written { result.status ≡ 5
        → ReadsSource (asked_in (arguments_of words.now)) × WritesLine K.held K.faults sink.old
        sink.new (stop.stop_line stop.source_fault) }
    ensures untouched { StopsBefore result.status → IsUntouched
        (D.shelf_state shelf)
        (D.shelf_state result.shelf) }
    ensures shelf_as_before { StopsBeforeShelf result.status → result.shelf ≡ shelf }
    ensures cause { (command : Asked) → asked_in (arguments_of words.now) ≡ Some command
        → IfSome result.cause (λ stopped. StopsFor (given_of (S.left source.old) (λ b. state b)
        chest.items) (read_at (D.shelf_state shelf).disk) command (Err stopped) × ((mid : K)
        × ComesTo K.held K.faults (given_of (S.left source.old) (λ b. state b) chest.items)
        (D.shelf_state shelf) (D.shelf_state result.shelf) command sink.old mid (Err stopped)
        × WritesStop K.held K.faults mid sink.new stopped result.status)) }
    ensures cause_without { asked_in (arguments_of words.now) ≡ None
        → IfSome result.cause (λ stopped. stopped ≡ Memory) }
    ensures no_cause { (result.cause ≡ None) ↔ ((result.status ≡ 0) ⊎ (result.status ≡ 2)) }

    // What becomes of the source and the shelf.
    ensures no_reading_fault { result.status ≢ 6 → (D.shelf_state result.shelf).reading
        ≡ (D.shelf_state shelf).reading }
    ensures source_taken { Takes S.left S.faults S.reads source.old source.new
        (asked_in (arguments_of words.now)) }
    ensures source_ended { ComesAfterScript result.status
        → ReadsSource (asked_in (arguments_of words.now)) → IsEnded (S.left source.new) }
    ensures other_names { OtherNamesStay (D.shelf_state shelf) (D.shelf_state result.shelf)
        (asked_in (arguments_of words.now)) }
    ensures few_loads { LoadsFew (D.shelf_state shelf) (D.shelf_state result.shelf) }
    ensures no_load { (ReadsFile (asked_in (arguments_of words.now)) → ⊥)
        → (D.shelf_state result.shelf).loads ≡ (D.shelf_state shelf).loads }
    ensures selected { ((D.shelf_state result.shelf).selected ≡ (D.shelf_state shelf).selected) ⊎
        ((D.shelf_state result.shelf).selected ≡ option_map name_of
        (asked_in (arguments_of words.now))) }
    ensures named { result.status ≡ 0 → (D.shelf_state result.shelf).selected ≡ option_map name_of
        (asked_in (arguments_of words.now)) }
{
    let Ok(asked) = command_of(alloc, words) else {
        return Ended {
            status: MEMORY,
            cause: Some(Stopped::Memory),
            shelf,
        };
    };
    let Some(command) = asked else {
        write_line(sink, b"usage\n");
        return Ended {
            status: USAGE,
            cause: None,
            shelf,
        };
    };
    let host = Host { rt, alloc, gate };
    let done = obey(&host, command, source, sink, shelf, chest);
    let status = match done.result {
        Ok(()) => DONE,
        Err(stopped) => write_stop(alloc, sink, stopped),
    };
    Ended {
        status,
        cause: done.result.err(),
        shelf: done.shelf,
    }
}
