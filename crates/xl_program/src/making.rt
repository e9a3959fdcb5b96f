ghost use Rattle.std.specs.Prelude.{◌≡◌, ◌⊎◌, ℕ, [], length, Some, OnOk, IsSome};
ghost use Rattle.spec_command.specs.Arguments.{make as make_of};
ghost use Rattle.spec_document.specs.Limits.{IsDocument};
ghost use Rattle.spec_generated.specs.Generated.{document, script};
ghost use Rattle.spec_script.specs.Fits.{FitsFilters};
ghost use Rattle.spec_world.specs.declared.SaveEnd.TheVariants as save_end;
ghost use Rattle.xl_doc.specs.Numbered.{AreNumbered};
ghost use Rattle.xl_commands.specs.Outcome.{Given, ComesTo, ShelfCauseOf};
ghost use Rattle.xl_commands.specs.Parts.{StopsMaking};
ghost use Rattle.xl_commands.specs.Played.{IsSummedUp};
ghost use Rattle.xl_script.specs.Lines.{lists_of};

use std::alloc::{AllocError, Global};
use std::sync::Wait;
use std::thread::Threads;
use xl_commands::{
    CommandEnd, Made, Played, Stopped, made_with_file, open_core, save_first, sum_up, write_replies,
};
use xl_ports::{Gate, Shelf, Sink};
use xl_sessions::{PlayedBeside, play_beside};

/// How many workers are beside the sessions of what is made.
const WORKERS: u8 = 2;

/// Saves the document of a seed, makes the calls and saves of the seed's script on it, and writes the line that sums
/// them up.
///
/// The line is made before its first byte is written. The shelf comes back always.
pub fn make<R: Threads + Wait + Sync, K: Sink, D: Shelf, G: Gate>(
    rt: &R,
    alloc: Global,
    name: &str,
    seed: u32,
    sink: &mut K,
    mut shelf: D,
    gate: &G,
) -> CommandEnd<D>
    ensures comes { (given : Given) → ComesTo K.held K.faults given
        (D.shelf_state shelf)
        (D.shelf_state result.shelf)
        (make_of name.now seed) sink.old sink.new result.result }
    ensures stops { StopsMaking result.result }
    ensures cause { ShelfCauseOf (D.shelf_state shelf)
        (D.shelf_state result.shelf) (make_of name.now seed) result.result }
    ensures no_load { (D.shelf_state result.shelf).loads ≡ (D.shelf_state shelf).loads }
    ensures selected { ((D.shelf_state result.shelf).selected ≡ (D.shelf_state shelf).selected) ⊎
        ((D.shelf_state result.shelf).selected ≡ Some name.now) }
    ensures named { OnOk result.result ((D.shelf_state result.shelf).selected ≡ Some name.now) }
{
    let Ok((made, file)) = made_with_file(alloc, seed) else {
        return CommandEnd {
            result: Err(Stopped::Memory),
            shelf,
        };
    };
    if save_first(name, &file, &mut shelf).is_err() {
        return CommandEnd {
            result: Err(Stopped::ShelfFault),
            shelf,
        };
    }
    let played = run_made(rt, alloc, made, shelf, gate);
    CommandEnd {
        result: write_replies(sink, played.replies),
        shelf: played.shelf,
    }
}

// Plays a script that names no filter on its document, and sums the run up.
fn run_made<R: Threads + Wait + Sync, D: Shelf, G: Gate>(
    rt: &R,
    alloc: Global,
    made: Made,
    shelf: D,
    gate: &G,
) -> Played<D>
    requires selected { IsSome (D.shelf_state shelf).selected }
    requires limits { IsDocument made.document }
    requires numbered { AreNumbered made.document.nodes }
    requires fits { FitsFilters [] (lists_of made.script) }
    requires eight { length (lists_of made.script) ≡ 8 }
    ensures { (seed : ℕ) → made.document ≡ document seed → lists_of made.script ≡ script seed
        → IsSummedUp (D.shelf_state shelf)
        (D.shelf_state result.shelf) (document seed) (script seed) result.replies }
{
    let core = match open_core(alloc, made.document, shelf) {
        Ok(core) => core,
        Err(shelf) => return Played {
            replies: Err(AllocError),
            shelf,
        },
    };
    let PlayedBeside { core, text } = play_beside(
        rt,
        alloc,
        core,
        made.script,
        Vec::new(alloc),
        WORKERS,
        gate,
    );
    let replies = sum_up(alloc, &core, text);
    core.know_versions();
    Played {
        replies,
        shelf: core.into_shelf(),
    }
}
