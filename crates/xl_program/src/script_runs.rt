//! The run of a script, with or without threads.
ghost use Rattle.std.specs.Prelude.{◌≡◌, ◌<◌, ◌≤◌, ◌^◌, [], length, map, Ok, IsSome};
ghost use Rattle.std.specs.List.{AllByRecursion};
ghost use Rattle.spec_document.specs.Limits.{IsDocument};
ghost use Rattle.spec_script.specs.Fits.{FitsFilters};
ghost use Rattle.xl_doc.specs.Numbered.{AreNumbered};
ghost use Rattle.xl_commands.specs.Told.{IsPlayed};
ghost use Rattle.spec_run.specs.First.{AreOfFirst};
ghost use Rattle.xl_script.specs.Lines.{lists_of};
ghost use Rattle.xl_filters.specs.Chests.{states_of};

use crate::host::Host;
use std::alloc::{AllocError, Global};
use std::sync::Wait;
use std::thread::Threads;
use xl_commands::{Core, Played, is_alone, know_eight, open_core, play_alone, replies_of};
use xl_doc::Document;
use xl_filters::PointFilter;
use xl_ports::{Gate, Shelf};
use xl_script::Script;
use xl_sessions::{PlayedBeside, play_beside};

// Makes the calls and saves of the sessions beside each other, and beside workers.
fn play_together<R: Threads + Wait + Sync, D: Shelf, G: Gate>(
    rt: &R,
    alloc: Global,
    core: Core<D>,
    script: Script,
    chest: Vec<Vec<Box<dyn PointFilter + Send>>>,
    workers: u8,
    gate: &G,
) -> Played<D>
    requires fresh { core.history.entries ≡ [] }
    requires inside { IsSome core.shelf }
    requires boxes { AllByRecursion (λ boxes. length boxes.items < 2 ^ 32) chest.items }
    requires fits { FitsFilters (map length (states_of (λ b. state b) chest.items))
        (lists_of script) }
    requires eight { length (lists_of script) ≡ 8 }
    requires workers { workers ≤ 8 }
    requires together { workers ≡ 0 → AreOfFirst (lists_of script) → ⊥ }
    ensures { IsPlayed (D.shelf_state core.opening) (D.shelf_state result.shelf) core.history.base
        (lists_of script) (states_of (λ b. state b) chest.items) workers result.replies }
{
    let PlayedBeside { core, text } = play_beside(rt, alloc, core, script, chest, workers, gate);
    core.know_versions();
    Played {
        replies: replies_of(&core, text),
        shelf: core.into_shelf(),
    }
}

/// Makes the calls and saves of a script: without threads where session 0 is alone and no worker is asked for, and else
/// beside workers.
pub fn run_script<R: Threads + Wait + Sync, D: Shelf, G: Gate>(
    host: &Host<'_, R, G>,
    document: Document,
    script: Script,
    chest: Vec<Vec<Box<dyn PointFilter + Send>>>,
    workers: u8,
    shelf: D,
) -> Played<D>
    requires limits { IsDocument document }
    requires numbered { AreNumbered document.nodes }
    requires selected { IsSome (D.shelf_state shelf).selected }
    requires boxes { AllByRecursion (λ boxes. length boxes.items < 2 ^ 32) chest.items }
    requires fits { FitsFilters (map length (states_of (λ b. state b) chest.items))
        (lists_of script) }
    requires workers { workers ≤ 8 }
    ensures { IsPlayed (D.shelf_state shelf)
        (D.shelf_state result.shelf)
        document (lists_of script) (states_of (λ b. state b) chest.items) workers result.replies }
{
    let alloc = host.alloc;
    let core = match open_core(alloc, document, shelf) {
        Ok(core) => core,
        Err(shelf) => return Played {
            replies: Err(AllocError),
            shelf,
        },
    };
    let script = know_eight(script);
    if is_alone(&script, workers) {
        return play_alone(alloc, core, script, chest, host.gate);
    }
    play_together(host.rt, alloc, core, script, chest, workers, host.gate)
}
