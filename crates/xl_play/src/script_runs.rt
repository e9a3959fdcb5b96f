//! The run of a script without threads, and what is told of any run.
ghost use Rattle.std.specs.Prelude.{◌≡◌, ◌<◌, ◌^◌, true, false, [], length, map, Ok, IfOk, IsSome};
ghost use Rattle.std.specs.List.{AllByRecursion};
ghost use Rattle.spec_saves.specs.Names.{save_faults};
ghost use Rattle.spec_script.specs.Fits.{FitsFilters};
ghost use Rattle.spec_run.specs.Failed.{WhetherFailed};
ghost use Rattle.xl_play.specs.Told.{IsPlayed};
ghost use Rattle.spec_run.specs.First.{AreOfFirst};
ghost use Rattle.xl_run.specs.Opening.{KeepsExactly};
ghost use Rattle.xl_script.specs.Lines.{lists_of};
ghost use Rattle.xl_filters.specs.Chests.{states_of};

use crate::playing::{Replies, has_save_fault, play};
use std::alloc::{AllocError, Global};
use xl_filters::PointFilter;
use xl_ports::{Gate, Shelf};
use xl_run::Core;
use xl_script::{SESSIONS, Script};

/// The replies of a run, and the shelf on which its saves were made.
#[derive(Drop)]
pub struct Played<D> {
    pub replies: Result<Replies, AllocError>,
    pub shelf: D,
}

/// Tells contracts that a script has the lines of eight sessions, as its type keeps it.
pub fn know_eight(script: Script) -> Script
    ensures same { lists_of result ≡ lists_of script }
    ensures eight { length (lists_of result) ≡ 8 }
{
    Script::of(script.into_lists())
}

/// Whether session 0 is alone, without a worker.
pub fn is_alone(script: &Script, workers: u8) -> bool
    requires { length (lists_of script.now) ≡ 8 }
    ensures alone { result ≡ true → (workers ≡ 0) × AreOfFirst (lists_of script.now) }
    ensures together { result ≡ false → workers ≡ 0 → AreOfFirst (lists_of script.now) → ⊥ }
{
    if workers > 0 {
        return false;
    }
    for session in 1..SESSIONS {
        if !script.lines(session).is_empty() {
            return false;
        }
    }
    true
}

/// Makes the calls and saves of session 0, which is alone, without a worker.
pub fn play_alone<D: Shelf, G: Gate>(
    alloc: Global,
    mut core: Core<D>,
    script: Script,
    chest: Vec<Vec<Box<dyn PointFilter + Send>>>,
    gate: &G,
) -> Played<D>
    requires first { AreOfFirst (lists_of script) }
    requires fresh { core.history.entries ≡ [] }
    requires kept { KeepsExactly core }
    requires inside { IsSome core.shelf }
    requires selected { IsSome (D.shelf_state core.opening).selected }
    requires boxes { AllByRecursion (λ boxes. length boxes.items < 2 ^ 32) chest.items }
    requires fits { FitsFilters (map length (states_of (λ b. state b) chest.items))
        (lists_of script) }
    ensures { IsPlayed (D.shelf_state core.opening) (D.shelf_state result.shelf) core.history.base
        (lists_of script) (states_of (λ b. state b) chest.items) 0 result.replies }
{
    let replies = play(alloc, &mut core, gate, script, chest);
    core.know_versions();
    Played {
        replies,
        shelf: core.into_shelf(),
    }
}

/// The text of a run, and whether one of its saves failed.
pub fn replies_of<D: Shelf>(
    core: &Core<D>,
    text: Result<String, AllocError>,
) -> Result<Replies, AllocError>
    ensures text { IfOk result (λ replies. text ≡ Ok replies.text) }
    ensures failed { IfOk result (λ replies. WhetherFailed replies.save_failed
        (save_faults core.now.history.entries)) }
{
    let text = text?;
    Ok(Replies {
        text,
        save_failed: has_save_fault(core.entries()),
    })
}
