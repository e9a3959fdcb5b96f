// What a shelf in memory does where the draft takes the selected name.
ghost use Rattle.std.specs.Prelude.{◌≡◌, ◌⊎◌, ◌++◌, ◌∷◌, [], Some, true, false, OnOk, OnErr, IsErr, IfSome, IsSome, is_err};
ghost use Rattle.xl_ports.specs.Faults.{HasCause, Rose};
ghost use Rattle.xl_ports.specs.Shelf.{file};
ghost use Rattle.xl_fakes.specs.Fakes.{CountsStarved};
ghost use Rattle.xl_fakes.specs.Calls.{NextCallFails, IsStopped, IsListed, with_saving};
ghost use Rattle.xl_fakes.specs.Kept.{Notes, NotesOrNot};

use crate::named_file::NamedFile;
use crate::settled::Settled;
use crate::shelf_calls::ShelfCalls;
use crate::steps::{conclude_saving, note};
use std::alloc::AllocError;
use xl_ports::Failed;

/// Records a call in which bytes take the selected name, and does that. Where the call is listed the bytes may just be
/// left too, and from the stop on nothing is done.
pub fn swap_noted(
    here: &mut Option<NamedFile>,
    log: &mut Vec<Option<Settled>>,
    calls: &ShelfCalls,
    bytes: Vec<u8>,
) -> Result<(), AllocError>
    requires { IsSome here.old }
    ensures swapped { OnOk result ((NextCallFails calls.now → ⊥) → IfSome here.old (λ h. here.new
        ≡ Some (record { name = h.name; read = file bytes.items; others = h.read ∷ h.others }))) }
    ensures listed { OnOk result ((IsStopped calls.now → ⊥) → IsListed calls.now → IfSome here.old
        (λ h. here.new ≡ Some (record { name = h.name; read = h.read; others = h.others ++ file bytes.items ∷ [] }))) }
    ensures fails { NextCallFails calls.now → IfSome here.old (λ h. (here.new ≡ Some h)
        ⊎ (here.new ≡ Some (record { name = h.name; read = h.read; others = h.others ++ file bytes.items ∷ [] }))) }
    ensures stopped { IsStopped calls.now → here.new ≡ here.old }
    ensures err { OnErr result (here.new ≡ here.old) }
    ensures noted { OnOk result (Notes log.old.items log.new.items) }
    ensures log { NotesOrNot log.old.items log.new.items }
{
    note(log)?;
    if calls.is_stopped() {
        return Ok(());
    }
    let listed = calls.is_listed();
    let mut kept = here.take().unwrap();
    let swapped = swap_kept(&mut kept, listed, bytes);
    *here = Some(kept);
    swapped
}

// Bytes take the name, or, where the call is listed, may be left too.
fn swap_kept(kept: &mut NamedFile, listed: bool, bytes: Vec<u8>) -> Result<(), AllocError>
    ensures swapped { listed ≡ false → OnOk result (kept.new
        ≡ record { name = kept.old.name; read = file bytes.items; others = kept.old.read ∷ kept.old.others }) }
    ensures listed { listed ≡ true → OnOk result (kept.new
        ≡ record { name = kept.old.name; read = kept.old.read; others = kept.old.others ++ file bytes.items ∷ [] }) }
    ensures err { OnErr result (kept.new ≡ kept.old) }
{
    if listed {
        kept.add(bytes)
    } else {
        kept.swap(bytes)
    }
}

/// Counts a call in which a draft was to take a name, and answers how it ended. Where it is listed and found no `memory`,
/// that is why it fails, and not its number.
pub fn end_swapping(
    calls: &mut ShelfCalls,
    starved: &mut u64,
    memory: Result<(), AllocError>,
) -> Result<(), Failed>
    ensures ok { OnOk result ((NextCallFails calls.old → ⊥) × (is_err memory ≡ false)) }
    ensures err { OnErr result (NextCallFails calls.old ⊎ (is_err memory ≡ true)) }
    ensures fails { NextCallFails calls.old → IsErr result }
    ensures starved { OnErr result (NextCallFails calls.old ⊎ Rose starved.old starved.new) }
    ensures not_starved { OnOk result (starved.new ≡ starved.old) }
    ensures spared { IsStopped calls.old → starved.new ≡ starved.old }
    ensures memory { is_err memory ≡ false → starved.new ≡ starved.old }
    ensures no_memory { is_err memory ≡ true → (IsStopped calls.old → ⊥)
        → Rose starved.old starved.new }
    ensures counted { CountsStarved starved.old starved.new }
    ensures calls { calls.new ≡ with_saving (is_err result) calls.old }
    ensures cause { HasCause calls.old.saving calls.new.saving result }
{
    if memory.is_ok() {
        let failed = calls.next_fails();
        return conclude_saving(calls, starved, failed, memory);
    }
    let stopped = calls.is_stopped();
    conclude_saving(calls, starved, stopped, memory)
}
