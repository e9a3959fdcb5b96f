// What the calls of a shelf in memory do to its parts.
ghost use Rattle.std.specs.Prelude.{◌≡◌, ◌⊎◌, ◌++◌, ◌∷◌, [], Some, true, false, OnOk, OnErr, IsErr, is_err};
ghost use Rattle.std.specs.Prelude.{List, ℕ, is_some, option_map};
ghost use Rattle.xl_ports.specs.Faults.{HasCause, Rose};
ghost use Rattle.xl_fakes.specs.Fakes.{CountsStarved};
ghost use Rattle.xl_fakes.specs.Calls.{NextCallFails, with_reading, with_saving};
ghost use Rattle.xl_fakes.specs.Kept.{Notes, NotesOrNot, KnowsToo, standing, is_known_at, draft_in};

use crate::draft::Draft;
use crate::files::bring;
use crate::named_file::NamedFile;
use crate::settled::Settled;
use crate::shelf_calls::ShelfCalls;
use std::alloc::{AllocError, Global};
use xl_ports::Failed;

/// Records a call after which a crash may leave all that it might have left before.
pub fn note(log: &mut Vec<Option<Settled>>) -> Result<(), AllocError>
    ensures ok { OnOk result (Notes log.old.items log.new.items) }
    ensures err { OnErr result (log.new.items ≡ log.old.items) }
{
    log.push(None)?;
    Ok(())
}

/// Settles a name, and records what a crash can leave of it no more.
pub fn settle_kept(
    alloc: Global,
    kept: &mut NamedFile,
    log: &mut Vec<Option<Settled>>,
) -> Result<(), AllocError>
    ensures kept { OnOk result
        (kept.new ≡ record { name = kept.old.name; read = kept.old.read; others = [] }) }
    ensures log { OnOk result (log.new.items ≡ log.old.items
        ++ Some (record { name = kept.old.name; gone = kept.old.others }) ∷ []) }
    ensures kept_err { OnErr result (kept.new ≡ kept.old) }
    ensures log_err { OnErr result (log.new.items ≡ log.old.items) }
{
    let name = String::from_str(alloc, kept.name())?;
    log.reserve(1)?;
    let gone = kept.settle(alloc)?;
    log.push_reserved(Some(Settled::new(name, gone)));
    Ok(())
}

/// Counts a call that reads, and answers how it ended. It failed where it was to fail (`failed`), and where there was no
/// `memory` for it; `starved` counts the calls that found none and were not to fail.
pub fn conclude_reading(
    calls: &mut ShelfCalls,
    starved: &mut u64,
    failed: bool,
    memory: Result<(), AllocError>,
) -> Result<(), Failed>
    ensures ok { OnOk result ((failed ≡ false) × (is_err memory ≡ false)) }
    ensures err { OnErr result ((failed ≡ true) ⊎ (is_err memory ≡ true)) }
    ensures calls { calls.new ≡ with_reading (is_err result) calls.old }
    ensures rose { failed ≡ false → is_err memory ≡ true → Rose starved.old starved.new }
    ensures spared { failed ≡ true → starved.new ≡ starved.old }
    ensures not_starved { is_err memory ≡ false → starved.new ≡ starved.old }
    ensures counted { CountsStarved starved.old starved.new }
    ensures cause { HasCause calls.old.reading calls.new.reading result }
{
    if failed {
        calls.count_reading(true);
        return Err(Failed);
    }
    if memory.is_err() {
        *starved = starved.saturating_add(1);
        calls.count_reading(true);
        return Err(Failed);
    }
    calls.count_reading(false);
    Ok(())
}

/// Counts a call that saves, and answers how it ended, as `conclude_reading` does for one that reads.
pub fn conclude_saving(
    calls: &mut ShelfCalls,
    starved: &mut u64,
    failed: bool,
    memory: Result<(), AllocError>,
) -> Result<(), Failed>
    ensures ok { OnOk result ((failed ≡ false) × (is_err memory ≡ false)) }
    ensures err { OnErr result ((failed ≡ true) ⊎ (is_err memory ≡ true)) }
    ensures calls { calls.new ≡ with_saving (is_err result) calls.old }
    ensures rose { failed ≡ false → is_err memory ≡ true → Rose starved.old starved.new }
    ensures spared { failed ≡ true → starved.new ≡ starved.old }
    ensures not_starved { is_err memory ≡ false → starved.new ≡ starved.old }
    ensures counted { CountsStarved starved.old starved.new }
    ensures cause { HasCause calls.old.saving calls.new.saving result }
{
    if failed {
        calls.count_saving(true);
        return Err(Failed);
    }
    if memory.is_err() {
        *starved = starved.saturating_add(1);
        calls.count_saving(true);
        return Err(Failed);
    }
    calls.count_saving(false);
    Ok(())
}

/// Counts a call that reads, which fails just where its number says so or where there was no `memory` for it, and
/// answers how it ended.
pub fn end_reading(
    calls: &mut ShelfCalls,
    starved: &mut u64,
    memory: Result<(), AllocError>,
) -> Result<(), Failed>
    ensures ok { OnOk result ((NextCallFails calls.old → ⊥) × (is_err memory ≡ false)) }
    ensures err { OnErr result (NextCallFails calls.old ⊎ (is_err memory ≡ true)) }
    ensures fails { NextCallFails calls.old → IsErr result }
    ensures starved { OnErr result (NextCallFails calls.old ⊎ Rose starved.old starved.new) }
    ensures not_starved { OnOk result (starved.new ≡ starved.old) }
    ensures spared { NextCallFails calls.old → starved.new ≡ starved.old }
    ensures counted { CountsStarved starved.old starved.new }
    ensures calls { calls.new ≡ with_reading (is_err result) calls.old }
    ensures cause { HasCause calls.old.reading calls.new.reading result }
{
    let failed = calls.next_fails();
    conclude_reading(calls, starved, failed, memory)
}

/// Counts a call that saves, which fails just where its number says so or where there was no `memory` for it, and
/// answers how it ended.
pub fn end_saving(
    calls: &mut ShelfCalls,
    starved: &mut u64,
    memory: Result<(), AllocError>,
) -> Result<(), Failed>
    ensures ok { OnOk result ((NextCallFails calls.old → ⊥) × (is_err memory ≡ false)) }
    ensures err { OnErr result (NextCallFails calls.old ⊎ (is_err memory ≡ true)) }
    ensures fails { NextCallFails calls.old → IsErr result }
    ensures starved { OnErr result (NextCallFails calls.old ⊎ Rose starved.old starved.new) }
    ensures not_starved { OnOk result (starved.new ≡ starved.old) }
    ensures spared { NextCallFails calls.old → starved.new ≡ starved.old }
    ensures counted { CountsStarved starved.old starved.new }
    ensures calls { calls.new ≡ with_saving (is_err result) calls.old }
    ensures cause { HasCause calls.old.saving calls.new.saving result }
{
    let failed = calls.next_fails();
    conclude_saving(calls, starved, failed, memory)
}

/// Records a call that selects a name, and brings what is kept under it to the front, unless the call is to fail.
pub fn bring_noted(
    alloc: Global,
    here: &mut Option<NamedFile>,
    files: &mut Vec<NamedFile>,
    log: &mut Vec<Option<Settled>>,
    calls: &ShelfCalls,
    name: &str,
) -> Result<(), AllocError>
    ensures selected { OnOk result ((NextCallFails calls.now → ⊥)
        → option_map (λ k. k.name) here.new ≡ Some name.now) }
    ensures same { (other : List ℕ) → standing here.new files.new.items other ≡ standing here.old
        files.old.items other }
    ensures known { (NextCallFails calls.now → ⊥)
        → KnowsToo result name.now here.old files.old.items here.new files.new.items }
    ensures err { OnErr result ((other : List ℕ) → is_known_at here.new files.new.items other
        ≡ is_known_at here.old files.old.items other) }
    ensures as_before { OnErr result (here.new ≡ here.old) }
    ensures fails { NextCallFails calls.now
        → (here.new ≡ here.old) × (files.new.items ≡ files.old.items) }
    ensures noted { OnOk result (Notes log.old.items log.new.items) }
    ensures log { NotesOrNot log.old.items log.new.items }
{
    note(log)?;
    if calls.next_fails() {
        return Ok(());
    }
    bring(alloc, here, files, name)
}

/// Records a call that adds to the open draft, and adds the bytes, unless the call is to fail. It is not synced then.
pub fn add_noted(
    draft: &mut Option<Draft>,
    log: &mut Vec<Option<Settled>>,
    calls: &ShelfCalls,
    bytes: &[u8],
) -> Result<(), AllocError>
    requires { is_some draft.old ≡ true }
    ensures opened { is_some draft.new ≡ true }
    ensures added { OnOk result ((NextCallFails calls.now → ⊥)
        → (draft_in draft.new).bytes ≡ (draft_in draft.old).bytes ++ bytes.now) }
    ensures not_synced { (draft_in draft.new).is_synced ≡ false }
    ensures noted { OnOk result (Notes log.old.items log.new.items) }
    ensures log { NotesOrNot log.old.items log.new.items }
{
    let mut open = draft.take().unwrap();
    let added = extend_noted(&mut open, log, calls, bytes);
    *draft = Some(open);
    added
}

// The same of the draft itself.
fn extend_noted(
    draft: &mut Draft,
    log: &mut Vec<Option<Settled>>,
    calls: &ShelfCalls,
    bytes: &[u8],
) -> Result<(), AllocError>
    ensures added { OnOk result ((NextCallFails calls.now → ⊥)
        → draft.new.bytes ≡ draft.old.bytes ++ bytes.now) }
    ensures not_synced { draft.new.is_synced ≡ false }
    ensures noted { OnOk result (Notes log.old.items log.new.items) }
    ensures log { NotesOrNot log.old.items log.new.items }
{
    draft.set_synced(false);
    note(log)?;
    if calls.next_fails() {
        return Ok(());
    }
    draft.add(bytes)
}
