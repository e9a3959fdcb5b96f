//! Lines of sessions, which are calls, saves and filters that are dropped.
ghost use Rattle.std.specs.Prelude.{◌≡◌, ◌+◌, ◌<◌, nat_lt, codes, length, IfOk, IsSome, OnErr};
ghost use Rattle.spec_history.specs.Calls.{IsCall};
ghost use Rattle.spec_history.specs.declared.TheConstants.{MAX_ENTRIES};
ghost use Rattle.spec_history.specs.Limited.{edits_of};
ghost use Rattle.spec_script.specs.Script as script;
ghost use Rattle.spec_serve.specs.declared.TheConstants.{ROOM_FOR_SAVES};
ghost use Rattle.spec_serve.specs.Said.{short_line};
ghost use Rattle.spec_serve.specs.Seen.{seen_by};
ghost use Rattle.spec_tables.specs.Agrees.{AreThere};
ghost use Rattle.xl_calls.specs.Calls.{call_of};
ghost use Rattle.xl_filters.specs.Chests.{states_in};
ghost use Rattle.xl_script.specs.Lines.{line_of};
ghost use Rattle.xl_run.specs.Filters.{FitsChest};
ghost use Rattle.xl_serve.specs.Played.{GoesOn, IsCut, IsPlayed, IsReady};
ghost use Rattle.xl_serve.specs.Standing.{seat_of};

use crate::calls::play_call;
use crate::saves::play_save;
use spec_history::MAX_ENTRIES;
use spec_serve::ROOM_FOR_SAVES;
use std::alloc::{AllocError, Global};
use std::sync::ledger::Ledger;
use xl_blend::Steps;
use xl_calls::Call;
use xl_core::{Core, Desk};
use xl_filters::PointFilter;
use xl_ports::Shelf;
use xl_script::Line;
use xl_told::full_line;

// Whether the history has room for more than saves.
fn has_room<D: Shelf>(core: &Core<D>) -> bool
    ensures { result ≡ nat_lt (length core.now.history.entries + ROOM_FOR_SAVES) MAX_ENTRIES }
{
    core.entries().len() + ROOM_FOR_SAVES < MAX_ENTRIES
}

// Whether the history has room for a save.
fn has_room_for_save<D: Shelf>(core: &Core<D>) -> bool
    ensures { result ≡ nat_lt (length core.now.history.entries + 1) MAX_ENTRIES }
{
    core.entries().len() + 1 < MAX_ENTRIES
}

// What is said where it has none.
fn full(alloc: Global, session: u8) -> Result<Vec<u8>, AllocError>
    ensures { IfOk result (λ text. text.items ≡ short_line session (codes "full")) }
{
    Ok(full_line(alloc, session)?.into_bytes())
}

// Makes a call of a session where there is room.
fn call_or_full<L: Ledger, D: Shelf>(
    alloc: Global,
    core: &mut Core<D>,
    session: u8,
    call: Call,
    seen: &mut u32,
    desk: &mut Desk,
    steps: &mut Steps<L>,
) -> Result<Vec<u8>, AllocError>
    requires session { session < 8 }
    requires ready { IsReady core.old }
    requires seen { seen.old ≡ seen_by core.old.history.entries session }
    requires call { IsCall (call_of call) }
    requires there { AreThere (states_in state desk.old.chest) (edits_of (call_of call)) }
    ensures goes_on { GoesOn core.old core.new }
    ensures played { IfOk result (λ text. IsPlayed session (script.call (call_of call))
        core.old.history core.new.history (seat_of seen.old (states_in state desk.old.chest))
        (seat_of seen.new (states_in state desk.new.chest)) text.items) }
    ensures cut { OnErr result (IsCut session (script.call (call_of call)) core.old.history
        core.new.history) }
{
    if has_room(core) {
        return play_call(alloc, core, session, call, seen, desk, steps);
    }
    full(alloc, session)
}

// Makes a save of a session where there is room.
fn save_or_full<D: Shelf>(
    alloc: Global,
    core: &mut Core<D>,
    session: u8,
    seen: &mut u32,
    desk: &Desk,
) -> Result<Vec<u8>, AllocError>
    requires session { session < 8 }
    requires ready { IsReady core.old }
    requires selected { IsSome (D.shelf_state core.old.opening).selected }
    ensures goes_on { GoesOn core.old core.new }
    ensures played { IfOk result (λ text. IsPlayed session script.save core.old.history
        core.new.history (seat_of seen.old (states_in state desk.now.chest))
        (seat_of seen.new (states_in state desk.now.chest)) text.items) }
    ensures cut { OnErr result (IsCut session script.save core.old.history core.new.history) }
{
    if has_room_for_save(core) {
        return play_save(alloc, core, session, seen);
    }
    full(alloc, session)
}

/// Plays a line of a session that is whole, and answers what is said to it.
pub(crate) fn play_line<L: Ledger, D: Shelf>(
    alloc: Global,
    core: &mut Core<D>,
    session: u8,
    line: Line,
    seen: &mut u32,
    desk: &mut Desk,
    steps: &mut Steps<L>,
) -> Result<Vec<u8>, AllocError>
    requires session { session < 8 }
    requires ready { IsReady core.old }
    requires selected { IsSome (D.shelf_state core.old.opening).selected }
    requires seen { seen.old ≡ seen_by core.old.history.entries session }
    requires fit { FitsChest (states_in state desk.old.chest) (line_of line) }
    ensures goes_on { GoesOn core.old core.new }
    ensures played { IfOk result (λ text. IsPlayed session (line_of line) core.old.history
        core.new.history (seat_of seen.old (states_in state desk.old.chest))
        (seat_of seen.new (states_in state desk.new.chest)) text.items) }
    ensures cut { OnErr result (IsCut session (line_of line) core.old.history core.new.history) }
{
    match line {
        Line::Call(call) => call_or_full(alloc, core, session, call, seen, desk, steps),
        Line::Save => save_or_full(alloc, core, session, seen, desk),
        Line::Forget(slot) => {
            desk.chest.forget(slot);
            Ok(Vec::new(alloc))
        }
    }
}
