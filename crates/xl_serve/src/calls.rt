//! Calls of sessions.
ghost use Rattle.std.specs.Prelude.{◌≡◌, ◌+◌, ◌<◌, ◌≤◌, List, [], ◌∷◌, ◌++◌, length, IfOk, OnErr, string_bytes};
ghost use Rattle.spec_history.specs.Calls.{IsCall};
ghost use Rattle.spec_history.specs.declared.TheConstants.{MAX_ENTRIES};
ghost use Rattle.spec_history.specs.History.{Entry as Plain};
ghost use Rattle.spec_history.specs.Limited.{edits_of};
ghost use Rattle.spec_script.specs.Script as script;
ghost use Rattle.spec_serve.specs.Seen.{seen_by};
ghost use Rattle.spec_tables.specs.Agrees.{AreThere};
ghost use Rattle.xl_answers.specs.Printed.{HasText};
ghost use Rattle.xl_calls.specs.Calls.{call_of};
ghost use Rattle.xl_calls.specs.Replies.{reply_of};
ghost use Rattle.xl_filters.specs.Chests.{states_in};
ghost use Rattle.xl_serve.specs.Played.{GoesOn, IsCut, IsPlayed, IsReady, IsReplied};
ghost use Rattle.xl_play.specs.Playing.{shown_of};
ghost use Rattle.xl_serve.specs.Standing.{seat_of};
ghost use Rattle.spec_text.specs.Printed.{line_text};

use std::alloc::{AllocError, Global};
use std::sync::ledger::Ledger;
use xl_answers::print_reply;
use xl_blend::Steps;
use xl_calls::{Call, Reply};
use xl_core::{Core, Desk, Entry};
use xl_filters::PointFilter;
use xl_ports::Shelf;
use xl_report::digest;

// Makes a call of a session, which has seen this version, in a history that has room.
fn submit_call<L: Ledger, D: Shelf>(
    alloc: Global,
    core: &mut Core<D>,
    session: u8,
    call: Call,
    seen: u32,
    desk: &mut Desk,
    steps: &mut Steps<L>,
) -> Result<Reply, AllocError>
    requires session { session < 8 }
    requires ready { IsReady core.old }
    requires room { length core.old.history.entries + 2 ≤ MAX_ENTRIES }
    requires seen { seen ≡ seen_by core.old.history.entries session }
    requires call { IsCall (call_of call) }
    requires there { AreThere (states_in state desk.old.chest) (edits_of (call_of call)) }
    ensures goes_on { GoesOn core.old core.new }
    ensures replied { IfOk result (λ reply. IsReplied core.old.history session (call_of call) seen
        (states_in state desk.old.chest) (states_in state desk.new.chest) desk.new.out
        (reply_of reply) core.new.history) }
    ensures text { IfOk result (λ reply. HasText reply) }
    ensures as_before { OnErr result (core.new.history ≡ core.old.history) }
{
    core.submit(alloc, session, call, seen, desk, steps)
}

// The digest that the line of a reply has: that of the tile in the desk, where the reply is one.
fn shown_digest(alloc: Global, reply: &Reply, desk: &Desk) -> Result<String, AllocError>
    ensures { IfOk result (λ text. string_bytes text ≡ shown_of (reply_of reply.now) desk.now.out) }
{
    match reply {
        Reply::Tile { .. } => digest(alloc, desk.out.bytes()),
        _ => Ok(String::new(alloc)),
    }
}

/// The index of the last entry, which there is.
pub(crate) fn last_index(entries: &[Entry]) -> u32
    ensures { (es : List Plain) (e : Plain) → entries.now ≡ es ++ e ∷ [] → result ≡ e.index }
{
    match entries.last() {
        Some(entry) => entry.index,
        None => 0,
    }
}

// The line of a call that was made.
fn reply_line(
    alloc: Global,
    session: u8,
    index: u32,
    reply: &Reply,
    desk: &Desk,
) -> Result<Vec<u8>, AllocError>
    requires { HasText reply.now }
    ensures { IfOk result (λ text. text.items ≡ line_text session index
        (shown_of (reply_of reply.now) desk.now.out) (reply_of reply.now)) }
{
    let digest = shown_digest(alloc, reply, desk)?;
    let mut line = String::new(alloc);
    print_reply(alloc, &mut line, session, index, reply, digest.as_str())?;
    Ok(line.into_bytes())
}

/// Makes a call of a session in a history that has room, and answers its line.
pub(crate) fn play_call<L: Ledger, D: Shelf>(
    alloc: Global,
    core: &mut Core<D>,
    session: u8,
    call: Call,
    seen: &mut u32,
    desk: &mut Desk,
    steps: &mut Steps<L>,
) -> Result<Vec<u8>, AllocError>
    requires session { session < 8 }
    requires ready { IsReady core.old }
    requires room { length core.old.history.entries + 2 ≤ MAX_ENTRIES }
    requires seen { seen.old ≡ seen_by core.old.history.entries session }
    requires call { IsCall (call_of call) }
    requires there { AreThere (states_in state desk.old.chest) (edits_of (call_of call)) }
    ensures goes_on { GoesOn core.old core.new }
    ensures played { IfOk result (λ text. IsPlayed session (script.call (call_of call))
        core.old.history core.new.history (seat_of seen.old (states_in state desk.old.chest))
        (seat_of seen.new (states_in state desk.new.chest)) text.items) }
    ensures cut { OnErr result (IsCut session (script.call (call_of call)) core.old.history
        core.new.history) }
{
    let reply = submit_call(alloc, core, session, call, *seen, desk, steps)?;
    *seen = core.version();
    let index = last_index(core.entries());
    reply_line(alloc, session, index, &reply, desk)
}
