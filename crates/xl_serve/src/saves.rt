//! Saves of sessions, each made in its place.
ghost use Rattle.std.specs.Prelude.{◌≡◌, ◌+◌, ◌<◌, ◌≤◌, List, [], ◌++◌, length, IfOk, IsSome, OnErr, Option, string_bytes, codes};
ghost use Rattle.spec_history.specs.History.{ends};
ghost use Rattle.spec_history.specs.declared.TheConstants.{MAX_ENTRIES};
ghost use Rattle.spec_script.specs.Script as script;
ghost use Rattle.spec_serve.specs.Said.{entry_text, told_line};
ghost use Rattle.spec_filters.specs.declared.FilterState.{FilterState};
ghost use Rattle.spec_world.specs.Events.{end_reply};
ghost use Rattle.xl_calls.specs.Replies.{reply_of};
ghost use Rattle.xl_history.specs.History.{version};
ghost use Rattle.xl_serve.specs.Played.{GoesOn, IsCut, IsPlayed, IsReady};
ghost use Rattle.xl_play.specs.Playing.{with_save};
ghost use Rattle.xl_serve.specs.Standing.{seat_of};
ghost use Rattle.spec_text.specs.Printed.{spaced};

use crate::calls::last_index;
use std::alloc::{AllocError, Global};
use xl_answers::print_reply;
use xl_calls::Reply;
use xl_core::{Begun, Core, SaveEnd};
use xl_ports::Shelf;
use xl_rle::Keeping;
use xl_snapshot::save_document;
use xl_told::{append, save_memory_line, saving_line};

// A save that has ended: the version that it was of, how it ended, and its reply.
#[derive(Drop)]
struct SaveMade {
    version: u32,
    how: SaveEnd,
    reply: Reply,
}

// Makes a save of a session, from its start to its end, in a history that has room.
fn save_now<D: Shelf>(
    alloc: Global,
    core: &mut Core<D>,
    session: u8,
) -> Result<SaveMade, AllocError>
    requires session { session < 8 }
    requires ready { IsReady core.old }
    requires selected { IsSome (D.shelf_state core.old.opening).selected }
    requires room { length core.old.history.entries + 2 ≤ MAX_ENTRIES }
    ensures goes_on { GoesOn core.old core.new }
    ensures version { IfOk result (λ made. made.version ≡ version core.old.history) }
    ensures reply { IfOk result (λ made. reply_of made.reply ≡ end_reply made.how made.version) }
    ensures saved { IfOk result (λ made. core.new.history ≡ with_save core.old.history session
        (reply_of made.reply)) }
    ensures as_before { OnErr result (core.new.history ≡ core.old.history) }
{
    let (version, document, mut shelf) = match core.begin_save(alloc, session)? {
        Begun::Snapshot {
            version,
            document,
            shelf,
        } => (version, document, shelf),
        Begun::Out | Begun::Full => unreachable!(),
    };
    let how = save_document(alloc, &document, &mut Keeping, &mut shelf);
    let reply = core.end_save(session, shelf, how);
    Ok(SaveMade {
        version,
        how,
        reply,
    })
}

// The line of the end of a save.
fn end_line(alloc: Global, session: u8, index: u32, made: &SaveMade) -> Result<String, AllocError>
    requires { reply_of made.now.reply ≡ end_reply made.now.how made.now.version }
    ensures { IfOk result (λ line. string_bytes line ≡ told_line session index (entry_text [] ends
        (end_reply made.now.how made.now.version))) }
{
    match made.how {
        SaveEnd::Memory => save_memory_line(alloc, session, index, made.version),
        SaveEnd::Done | SaveEnd::Fault => {
            let mut line = String::new(alloc);
            print_reply(alloc, &mut line, session, index, &made.reply, "")?;
            Ok(line)
        }
    }
}

// The two lines of a save.
fn save_lines(
    alloc: Global,
    session: u8,
    index: u32,
    made: &SaveMade,
) -> Result<Vec<u8>, AllocError>
    requires { reply_of made.now.reply ≡ end_reply made.now.how made.now.version }
    ensures { IfOk result (λ text. text.items ≡ told_line session index (codes "saving"
        ++ spaced made.now.version) ++ told_line session index (entry_text [] ends
        (end_reply made.now.how made.now.version))) }
{
    let mut text = saving_line(alloc, session, index, made.version)?.into_bytes();
    let end = end_line(alloc, session, index, made)?;
    append(&mut text, end.as_bytes())?;
    Ok(text)
}

/// Makes a save of a session in a history that has room, and answers its two lines.
pub(crate) fn play_save<D: Shelf>(
    alloc: Global,
    core: &mut Core<D>,
    session: u8,
    seen: &mut u32,
) -> Result<Vec<u8>, AllocError>
    requires session { session < 8 }
    requires ready { IsReady core.old }
    requires selected { IsSome (D.shelf_state core.old.opening).selected }
    requires room { length core.old.history.entries + 2 ≤ MAX_ENTRIES }
    ensures goes_on { GoesOn core.old core.new }
    ensures played { IfOk result (λ text. (chest : List (Option FilterState)) → IsPlayed session script.save
        core.old.history core.new.history (seat_of seen.old chest) (seat_of seen.new chest)
        text.items) }
    ensures cut { OnErr result (IsCut session script.save core.old.history core.new.history) }
{
    let made = save_now(alloc, core, session)?;
    *seen = made.version;
    let index = last_index(core.entries());
    save_lines(alloc, session, index, &made)
}
