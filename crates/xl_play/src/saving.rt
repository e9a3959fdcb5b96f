//! A save, from its start to its end.
ghost use Rattle.spec_history.specs.declared.TheConstants.{MAX_ENTRIES};
ghost use Rattle.std.specs.Prelude.{◌≡◌, ◌⊎◌, ◌+◌, ◌<◌, ◌≤◌, length, IfOk, OnOk, IsSome};
ghost use Rattle.spec_history.specs.Kept.{IsLegal};
ghost use Rattle.spec_history.specs.Machine.{Reply as Plain};
ghost use Rattle.xl_calls.specs.Replies.{reply_of};
ghost use Rattle.xl_play.specs.Playing.{IsBetweenLines, with_save};
ghost use Rattle.xl_run.specs.Opening.{KeepsExactly};
ghost use Rattle.xl_script.specs.Printed.{HasText};

use std::alloc::{AllocError, Global};
use xl_calls::Reply;
use xl_ports::Shelf;
use xl_rle::Keeping;
use xl_run::{Begun, Core, SaveEnd};
use xl_snapshot::save_document;

/// Makes a save of a session, from its start to its end.
///
/// Where memory ran out for the file the save has ended too, and before that nothing was made.
pub fn save_latest<D: Shelf>(
    alloc: Global,
    core: &mut Core<D>,
    session: u8,
) -> Result<Reply, AllocError>
    requires session { session < 8 }
    requires inside { IsSome core.old.shelf }
    requires legal { IsLegal core.old.history.base core.old.history.entries }
    requires selected { IsSome (D.shelf_state core.old.opening).selected }
    requires few { length core.old.history.entries + 2 ≤ MAX_ENTRIES }
    requires kept { KeepsExactly core.old }
    ensures between { IsBetweenLines core.old.history.base core.old.opening core.new }
    ensures saved { IfOk result (λ reply. core.new.history ≡ with_save core.old.history session
        (reply_of reply)) }
    ensures begun { (core.new.history ≡ core.old.history) ⊎ ((reply : Plain)
        × (core.new.history ≡ with_save core.old.history session reply)) }
    ensures text { IfOk result (λ reply. HasText reply) }
    ensures kept { OnOk result (KeepsExactly core.new) }
{
    let (document, mut shelf) = match core.begin_save(alloc, session)? {
        Begun::Snapshot {
            version: _,
            document,
            shelf,
        } => (document, shelf),
        Begun::Out | Begun::Full => unreachable!(),
    };
    let how = save_document(alloc, &document, &mut Keeping, &mut shelf);
    let reply = core.end_save(session, shelf, how);
    match how {
        SaveEnd::Done | SaveEnd::Fault => Ok(reply),
        SaveEnd::Memory => Err(AllocError),
    }
}
