//! What a reply to an editor or a session stands for.
ghost use Rattle.std.specs.Prelude.{◌≡◌, Some, IfSome, IsSome};
ghost use Rattle.xcf.specs.Asked.{IsOwn, reply_in};
ghost use Rattle.xl_calls.specs.Replies.{reply_of};

use crate::changed::Changed;
use crate::errors::NotEdited;
use xl_calls::Reply;

/// The version that was made, or why none was: of a reply to a group of edits, an undo or a redo. Other replies say neither.
pub fn outcome(reply: Reply) -> Option<Result<Changed, NotEdited>>
    ensures told { IfSome result (λ made. reply_in made ≡ Some (reply_of reply)) }
    ensures own { IsOwn (reply_of reply) → IsSome result }
{
    let made = match reply {
        Reply::Changed {
            version,
            group,
            next,
        } => Ok(Changed {
            version,
            group,
            next,
        }),
        Reply::Refused { index, cause } => Err(NotEdited::Refused { index, cause }),
        Reply::NothingToUndo => Err(NotEdited::NothingToUndo),
        Reply::NothingToRedo => Err(NotEdited::NothingToRedo),
        Reply::HistoryFull => Err(NotEdited::HistoryFull),
        Reply::Moved { now } => Err(NotEdited::Moved { now }),
        Reply::NotTop { top } => Err(NotEdited::NotTop { top }),
        Reply::Tile { .. }
        | Reply::Stale { .. }
        | Reply::NoStack { .. }
        | Reply::OutsideTile
        | Reply::Top { .. }
        | Reply::Saved { .. }
        | Reply::SaveFault { .. }
        | Reply::SaveMemory { .. } => return None,
    };
    Some(made)
}
