//! What the replies to a session stand for.
ghost use Rattle.std.specs.Prelude.{◌≡◌, ◌≤◌, Some, IfOk};
ghost use Rattle.xcf_sessions.specs.Replies.{IsOfSave, IsOfTile, reply_saved, reply_shown};
ghost use Rattle.xl_calls.specs.Replies.{reply_of};

use crate::errors::NotSaved;
use crate::shown::Shown;
use xcf::{NotShown, Reply};
use xl_compose::Picture;

/// The picture of the version that was shown, or why there is none.
pub(crate) fn outcome_of_tile(
    reply: Reply,
    width: u32,
    height: u32,
    picture: Picture,
) -> Result<Shown, NotShown>
    requires tile { IsOfTile (reply_of reply) }
    requires narrow { width ≤ 64 }
    requires low { height ≤ 64 }
    ensures reply { reply_shown result ≡ Some (reply_of reply) }
    ensures picture { IfOk result (λ shown. shown.picture ≡ picture) }
    ensures width { IfOk result (λ shown. shown.width ≡ width) }
    ensures height { IfOk result (λ shown. shown.height ≡ height) }
{
    match reply {
        Reply::Tile { version } => Ok(Shown {
            version,
            width,
            height,
            picture,
        }),
        Reply::Stale { have, seen } => Err(NotShown::Stale { have, seen }),
        Reply::NoStack { node } => Err(NotShown::NoStack(node)),
        Reply::OutsideTile => Err(NotShown::OutsideTile),
        Reply::HistoryFull => Err(NotShown::HistoryFull),
        Reply::Changed { .. }
        | Reply::Refused { .. }
        | Reply::Moved { .. }
        | Reply::NothingToUndo
        | Reply::NothingToRedo
        | Reply::NotTop { .. }
        | Reply::Top { .. }
        | Reply::Saved { .. }
        | Reply::SaveFault { .. }
        | Reply::SaveMemory { .. } => unreachable!(),
    }
}

/// The version that was saved, or why none was.
pub(crate) fn outcome_of_save(reply: Reply) -> Result<u32, NotSaved>
    requires { IsOfSave (reply_of reply) }
    ensures { reply_saved result ≡ Some (reply_of reply) }
{
    match reply {
        Reply::Saved { version } => Ok(version),
        Reply::SaveFault { version } => Err(NotSaved::Fault { version }),
        Reply::SaveMemory { version } => Err(NotSaved::NoMemory { version }),
        Reply::HistoryFull => Err(NotSaved::HistoryFull),
        Reply::Changed { .. }
        | Reply::Refused { .. }
        | Reply::Moved { .. }
        | Reply::NothingToUndo
        | Reply::NothingToRedo
        | Reply::NotTop { .. }
        | Reply::Tile { .. }
        | Reply::Stale { .. }
        | Reply::NoStack { .. }
        | Reply::OutsideTile
        | Reply::Top { .. } => unreachable!(),
    }
}
