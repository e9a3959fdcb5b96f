//! The entries of a history.
ghost use Rattle.std.specs.Prelude.{◌≡◌, ◌+◌, ◌<◌, ◌≤◌, ◌^◌, [], ◌∷◌, ◌++◌, slice_index, slice_set, vec_len};
ghost use Rattle.std.specs.Prelude.{vec_capacity};
ghost use Rattle.xl_history.specs.Entries.{kind_of};
ghost use Rattle.xl_history.specs.Replies.{reply_of};
ghost use Rattle.xl_core.specs.Entering.{entry_of};

use xl_history::{Entry, EntryKind};
use xl_standing::Reply;

/// Adds the next entry of a session, in room that is there, and gives its index.
pub(crate) fn add_entry(
    made: &mut [u32; 8],
    entries: &mut Vec<Entry>,
    session: u8,
    kind: EntryKind,
    reply: Reply,
) -> u32
    requires session { session < 8 }
    requires few { slice_index made.old session ≤ 2 ^ 20 }
    requires room { vec_len entries.old < vec_capacity entries.old }
    ensures index { result ≡ slice_index made.old session }
    ensures made { made.new ≡ slice_set made.old session (slice_index made.old session + 1) }
    ensures items { entries.new.items ≡ entries.old.items ++ entry_of made.old session
        (kind_of kind) (reply_of reply) ∷ [] }
    ensures len { vec_len entries.new ≡ vec_len entries.old + 1 }
    ensures capacity { vec_capacity entries.new ≡ vec_capacity entries.old }
{
    let index = made[session as usize];
    made[session as usize] = index + 1;
    entries.push_reserved(Entry {
        session,
        index,
        kind,
        reply,
    });
    index
}
