ghost use Rattle.std.specs.Prelude.{◌≡◌, ◌≤◌};
ghost use Rattle.spec_world.specs.Events.{end_reply};
ghost use Rattle.xl_history.specs.Room.{owed_in};
ghost use Rattle.xl_desk.specs.Replies.{reply_of};

use spec_world::SaveEnd;
use xl_desk::Reply;
use xl_doc::Document;

/// What comes of a save that a session begins.
pub enum Begun<D> {
    /// The last version, a share of its document, and the shelf, which is out until the save ends.
    Snapshot {
        version: u32,
        document: Document,
        shelf: D,
    },
    /// The shelf is out.
    Out,
    /// The shelf is in, and the history has no room for the two entries of a save.
    Full,
}

/// Where the shelf is: in, or out for the save with this index that names this version.
#[derive(Drop)]
pub enum ShelfPlace<D> {
    In(D),
    Out { index: u32, version: u32 },
}

/// How many entries the save that is out owes.
pub fn owed_in<D>(place: &ShelfPlace<D>) -> usize
    ensures value { result ≡ owed_in place.now }
    ensures few { result ≤ 1 }
{
    match place {
        ShelfPlace::In(_) => 0,
        ShelfPlace::Out { .. } => 1,
    }
}

/// The reply to the end of a save that names this version.
pub fn reply_to_end(how: SaveEnd, version: u32) -> Reply
    ensures { reply_of result ≡ end_reply how version }
{
    match how {
        SaveEnd::Done => Reply::Saved { version },
        SaveEnd::Fault => Reply::SaveFault { version },
        SaveEnd::Memory => Reply::SaveMemory { version },
    }
}
