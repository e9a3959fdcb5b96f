//! What a session is answered.
use spec_edit::EditRefused;

/// What a session is answered.
#[derive(Clone, Copy, Debug, PartialEq, Eq)]
pub enum Reply {
    /// A new version was made by a group of edits, by its undo or by its redo. `next` is the id that the next new node
    /// gets.
    Changed { version: u32, group: u32, next: u32 },
    /// The first edit of the group that is refused, counted from 0.
    Refused { index: u32, cause: EditRefused },
    /// The guard is not the latest version, which is named.
    Moved { now: u32 },
    /// No group is left to undo.
    NothingToUndo,
    /// No group is left to redo.
    NothingToRedo,
    /// Another group than the one named would be undone.
    NotTop { top: u32 },
    /// The tile of this version is in the desk.
    Tile { version: u32 },
    /// No tile is kept that is as late as what the session has seen: `have` is the version that is kept, if any.
    Stale { have: Option<u32>, seen: u32 },
    /// The latest version has no such stack.
    NoStack { node: u32 },
    /// The canvas has no such tile.
    OutsideTile,
    /// The group that an undo would undo, if any, and the latest version.
    Top { group: Option<u32>, version: u32 },
    /// The save of this version is done.
    Saved { version: u32 },
    /// The save of this version failed at the shelf.
    SaveFault { version: u32 },
    /// Memory ran out for the file of this version.
    SaveMemory { version: u32 },
    /// The history has no room for the call, or for the two entries of a save. Nothing was made.
    HistoryFull,
}
