//! An edit that is undone and made again.
use crate::calls::Ask;
use crate::edits::Change;
use crate::late::first_wrong;
use crate::opened::studio_of;
use std::alloc::{AllocError, Global};
use std::sync::Wait;
use xl_calls::Reply;

// The reply that makes a version of the group 1, where the next node gets the id 2.
fn changed(version: u32) -> Reply {
    Reply::Changed {
        version,
        group: 1,
        next: 2,
    }
}

// The redo marks the tile, as the edit did, and leaves nothing to be made again.
fn calls() -> [(Ask, Reply); 9] {
    [
        (Ask::Edit(Change::Fade(9)), changed(1)),
        (Ask::Redo, Reply::NothingToRedo),
        (Ask::Undo, changed(2)),
        (Ask::Tile, Reply::Tile { version: 2 }),
        (Ask::Redo, changed(3)),
        (
            Ask::Peek,
            Reply::Stale {
                have: Some(2),
                seen: 3,
            },
        ),
        (Ask::Tile, Reply::Tile { version: 3 }),
        (
            Ask::Top,
            Reply::Top {
                group: Some(1),
                version: 3,
            },
        ),
        (Ask::Redo, Reply::NothingToRedo),
    ]
}

/// A reply that is another, of a session that makes its edit again.
pub(crate) fn edit_again<W: Wait>(rt: &W, alloc: Global) -> Result<Option<Reply>, AllocError> {
    let (studio, mut seat) = studio_of(alloc)?;
    let wrong = first_wrong(rt, alloc, &studio, &mut seat, &calls());
    drop(seat);
    drop(studio);
    wrong
}
