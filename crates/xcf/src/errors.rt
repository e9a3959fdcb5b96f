ghost use Rattle.std.specs.Prelude.{◌≡◌};
ghost use Rattle.xcf.specs.declared.errors.NotEdited.TheVariants as edited;

use std::alloc::AllocError;
use thiserror::Error;
use xl_calls::EditRefused;
use xl_fields::ReadRefused;

/// Why no image was opened.
#[derive(Debug, Drop, Error)]
pub enum NotOpened {
    #[error("out of memory")]
    Memory,
    #[error("the file has more than 2^31 bytes")]
    TooLong,
    /// The first rule that the file breaks, and the offset of the byte.
    #[error("refused: {0}")]
    Refused(ReadRefused),
}

/// Why edits are no group. No document was looked at.
#[derive(Clone, Copy, Debug, PartialEq, Eq, Error)]
pub enum NotGroup {
    /// A group has 1 to 1024 edits.
    #[error("a group has 1 to 1024 edits")]
    Count,
    /// The first edit, counted from 0, that is a filter, makes a layer with a side of 0 or above `MAX_SIDE`, or sets
    /// colours that are not 1 to 256 of three bytes.
    #[error("edit {0} is a filter or past the limits of its type")]
    NotPlain(u32),
}

/// Why no group of edits was made, undone or made again. The document is as before then.
///
/// Of an [`crate::Image`] there are the first four alone, of an [`crate::Editor`] all but `NoIds` and the last two, which
/// come where several sessions edit one image.
#[derive(Clone, Copy, Debug, PartialEq, Eq, Error)]
pub enum NotEdited {
    #[error("out of memory")]
    Memory,
    #[error("no group: {0}")]
    NotGroup(NotGroup),
    /// At most 1024 ids are left for new nodes, which get those up to 2^32 - 2.
    #[error("at most 1024 ids are left for new nodes")]
    NoIds,
    /// The first edit that is refused, counted from 0, and why.
    #[error("edit {index} is refused: {cause}")]
    Refused { index: u32, cause: EditRefused },
    #[error("there is no group to undo")]
    NothingToUndo,
    #[error("there is no group to make again")]
    NothingToRedo,
    /// A history has at most 2^20 entries.
    #[error("the history has no room")]
    HistoryFull,
    /// The group was asked for at another version than the latest, which is named.
    #[error("the image is at version {now} by now")]
    Moved { now: u32 },
    /// Another group than the one named would be undone.
    #[error("an undo would undo group {top}")]
    NotTop { top: u32 },
}

impl From<AllocError> for NotEdited {
    ghost from_gives = { λ _ e. e ≡ edited.Memory };

    fn from(_: AllocError) -> Self {
        NotEdited::Memory
    }
}

impl From<NotGroup> for NotEdited {
    ghost from_gives = { λ flaw e. e ≡ edited.NotGroup flaw };

    fn from(flaw: NotGroup) -> Self {
        NotEdited::NotGroup(flaw)
    }
}

/// Why a tile was not shown. The last two come where several sessions look at one image.
#[derive(Clone, Copy, Debug, PartialEq, Eq, Error)]
pub enum NotShown {
    #[error("out of memory")]
    Memory,
    /// The node is neither 0, the image, nor a group.
    #[error("node {0} is no stack")]
    NoStack(u32),
    #[error("the canvas has no such tile")]
    OutsideTile,
    /// No picture is kept that is as late as version `seen`: that of version `have`, if any.
    #[error("no picture is kept that is as late as version {seen}")]
    Stale { have: Option<u32>, seen: u32 },
    #[error("the history has no room")]
    HistoryFull,
}
