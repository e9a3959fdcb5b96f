ghost use Rattle.std.specs.Prelude.{◌≡◌};
ghost use Rattle.xl_words.specs.declared.cause.CauseOrMemory.TheVariants.{Memory, Refused};

use crate::kind::WordKind;
use crate::word_front::WordFront;
use std::alloc::{AllocError, AllocFailed};

/// Why a line is refused. The words are those of the line, and their places count from 1.
#[derive(Clone, Copy, Debug, PartialEq, Eq)]
pub enum Cause {
    /// The script is longer than a script may be.
    TooLong,
    /// There is a tab in the line.
    Tab,
    /// There is a carriage return in the line.
    CarriageReturn,
    /// Two blanks side by side, or one at an end of the line.
    Blank,
    /// The first word is no session.
    NoSession(WordFront),
    /// There is nothing behind the session.
    NoKeyword,
    /// The second word is no keyword.
    UnknownWord(WordFront),
    /// Another number of words than the keyword takes.
    WordCount {
        keyword: WordFront,
        least: u8,
        most: u8,
        found: usize,
    },
    /// The word is a number with a zero in front of it.
    LeadingZero {
        place: u8,
        word: WordFront,
    },
    /// The word is not of its kind.
    BadWord {
        place: u8,
        word: WordFront,
        kind: WordKind,
    },
    /// An `end` where no group is begun.
    EndOutside,
    /// A keyword other than of an edit, inside a group.
    InsideGroup(WordFront),
    /// An `end` of a group without an edit.
    EmptyGroup,
    /// An edit more than a group may have.
    FullGroup,
    /// A `begin` whose group is never ended.
    NotEnded,
    /// The session dropped this filter.
    DroppedFilter(u32),
    /// The session never had this filter.
    NoFilter(u32),
    /// A call more than a script may have.
    TooManyCalls,
    /// A script that is viewed has session 0 alone.
    OtherSession,
    /// A script that is viewed has no line of this keyword.
    NotViewed(WordFront),
}

/// Why a line is not taken: memory ran out, or it is refused.
#[derive(Drop)]
pub enum CauseOrMemory {
    /// Memory ran out.
    Memory,
    /// The line is refused.
    Refused(Cause),
}

impl From<AllocError> for CauseOrMemory {
    ghost from_gives = { λ _ e. e ≡ Memory };

    fn from(_: AllocError) -> Self {
        CauseOrMemory::Memory
    }
}

impl<T: Drop> From<AllocFailed<T>> for CauseOrMemory {
    ghost from_gives = { λ _ e. e ≡ Memory };

    fn from(_: AllocFailed<T>) -> Self {
        CauseOrMemory::Memory
    }
}

impl From<Cause> for CauseOrMemory {
    ghost from_gives = { λ cause e. e ≡ Refused cause };

    fn from(cause: Cause) -> Self {
        CauseOrMemory::Refused(cause)
    }
}
