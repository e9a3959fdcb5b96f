//! Fields of a file at their offsets, and why a file is refused.
#![tactic(auto)]

ghost use Rattle.std.specs.Prelude.{◌≡◌, ℕ, List, Ok};
ghost use Rattle.spec_fields.specs.Field.{HasWord, word_at, HasName, name_at, Text};

use thiserror::Error;

/// How many bytes a name has in a file at most, with the zero behind it.
pub const MAX_NAME_IN_FILE: usize = 4097;

/// Why a file is refused. The number of a kind is its place here, from 1; section 3 of docs/FORMAT.md says when it
/// comes.
#[derive(Clone, Copy, Debug, PartialEq, Eq)]
pub enum Kind {
    NotXcf,
    Version,
    Truncated,
    BadSize,
    BaseType,
    OldColourMap,
    NoColourMap,
    BadProperty,
    BadString,
    ModeRefused,
    Compression,
    FloatingSelection,
    LayerType,
    MaskSize,
    GroupMask,
    GroupInIndexed,
    BadPath,
    BadHierarchy,
    BadRun,
    TwoSelections,
    ChannelSize,
    TooMany,
    TooLarge,
    OffsetRange,
}

/// A refused field: why, its offset, and the refused code where the kind has one.
#[derive(Clone, Copy, Debug, PartialEq, Eq, Error)]
#[error("{kind:?} at {at}")]
pub struct ReadRefused {
    pub kind: Kind,
    pub at: u64,
    pub value: u32,
}

/// What has a word is read so.
pub fn word_is_read()
    ensures { (file : List ℕ) (at n : ℕ) → HasWord file at n → word_at file at ≡ Ok n }
{}
