ghost use Rattle.std.specs.Prelude.{◌≡◌};
ghost use Rattle.xl_script.specs.declared.bad_line.BadLineOrMemory.TheVariants.{Memory, Refused};

use std::alloc::{AllocError, AllocFailed};
use thiserror::Error;
use xl_words::Cause;

/// The line that is refused, counted from 1, and why.
#[derive(Clone, Copy, Debug, PartialEq, Eq, Error)]
#[error("bad line {line}")]
pub struct BadLine {
    pub line: u32,
    pub cause: Cause,
}

/// Why there is no script: memory ran out, or a line is refused.
#[derive(Debug, Drop, Error)]
pub enum BadLineOrMemory {
    #[error("out of memory")]
    Memory,
    #[error("refused: {0}")]
    Refused(BadLine),
}

impl From<AllocError> for BadLineOrMemory {
    ghost from_gives = { λ _ e. e ≡ Memory };

    fn from(_: AllocError) -> Self {
        BadLineOrMemory::Memory
    }
}

impl<T: Drop> From<AllocFailed<T>> for BadLineOrMemory {
    ghost from_gives = { λ _ e. e ≡ Memory };

    fn from(_: AllocFailed<T>) -> Self {
        BadLineOrMemory::Memory
    }
}

impl From<BadLine> for BadLineOrMemory {
    ghost from_gives = { λ bad e. e ≡ Refused bad };

    fn from(bad: BadLine) -> Self {
        BadLineOrMemory::Refused(bad)
    }
}
