ghost use Rattle.std.specs.Prelude.{◌≡◌};
ghost use Rattle.xcf_disk.specs.declared.errors.Failure.TheVariants as causes;

use std::alloc::AllocError;
use std::io;
use thiserror::Error;
use xcf::{NotEdited, NotOpened, NotShown};
use xl_real::ShelfError;

/// Why a program over images goes no further: an error of the facade, or what the system said.
#[derive(Debug, Drop, Error)]
pub enum Failure {
    #[error("out of memory")]
    Memory,
    /// What the system said: of a file that was read, or of a text that was to be written.
    #[error("{0}")]
    System(io::Error),
    #[error("not opened: {0}")]
    NotOpened(NotOpened),
    #[error("not edited: {0}")]
    NotEdited(NotEdited),
    #[error("not shown: {0}")]
    NotShown(NotShown),
    /// What the system said of a save, and of what. A read of the file gives the old one or the new one.
    #[error("not saved: {0}")]
    NotSaved(ShelfError),
}

impl From<AllocError> for Failure {
    ghost from_gives = { λ _ e. e ≡ causes.Memory };

    fn from(_: AllocError) -> Self {
        Failure::Memory
    }
}

impl From<io::Error> for Failure {
    ghost from_gives = { λ cause e. e ≡ causes.System cause };

    fn from(cause: io::Error) -> Self {
        Failure::System(cause)
    }
}

impl From<NotOpened> for Failure {
    ghost from_gives = { λ flaw e. e ≡ causes.NotOpened flaw };

    fn from(flaw: NotOpened) -> Self {
        Failure::NotOpened(flaw)
    }
}

impl From<NotEdited> for Failure {
    ghost from_gives = { λ flaw e. e ≡ causes.NotEdited flaw };

    fn from(flaw: NotEdited) -> Self {
        Failure::NotEdited(flaw)
    }
}

impl From<NotShown> for Failure {
    ghost from_gives = { λ flaw e. e ≡ causes.NotShown flaw };

    fn from(flaw: NotShown) -> Self {
        Failure::NotShown(flaw)
    }
}
