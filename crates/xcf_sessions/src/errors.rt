ghost use Rattle.std.specs.Prelude.{◌≡◌};
ghost use Rattle.xcf_sessions.specs.declared.errors.NotShared.TheVariants as shares;

use thiserror::Error;
use xcf::NotOpened;

/// Why no image was opened for sessions.
#[derive(Debug, Drop, Error)]
pub enum NotShared {
    /// The shelf did not select the name.
    #[error("the shelf does not take the name")]
    NoName,
    #[error("{0}")]
    NotOpened(NotOpened),
}

impl From<NotOpened> for NotShared {
    ghost from_gives = { λ flaw e. e ≡ shares.NotOpened flaw };

    fn from(flaw: NotOpened) -> Self {
        NotShared::NotOpened(flaw)
    }
}

/// Why an image has no further session.
#[derive(Clone, Copy, Debug, PartialEq, Eq, Error)]
pub enum NoSession {
    #[error("out of memory")]
    Memory,
    /// An image has at most eight sessions.
    #[error("the image has eight sessions")]
    AllOpened,
}

/// Why a save was not done. A read of the file gives the old one then, or after `Fault` the new one.
#[derive(Clone, Copy, Debug, PartialEq, Eq, Error)]
pub enum NotSaved {
    /// Memory ran out before the save began.
    #[error("out of memory")]
    Memory,
    /// Memory ran out for the file of this version.
    #[error("out of memory for the file of version {version}")]
    NoMemory { version: u32 },
    /// The shelf failed in the save of this version.
    #[error("the shelf failed in the save of version {version}")]
    Fault { version: u32 },
    #[error("the history has no room")]
    HistoryFull,
}
