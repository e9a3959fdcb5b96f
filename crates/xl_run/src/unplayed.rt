//! Why a session ends before its last line.
ghost use Rattle.std.specs.Prelude.{◌≡◌};
ghost use Rattle.xl_run.specs.declared.unplayed.Unplayed.TheVariants.{Memory};

use std::alloc::AllocError;
use thiserror::Error;

/// Why a session ends before its last line: memory ran out, for a line or for the file of a save, or the history had no
/// room for a call or a save.
#[derive(Clone, Copy, Debug, PartialEq, Eq, Error)]
pub enum Unplayed {
    #[error("out of memory")]
    Memory,
    #[error("history full")]
    HistoryFull,
}

impl From<AllocError> for Unplayed {
    ghost from_gives = { λ _ e. e ≡ Memory };

    fn from(_: AllocError) -> Self {
        Unplayed::Memory
    }
}
