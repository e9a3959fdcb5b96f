//! Why an edit was not applied.
ghost use Rattle.std.specs.Prelude.{◌≡◌};
ghost use Rattle.xl_paint.specs.declared.refused.EditRefusedOrMemory.TheVariants.{Memory, Refused};

use spec_edit::EditRefused;
use std::alloc::AllocError;
use thiserror::Error;

/// Why an edit was not applied: memory ran out, or the edit is refused.
#[derive(Debug, Drop, Error)]
pub enum EditRefusedOrMemory {
    #[error("out of memory")]
    Memory,
    #[error("refused: {0}")]
    Refused(EditRefused),
}

impl From<AllocError> for EditRefusedOrMemory {
    ghost from_gives = { λ _ e. e ≡ Memory };

    fn from(_: AllocError) -> Self {
        EditRefusedOrMemory::Memory
    }
}

impl From<EditRefused> for EditRefusedOrMemory {
    ghost from_gives = { λ cause e. e ≡ Refused cause };

    fn from(cause: EditRefused) -> Self {
        EditRefusedOrMemory::Refused(cause)
    }
}
