ghost use Rattle.std.specs.Prelude.{◌≡◌};
ghost use Rattle.spec_fields.specs.Reading.{fault};
ghost use Rattle.xl_fields.specs.declared.refusal.ReadRefusedOrMemory.TheVariants.{Memory, Refused};

use spec_fields::{Kind, ReadRefused};
use std::alloc::{AllocError, AllocFailed};
use thiserror::Error;

/// Why nothing was read: memory ran out, or the file is refused.
#[derive(Debug, Drop, Error)]
pub enum ReadRefusedOrMemory {
    #[error("out of memory")]
    Memory,
    #[error("refused: {0}")]
    Refused(ReadRefused),
}

impl From<AllocError> for ReadRefusedOrMemory {
    ghost from_gives = { λ _ e. e ≡ Memory };

    fn from(_: AllocError) -> Self {
        ReadRefusedOrMemory::Memory
    }
}

impl<T: Drop> From<AllocFailed<T>> for ReadRefusedOrMemory {
    ghost from_gives = { λ _ e. e ≡ Memory };

    fn from(_: AllocFailed<T>) -> Self {
        ReadRefusedOrMemory::Memory
    }
}

impl From<ReadRefused> for ReadRefusedOrMemory {
    ghost from_gives = { λ refused e. e ≡ Refused refused };

    fn from(refused: ReadRefused) -> Self {
        ReadRefusedOrMemory::Refused(refused)
    }
}

/// The refusal of the field at an offset, where the kind has no code of its own.
pub fn refuse(kind: Kind, at: usize) -> ReadRefused
    ensures { result ≡ fault kind at }
{
    ReadRefused {
        kind,
        at: at as u64,
        value: 0,
    }
}
