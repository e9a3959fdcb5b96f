ghost use Rattle.std.specs.Prelude.{◌≡◌};
ghost use Rattle.xl_ports.specs.declared.failed.FailedOrMemory.TheVariants.{Memory};
ghost use Rattle.xl_ports.specs.declared.failed.FailedOrMemory.TheVariants as causes;

use std::alloc::{AllocError, AllocFailed};
use thiserror::Error;

/// A device failed. It counted the fault.
#[derive(Clone, Copy, Debug, PartialEq, Eq, Error)]
#[error("device failed")]
pub struct Failed;

/// Why not all was read: memory ran out, or the device failed.
#[derive(Clone, Copy, Debug, PartialEq, Eq, Error)]
pub enum FailedOrMemory {
    #[error("out of memory")]
    Memory,
    #[error("device failed")]
    Failed,
}

impl From<AllocError> for FailedOrMemory {
    ghost from_gives = { λ _ e. e ≡ Memory };

    fn from(_: AllocError) -> Self {
        FailedOrMemory::Memory
    }
}

impl<T: Drop> From<AllocFailed<T>> for FailedOrMemory {
    ghost from_gives = { λ _ e. e ≡ Memory };

    fn from(_: AllocFailed<T>) -> Self {
        FailedOrMemory::Memory
    }
}

impl From<Failed> for FailedOrMemory {
    ghost from_gives = { λ _ e. e ≡ causes.Failed };

    fn from(_: Failed) -> Self {
        FailedOrMemory::Failed
    }
}
