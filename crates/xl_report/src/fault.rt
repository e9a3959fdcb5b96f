//! How writing a picture fails.
ghost use Rattle.std.specs.Prelude.{◌≡◌};
ghost use Rattle.xl_report.specs.declared.fault.PamFaultOrMemory.TheVariants as causes;

use std::alloc::AllocError;
use thiserror::Error;
use xl_ports::Failed;

/// Why a picture was not written whole, other than that memory ran out.
#[derive(Clone, Copy, Debug, PartialEq, Eq, Error)]
pub enum PamFault {
    /// The sink failed.
    #[error("the sink failed")]
    Write,
}

/// Why a picture was not written whole: memory ran out, or the sink failed.
#[derive(Debug, Drop, Error)]
pub enum PamFaultOrMemory {
    #[error("out of memory")]
    Memory,
    #[error("{0}")]
    Refused(PamFault),
}

impl From<AllocError> for PamFaultOrMemory {
    ghost from_gives = { λ _ e. e ≡ causes.Memory };

    fn from(_: AllocError) -> Self {
        PamFaultOrMemory::Memory
    }
}

impl From<Failed> for PamFaultOrMemory {
    ghost use Rattle.xl_report.specs.declared.fault.PamFault.TheVariants as faults;

    ghost from_gives = { λ _ e. e ≡ causes.Refused faults.Write };

    fn from(_: Failed) -> Self {
        PamFaultOrMemory::Refused(PamFault::Write)
    }
}
