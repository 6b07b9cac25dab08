//! The faults of writing a section.
ghost use Rattle.std.specs.Prelude.{◌≡◌};
ghost use Rattle.gfx_state.specs.declared.fault.StateFault.TheVariants.{SinkFault, WantMemory as NoMemory};

use gfx_io::Failed;
use gfx_types::WantMemory;
use std::alloc::AllocError;
use thiserror::Error;

/// Why a section isn't written whole.
#[derive(Clone, Copy, Debug, PartialEq, Eq, Error)]
pub enum StateFault {
    #[error("write fault")]
    SinkFault,
    #[error("out of memory")]
    WantMemory,
}

impl From<Failed> for StateFault {
    ghost from_gives = { λ _ fault. fault ≡ SinkFault };

    fn from(_: Failed) -> Self {
        StateFault::SinkFault
    }
}

impl From<WantMemory> for StateFault {
    ghost from_gives = { λ _ fault. fault ≡ NoMemory };

    fn from(_: WantMemory) -> Self {
        StateFault::WantMemory
    }
}

impl From<AllocError> for StateFault {
    ghost from_gives = { λ _ fault. fault ≡ NoMemory };

    fn from(_: AllocError) -> Self {
        StateFault::WantMemory
    }
}
