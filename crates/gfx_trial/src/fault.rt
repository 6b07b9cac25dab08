//! Faults of a trial.
ghost use Rattle.std.specs.Prelude.{◌≡◌};
ghost use Rattle.gfx_trial.specs.declared.fault.TrialFault.TheVariants.{SinkFault as NoSink, WantMemory as NoMemory};

use gfx_io::Failed;
use gfx_types::WantMemory;
use std::alloc::AllocError;
use thiserror::Error;

/// Why the lines of a trial were not written.
#[derive(Clone, Copy, Debug, PartialEq, Eq, Error)]
pub enum TrialFault {
    #[error("write fault")]
    SinkFault,
    #[error("out of memory")]
    WantMemory,
}

impl From<Failed> for TrialFault {
    ghost from_gives = { λ _ e. e ≡ NoSink };

    fn from(_: Failed) -> Self {
        TrialFault::SinkFault
    }
}

impl From<WantMemory> for TrialFault {
    ghost from_gives = { λ _ e. e ≡ NoMemory };

    fn from(_: WantMemory) -> Self {
        TrialFault::WantMemory
    }
}

impl From<AllocError> for TrialFault {
    ghost from_gives = { λ _ e. e ≡ NoMemory };

    fn from(_: AllocError) -> Self {
        TrialFault::WantMemory
    }
}
