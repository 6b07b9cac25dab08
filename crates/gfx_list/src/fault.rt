//! Faults of listings.
ghost use Rattle.std.specs.Prelude.{◌≡◌};
ghost use Rattle.gfx_list.specs.declared.fault.UnlistFault.TheVariants.{SinkFault as NoSink, WantMemory as NoMemory};

use gfx_io::Failed;
use std::alloc::AllocError;
use thiserror::Error;

/// Why a listing was not read to its end.
#[derive(Clone, Copy, Debug, PartialEq, Eq, Error)]
pub enum UnlistFault {
    /// The first line, from 1 on, with which no listing goes on.
    #[error("bad listing line {line}")]
    BadListing { line: u64 },
    #[error("read fault")]
    ReadFault,
    #[error("write fault")]
    SinkFault,
    #[error("out of memory")]
    WantMemory,
}

/// A write that failed.
impl From<Failed> for UnlistFault {
    ghost from_gives = { λ _ e. e ≡ NoSink };

    fn from(_: Failed) -> Self {
        UnlistFault::SinkFault
    }
}

impl From<AllocError> for UnlistFault {
    ghost from_gives = { λ _ e. e ≡ NoMemory };

    fn from(_: AllocError) -> Self {
        UnlistFault::WantMemory
    }
}
