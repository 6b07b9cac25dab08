//! Why a walk through a file ends before its aim.
//!
//! Failed writes are in it although the player writes nothing: every caller that writes would need a second type with
//! the same reasons and one more.
ghost use Rattle.std.specs.Prelude.{◌≡◌};
ghost use Rattle.gfx_player.specs.Faults.{of_decoder};
ghost use Rattle.gfx_player.specs.declared.fault.PlayFault.TheVariants.{SinkFault as NoSink, WantMemory as NoMemory};

use gfx_decode::DecodeFault;
use gfx_io::Failed;
use gfx_types::{Fault, WantMemory};
use std::alloc::AllocError;
use thiserror::Error;

/// Why a walk through a file ends before its aim. The player itself writes nothing, and asks for no frame.
#[derive(Clone, Copy, Debug, PartialEq, Eq, Error)]
pub enum PlayFault {
    /// The first bad block, its number and its offset in bytes; the header is block 0.
    #[error("bad block {block} at {offset}: {fault:?}")]
    Bad {
        fault: Fault,
        block: u64,
        offset: u64,
    },
    /// A frame that is asked for isn't there. The file has the frames from `first` to `last`, none where `last` is below.
    #[error("the file has frames {first} to {last}")]
    NoSuchFrame {
        first: u64,
        last: u64,
    },
    #[error("read fault")]
    ReadFault,
    #[error("write fault")]
    SinkFault,
    #[error("out of memory")]
    WantMemory,
}

impl From<DecodeFault> for PlayFault {
    ghost from_gives = { λ fault e. e ≡ of_decoder fault };

    fn from(fault: DecodeFault) -> Self {
        match fault {
            DecodeFault::Bad {
                fault,
                block,
                offset,
            } => PlayFault::Bad {
                fault,
                block,
                offset,
            },
            DecodeFault::ReadFault => PlayFault::ReadFault,
            DecodeFault::WantMemory => PlayFault::WantMemory,
        }
    }
}

/// A write that failed.
impl From<Failed> for PlayFault {
    ghost from_gives = { λ _ e. e ≡ NoSink };

    fn from(_: Failed) -> Self {
        PlayFault::SinkFault
    }
}

impl From<WantMemory> for PlayFault {
    ghost from_gives = { λ _ e. e ≡ NoMemory };

    fn from(_: WantMemory) -> Self {
        PlayFault::WantMemory
    }
}

impl From<AllocError> for PlayFault {
    ghost from_gives = { λ _ e. e ≡ NoMemory };

    fn from(_: AllocError) -> Self {
        PlayFault::WantMemory
    }
}
