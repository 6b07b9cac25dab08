// Why a command ends before its work is done.
ghost use Rattle.std.specs.Prelude.{◌≡◌};
ghost use Rattle.gfx_cli.specs.declared.stop.Stop.TheVariants.{WantMemory as NoMemory, WriteFault as NotWritten};
ghost use Rattle.gfx_cli.specs.Stop.{of_decoder, of_play, of_trial, of_unlist};

use gfx_decode::DecodeFault;
use gfx_io::Failed;
use gfx_list::UnlistFault;
use gfx_player::PlayFault;
use gfx_trial::TrialFault;
use gfx_types::Fault;
use std::alloc::AllocError;

/// Why a command ends before its work is done. Each has a status, and most have a line in the notes.
#[derive(Clone, Copy, Debug, PartialEq, Eq)]
pub enum Stop {
    WantMemory,
    BadFile {
        fault: Fault,
        block: u64,
        offset: u64,
    },
    NoSuchFrame {
        first: u64,
        last: u64,
    },
    ReadFault,
    WriteFault,
    /// The text that is read is no listing from this line on.
    BadListing {
        line: u64,
    },
}

impl From<DecodeFault> for Stop {
    ghost from_gives = { λ fault stop. stop ≡ of_decoder fault };

    fn from(fault: DecodeFault) -> Self {
        Stop::from(PlayFault::from(fault))
    }
}

impl From<PlayFault> for Stop {
    ghost from_gives = { λ fault stop. stop ≡ of_play fault };

    fn from(fault: PlayFault) -> Self {
        match fault {
            PlayFault::Bad {
                fault,
                block,
                offset,
            } => Stop::BadFile {
                fault,
                block,
                offset,
            },
            PlayFault::NoSuchFrame { first, last } => Stop::NoSuchFrame { first, last },
            PlayFault::ReadFault => Stop::ReadFault,
            PlayFault::SinkFault => Stop::WriteFault,
            PlayFault::WantMemory => Stop::WantMemory,
        }
    }
}

impl From<UnlistFault> for Stop {
    ghost from_gives = { λ fault stop. stop ≡ of_unlist fault };

    fn from(fault: UnlistFault) -> Self {
        match fault {
            UnlistFault::BadListing { line } => Stop::BadListing { line },
            UnlistFault::ReadFault => Stop::ReadFault,
            UnlistFault::SinkFault => Stop::WriteFault,
            UnlistFault::WantMemory => Stop::WantMemory,
        }
    }
}

impl From<TrialFault> for Stop {
    ghost from_gives = { λ fault stop. stop ≡ of_trial fault };

    fn from(fault: TrialFault) -> Self {
        match fault {
            TrialFault::SinkFault => Stop::WriteFault,
            TrialFault::WantMemory => Stop::WantMemory,
        }
    }
}

impl From<AllocError> for Stop {
    ghost from_gives = { λ _ stop. stop ≡ NoMemory };

    fn from(_: AllocError) -> Self {
        Stop::WantMemory
    }
}

impl From<Failed> for Stop {
    ghost from_gives = { λ _ stop. stop ≡ NotWritten };

    /// What a command passes on is a failed write; a failed read is a fault of its decoder.
    fn from(_: Failed) -> Self {
        Stop::WriteFault
    }
}
