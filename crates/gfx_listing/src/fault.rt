//! Why nothing is read of a line.
ghost use Rattle.std.specs.Prelude.{◌≡◌};
ghost use Rattle.gfx_listing.specs.declared.fault.LineFault.TheVariants.{WantMemory};

use gfx_text::TextFault;
use std::alloc::{AllocError, AllocFailed};

/// No header or no block has the line, or memory ran out for what it says.
#[derive(Clone, Copy, Debug, PartialEq, Eq)]
pub enum LineFault {
    BadLine,
    WantMemory,
}

impl From<AllocError> for LineFault {
    ghost from_gives = { λ _ fault. fault ≡ WantMemory };

    fn from(_: AllocError) -> Self {
        LineFault::WantMemory
    }
}

impl<T: Drop> From<AllocFailed<T>> for LineFault {
    ghost from_gives = { λ _ fault. fault ≡ WantMemory };

    fn from(_: AllocFailed<T>) -> Self {
        LineFault::WantMemory
    }
}

impl From<gfx_types::WantMemory> for LineFault {
    ghost from_gives = { λ _ fault. fault ≡ WantMemory };

    fn from(_: gfx_types::WantMemory) -> Self {
        LineFault::WantMemory
    }
}

impl From<gfx_io::WantMemory> for LineFault {
    ghost from_gives = { λ _ fault. fault ≡ WantMemory };

    fn from(_: gfx_io::WantMemory) -> Self {
        LineFault::WantMemory
    }
}

impl From<TextFault> for LineFault {
    ghost use Rattle.gfx_listing.specs.Answers.{fault_of};

    ghost from_gives = { λ text fault. fault ≡ fault_of text };

    fn from(fault: TextFault) -> Self {
        match fault {
            TextFault::Bad => LineFault::BadLine,
            TextFault::WantMemory => LineFault::WantMemory,
        }
    }
}
