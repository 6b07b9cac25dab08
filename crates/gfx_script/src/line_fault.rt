//! Why a line adds nothing to what was read.
ghost use Rattle.std.specs.Prelude.{◌≡◌};
ghost use Rattle.gfx_script.specs.declared.line_fault.LineFault.TheVariants.{WantMemory};

use crate::fault::ScriptFault;
use crate::kind::ScriptKind;
use std::alloc::{AllocError, AllocFailed};

/// Why a line adds nothing to what was read: it is refused, or there is no memory.
#[derive(Clone, Copy)]
pub enum LineFault {
    Refused(ScriptKind),
    WantMemory,
}

impl LineFault {
    ghost use Rattle.gfx_script.specs.Answers.{fault_at};

    /// The fault of a text whose line with this number it is.
    pub(crate) fn at(self, line: u32) -> ScriptFault
        ensures { result ≡ fault_at line self }
    {
        match self {
            LineFault::Refused(kind) => ScriptFault::Bad { line, kind },
            LineFault::WantMemory => ScriptFault::WantMemory,
        }
    }
}

impl From<AllocError> for LineFault {
    ghost from_gives = { λ _ fault. fault ≡ WantMemory };

    fn from(_: AllocError) -> Self {
        LineFault::WantMemory
    }
}

impl<T: Drop> From<AllocFailed<T>> for LineFault {
    ghost from_gives = { λ _ fault. fault ≡ WantMemory };

    fn from(_: AllocFailed<T>) -> Self {
        LineFault::WantMemory
    }
}
