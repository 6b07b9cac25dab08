//! Why a text is no script.
ghost use Rattle.std.specs.Prelude.{◌≡◌};
ghost use Rattle.gfx_script.specs.declared.fault.ScriptFault.TheVariants.{WantMemory};

use crate::kind::ScriptKind;
use std::alloc::AllocError;
use thiserror::Error;

/// Why a text gives no script: its first line with a fault, or a lack of memory. Lines are numbered from 1.
#[derive(Clone, Copy, Debug, PartialEq, Eq, Error)]
pub enum ScriptFault {
    #[error("bad script line {line}: {kind}")]
    Bad { line: u32, kind: ScriptKind },
    #[error("out of memory")]
    WantMemory,
}

impl From<AllocError> for ScriptFault {
    ghost from_gives = { λ _ fault. fault ≡ WantMemory };

    fn from(_: AllocError) -> Self {
        ScriptFault::WantMemory
    }
}
