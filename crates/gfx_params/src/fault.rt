// Why fields give no value.
ghost use Rattle.std.specs.Prelude.{◌≡◌};
ghost use Rattle.gfx_params.specs.declared.fault.ParamFault.TheVariants.{WantMemory};

use std::alloc::{AllocError, AllocFailed};

/// The fields have no spelling, or there is no memory for their lists.
#[derive(Clone, Copy, Debug, PartialEq, Eq)]
pub enum ParamFault {
    BadParams,
    WantMemory,
}

impl From<AllocError> for ParamFault {
    ghost from_gives = { λ _ fault. fault ≡ WantMemory };

    fn from(_: AllocError) -> Self {
        ParamFault::WantMemory
    }
}

impl<T: Drop> From<AllocFailed<T>> for ParamFault {
    ghost from_gives = { λ _ fault. fault ≡ WantMemory };

    fn from(_: AllocFailed<T>) -> Self {
        ParamFault::WantMemory
    }
}
