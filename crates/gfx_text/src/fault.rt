// Why a text gives no value.
ghost use Rattle.std.specs.Prelude.{◌≡◌};
ghost use Rattle.gfx_text.specs.declared.fault.TextFault.TheVariants.{WantMemory};

use std::alloc::{AllocError, AllocFailed};

/// Why a text gives no value: it is the text of none, or there is no memory for what it lists.
#[derive(Clone, Copy, Debug, PartialEq, Eq)]
pub enum TextFault {
    Bad,
    WantMemory,
}

impl From<AllocError> for TextFault {
    ghost from_gives = { λ _ fault. fault ≡ WantMemory };

    fn from(_: AllocError) -> Self {
        TextFault::WantMemory
    }
}

impl<T: Drop> From<AllocFailed<T>> for TextFault {
    ghost from_gives = { λ _ fault. fault ≡ WantMemory };

    fn from(_: AllocFailed<T>) -> Self {
        TextFault::WantMemory
    }
}
