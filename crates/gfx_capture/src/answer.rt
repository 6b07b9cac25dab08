//! What appending answers.
ghost use Rattle.std.specs.Prelude.{◌≡◌};
ghost use Rattle.gfx_capture.specs.declared.answer.BlockFault.TheVariants.{WantMemory as NoMemory};

use gfx_types::{Fault, WantMemory};

/// Effects that were appended: how many blocks are before them, and how many they are.
#[derive(Clone, Copy, Debug, PartialEq, Eq)]
pub struct Receipt {
    pub from: u64,
    pub count: u32,
}

/// Why an append ended at an effect. The `done` effects before it were appended.
#[derive(Clone, Copy, Debug, PartialEq, Eq)]
pub enum AppendFault {
    /// The effect breaks a rule, this one first, after a history of `at` blocks.
    Refused { fault: Fault, at: u64, done: u32 },
    /// The log has `length` bytes, and no room for the `wanted` bytes of the block.
    LogFull { length: u64, wanted: u64, done: u32 },
    /// No memory was found.
    WantMemory { done: u32 },
}

/// Why one block was not appended.
#[derive(Clone, Copy, Debug, PartialEq, Eq)]
pub(crate) enum BlockFault {
    Refused(Fault),
    LogFull { length: u64, wanted: u64 },
    WantMemory,
}

impl From<WantMemory> for BlockFault {
    ghost from_gives = { λ _ fault. fault ≡ NoMemory };

    fn from(_: WantMemory) -> Self {
        BlockFault::WantMemory
    }
}
