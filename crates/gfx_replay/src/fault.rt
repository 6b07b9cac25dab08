//! The faults of a block.

use gfx_types::Fault;

/// Why a block is not taken.
#[derive(Clone, Copy, Debug, PartialEq, Eq)]
pub enum FeedFault {
    /// Its effect breaks a check of its row, this one first.
    Rule(Fault),
    /// No memory was found.
    WantMemory,
}
