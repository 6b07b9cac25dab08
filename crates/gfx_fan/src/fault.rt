//! The fault of payloads that are decoded together.

use gfx_types::Fault;

/// A payload that spells nothing, or memory that ran out.
#[derive(Clone, Copy, Debug, PartialEq, Eq)]
pub enum FanFault {
    /// The first payload that spells nothing, by its place in the list, counted from 0, and its fault.
    Bad { fault: Fault, place: u64 },
    WantMemory,
}
