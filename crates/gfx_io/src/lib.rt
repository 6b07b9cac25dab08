//! The outside, as the programs see it: where bytes come from and where they go, and the numbers in them.
#![tactic(auto)]

mod fields;
mod gate;
mod memory;
mod outside;
mod slice;
mod standard;

pub use fields::{WantMemory, put_u32, put_u64, set_bytes, set_u32, set_u64, take_u32, take_u64};
pub use gate::{Gate, NoGate};
pub use memory::{MemSink, MemSource};
pub use outside::{Failed, Sink, Source, fill, write_whole};
pub use slice::SliceSource;
pub use standard::{StdSink, StdSource};
