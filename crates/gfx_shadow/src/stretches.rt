//! The bytes that are held for a memory.
//!
//! A write goes into the longer of the two stretches that it touches, so n bytes in any order of offsets take n log n
//! steps, and memory in proportion to the bytes that are held.
ghost use Rattle.gfx_shadow.specs.ByEnd.{AreApart};

use crate::stretch::Stretch;
use gfx_table::Table;
use std::alloc::Global;

/// The stretches of bytes of a memory, each under the offset where it ends, so that it keeps its place when its first
/// run goes. None touches another.
#[derive(Drop)]
pub(crate) struct Stretches {
    by_end: Table<Stretch>,
    alloc: Global,
    ghost are_apart: { AreApart by_end.map },
}

mod held;
mod join;
mod touch;
