//! Memories for which something is held.
use crate::memory::MemoryBytes;
use gfx_table::Table;

/// Memories in the order of their first held writes. Of those before `first` nothing is held any more; where each of the
/// others stands is kept by its id, so that it is found without a walk.
#[derive(Drop)]
pub(crate) struct Memories {
    pub(crate) rows: Vec<MemoryBytes>,
    pub(crate) first: usize,
    pub(crate) places: Table<usize>,
}

mod writes;
