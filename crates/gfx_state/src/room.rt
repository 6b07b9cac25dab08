//! The room for a block.
use std::alloc::Global;

/// Where memory comes from, and the bytes of the block that is built.
#[derive(Drop)]
pub(crate) struct Room {
    pub(crate) alloc: Global,
    pub(crate) block: Vec<u8>,
}
