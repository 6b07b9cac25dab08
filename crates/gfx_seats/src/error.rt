use std::alloc::AllocError;

/// There was no memory.
#[derive(Debug, Drop)]
pub struct WantMemory;

impl From<AllocError> for WantMemory {
    fn from(_error: AllocError) -> WantMemory {
        WantMemory
    }
}
