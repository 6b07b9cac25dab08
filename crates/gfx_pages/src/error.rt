use std::alloc::{AllocError, AllocFailed};

/// There is no memory for a page.
#[derive(Debug, Drop, Clone, Copy, PartialEq, Eq)]
pub struct WantMemory;

impl From<AllocError> for WantMemory {
    fn from(_: AllocError) -> Self {
        WantMemory
    }
}

impl<T: Drop> From<AllocFailed<T>> for WantMemory {
    fn from(_: AllocFailed<T>) -> Self {
        WantMemory
    }
}
