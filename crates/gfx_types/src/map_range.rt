//! Mapped memory.

/// The mapped bytes of a memory.
#[derive(Clone, Copy, Debug, PartialEq, Eq)]
pub struct MapRange {
    pub offset: u64,
    pub length: u64,
}
