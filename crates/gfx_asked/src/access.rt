//! What a range does that matters for the bytes that its frames ask for.

use gfx_types::Place;

/// An access to the bytes of a place. Offsets, lengths and steps are in bytes.
#[derive(Clone, Copy, Debug, PartialEq, Eq)]
pub enum Access {
    /// An image is shown, which has so many bytes.
    Show {
        image: u64,
        size: u64,
    },
    /// Bytes are written that depend on no others.
    Write {
        place: Place,
        offset: u64,
        length: u64,
    },
    /// Rows are copied.
    Copy(RowCopy),
}

/// Rows of `length` bytes, copied in order, each one step further on both sides and read whole before it is written.
#[derive(Clone, Copy, Debug, PartialEq, Eq)]
pub struct RowCopy {
    pub to: Place,
    pub to_offset: u64,
    pub to_step: u64,
    pub from: Place,
    pub from_offset: u64,
    pub from_step: u64,
    pub length: u64,
    pub rows: u64,
}
