//! What a present shows, by the places of the bytes.

use gfx_types::{Format, Place};

/// A shown image: its extent in texels, its format, and the place of its bytes.
#[derive(Clone, Copy, Debug, PartialEq, Eq)]
pub struct ShownPicture {
    pub width: u32,
    pub height: u32,
    pub format: Format,
    pub place: Place,
}

/// What one present shows: its number, and its images in order.
#[derive(Debug, Drop)]
pub struct ShownFrame {
    pub number: u64,
    pub pictures: Vec<ShownPicture>,
}
