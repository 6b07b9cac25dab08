//! What a section reads beside the bytes of places.
use gfx_commands::Recordings;
use gfx_objects::Objects;
use gfx_swap::{Swaps, Sync};

/// The live objects, what is recorded, the signals and the acquired images of a capture.
#[derive(Clone, Copy)]
pub(crate) struct Parts<'a> {
    pub objects: &'a Objects,
    pub recordings: &'a Recordings,
    pub signals: &'a Sync,
    pub images: &'a Swaps,
}
