//! What a section says first of an object.

/// The ids of an object and of its parent.
#[derive(Clone, Copy)]
pub(crate) struct Owned {
    pub(crate) parent: u64,
    pub(crate) id: u64,
}
