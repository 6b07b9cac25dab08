//! Buffers and images, as commands ask of them.

/// What a command asks of a live buffer or image.
#[derive(Clone, Copy, Debug, PartialEq, Eq)]
pub struct Resource {
    pub parent: u64,
    pub usage: u32,
    /// Whether it is bound to live memory, or is an image of a live swapchain.
    pub is_usable: bool,
}
