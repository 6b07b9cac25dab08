//! What images are made with.

/// The format, the extent in texels and the usage of an image, or of each image of a swapchain.
#[derive(Clone, Copy)]
pub(crate) struct Shape {
    pub(crate) format: u32,
    pub(crate) width: u32,
    pub(crate) height: u32,
    pub(crate) usage: u32,
}
