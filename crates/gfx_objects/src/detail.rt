//! What the parameters of an object say.
ghost use Rattle.std.specs.Prelude.{◌≡◌, IsTrue, true, is_some, option_map};
ghost use Rattle.gfx_model.specs.Questions.{is_owned, range_of};
ghost use Rattle.gfx_model.specs.Views as view;
ghost use Rattle.gfx_model.specs.Checks as words;
ghost use Rattle.gfx_objects.specs.Object.{detail_of, bound_of, memory_of, mapped_of, layout_of, surface_of, is_within};

use crate::object::Detail;
use gfx_types::{MapRange, image_size};

impl Detail {
    /// The bytes of a memory, a buffer or an image, 0 for anything else.
    pub fn size(&self) -> u64
        requires { IsTrue (is_within (detail_of self.now)) }
        ensures { result ≡ view.detail_size (detail_of self.now) }
    {
        match *self {
            Detail::Memory { size, .. } => size,
            Detail::Buffer { size, .. } => size,
            Detail::Image {
                format,
                width,
                height,
                ..
            } => image_size(format, width, height),
            _ => 0,
        }
    }

    /// The bytes that an InitImage has to have: those of an image of a swapchain.
    pub fn wanted(&self) -> u64
        requires { is_within (detail_of self.now) ≡ true }
        ensures { result ≡ words.wanted_bytes (detail_of self.now) (view.detail_size (detail_of self.now)) }
    {
        match self {
            Detail::Image { index: Some(_), .. } => self.size(),
            _ => 0,
        }
    }

    /// The usage of a buffer or an image.
    pub fn usage(&self) -> u32
        ensures { result ≡ view.detail_usage (detail_of self.now) }
    {
        match *self {
            Detail::Buffer { usage, .. } => usage,
            Detail::Image { usage, .. } => usage,
            _ => 0,
        }
    }

    /// The format of an image or a swapchain.
    pub fn format(&self) -> u32
        ensures { result ≡ view.detail_format (detail_of self.now) }
    {
        match *self {
            Detail::Image { format, .. } => format,
            Detail::Swapchain { format, .. } => format,
            _ => 0,
        }
    }

    /// The width of an image or a swapchain.
    pub fn width(&self) -> u32
        ensures { result ≡ view.detail_width (detail_of self.now) }
    {
        match *self {
            Detail::Image { width, .. } => width,
            Detail::Swapchain { width, .. } => width,
            _ => 0,
        }
    }

    /// The height of an image or a swapchain.
    pub fn height(&self) -> u32
        ensures { result ≡ view.detail_height (detail_of self.now) }
    {
        match *self {
            Detail::Image { height, .. } => height,
            Detail::Swapchain { height, .. } => height,
            _ => 0,
        }
    }

    /// The number of a swapchain's images.
    pub fn images(&self) -> u32
        ensures { result ≡ view.detail_images (detail_of self.now) }
    {
        match *self {
            Detail::Swapchain { images, .. } => images,
            _ => 0,
        }
    }

    /// The usage of a swapchain's images.
    pub fn image_usage(&self) -> u32
        ensures { result ≡ view.detail_image_usage (detail_of self.now) }
    {
        match *self {
            Detail::Swapchain { usage, .. } => usage,
            _ => 0,
        }
    }

    /// The flags of a pool.
    pub fn flags(&self) -> u32
        ensures { result ≡ view.detail_flags (detail_of self.now) }
    {
        match *self {
            Detail::Pool { flags } => flags,
            _ => 0,
        }
    }

    /// The mapped range of a memory.
    pub fn mapped(&self) -> Option<MapRange>
        ensures { option_map range_of result ≡ mapped_of self.now }
    {
        match *self {
            Detail::Memory { mapped, .. } => mapped,
            _ => None,
        }
    }

    /// Whether a buffer or an image was bound.
    pub fn is_bound(&self) -> bool
        ensures { result ≡ is_some (bound_of self.now) }
    {
        match self {
            Detail::Buffer { bound, .. } => bound.is_some(),
            Detail::Image { bound, .. } => bound.is_some(),
            _ => false,
        }
    }

    /// The layout of an image.
    pub fn layout(&self) -> u32
        ensures { result ≡ layout_of self.now }
    {
        match *self {
            Detail::Image { layout, .. } => layout,
            _ => 0,
        }
    }

    /// Whether it is a queue.
    pub fn is_queue(&self) -> bool
        ensures { result ≡ view.is_queue (detail_of self.now) }
    {
        matches!(self, Detail::Queue)
    }

    /// Whether it is the image of a swapchain at this index.
    pub fn has_index(&self, wanted: u32) -> bool
        ensures { result ≡ view.has_index wanted (detail_of self.now) }
    {
        match self {
            Detail::Image {
                index: Some(index),
                ..
            } => *index == wanted,
            _ => false,
        }
    }

    /// Whether the object ends with its parent: a queue, a command buffer, an image of a swapchain.
    pub fn is_owned(&self) -> bool
        ensures { result ≡ is_owned (detail_of self.now) }
    {
        match self {
            Detail::Queue | Detail::CommandBuffer => true,
            Detail::Image { index, .. } => index.is_some(),
            _ => false,
        }
    }

    /// The memory to which a buffer or an image is bound.
    pub(crate) fn memory(&self) -> Option<u64>
        ensures { result ≡ memory_of self.now }
    {
        match *self {
            Detail::Buffer {
                bound: Some(bound),
                ..
            } => Some(bound.memory),
            Detail::Image {
                bound: Some(bound),
                ..
            } => Some(bound.memory),
            _ => None,
        }
    }

    /// The surface of a swapchain.
    pub(crate) fn surface(&self) -> Option<u64>
        ensures { result ≡ surface_of (detail_of self.now) }
    {
        match *self {
            Detail::Swapchain { surface, .. } => Some(surface),
            _ => None,
        }
    }
}
