//! Live objects and their parameters.

ghost use Rattle.std.specs.Prelude.{◌≡◌, IsTrue, option_map, if◌then◌else◌};
ghost use Rattle.gfx_model.specs.Steps.{kind_of};
ghost use Rattle.gfx_model.specs.Questions.{range_of};
ghost use Rattle.gfx_model.specs.Views.{detail_bytes};
ghost use Rattle.gfx_objects.specs.Object.{detail_of, owner_of, bound_of, mapped_of, layout_of, binding_of, is_within, is_resource, is_image, is_memory};

use gfx_types::{Kind, MapRange, Place, image_size};

/// Where a resource is bound: a memory, and an offset in bytes.
#[derive(Clone, Copy, Debug, PartialEq, Eq)]
pub struct Binding {
    pub memory: u64,
    pub offset: u64,
}

/// The parameters of an object's creation, with what binds, maps and layout changes made of it since.
#[derive(Clone, Copy, Debug, PartialEq, Eq)]
pub enum Detail {
    Instance {
        api: u32,
    },
    Surface,
    Device,
    Queue,
    /// The size is in bytes.
    Memory {
        size: u64,
        mapped: Option<MapRange>,
    },
    /// The size is in bytes.
    Buffer {
        size: u64,
        usage: u32,
        bound: Option<Binding>,
    },
    /// The index is that in a swapchain, where the image is of one.
    Image {
        format: u32,
        width: u32,
        height: u32,
        usage: u32,
        layout: u32,
        bound: Option<Binding>,
        index: Option<u32>,
    },
    Pool {
        flags: u32,
    },
    CommandBuffer,
    Fence,
    Semaphore,
    Swapchain {
        surface: u64,
        images: u32,
        format: u32,
        width: u32,
        height: u32,
        usage: u32,
    },
}

/// A live object. The parent of an instance is 0.
#[derive(Clone, Copy, Debug, PartialEq, Eq)]
pub struct Object {
    pub id: u64,
    pub kind: Kind,
    pub parent: u64,
    pub detail: Detail,
}

/// Where the bytes of a usable resource stand: offset and length are in bytes.
#[derive(Clone, Copy, Debug, PartialEq, Eq)]
pub struct Window {
    pub place: Place,
    pub offset: u64,
    pub length: u64,
}

impl Object {
    /// The object that owns this one.
    pub(crate) fn owner(&self) -> Option<u64>
        ensures { result ≡ owner_of self.now }
    {
        if self.detail.is_owned() {
            Some(self.parent)
        } else {
            None
        }
    }
}

impl Detail {
    /// The kind of an object with these parameters.
    pub fn kind(&self) -> Kind
        ensures { result ≡ kind_of (detail_of self.now) }
    {
        match self {
            Detail::Instance { .. } => Kind::Instance,
            Detail::Surface => Kind::Surface,
            Detail::Device => Kind::Device,
            Detail::Queue => Kind::Queue,
            Detail::Memory { .. } => Kind::Memory,
            Detail::Buffer { .. } => Kind::Buffer,
            Detail::Image { .. } => Kind::Image,
            Detail::Pool { .. } => Kind::Pool,
            Detail::CommandBuffer => Kind::CommandBuffer,
            Detail::Fence => Kind::Fence,
            Detail::Semaphore => Kind::Semaphore,
            Detail::Swapchain { .. } => Kind::Swapchain,
        }
    }

    /// What the object counts against the limit on live bytes.
    pub(crate) fn bytes(&self) -> u64
        requires { IsTrue (is_within (detail_of self.now)) }
        ensures { result ≡ detail_bytes (detail_of self.now) }
    {
        match *self {
            Detail::Memory { size, .. } => size,
            Detail::Swapchain {
                images,
                format,
                width,
                height,
                ..
            } => u64::from(images) * image_size(format, width, height),
            _ => 0,
        }
    }

    /// A buffer or image with this binding.
    pub(crate) fn bound_to(self, binding: Binding) -> Detail
        ensures parameters { detail_of result ≡ detail_of self }
        ensures bound { IsTrue (is_resource (detail_of self)) → bound_of result ≡ Some (binding_of binding) }
        ensures mapped { mapped_of result ≡ mapped_of self }
        ensures layout { layout_of result ≡ layout_of self }
    {
        match self {
            Detail::Buffer { size, usage, .. } => Detail::Buffer {
                size,
                usage,
                bound: Some(binding),
            },
            Detail::Image {
                format,
                width,
                height,
                usage,
                layout,
                index,
                ..
            } => Detail::Image {
                format,
                width,
                height,
                usage,
                layout,
                bound: Some(binding),
                index,
            },
            other => other,
        }
    }

    /// A memory with this map, or none.
    pub(crate) fn mapped_to(self, mapped: Option<MapRange>) -> Detail
        ensures parameters { detail_of result ≡ detail_of self }
        ensures bound { bound_of result ≡ bound_of self }
        ensures mapped { mapped_of result ≡ (if is_memory (detail_of self) then option_map range_of mapped else None) }
        ensures layout { layout_of result ≡ layout_of self }
    {
        match self {
            Detail::Memory { size, .. } => Detail::Memory { size, mapped },
            other => other,
        }
    }

    /// An image with this layout.
    pub(crate) fn with_layout(self, layout: u32) -> Detail
        ensures parameters { detail_of result ≡ detail_of self }
        ensures bound { bound_of result ≡ bound_of self }
        ensures mapped { mapped_of result ≡ mapped_of self }
        ensures layout { IsTrue (is_image (detail_of self)) → layout_of result ≡ layout }
    {
        match self {
            Detail::Image {
                format,
                width,
                height,
                usage,
                bound,
                index,
                ..
            } => Detail::Image {
                format,
                width,
                height,
                usage,
                layout,
                bound,
                index,
            },
            other => other,
        }
    }
}
