//! How the texels of an image lie.
ghost use Rattle.std.specs.Prelude.{◌≡◌, ◌+◌, ◌*◌, ◌≤◌, ◌^◌};
ghost use Rattle.gfx_model.specs.Questions as asked;
ghost use Rattle.gfx_model.specs.Limits.{max_extent};
ghost use Rattle.gfx_objects.specs.Objects.{answers};
ghost use Rattle.gfx_ops.specs.Operations as operations;

use gfx_objects::{Detail, Objects};
use gfx_types::Format;

/// The extent of an image in texels, and the bytes of a texel.
#[derive(Clone, Copy, Debug, PartialEq, Eq)]
pub struct Shape {
    pub width: u32,
    pub height: u32,
    pub texel: u32,
}

// What is no image or swapchain has no texels.
const NO_TEXELS: Shape = Shape {
    width: 0,
    height: 0,
    texel: 0,
};

/// How the texels of an image lie; a shape without texels where the id is of none.
pub fn shape_of(objects: &Objects, image: u64) -> Shape
    ensures shape { result ≡ operations.shape_of (answers objects.now) image }
    ensures wide { result.width ≤ max_extent }
    ensures tall { result.height ≤ max_extent }
    ensures small { result.texel ≤ 4 }
{
    let Some(object) = objects.get(image) else {
        return NO_TEXELS;
    };
    match object.detail {
        Detail::Image {
            format,
            width,
            height,
            ..
        } => Shape {
            width,
            height,
            texel: texel_of(format),
        },
        Detail::Swapchain {
            format,
            width,
            height,
            ..
        } => Shape {
            width,
            height,
            texel: texel_of(format),
        },
        _ => NO_TEXELS,
    }
}

// The bytes of a texel of this format, 0 where it is none of the five.
fn texel_of(format: u32) -> u32
    ensures texel { result ≡ asked.texel_size format }
    ensures small { result ≤ 4 }
{
    match Format::of(format) {
        Some(format) => format.texel() as u32,
        None => 0,
    }
}

impl Shape {
    ghost use Rattle.gfx_ops.specs.Operations.{texel_in};

    /// The bytes from one row of the image to the next.
    pub(crate) fn row(self) -> u64
        ensures { result ≡ self.width * self.texel }
    {
        u64::from(self.width) * u64::from(self.texel)
    }

    /// The bytes of so many texels.
    pub(crate) fn texels(self, count: u32) -> u64
        ensures { result ≡ count * self.texel }
    {
        u64::from(count) * u64::from(self.texel)
    }

    /// Where a texel is in the window of the image, in bytes.
    pub(crate) fn texel_at(self, x: u32, y: u32) -> u64
        requires column { x ≤ max_extent }
        requires row { y ≤ max_extent }
        requires wide { self.width ≤ max_extent }
        requires small { self.texel ≤ 4 }
        ensures place { result ≡ texel_in self x y }
        ensures near { result ≤ 2 ^ 27 }
    {
        (u64::from(y) * u64::from(self.width) + u64::from(x)) * u64::from(self.texel)
    }
}
