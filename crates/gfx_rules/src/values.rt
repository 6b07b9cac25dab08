//! Conditions on the fields of a call.

ghost use Rattle.std.specs.Prelude.{◌≡◌, ◌+◌, ◌&&◌, ◌||◌, ◌==◌, ◌*◌, ◌∷◌, [], nat_le, is_some};
ghost use Rattle.gfx_model.specs.Questions as asked;
ghost use Rattle.gfx_model.specs.Checks.{is_among};
ghost use Rattle.gfx_types.specs.Names.{format_of};
ghost use Rattle.gfx_model.specs.Table as table;
ghost use Rattle.gfx_model.specs.Table.{is_positive};

use crate::derived::image_size;
use gfx_types::{Barrier, Format, MixedRegion};

/// Whether both hold.
pub fn both(a: bool, b: bool) -> bool
    ensures { result ≡ (a && b) }
{
    a && b
}

/// Whether all three hold.
pub fn all_of(a: bool, b: bool, c: bool) -> bool
    ensures { result ≡ (a && b && c) }
{
    a && b && c
}

/// Whether an image may have this format, extent and usage.
pub fn is_image(format: u32, width: u32, height: u32, usage: u32) -> bool
    ensures { result ≡ (is_some (format_of format) && is_positive width && is_positive height && is_positive usage) }
{
    Format::of(format).is_some() && 1 <= width && 1 <= height && 1 <= usage
}

/// Whether a swapchain may have so many images of this format, extent and usage.
pub fn is_chain(images: u32, format: u32, width: u32, height: u32, usage: u32) -> bool
    ensures { result ≡ (is_positive images && is_positive width && is_positive height && is_positive usage && is_some (format_of format)) }
{
    1 <= images && 1 <= width && 1 <= height && 1 <= usage && Format::of(format).is_some()
}

/// Whether a number is one of two.
pub fn is_either(number: u32, a: u32, b: u32) -> bool
    ensures { result ≡ is_among number (a ∷ b ∷ []) }
{
    a == number || b == number
}

/// The bytes of the images of a swapchain.
pub fn chain_bytes(images: u32, format: u32, width: u32, height: u32) -> u128
    ensures { result ≡ images * asked.image_size format width height }
{
    u128::from(images) * image_size(format, width, height)
}

/// The sum of two numbers.
pub fn sum(a: u64, b: u64) -> u128
    ensures { result ≡ a + b }
{
    u128::from(a) + u128::from(b)
}

/// Whether one of two holds.
pub fn either(a: bool, b: bool) -> bool
    ensures { result ≡ (a || b) }
{
    a || b
}

/// Whether a number is one of the five layouts.
pub fn is_layout(layout: u32) -> bool
    ensures { result ≡ table.is_layout layout }
{
    matches!(layout, 0 | 1 | 6 | 7 | 1_000_001_002)
}

/// Whether a barrier has known layouts, the later one not UNDEFINED.
pub fn is_barrier(barrier: Barrier) -> bool
    ensures { table.value result ≡ table.barrier_value barrier }
{
    is_layout(barrier.before) && is_layout(barrier.after) && barrier.after != 0
}

/// Whether extents and strides of a region fit one another.
pub fn is_mixed(r: MixedRegion) -> bool
    ensures { result ≡ (table.is_positive r.width && table.is_positive r.height && (r.row == 0 || nat_le r.width r.row) && (r.rows == 0 || nat_le r.height r.rows)) }
{
    1 <= r.width
        && 1 <= r.height
        && (r.row == 0 || r.width <= r.row)
        && (r.rows == 0 || r.height <= r.rows)
}
