//! What follows from the answers.

ghost use Rattle.std.specs.Prelude.{◌≡◌, ◌+◌, ◌-◌, ◌*◌, ◌%◌, ◌^◌, ◌<◌, ◌==◌, ◌&&◌, ◌||◌, nat_le, if◌then◌else◌, is_some, false, Some, None};
ghost use Rattle.std.specs.List.{list_any, list_all, range_with_len};
ghost use Rattle.std.specs.Option.{option_map_or};
ghost use Rattle.gfx_model.specs.Questions as asked;
ghost use Rattle.gfx_model.specs.Views as views;
ghost use Rattle.gfx_model.specs.Checks as words;
ghost use Rattle.gfx_model.specs.Questions.{range_of};
ghost use Rattle.gfx_model.specs.Limits.{max_live_bytes, max_kept_commands, max_kept_bytes};

use crate::answers::Answers;
use gfx_types::limits::{MAX_KEPT_BYTES, MAX_KEPT_COMMANDS, MAX_LIVE_BYTES};
use gfx_types::{Format, MapRange};

/// The bytes of a texel of this format, 0 where it is none of the five.
pub fn texel_size(format: u32) -> u64
    ensures value { result ≡ asked.texel_size format }
    ensures small { result < 5 }
{
    match Format::of(format) {
        None => 0,
        Some(known) => known.texel(),
    }
}

/// The bytes of an image.
pub fn image_size(format: u32, width: u32, height: u32) -> u128
    ensures value { result ≡ asked.image_size format width height }
    ensures small { result < 2 ^ 67 }
{
    u128::from(width) * u128::from(height) * u128::from(texel_size(format))
}

/// The bytes of a texel of an image.
pub fn texel<A: Answers>(answers: &A, image: u64) -> u64
    ensures value { result ≡ views.texel (A.view answers.now) image }
    ensures small { result < 5 }
{
    texel_size(answers.format_at(image))
}

/// The flags of the pool of a command buffer.
pub fn pool_flags<A: Answers>(answers: &A, cb: u64) -> u32
    ensures { result ≡ views.pool_flags (A.view answers.now) cb }
{
    answers.flags_of(answers.parent_of(cb))
}

/// Whether a number has this bit.
pub fn has_bit(number: u32, bit: u32) -> bool
    ensures { result ≡ asked.has_bit number bit }
{
    if bit == 0 {
        false
    } else {
        (number / bit) % 2 == 1
    }
}

/// Whether two truth values are one.
pub fn same_truth(a: bool, b: bool) -> bool
    ensures { result ≡ words.same_bool a b }
{
    if a { b } else { !b }
}

/// Whether the size of a texel divides this offset.
pub fn is_texel_multiple<A: Answers>(answers: &A, image: u64, offset: u64) -> bool
    ensures { result ≡ (offset % views.texel (A.view answers.now) image == 0) }
{
    let size = texel(answers, image);
    if size == 0 {
        offset == 0
    } else {
        offset % size == 0
    }
}

/// Whether an area lies in an image.
pub fn is_area_in<A: Answers>(
    answers: &A,
    image: u64,
    x: u32,
    y: u32,
    width: u32,
    height: u32,
) -> bool
    ensures { let v = A.view answers.now in
        result ≡ (nat_le (x + width) (views.width_of v image) && nat_le (y + height) (views.height_of v image)) }
{
    u64::from(x) + u64::from(width) <= u64::from(answers.width_of(image))
        && u64::from(y) + u64::from(height) <= u64::from(answers.height_of(image))
}

/// How many texels lead from one row to the next: `row`, or `width` where that is 0.
pub fn row_texels(row: u32, width: u32) -> u32
    ensures { result ≡ words.row_texels row width }
{
    if row == 0 { width } else { row }
}

/// The end of the last row of texels in a buffer, in bytes.
pub fn rows_end(offset: u64, row: u32, width: u32, height: u32, size: u64) -> u128
    requires { size < 5 }
    ensures { result ≡ offset + ((height - 1) * words.row_texels row width + width) * size }
{
    let texels = u128::from(height.saturating_sub(1)) * u128::from(row_texels(row, width))
        + u128::from(width);
    u128::from(offset) + texels * u128::from(size)
}

/// Whether so many more bytes are not too many.
pub fn has_room_for<A: Answers>(answers: &A, more: u128) -> bool
    ensures { result ≡ nat_le (views.live_bytes (A.view answers.now) + more) max_live_bytes }
{
    u128::from(answers.live_bytes()).saturating_add(more) <= u128::from(MAX_LIVE_BYTES)
}

/// Whether one more command, with so many bytes of fields, is not too much to keep.
pub fn has_room_to_keep<A: Answers>(answers: &A, more: u128) -> bool
    ensures { let v = A.view answers.now in
        result ≡ (nat_le (views.commands_kept v + 1) max_kept_commands && nat_le (views.bytes_kept v + more) max_kept_bytes) }
{
    answers.commands_kept().saturating_add(1) <= MAX_KEPT_COMMANDS
        && u128::from(answers.bytes_kept()).saturating_add(more) <= u128::from(MAX_KEPT_BYTES)
}

/// Whether all of these are signalled.
pub fn all_signalled<A: Answers>(answers: &A, ids: &[u64]) -> bool
    ensures { result ≡ list_all (A.view answers.now).signalled ids.now }
{
    ids.iter().all(|id| answers.is_signalled(*id))
}

/// Whether some of these are signalled.
pub fn some_signalled<A: Answers>(answers: &A, ids: &[u64]) -> bool
    ensures { result ≡ list_any (A.view answers.now).signalled ids.now }
{
    ids.iter().any(|id| answers.is_signalled(*id))
}

/// Whether all images of a swapchain are acquired.
pub fn all_acquired<A: Answers>(answers: &A, swapchain: u64) -> bool
    ensures { let v = A.view answers.now in result ≡ list_all (v.acquired swapchain) (range_with_len 0 (views.images_in v swapchain)) }
{
    (0..answers.images_in(swapchain)).all(|index| answers.is_acquired(swapchain, index))
}

/// Whether the image of a swapchain at an index was fetched and has the layout of presents.
pub fn is_presentable<A: Answers>(answers: &A, swapchain: u64, index: u32) -> bool
    ensures { let v = A.view answers.now in result ≡ option_map_or (λ image. v.layout image == 1000001002) (views.image_at v swapchain index) false }
{
    match answers.fetched_at(swapchain, index as usize) {
        None => false,
        Some(image) => answers.layout_of(image) == 1_000_001_002,
    }
}

/// Whether a mapped range holds these bytes.
fn is_in_range(range: MapRange, offset: u64, length: u64) -> bool
    ensures { result ≡ words.range_holds offset length (range_of range) }
{
    range.offset <= offset
        && u128::from(offset) + u128::from(length)
            <= u128::from(range.offset) + u128::from(range.length)
}

/// Whether bytes lie in the mapped range, or in the section in the memory.
pub fn is_fill_in<A: Answers>(answers: &A, memory: u64, offset: u64, length: u64) -> bool
    ensures { let v = A.view answers.now in
        result ≡ (if is_some v.section then nat_le (offset + length) (views.size_of v memory) else option_map_or (words.range_holds offset length) (v.mapped memory) false) }
{
    if answers.section().is_some() {
        u128::from(offset) + u128::from(length) <= u128::from(answers.size_of(memory))
    } else {
        match answers.mapped(memory) {
            None => false,
            Some(range) => is_in_range(range, offset, length),
        }
    }
}
