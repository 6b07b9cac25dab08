//! The file of three frames, with more in it.

use crate::files::{NEXT_FRAME, ONE_FRAME, append, file_of, one_frame, three_frames, with_bytes};
use std::alloc::Global;
use std::test::Fail;

/// A command buffer 12 whose recording begins, and where it ends.
pub const BEGUN: [&str; 2] = [
    "28000000000000000400000015000000000000000000000003000000000000000a00000000000000010000000c00000000000000",
    "1800000000000000040000001700000000000000000000000c0000000000000000000000",
];

pub const ENDED: [&str; 1] = ["1400000000000000040000001800000000000000000000000c00000000000000"];

/// The memory of the file of one frame is freed.
const FREED: &str =
    "1c000000000000000400000009000000000000000000000003000000000000000800000000000000";

/// A memory 12 of 64 bytes that is mapped whole and begins with `xyz`.
pub const UNUSED: [&str; 3] = [
    "24000000000000000400000008000000000000000000000003000000000000000c000000000000004000000000000000",
    "2c00000000000000040000000a000000000000000000000003000000000000000c000000000000000000000000000000ffffffffffffffff",
    "2700000000000000030000000200000000000000000000000c000000000000000000000000000000030000000000000078797a",
];

/// A buffer 13 over it.
const BOUND: [&str; 2] = [
    "2800000000000000040000000c000000000000000000000003000000000000000d00000000000000100000000000000001000000",
    "2c00000000000000040000000e000000000000000000000003000000000000000d000000000000000c000000000000000000000000000000",
];

/// A copy from that buffer to the image.
const COPIED: &str =
    "4c00000000000000040000001f00000000000000000000000b000000000000000d00000000000000060000000000000007000000010000000000000000000000000000000000000000000000000000000300000001000000";

/// A surface 21, a device 20, its swapchain 22, whose images stay unknown, and a semaphore 23, which an acquire of image 0 signals.
pub const SIGNALLED: [&str; 5] = [
    "1c000000000000000400000003000000000000000000000001000000000000001500000000000000",
    "1c000000000000000400000005000000000000000000000001000000000000001400000000000000",
    "3800000000000000040000002c0000000000000000000000140000000000000016000000000000001500000000000000010000000d000000030000000100000003000000",
    "1c000000000000000400000027000000000000000000000014000000000000001700000000000000",
    "3400000000000000040000002f000000000000000000000014000000000000001600000000000000170000000000000000000000000000000000000000000000",
];

/// The queue 24 of that device, and a submit that waits for the semaphore.
pub const WAITED_FOR: [&str; 2] = [
    "1c000000000000000400000007000000000000000000000014000000000000001800000000000000",
    "34000000000000000400000029000000000000000000000018000000000000000100000001000000170000000000000000000000000000000000000000000000",
];

/// A fill of byte 70,000 of the memory by `d`.
pub const FAR_FILL: &str =
    "25000000000000000300000002000000000000000000000008000000000000007011010000000000010000000000000064";

/// The buffer 13, and the command buffer is recorded anew and copies from there.
pub fn used() -> [&'static str; 7] {
    [
        BOUND[0],
        BOUND[1],
        ONE_FRAME[14],
        ONE_FRAME[15],
        COPIED,
        ONE_FRAME[17],
        ONE_FRAME[18],
    ]
}

/// The file of three frames, with these blocks in frame 1 before its image is acquired, and at the starts of frames 2 and 3.
fn with_more(
    alloc: Global,
    first: &[&str],
    second: &[&str],
    third: &[&str],
) -> Result<Vec<u8>, Fail> {
    let mut file = file_of(alloc, 1, &ONE_FRAME[..19])?;
    append(alloc, first, &mut file)?;
    append(alloc, &ONE_FRAME[19..], &mut file)?;
    append(alloc, second, &mut file)?;
    append(alloc, &NEXT_FRAME, &mut file)?;
    append(alloc, third, &mut file)?;
    append(alloc, &NEXT_FRAME, &mut file)?;
    Ok(file)
}

/// The recording of another buffer begins in frame 1 and ends in frame 2.
pub fn crossing(alloc: Global) -> Result<Vec<u8>, Fail> {
    with_more(alloc, &BEGUN, &ENDED, &[])
}

/// Frame 2 frees the memory, and the image is shown as it is.
pub fn freed(alloc: Global) -> Result<Vec<u8>, Fail> {
    let mut file = one_frame(alloc)?;
    append(alloc, &[FREED], &mut file)?;
    for _ in 0..2 {
        append(alloc, &NEXT_FRAME[..2], &mut file)?;
        append(alloc, &NEXT_FRAME[3..], &mut file)?;
    }
    Ok(file)
}

/// Frame 1 fills a memory, and nothing is bound to it before frame 3.
pub fn bound_late(alloc: Global) -> Result<Vec<u8>, Fail> {
    with_more(alloc, &UNUSED, &[], &used())
}

/// A semaphore of another device is signalled in frame 1, and frame 2 waits for it.
pub fn signalled(alloc: Global) -> Result<Vec<u8>, Fail> {
    with_more(alloc, &SIGNALLED, &WAITED_FOR, &[])
}

/// The memory has this size.
pub fn sized(alloc: Global, size: u32) -> Result<Vec<u8>, Fail> {
    let size = size.to_le_bytes();
    Ok(with_bytes(three_frames(alloc)?, 376, &size))
}

/// The memory has 131,072 bytes, and one far behind the others is filled too.
pub fn filled_twice(alloc: Global) -> Result<Vec<u8>, Fail> {
    let mut file = file_of(alloc, 1, &ONE_FRAME[..10])?;
    append(alloc, &[FAR_FILL], &mut file)?;
    append(alloc, &ONE_FRAME[10..], &mut file)?;
    append(alloc, &NEXT_FRAME, &mut file)?;
    append(alloc, &NEXT_FRAME, &mut file)?;
    Ok(with_bytes(file, 376, &131_072_u32.to_le_bytes()))
}
