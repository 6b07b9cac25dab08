//! Files that `replay` shows, or names the first bad block of.

use gfx_outside::Outside;
use gfx_samples::files::{
    ENDS, NEXT_FRAME, ONE_FRAME, ONE_TEXEL, THREE_SHOWN, append, file_of, one_frame, three_frames,
    with_bytes,
};
use std::test::Fail;

/// What replay writes of the file of one frame, with its pixels.
const WITH_PIXELS: &[u8] =
    b"frame 1 3x1 R8_UINT ba7816bf8f01cfea414140de5dae2223b00361a396177a9cb410ff61f20015ad
616263
frames 1
";

/// What it writes of the file of one texel.
const TEXEL: &[u8] =
    b"frame 1 1x1 R8_UINT 6e340b9cffb37a989ca544e6bb780a2c78901d3fb33738768511a30617afa01d
frames 1
";

#[test]
fn a_header_alone_shows_no_frame(rt: HostRuntime) -> Result<(), Fail> {
    let line = b"bad block 0 at 0: 5 Truncated\n";
    Outside::replay(b"").ends(rt.alloc(), 3, b"", line)?;
    let header = file_of(rt.alloc(), 1, &[])?;
    assert_eq!(rt; header.len(), 16);
    Outside::replay(&header).ends(rt.alloc(), 0, b"frames 0\n", b"")
}

#[test]
fn each_frame_has_a_line_and_with_pixels_its_rows(rt: HostRuntime) -> Result<(), Fail> {
    let file = one_frame(rt.alloc())?;
    assert_eq!(rt; file.len(), ENDS[0]);
    let pixels = ["replay", "--pixels"].as_slice();
    Outside::of(pixels, &file).ends(rt.alloc(), 0, WITH_PIXELS, b"")?;
    let texel = file_of(rt.alloc(), 1, &ONE_TEXEL)?;
    Outside::replay(&texel).ends(rt.alloc(), 0, TEXEL, b"")
}

#[test]
fn three_frames_are_shown_in_any_cutting(rt: HostRuntime) -> Result<(), Fail> {
    let file = three_frames(rt.alloc())?;
    assert_eq!(rt; file.len(), ENDS[2]);
    for most in [1, 7, 4096] {
        let outside = Outside::replay(&file).at_most(most);
        outside.ends(rt.alloc(), 0, THREE_SHOWN, b"")?;
    }
    Ok(())
}

#[test]
fn frames_before_a_bad_block_are_shown(rt: HostRuntime) -> Result<(), Fail> {
    let file = three_frames(rt.alloc())?;
    let line = b"bad block 30 at 1523: 5 Truncated\n";
    let shown = &THREE_SHOWN[..170];
    Outside::replay(&file[..1528.min(file.len())]).ends(rt.alloc(), 3, shown, line)
}

#[test]
fn the_first_broken_step_of_a_header_or_a_block_is_named(rt: HostRuntime) -> Result<(), Fail> {
    for (place, bytes, line) in [
        (
            4,
            [0, 0].as_slice(),
            b"bad block 0 at 0: 2 BadVersion\n".as_slice(),
        ),
        (
            8,
            [3].as_slice(),
            b"bad block 0 at 0: 2 BadVersion\n".as_slice(),
        ),
        (
            27,
            [0x80].as_slice(),
            b"bad block 1 at 16: 4 Compressed\n".as_slice(),
        ),
    ] {
        let file = with_bytes(one_frame(rt.alloc())?, place, bytes);
        Outside::replay(&file).ends(rt.alloc(), 3, b"", line)?;
    }
    let compressed = b"GFXR\xe8\x03\0\0\x01\0\0\0\x01\0\0\0\x01\0\0\0\x01\0\0\0";
    let line = b"bad block 0 at 0: 4 Compressed\n";
    Outside::replay(compressed).ends(rt.alloc(), 3, b"", line)
}

#[test]
fn a_byte_left_over_is_bad_parameters(rt: HostRuntime) -> Result<(), Fail> {
    let mut file = with_bytes(one_frame(rt.alloc())?, 1083, &[37]);
    file.push(0)?;
    let line = b"bad block 22 at 1083: 8 BadParams\n";
    Outside::replay(&file).ends(rt.alloc(), 3, b"", line)?;
    Outside::info(&file).ends(rt.alloc(), 3, b"", line)
}

#[test]
fn a_layout_that_differs_is_named(rt: HostRuntime) -> Result<(), Fail> {
    let mut file = file_of(rt.alloc(), 1, &ONE_TEXEL[..10])?;
    append(rt.alloc(), &ONE_TEXEL[11..], &mut file)?;
    let line = b"bad block 14 at 628: 23 LayoutDiffers\n";
    Outside::replay(&file).ends(rt.alloc(), 3, b"", line)
}

#[test]
fn a_recording_that_ends_twice_is_named(rt: HostRuntime) -> Result<(), Fail> {
    let mut file = file_of(rt.alloc(), 1, &ONE_FRAME[..19])?;
    append(rt.alloc(), &ONE_FRAME[18..], &mut file)?;
    let line = b"bad block 20 at 955: 21 CommandState\n";
    Outside::replay(&file).ends(rt.alloc(), 3, b"", line)
}

#[test]
fn a_fence_that_is_still_signalled_is_named(rt: HostRuntime) -> Result<(), Fail> {
    // The next frame without the reset of its fence.
    let mut file = one_frame(rt.alloc())?;
    append(rt.alloc(), &NEXT_FRAME[1..], &mut file)?;
    let line = b"bad block 23 at 1131: 25 SignalState\n";
    let shown = &THREE_SHOWN[..85];
    Outside::replay(&file).ends(rt.alloc(), 3, shown, line)
}

#[test]
fn a_queue_that_is_not_there_is_named(rt: HostRuntime) -> Result<(), Fail> {
    // A wait for the queue 3, which is the device.
    let mut file = one_frame(rt.alloc())?;
    let wait = "1400000000000000040000002a00000000000000000000000300000000000000";
    append(rt.alloc(), &[wait], &mut file)?;
    let line = b"bad block 23 at 1131: 11 NotLive\n";
    Outside::replay(&file).ends(rt.alloc(), 3, &THREE_SHOWN[..85], line)
}
