//! Files of minor version 2, whose presents name several swapchains.

use gfx_outside::Outside;
use gfx_samples::files::{TWO_IMAGES, file_of, one_frame, with_bytes};
use std::test::Fail;

const SHOWN: &[u8] =
    b"frame 1.1 1x1 R8_UINT 6e340b9cffb37a989ca544e6bb780a2c78901d3fb33738768511a30617afa01d
frame 1.2 1x1 R8_UINT 6e340b9cffb37a989ca544e6bb780a2c78901d3fb33738768511a30617afa01d
frames 1
";

const WITH_PIXELS: &[u8] =
    b"frame 1.1 1x1 R8_UINT 6e340b9cffb37a989ca544e6bb780a2c78901d3fb33738768511a30617afa01d
00
frame 1.2 1x1 R8_UINT 6e340b9cffb37a989ca544e6bb780a2c78901d3fb33738768511a30617afa01d
00
frames 1
";

const COUNTS: &[u8] = b"version 1000.2\nblocks 20\ncalls 20\nframes 1\n";

#[test]
fn a_frame_has_a_line_for_each_of_its_images(rt: HostRuntime) -> Result<(), Fail> {
    let file = file_of(rt.alloc(), 2, &TWO_IMAGES)?;
    assert_eq!(rt; file.len(), 1028);
    Outside::info(&file).ends(rt.alloc(), 0, COUNTS, b"")?;
    Outside::replay(&file).ends(rt.alloc(), 0, SHOWN, b"")?;
    let pixels = ["replay", "--pixels"].as_slice();
    Outside::of(pixels, &file).ends(rt.alloc(), 0, WITH_PIXELS, b"")
}

#[test]
fn a_swapchain_that_stands_twice_is_a_bad_value(rt: HostRuntime) -> Result<(), Fail> {
    // The swapchain of the second present.
    let file = with_bytes(file_of(rt.alloc(), 2, &TWO_IMAGES)?, 1016, &[5]);
    let line = b"bad block 20 at 964: 15 BadValue\n";
    Outside::replay(&file).ends(rt.alloc(), 3, b"", line)?;
    Outside::info(&file).ends(rt.alloc(), 0, COUNTS, b"")
}

#[test]
fn a_present_of_nothing_is_a_bad_value(rt: HostRuntime) -> Result<(), Fail> {
    let mut file = file_of(rt.alloc(), 2, &TWO_IMAGES)?;
    file.truncate(1004);
    let file = with_bytes(with_bytes(file, 964, &[28]), 1000, &[0]);
    let line = b"bad block 20 at 964: 15 BadValue\n";
    Outside::replay(&file).ends(rt.alloc(), 3, b"", line)?;
    Outside::info(&file).ends(rt.alloc(), 0, COUNTS, b"")
}

#[test]
fn a_present_of_version_1_is_none_of_version_2(rt: HostRuntime) -> Result<(), Fail> {
    let file = with_bytes(one_frame(rt.alloc())?, 8, &[2]);
    let line = b"bad block 22 at 1083: 8 BadParams\n";
    Outside::replay(&file).ends(rt.alloc(), 3, b"", line)?;
    Outside::info(&file).ends(rt.alloc(), 3, b"", line)
}

#[test]
fn a_file_of_minor_version_3_is_refused(rt: HostRuntime) -> Result<(), Fail> {
    let file = with_bytes(one_frame(rt.alloc())?, 8, &[3]);
    let line = b"bad block 0 at 0: 2 BadVersion\n";
    Outside::replay(&file).ends(rt.alloc(), 3, b"", line)?;
    Outside::info(&file).ends(rt.alloc(), 3, b"", line)
}
