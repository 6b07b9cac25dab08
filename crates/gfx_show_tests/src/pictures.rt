//! Files that are made effect by effect, and what their commands do to the pixels of a frame.

use gfx_outside::{Outside, PIXELS};
use gfx_samples::files::{one_frame, three_frames};
use gfx_samples::made::{Made, PLAIN, Scene};
use gfx_samples::scenes::{LARGE, cleared, copied, filled, rows, updated};
use std::test::Fail;

#[test]
fn what_is_put_is_what_was_spelled_by_hand(rt: HostRuntime) -> Result<(), Fail> {
    let mut made = Made::of(rt.alloc(), PLAIN)?;
    made.copy_to_image(3, 1)?;
    made.show()?;
    assert_eq!(rt; made.bytes(), one_frame(rt.alloc())?.as_slice());
    made.show_again()?;
    made.show_again()?;
    assert_eq!(rt; made.bytes(), three_frames(rt.alloc())?.as_slice());
    Ok(())
}

#[test]
fn regions_of_a_copy_are_done_one_after_the_other(rt: HostRuntime) -> Result<(), Fail> {
    let mut made = copied(rt.alloc())?;
    made.show()?;
    let text =
        b"frame 1 8x1 R8_UINT 7ea7ee66da57f1206d1200159f2d45455ca8f0b45881b6292839a1a6fd20ceef
6162636463646768
frames 1
";
    Outside::of(PIXELS, made.bytes()).ends(rt.alloc(), 0, text, b"")
}

#[test]
fn a_fill_begins_with_the_lowest_byte_and_ends_at_a_multiple_of_4(
    rt: HostRuntime,
) -> Result<(), Fail> {
    let mut made = filled(rt.alloc())?;
    made.show()?;
    let text =
        b"frame 1 10x1 R8_UINT 3e2507b6994f877b2c764a45a541d5a898c4a55f1368d57667355e36c6f5740a
04030201040302010000
frames 1
";
    Outside::of(PIXELS, made.bytes()).ends(rt.alloc(), 0, text, b"")
}

#[test]
fn an_update_has_at_most_65536_bytes(rt: HostRuntime) -> Result<(), Fail> {
    let mut made = updated(rt.alloc())?;
    made.show()?;
    let text =
        b"frame 1 3x1 R8_UINT 17f165d5a5ba695f27c023a83aa2b3463e23810e360b7517127e90161eebabda
7a7a7a
frames 1
";
    Outside::of(PIXELS, made.bytes()).ends(rt.alloc(), 0, text, b"")?;

    let mut made = Made::of(rt.alloc(), LARGE)?;
    made.update(&[b'z'; 65_540])?;
    let line = b"bad block 17 at 783: 15 BadValue\n";
    Outside::replay(made.bytes()).ends(rt.alloc(), 3, b"", line)
}

#[test]
fn rows_of_four_bytes_a_texel_are_written_one_below_the_other(rt: HostRuntime) -> Result<(), Fail> {
    let mut made = rows(rt.alloc())?;
    made.show()?;
    let text =
        b"frame 1 7x2 B8G8R8A8_UNORM 248d6a61d20638b8e5c026930c3e6039a33ce45964ff2167f6ecedd419db06c1
6162636462636465636465666465666765666768666768696768696a
68696a6b696a6b6c6a6b6c6d6b6c6d6e6c6d6e6f6d6e6f706e6f7071
frames 1
";
    Outside::of(PIXELS, made.bytes()).ends(rt.alloc(), 0, text, b"")
}

#[test]
fn a_clear_stores_the_low_bits_of_a_component(rt: HostRuntime) -> Result<(), Fail> {
    let mut made = cleared(rt.alloc())?;
    made.show()?;
    let text =
        b"frame 1 1x1 R8_UINT 6e340b9cffb37a989ca544e6bb780a2c78901d3fb33738768511a30617afa01d
00
frames 1
";
    Outside::of(PIXELS, made.bytes()).ends(rt.alloc(), 0, text, b"")
}

#[test]
fn a_clear_asks_for_a_format_of_whole_numbers(rt: HostRuntime) -> Result<(), Fail> {
    let mut made = Made::of(
        rt.alloc(),
        Scene {
            format: 37,
            width: 1,
            ..PLAIN
        },
    )?;
    made.clear(256)?;
    let line = b"bad block 17 at 783: 24 FormatDiffers\n";
    Outside::replay(made.bytes()).ends(rt.alloc(), 3, b"", line)
}

#[test]
fn a_region_wider_than_the_image_is_out_of_range(rt: HostRuntime) -> Result<(), Fail> {
    let mut made = Made::of(rt.alloc(), PLAIN)?;
    made.copy_to_image(4, 1)?;
    let line = b"bad block 17 at 783: 16 OutOfRange\n";
    Outside::replay(made.bytes()).ends(rt.alloc(), 3, b"", line)
}
