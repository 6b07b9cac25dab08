//! What a section carries from the frames before a range to those of the range.

use gfx_outside::{Outside, PIXELS};
use gfx_samples::cuts::{MAPPED, STATES, cut_file, later_cut};
use gfx_samples::files::{NEXT_FRAME, ONE_FRAME, ONE_TEXEL, append, file_of, with_bytes};
use gfx_samples::variants::{
    BEGUN, ENDED, FAR_FILL, SIGNALLED, UNUSED, WAITED_FOR, bound_late, crossing, filled_twice,
    freed, signalled, sized, used,
};
use std::process::Abort;
use std::test::Fail;

/// Cuts a range out of a file, and compares the cut and the rows that are shown of it.
fn assert_cut<'a>(
    rt: &(impl Abort + AllocGlobal),
    file: &'a [u8],
    range: &'a str,
    cut: &[u8],
    shown: &[u8],
) -> Result<(), Fail> {
    let words = ["trim", range];
    Outside::of(&words, file).ends(rt.alloc(), 0, cut, b"")?;
    Outside::of(PIXELS, cut).ends(rt.alloc(), 0, shown, b"")
}

const SECOND: &[u8] =
    b"frame 2 3x1 R8_UINT ba7816bf8f01cfea414140de5dae2223b00361a396177a9cb410ff61f20015ad
616263
frames 1
";

/// Both command buffers of a pool.
const BOTH: &str = "3000000000000000040000001500000000000000000000000300000000000000\
    0a00000000000000020000000b000000000000000c00000000000000";

#[test]
fn a_recording_that_is_under_way_goes_on(rt: HostRuntime) -> Result<(), Fail> {
    let section = [
        &ONE_FRAME[..4],
        &[ONE_FRAME[7], ONE_FRAME[9], MAPPED],
        &ONE_FRAME[10..12],
        &ONE_FRAME[4..6],
        &STATES,
        &[ONE_FRAME[12], BOTH],
        &ONE_FRAME[14..19],
        &BEGUN[1..],
    ];
    let cut = cut_file(rt.alloc(), 2, &section, &[&ENDED, &NEXT_FRAME])?;
    assert_eq!(rt; cut.len(), 1386);
    assert_cut(&rt, &crossing(rt.alloc())?, "2-2", &cut, SECOND)
}

#[test]
fn a_buffer_of_freed_memory_is_unbound_and_its_users_are_initial(
    rt: HostRuntime,
) -> Result<(), Fail> {
    let section = [
        &ONE_FRAME[..4],
        &ONE_FRAME[10..11],
        &ONE_FRAME[4..6],
        &STATES,
        &ONE_FRAME[12..14],
    ];
    let cut = cut_file(
        rt.alloc(),
        3,
        &section,
        &[&NEXT_FRAME[..2], &NEXT_FRAME[3..]],
    )?;
    assert_eq!(rt; cut.len(), 775);
    let shown =
        b"frame 3 3x1 R8_UINT ba7816bf8f01cfea414140de5dae2223b00361a396177a9cb410ff61f20015ad
616263
frames 1
";
    assert_cut(&rt, &freed(rt.alloc())?, "3-3", &cut, shown)?;
    let counts = b"version 1000.1\nblocks 17\ncalls 13\nframes 1\n";
    Outside::info(&cut).ends(rt.alloc(), 0, counts, b"")
}

/// All 64 bytes of the memory 12 are mapped.
const UNUSED_MAPPED: &str =
    "2c00000000000000040000000a000000000000000000000003000000000000000c000000000000000000000000000000\
    4000000000000000";

#[test]
fn bytes_that_nothing_is_bound_to_are_there_for_a_later_frame(rt: HostRuntime) -> Result<(), Fail> {
    let section = [
        &ONE_FRAME[..4],
        &[ONE_FRAME[7], ONE_FRAME[9], MAPPED],
        &[UNUSED[0], UNUSED[2], UNUSED_MAPPED],
        &ONE_FRAME[10..12],
        &ONE_FRAME[4..6],
        &STATES,
        &ONE_FRAME[12..19],
    ];
    let file = bound_late(rt.alloc())?;
    let cut = cut_file(rt.alloc(), 2, &section, &[&NEXT_FRAME])?;
    assert_eq!(rt; cut.len(), 1465);
    assert_cut(&rt, &file, "2-2", &cut, SECOND)?;

    let cut = cut_file(rt.alloc(), 3, &section, &[&used(), &NEXT_FRAME])?;
    let shown =
        b"frame 3 3x1 R8_UINT 3608bca1e44ea6c4d268eb6db02260269892c0b42b86bbf1e77a6fa16c3c9282
78797a
frames 1
";
    assert_cut(&rt, &file, "3-3", &cut, shown)
}

/// The image of swapchain 22 is acquired.
const ACQUIRED: &str =
    "1c000000000000000300000004000000000000000000000016000000000000000100000001000000";

/// The semaphore 23 is signalled.
const IS_SIGNALLED: &str =
    "180000000000000003000000050000000000000000000000170000000000000001000000";

#[test]
fn a_signalled_semaphore_of_another_device_can_be_waited_for(rt: HostRuntime) -> Result<(), Fail> {
    let section = [
        &ONE_FRAME[..2],
        &SIGNALLED[..1],
        &ONE_FRAME[2..3],
        &SIGNALLED[1..2],
        &ONE_FRAME[3..4],
        &[ONE_FRAME[7], ONE_FRAME[9], MAPPED],
        &ONE_FRAME[10..12],
        &ONE_FRAME[4..6],
        &STATES[..2],
        &[SIGNALLED[2], ACQUIRED, STATES[2]],
        &[SIGNALLED[3], IS_SIGNALLED],
        &ONE_FRAME[12..19],
    ];
    let cut = cut_file(rt.alloc(), 2, &section, &[&WAITED_FOR, &NEXT_FRAME])?;
    assert_cut(&rt, &signalled(rt.alloc())?, "2-2", &cut, SECOND)
}

#[test]
fn the_zeros_of_a_large_memory_are_not_written(rt: HostRuntime) -> Result<(), Fail> {
    for size in [131_072, 134_217_728, 268_435_453] {
        let cut = later_cut(rt.alloc(), 2, &[&NEXT_FRAME])?;
        let bytes = u32::to_le_bytes(size);
        let cut = with_bytes(with_bytes(cut, 236, &bytes), 343, &bytes);
        assert_eq!(rt; cut.len(), 1310);
        assert_cut(&rt, &sized(rt.alloc(), size)?, "2-2", &cut, SECOND)?;
    }
    let file = sized(rt.alloc(), 268_435_454)?;
    let line = b"bad block 8 at 336: 28 LimitReached\n";
    Outside::of(&["trim", "2-2"], &file).ends(rt.alloc(), 3, b"", line)
}

#[test]
fn each_page_that_is_not_zero_is_filled(rt: HostRuntime) -> Result<(), Fail> {
    let section = [
        &ONE_FRAME[..4],
        &[ONE_FRAME[7], ONE_FRAME[9], FAR_FILL, MAPPED],
        &ONE_FRAME[10..12],
        &ONE_FRAME[4..6],
        &STATES,
        &ONE_FRAME[12..19],
    ];
    let cut = cut_file(rt.alloc(), 2, &section, &[&NEXT_FRAME])?;
    let bytes = 131_072_u32.to_le_bytes();
    let cut = with_bytes(with_bytes(cut, 236, &bytes), 392, &bytes);
    assert_eq!(rt; cut.len(), 1359);
    assert_cut(&rt, &filled_twice(rt.alloc())?, "2-2", &cut, SECOND)
}

/// The image has one byte, 0, and can be presented.
const EMPTY_TEXEL: &str = "21000000000000000300000003000000000000000000000006000000000000\
    00eacd9a3b010000000000000000";

#[test]
fn an_image_that_nothing_was_written_to_is_carried_too(rt: HostRuntime) -> Result<(), Fail> {
    let second = [&NEXT_FRAME[..2], &ONE_TEXEL[13..]];
    let mut file = file_of(rt.alloc(), 1, &ONE_TEXEL)?;
    for blocks in second {
        append(rt.alloc(), blocks, &mut file)?;
    }
    let section = [
        &ONE_TEXEL[..6],
        &[STATES[0], EMPTY_TEXEL, STATES[2]],
        &ONE_TEXEL[7..12],
    ];
    let cut = cut_file(rt.alloc(), 2, &section, &second)?;
    let shown =
        b"frame 2 1x1 R8_UINT 6e340b9cffb37a989ca544e6bb780a2c78901d3fb33738768511a30617afa01d
00
frames 1
";
    assert_cut(&rt, &file, "2-2", &cut, shown)?;
    let first = cut_file(rt.alloc(), 1, &[], &[&ONE_TEXEL])?;
    assert_eq!(rt; first.len(), 776);
    let shown =
        b"frame 1 1x1 R8_UINT 6e340b9cffb37a989ca544e6bb780a2c78901d3fb33738768511a30617afa01d
00
frames 1
";
    assert_cut(&rt, &file, "1-1", &first, shown)
}
