//! Ranges that `trim` cuts out of the file of three frames.

use gfx_outside::{Ended, Outside, trim};
use gfx_samples::cuts::{cut_file, first_cut, later_cut};
use gfx_samples::files::{
    NEXT_FRAME, ONE_FRAME, THREE_SHOWN, TWO_IMAGES, append, file_of, one_frame, three_frames,
    with_bytes,
};
use std::process::Abort;
use std::test::Fail;

const NOTHING_THERE: &[u8] = b"no such frame: the file has 1 to 3\n";

/// An annotation of three bytes, which is skipped.
const SKIPPED: &str = "030000000000000005000000646566";

/// How a cut ended, and how many bytes it left.
fn assert_end(
    rt: &impl Abort,
    range: &str,
    ended: &Ended,
    (status, cut, notes): (u8, &[u8], &[u8]),
    left: usize,
) {
    assert_eq!(rt; ended.notes.as_slice(), notes, "of {range}");
    assert_eq!(rt; ended.text.as_slice(), cut, "of {range}");
    assert_eq!(rt; (ended.status, ended.left), (status, left), "of {range}");
}

/// Cuts a range out of a file, in any cutting, and compares how it ends and how many bytes it leaves.
fn assert_ends<'a>(
    rt: &(impl Abort + AllocGlobal),
    range: &'a str,
    file: &'a [u8],
    end: (u8, &[u8], &[u8]),
    left: usize,
) -> Result<(), Fail> {
    let words = ["trim", range];
    for most in [1, 7, 4096] {
        let ended = Outside::of(&words, file).at_most(most).run(rt.alloc())?;
        assert_end(rt, range, &ended, end, left);
    }
    Ok(())
}

/// Replays a cut, and compares the lines of its frames.
fn assert_shows(
    rt: &(impl Abort + AllocGlobal),
    cut: &[u8],
    shown: &[u8],
    last_line: &[u8],
) -> Result<(), Fail> {
    let mut text = Vec::from_slice(rt.alloc(), shown)?;
    text.extend_from_slice(last_line)?;
    Outside::replay(cut).ends(rt.alloc(), 0, &text, b"")
}

#[test]
fn a_frame_is_cut_out_behind_the_state_before_it(rt: HostRuntime) -> Result<(), Fail> {
    let file = three_frames(rt.alloc())?;
    let cut = later_cut(rt.alloc(), 2, &[&NEXT_FRAME])?;
    assert_eq!(rt; cut.len(), 1310);
    assert_eq!(rt; cut.as_slice().get(1090..), file.as_slice().get(1131..1351));
    assert_ends(&rt, "2-2", &file, (0, &cut, b""), 220)?;
    let counts = b"version 1000.1\nblocks 27\ncalls 22\nframes 1\n";
    Outside::info(&cut).ends(rt.alloc(), 0, counts, b"")?;
    assert_shows(&rt, &cut, &THREE_SHOWN[85..170], b"frames 1\n")
}

#[test]
fn the_first_frame_is_cut_out_with_all_that_stands_before_it(rt: HostRuntime) -> Result<(), Fail> {
    let file = three_frames(rt.alloc())?;
    let cut = first_cut(rt.alloc(), &[])?;
    assert_eq!(rt; cut.len(), 1179);
    assert_ends(&rt, "1-1", &file, (0, &cut, b""), 440)?;
    assert_shows(&rt, &cut, &THREE_SHOWN[..85], b"frames 1\n")
}

#[test]
fn several_frames_are_cut_out_together(rt: HostRuntime) -> Result<(), Fail> {
    let file = three_frames(rt.alloc())?;
    let cut = later_cut(rt.alloc(), 2, &[&NEXT_FRAME, &NEXT_FRAME])?;
    assert_eq!(rt; cut.len(), 1530);
    assert_ends(&rt, "2-3", &file, (0, &cut, b""), 0)?;
    assert_shows(&rt, &cut, &THREE_SHOWN[85..255], b"frames 2\n")?;

    let all = first_cut(rt.alloc(), &[&NEXT_FRAME, &NEXT_FRAME])?;
    assert_ends(&rt, "1-3", &file, (0, &all, b""), 0)?;
    assert_shows(&rt, &all, &THREE_SHOWN[..255], b"frames 3\n")
}

#[test]
fn a_cut_of_a_cut_is_the_cut_of_the_whole(rt: HostRuntime) -> Result<(), Fail> {
    let file = three_frames(rt.alloc())?;
    let cut = later_cut(rt.alloc(), 3, &[&NEXT_FRAME])?;
    assert_eq!(rt; cut.len(), 1310);
    assert_ends(&rt, "3-3", &file, (0, &cut, b""), 0)?;
    let two = trim(rt.alloc(), "2-3", &file)?;
    assert_ends(&rt, "3-3", &two.text, (0, &cut, b""), 0)?;
    assert_shows(&rt, &cut, &THREE_SHOWN[170..255], b"frames 1\n")
}

#[test]
fn a_range_that_ends_past_the_last_frame_is_written_as_far_as_it_goes(
    rt: HostRuntime,
) -> Result<(), Fail> {
    let file = three_frames(rt.alloc())?;
    let cut = later_cut(rt.alloc(), 2, &[&NEXT_FRAME, &NEXT_FRAME])?;
    assert_eq!(rt; cut.len(), 1530);
    assert_ends(&rt, "2-4", &file, (4, &cut, NOTHING_THERE), 0)?;
    let cut = later_cut(rt.alloc(), 3, &[&NEXT_FRAME])?;
    assert_ends(&rt, "3-4", &file, (4, &cut, NOTHING_THERE), 0)
}

#[test]
fn nothing_is_written_of_a_range_without_an_effect(rt: HostRuntime) -> Result<(), Fail> {
    let file = three_frames(rt.alloc())?;
    for range in ["4-4", "5-18446744073709551615"] {
        assert_ends(&rt, range, &file, (4, b"", NOTHING_THERE), 0)?;
    }
    // Of frame 4 there is a block alone that is skipped.
    let mut file = file;
    append(rt.alloc(), &[SKIPPED], &mut file)?;
    assert_ends(&rt, "4-4", &file, (4, b"", NOTHING_THERE), 0)
}

#[test]
fn nothing_is_written_of_a_range_from_before_the_first_frame(rt: HostRuntime) -> Result<(), Fail> {
    let file = three_frames(rt.alloc())?;
    for range in ["0-0", "0-1", "0-3", "0-4"] {
        assert_ends(&rt, range, &file, (4, b"", NOTHING_THERE), 0)?;
    }
    let cut = later_cut(rt.alloc(), 2, &[&NEXT_FRAME])?;
    let line = b"no such frame: the file has 2 to 2\n";
    assert_ends(&rt, "1-2", &cut, (4, b"", line), 0)?;
    let header = file_of(rt.alloc(), 1, &[])?;
    let line = b"no such frame: the file has 1 to 0\n";
    assert_ends(&rt, "1-1", &header, (4, b"", line), 0)
}

#[test]
fn the_blocks_of_the_range_before_a_bad_one_are_written(rt: HostRuntime) -> Result<(), Fail> {
    let file = three_frames(rt.alloc())?;
    let line = b"bad block 30 at 1523: 5 Truncated\n";
    let cut = later_cut(rt.alloc(), 2, &[&NEXT_FRAME, &NEXT_FRAME[..3]])?;
    assert_eq!(rt; cut.len(), 1482);
    let damaged = &file[..1570.min(file.len())];
    assert_ends(&rt, "2-3", damaged, (3, &cut, line), 0)?;
    assert_ends(&rt, "4-4", damaged, (3, b"", line), 0)?;
    // What follows the range is not read.
    let cut = later_cut(rt.alloc(), 2, &[&NEXT_FRAME])?;
    assert_ends(&rt, "2-2", damaged, (0, &cut, b""), 219)
}

#[test]
fn nothing_is_written_where_the_first_effect_of_a_range_is_bad(
    rt: HostRuntime,
) -> Result<(), Fail> {
    // An acquire that signals a fence which is signalled.
    let mut file = one_frame(rt.alloc())?;
    append(rt.alloc(), &NEXT_FRAME[1..], &mut file)?;
    let line = b"bad block 23 at 1131: 25 SignalState\n";
    assert_ends(&rt, "2-2", &file, (3, b"", line), 112)
}

#[test]
fn skipped_blocks_of_a_range_are_kept(rt: HostRuntime) -> Result<(), Fail> {
    let mut file = one_frame(rt.alloc())?;
    for blocks in [&[SKIPPED], &NEXT_FRAME[..2], &[SKIPPED], &NEXT_FRAME[2..]] {
        append(rt.alloc(), blocks, &mut file)?;
    }
    let cut = later_cut(
        rt.alloc(),
        2,
        &[&[SKIPPED], &NEXT_FRAME[..2], &[SKIPPED], &NEXT_FRAME[2..]],
    )?;
    assert_ends(&rt, "2-2", &file, (0, &cut, b""), 0)?;
    let first = first_cut(rt.alloc(), &[])?;
    assert_ends(&rt, "1-1", &file, (0, &first, b""), 250)
}

#[test]
fn a_cut_has_the_minor_version_of_its_file(rt: HostRuntime) -> Result<(), Fail> {
    let file = file_of(rt.alloc(), 2, &TWO_IMAGES)?;
    let cut = cut_file(rt.alloc(), 1, &[], &[&TWO_IMAGES])?;
    assert_eq!(rt; cut.len(), 1076);
    let cut = with_bytes(cut, 8, &[2]);
    assert_ends(&rt, "1-1", &file, (0, &cut, b""), 0)
}

#[test]
fn a_cut_has_no_options(rt: HostRuntime) -> Result<(), Fail> {
    // A header with the option 7 = 1.
    let mut file = with_bytes(file_of(rt.alloc(), 1, &[])?, 12, &[1]);
    file.extend_from_slice(b"\x07\0\0\0\x01\0\0\0")?;
    append(rt.alloc(), &ONE_FRAME, &mut file)?;
    append(rt.alloc(), &NEXT_FRAME, &mut file)?;
    let cut = later_cut(rt.alloc(), 2, &[&NEXT_FRAME])?;
    assert_ends(&rt, "2-2", &file, (0, &cut, b""), 0)
}
