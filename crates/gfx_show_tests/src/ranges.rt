//! Frames that `replay` is asked for by their numbers.

use gfx_outside::{Ended, Outside};
use gfx_samples::files::{THREE_SHOWN, file_of, three_frames};
use std::alloc::Global;
use std::process::Abort;
use std::test::Fail;

const NOTHING_THERE: &[u8] = b"no such frame: the file has 1 to 3\n";

/// How a run over a range is to end: its status, its text in pieces, its notes, and how many bytes it leaves.
type End<'a> = (u8, &'a [&'a [u8]], &'a [u8], usize);

fn assert_end(
    rt: &impl Abort,
    range: &str,
    ended: &Ended,
    (status, text, notes, left): (u8, &[u8], &[u8], usize),
) {
    assert_eq!(rt; ended.notes.as_slice(), notes, "of {range}");
    assert_eq!(rt; ended.text.as_slice(), text, "of {range}");
    assert_eq!(rt; (ended.status, ended.left), (status, left), "of {range}");
}

/// Replays these frames of the file of three, and compares how it ends and how many bytes it leaves.
fn assert_range(
    rt: &(impl Abort + AllocGlobal),
    range: &str,
    (status, shown, notes, left): End<'_>,
) -> Result<(), Fail> {
    let file = three_frames(rt.alloc())?;
    let text = joined(rt.alloc(), shown)?;
    let words = ["replay", "--frames", range];
    for most in [7, 4096] {
        let ended = Outside::of(&words, &file).at_most(most).run(rt.alloc())?;
        assert_end(rt, range, &ended, (status, text.as_slice(), notes, left));
    }
    Ok(())
}

fn joined(alloc: Global, pieces: &[&[u8]]) -> Result<Vec<u8>, Fail> {
    let mut text = Vec::new(alloc);
    for piece in pieces {
        text.extend_from_slice(*piece)?;
    }
    Ok(text)
}

#[test]
fn the_frames_of_a_range_are_shown(rt: HostRuntime) -> Result<(), Fail> {
    let shown = [&THREE_SHOWN[85..255], b"frames 2\n".as_slice()];
    assert_range(&rt, "2-3", (0, &shown, b"", 0))?;
    let shown = [&THREE_SHOWN[85..170], b"frames 1\n".as_slice()];
    assert_range(&rt, "2-2", (0, &shown, b"", 220))
}

#[test]
fn what_stands_behind_the_last_frame_stays_unread(rt: HostRuntime) -> Result<(), Fail> {
    let shown = [&THREE_SHOWN[..170], b"frames 2\n".as_slice()];
    assert_range(&rt, "1-2", (0, &shown, b"", 220))?;
    let shown = [&THREE_SHOWN[..85], b"frames 1\n".as_slice()];
    assert_range(&rt, "1-1", (0, &shown, b"", 440))
}

#[test]
fn a_range_past_the_last_frame_shows_those_that_are_there(rt: HostRuntime) -> Result<(), Fail> {
    let shown = [&THREE_SHOWN[170..255]];
    assert_range(&rt, "3-4", (4, &shown, NOTHING_THERE, 0))?;
    assert_range(&rt, "4-4", (4, &[], NOTHING_THERE, 0))
}

#[test]
fn a_range_from_before_the_first_frame_shows_nothing(rt: HostRuntime) -> Result<(), Fail> {
    for range in ["0-0", "0-1", "0-3", "0-18446744073709551615"] {
        assert_range(&rt, range, (4, &[], NOTHING_THERE, 0))?;
    }
    Ok(())
}

#[test]
fn a_file_without_frames_has_none_of_any_range(rt: HostRuntime) -> Result<(), Fail> {
    let header = file_of(rt.alloc(), 1, &[])?;
    let line = b"no such frame: the file has 1 to 0\n";
    let words = ["replay", "--frames", "1-1"];
    Outside::of(&words, &header).ends(rt.alloc(), 4, b"", line)
}
