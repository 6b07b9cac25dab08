//! Files that begin with a state section.

use gfx_outside::Outside;
use gfx_samples::cuts::{BEGIN, later_cut};
use gfx_samples::files::{NEXT_FRAME, ONE_FRAME, THREE_SHOWN, append, file_of};
use std::test::Fail;

const SHOWN: &[u8] =
    b"frame 2 3x1 R8_UINT ba7816bf8f01cfea414140de5dae2223b00361a396177a9cb410ff61f20015ad
frames 1
";

#[test]
fn the_frames_behind_a_section_begin_with_its_number(rt: HostRuntime) -> Result<(), Fail> {
    let file = later_cut(rt.alloc(), 2, &[&NEXT_FRAME])?;
    assert_eq!(rt; file.len(), 1310);
    let counts = b"version 1000.1\nblocks 27\ncalls 22\nframes 1\n";
    Outside::info(&file).ends(rt.alloc(), 0, counts, b"")?;
    Outside::replay(&file).ends(rt.alloc(), 0, SHOWN, b"")?;
    let words = ["replay", "--frames", "2-2"];
    Outside::of(&words, &file).ends(rt.alloc(), 0, SHOWN, b"")
}

#[test]
fn a_file_that_ends_inside_its_section_shows_no_frame(rt: HostRuntime) -> Result<(), Fail> {
    let file = later_cut(rt.alloc(), 2, &[&NEXT_FRAME])?;
    let cut = &file[..1066.min(file.len())];
    Outside::replay(cut).ends(rt.alloc(), 0, b"frames 0\n", b"")?;
    let words = ["replay", "--frames", "2-2"];
    let line = b"no such frame: the file has 2 to 1\n";
    Outside::of(&words, cut).ends(rt.alloc(), 4, b"", line)
}

#[test]
fn frames_before_a_section_are_not_there(rt: HostRuntime) -> Result<(), Fail> {
    let file = later_cut(rt.alloc(), 2, &[&NEXT_FRAME])?;
    let line = b"no such frame: the file has 2 to 2\n";
    let before = ["replay", "--frames", "1-2"];
    Outside::of(&before, &file).ends(rt.alloc(), 4, b"", line)?;
    let behind = ["replay", "--frames", "2-3"];
    Outside::of(&behind, &file).ends(rt.alloc(), 4, &SHOWN[..85], line)
}

#[test]
fn a_marker_behind_an_effect_is_out_of_order(rt: HostRuntime) -> Result<(), Fail> {
    let mut file = file_of(rt.alloc(), 1, &ONE_FRAME)?;
    append(rt.alloc(), &[BEGIN], &mut file)?;
    let line = b"bad block 23 at 1131: 10 StateOrder\n";
    Outside::replay(&file).ends(rt.alloc(), 3, &THREE_SHOWN[..85], line)?;
    let counts = b"version 1000.1\nblocks 23\ncalls 21\nframes 1\n";
    Outside::info(&file).ends(rt.alloc(), 0, counts, b"")
}
