//! A file that is cut behind each of its bytes.

use gfx_outside::Outside;
use gfx_samples::files::{shown_before, three_frames};
use std::process::Abort;
use std::test::Fail;

/// The sizes of the header of the file of three frames and of its blocks.
const SIZES: [usize; 31] = [
    16, 36, 40, 40, 40, 68, 52, 44, 48, 56, 51, 52, 56, 44, 52, 36, 52, 88, 52, 32, 64, 64, 48, 44,
    64, 64, 48, 44, 64, 64, 48,
];

/// Replays the file that has just the whole blocks of this prefix.
fn assert_whole(rt: &(impl Abort + AllocGlobal), front: &[u8]) -> Result<(), Fail> {
    let shown = shown_before(front.len());
    let mut text = Vec::from_slice(rt.alloc(), shown)?;
    let frames = shown.len() / 85;
    text.extend_from_slice(format!(in rt.alloc(); "frames {frames}\n")?.as_bytes())?;
    Outside::replay(front).ends(rt.alloc(), 0, &text, b"")
}

/// Replays the files that end inside this block, each behind one more of its bytes, and answers how many they are.
fn assert_cuts(
    rt: &(impl Abort + AllocGlobal),
    file: &[u8],
    block: usize,
    offset: usize,
) -> Result<usize, Fail> {
    let line = format!(in rt.alloc(); "bad block {block} at {offset}: 5 Truncated\n")?;
    let first = if block == 0 { 0 } else { 1 };
    for inside in first..SIZES[block.min(30)] {
        let end = offset.saturating_add(inside).min(file.len());
        let front = &file[..end];
        let outside = Outside::replay(front);
        outside.ends(rt.alloc(), 3, shown_before(end), line.as_bytes())?;
    }
    Ok(SIZES[block.min(30)].saturating_sub(first))
}

#[test]
fn a_file_that_is_cut_inside_a_block_is_bad_there(rt: HostRuntime) -> Result<(), Fail> {
    let file = three_frames(rt.alloc())?;
    let mut offset: usize = 0;
    let mut cuts: usize = 0;
    for (block, size) in SIZES.iter().enumerate() {
        let more = assert_cuts(&rt, &file, block, offset)?;
        cuts = cuts.saturating_add(more);
        offset = offset.saturating_add(*size);
    }
    assert_eq!(rt; cuts, 1541);
    assert_eq!(rt; offset, file.len());
    Ok(())
}

#[test]
fn a_file_that_is_cut_behind_a_block_ends_there(rt: HostRuntime) -> Result<(), Fail> {
    let file = three_frames(rt.alloc())?;
    let mut offset: usize = 0;
    for size in SIZES {
        offset = offset.saturating_add(size);
        assert_whole(&rt, &file[..offset.min(file.len())])?;
    }
    Ok(())
}
