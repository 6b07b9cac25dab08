//! Whole files, their fronts, damaged files, and files that have more frames than are kept.

use gfx_make::make_file;
use gfx_outside::{Ended, Outside};
use gfx_samples::cuts::later_cut;
use gfx_samples::files::{
    NEXT_FRAME, ONE_FRAME, ONE_TEXEL, THREE_SHOWN, TWO_IMAGES, append, file_of, three_frames,
    with_bytes,
};
use gfx_samples::variants::{bound_late, crossing, filled_twice, freed, signalled};
use std::alloc::Global;
use std::test::Fail;
use std::thread::Threads;

const DIGESTS: &[&str] = &["digests"];

/// What a run left is what another left.
fn same(one: &Ended, other: &Ended) -> Result<(), Fail> {
    if one.status != other.status {
        return Err(Fail::new("another status"));
    }
    if one.text.as_slice() != other.text.as_slice() {
        return Err(Fail::new("another text"));
    }
    if one.notes.as_slice() != other.notes.as_slice() {
        return Err(Fail::new("other notes"));
    }
    Ok(())
}

/// `digests` of a file ends as its `replay`. Answers the status.
fn ends_as_replay<R: Threads + Sync>(rt: &R, alloc: Global, file: &[u8]) -> Result<u8, Fail> {
    let ended = Outside::of(DIGESTS, file).fan(rt, alloc)?;
    same(&ended, &Outside::replay(file).run(alloc)?)?;
    Ok(ended.status)
}

#[test]
fn three_frames_are_shown(rt: HostRuntime) -> Result<(), Fail> {
    let file = three_frames(rt.alloc())?;
    let ended = Outside::of(DIGESTS, &file).fan(&rt, rt.alloc())?;
    assert_eq!(rt; ended.status, 0);
    assert!(rt; ended.text.as_slice() == THREE_SHOWN);
    Ok(())
}

#[test]
fn files_end_as_their_replays(rt: HostRuntime) -> Result<(), Fail> {
    let files = [
        file_of(rt.alloc(), 1, &ONE_TEXEL)?,
        file_of(rt.alloc(), 2, &TWO_IMAGES)?,
        later_cut(rt.alloc(), 2, &[&NEXT_FRAME])?,
        bound_late(rt.alloc())?,
        crossing(rt.alloc())?,
        filled_twice(rt.alloc())?,
        freed(rt.alloc())?,
        signalled(rt.alloc())?,
    ];
    for file in &files {
        assert_eq!(rt; ends_as_replay(&rt, rt.alloc(), file)?, 0);
    }
    Ok(())
}

#[test]
fn each_front_ends_as_its_replay(rt: HostRuntime) -> Result<(), Fail> {
    let files = [
        three_frames(rt.alloc())?,
        file_of(rt.alloc(), 2, &TWO_IMAGES)?,
    ];
    for file in &files {
        for length in 0..file.len() {
            ends_as_replay(&rt, rt.alloc(), &file[..length])?;
        }
    }
    Ok(())
}

#[test]
fn large_frames_end_as_their_replay(rt: HostRuntime) -> Result<(), Fail> {
    let file = make_file(rt.alloc(), 60)?;
    assert_eq!(rt; ends_as_replay(&rt, rt.alloc(), &file)?, 0);
    Ok(())
}

#[test]
fn damaged_files_end_as_their_replays(rt: HostRuntime) -> Result<(), Fail> {
    for at in 0..three_frames(rt.alloc())?.len() {
        let file = with_bytes(three_frames(rt.alloc())?, at, &[0xa5]);
        ends_as_replay(&rt, rt.alloc(), &file)?;
    }
    Ok(())
}

/// The file of one frame, in which the payloads of two blocks have a byte left over.
fn with_bytes_left_over(alloc: Global, two: [usize; 2]) -> Result<Vec<u8>, Fail> {
    let mut file = file_of(alloc, 1, &[])?;
    for (index, block) in ONE_FRAME.iter().enumerate() {
        let at = file.len();
        append(alloc, &[block], &mut file)?;
        if two.contains(&index) {
            if let Some(size) = file.get_mut(at) {
                *size = size.wrapping_add(1);
            }
            file.push(0)?;
        }
    }
    Ok(file)
}

#[test]
fn the_first_bad_payload_of_a_group_is_told(rt: HostRuntime) -> Result<(), Fail> {
    let file = with_bytes_left_over(rt.alloc(), [9, 21])?;
    let ended = Outside::of(DIGESTS, &file).fan(&rt, rt.alloc())?;
    assert_eq!(rt; ended.status, 3);
    assert!(rt; ended.notes.starts_with(b"bad block 10 at 440: 8 BadParams"));
    same(&ended, &Outside::replay(&file).run(rt.alloc())?)
}

#[test]
fn more_frames_than_are_kept_end_as_their_replay(rt: HostRuntime) -> Result<(), Fail> {
    let mut file = three_frames(rt.alloc())?;
    for _ in 0..200 {
        append(rt.alloc(), &NEXT_FRAME, &mut file)?;
    }
    assert_eq!(rt; ends_as_replay(&rt, rt.alloc(), &file)?, 0);
    // The present of the last frame again, which breaks a rule.
    append(rt.alloc(), &NEXT_FRAME[3..], &mut file)?;
    append(rt.alloc(), &NEXT_FRAME, &mut file)?;
    assert_eq!(rt; ends_as_replay(&rt, rt.alloc(), &file)?, 3);
    Ok(())
}

#[test]
fn each_read_and_each_write_may_fail(rt: HostRuntime) -> Result<(), Fail> {
    let file = three_frames(rt.alloc())?;
    for call in 1..100 {
        let calls = [call];
        let outside = Outside::of(DIGESTS, &file).at_most(50);
        let reads = Outside {
            failing_reads: &calls,
            ..outside
        };
        let writes = Outside {
            failing_writes: &calls,
            ..outside
        };
        for fails in [reads, writes] {
            let replayed = Outside {
                words: &["replay"],
                ..fails
            };
            same(&fails.fan(&rt, rt.alloc())?, &replayed.run(rt.alloc())?)?;
        }
    }
    Ok(())
}

#[test]
fn other_words_are_refused(rt: HostRuntime) -> Result<(), Fail> {
    let ended = Outside::of(&["digests", "--pixels"], b"").fan(&rt, rt.alloc())?;
    assert_eq!(rt; ended.status, 2);
    assert!(rt; ended.notes.starts_with(b"usage: "));
    Ok(())
}
