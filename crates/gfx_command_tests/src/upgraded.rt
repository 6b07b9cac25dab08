//! Files of both minor versions, whole, with options, damaged, and where reads and writes fail.

use gfx_outside::{Ended, Outside};
use gfx_samples::files::{
    NEXT_FRAME, ONE_FRAME, TWO_IMAGES, append, file_of, one_frame, three_frames, with_bytes,
};
use std::alloc::Global;
use std::process::Abort;
use std::test::Fail;

const WORDS: &[&str] = &["upgrade"];

/// The present of `ONE_FRAME` and of `NEXT_FRAME` in version 2: a list of one image.
const PRESENT: &str =
    "280000000000000004000000300000000000000000000000040000000000000000000000010000000500000000000000\
    00000000";

const SHOWN: &[u8] =
    b"frame 1.1 3x1 R8_UINT ba7816bf8f01cfea414140de5dae2223b00361a396177a9cb410ff61f20015ad
frame 2.1 3x1 R8_UINT ba7816bf8f01cfea414140de5dae2223b00361a396177a9cb410ff61f20015ad
frame 3.1 3x1 R8_UINT ba7816bf8f01cfea414140de5dae2223b00361a396177a9cb410ff61f20015ad
frames 3
";

/// The file of three frames in version 2.
pub(crate) fn upgraded(alloc: Global) -> Result<Vec<u8>, Fail> {
    let mut file = file_of(alloc, 2, &ONE_FRAME[..21])?;
    append(alloc, &[PRESENT], &mut file)?;
    for _ in 0..2 {
        append(alloc, &NEXT_FRAME[..3], &mut file)?;
        append(alloc, &[PRESENT], &mut file)?;
    }
    Ok(file)
}

#[test]
fn presents_alone_are_spelled_anew(rt: HostRuntime) -> Result<(), Fail> {
    let file = upgraded(rt.alloc())?;
    assert_eq!(rt; file.len(), 1583);
    Outside::of(WORDS, &three_frames(rt.alloc())?).ends(rt.alloc(), 0, &file, b"")?;
    Outside::replay(&file).ends(rt.alloc(), 0, SHOWN, b"")?;
    // A file of version 2 stays.
    Outside::of(WORDS, &file).ends(rt.alloc(), 0, &file, b"")
}

#[test]
fn other_blocks_stay(rt: HostRuntime) -> Result<(), Fail> {
    let images = file_of(rt.alloc(), 2, &TWO_IMAGES)?;
    Outside::of(WORDS, &images).ends(rt.alloc(), 0, &images, b"")?;
    // So does a block that is skipped.
    let skipped = file_of(rt.alloc(), 1, &["030000000000000001000000616263"])?;
    let kept = file_of(rt.alloc(), 2, &["030000000000000001000000616263"])?;
    Outside::of(WORDS, &skipped).ends(rt.alloc(), 0, &kept, b"")
}

#[test]
fn options_are_not_kept(rt: HostRuntime) -> Result<(), Fail> {
    for minor in [1, 2] {
        let mut file = Vec::from_slice(
            rt.alloc(),
            b"GFXR\xe8\x03\0\0\0\0\0\0\x01\0\0\0\x05\0\0\0\x07\0\0\0",
        )?;
        file[8] = minor;
        Outside::of(WORDS, &file).ends(rt.alloc(), 0, &file_of(rt.alloc(), 2, &[])?, b"")?;
    }
    Ok(())
}

#[test]
fn what_stands_before_a_bad_block_is_written(rt: HostRuntime) -> Result<(), Fail> {
    let mut file = three_frames(rt.alloc())?;
    file.truncate(1570);
    let line = b"bad block 30 at 1523: 5 Truncated\n";
    let mut wanted = upgraded(rt.alloc())?;
    wanted.truncate(1531);
    Outside::of(WORDS, &file).ends(rt.alloc(), 3, &wanted, line)
}

#[test]
fn rules_are_not_looked_at(rt: HostRuntime) -> Result<(), Fail> {
    // The first call again.
    let mut file = one_frame(rt.alloc())?;
    append(rt.alloc(), &ONE_FRAME[..1], &mut file)?;
    let mut wanted = file_of(rt.alloc(), 2, &ONE_FRAME[..21])?;
    append(rt.alloc(), &[PRESENT, ONE_FRAME[0]], &mut wanted)?;
    Outside::of(WORDS, &file).ends(rt.alloc(), 0, &wanted, b"")
}

#[test]
fn nothing_is_written_of_a_bad_header(rt: HostRuntime) -> Result<(), Fail> {
    let file = with_bytes(one_frame(rt.alloc())?, 8, &[3]);
    Outside::of(WORDS, &file).ends(rt.alloc(), 3, b"", b"bad block 0 at 0: 2 BadVersion\n")
}

/// The call with this status failed behind a prefix of the file.
fn assert_front(rt: &impl Abort, ended: &Ended, status: u8, whole: &[u8]) {
    assert_eq!(rt; ended.status, status);
    assert!(rt; whole.starts_with(&ended.text));
}

#[test]
fn each_read_may_fail(rt: HostRuntime) -> Result<(), Fail> {
    let file = one_frame(rt.alloc())?;
    let whole = Outside::of(WORDS, &file).run(rt.alloc())?.text;
    for call in 1..=46 {
        let read = Outside {
            failing_reads: &[call],
            ..Outside::of(WORDS, &file)
        };
        assert_front(&rt, &read.run(rt.alloc())?, 5, &whole);
    }
    Ok(())
}

#[test]
fn each_write_may_fail(rt: HostRuntime) -> Result<(), Fail> {
    let file = one_frame(rt.alloc())?;
    let whole = Outside::of(WORDS, &file).run(rt.alloc())?.text;
    // The write of each ten bytes may fail.
    for call in 1..=(whole.len() as u64).div_ceil(10) {
        let write = Outside {
            failing_writes: &[call],
            most: 10,
            ..Outside::of(WORDS, &file)
        };
        assert_front(&rt, &write.run(rt.alloc())?, 6, &whole);
    }
    Ok(())
}

#[test]
fn blocks_longer_than_what_is_held_back_stay(rt: HostRuntime) -> Result<(), Fail> {
    let mut file = file_of(rt.alloc(), 2, &[])?;
    for size in [5u32, 65_507, 65_537, 3, 200_000, 65_536, 0] {
        file.extend_from_slice(&u64::from(size).to_le_bytes())?;
        file.extend_from_slice(&[1, 0, 0, 0])?;
        for byte in 0..size {
            file.push(byte.to_le_bytes()[0])?;
        }
    }
    Outside::of(WORDS, &file).ends(rt.alloc(), 0, &file, b"")?;
    // Pieces of 65,536 bytes are written, two of them at once, and then the rest.
    for call in 1..=6 {
        let write = Outside {
            failing_writes: &[call],
            most: file.len(),
            ..Outside::of(WORDS, &file)
        };
        assert_front(&rt, &write.run(rt.alloc())?, 6, &file);
    }
    Ok(())
}
