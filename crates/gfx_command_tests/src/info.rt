//! Files that `info` describes.

use gfx_outside::Outside;
use gfx_samples::files::{ONE_TEXEL, file_of, one_frame, three_frames, with_bytes};
use std::test::Fail;

const COUNTS: &[u8] = b"version 1000.1\nblocks 15\ncalls 15\nframes 1\n";

#[test]
fn a_whole_file_is_counted_in_any_cutting(rt: HostRuntime) -> Result<(), Fail> {
    let file = file_of(rt.alloc(), 1, &ONE_TEXEL)?;
    for most in [1, 7, 4096] {
        let outside = Outside::info(&file).at_most(most);
        outside.ends(rt.alloc(), 0, COUNTS, b"")?;
    }
    Ok(())
}

#[test]
fn metadata_is_a_block_and_no_call(rt: HostRuntime) -> Result<(), Fail> {
    let file = three_frames(rt.alloc())?;
    let counts = b"version 1000.1\nblocks 30\ncalls 29\nframes 3\n";
    Outside::info(&file).ends(rt.alloc(), 0, counts, b"")
}

#[test]
fn a_cut_file_is_named_at_its_cut_block(rt: HostRuntime) -> Result<(), Fail> {
    let file = file_of(rt.alloc(), 1, &ONE_TEXEL)?;
    let cut = &file[..file.len().saturating_sub(1)];
    for most in [1, 7, 4096] {
        for (input, line) in [
            (
                b"".as_slice(),
                b"bad block 0 at 0: 5 Truncated\n".as_slice(),
            ),
            (cut, b"bad block 15 at 680: 5 Truncated\n".as_slice()),
        ] {
            let outside = Outside::info(input).at_most(most);
            outside.ends(rt.alloc(), 3, b"", line)?;
        }
    }
    Ok(())
}

#[test]
fn the_first_broken_step_is_named(rt: HostRuntime) -> Result<(), Fail> {
    // The id of the first call, the size of its block, and three fields of the header.
    for (place, byte, line) in [
        (28, 49, b"bad block 1 at 16: 7 UnknownBlock\n".as_slice()),
        (16, 23, b"bad block 1 at 16: 8 BadParams\n".as_slice()),
        (12, 17, b"bad block 0 at 0: 3 BadOption\n".as_slice()),
        (8, 3, b"bad block 0 at 0: 2 BadVersion\n".as_slice()),
        (0, 3, b"bad block 0 at 0: 1 BadMagic\n".as_slice()),
    ] {
        let file = with_bytes(file_of(rt.alloc(), 1, &ONE_TEXEL)?, place, &[byte]);
        Outside::info(&file).ends(rt.alloc(), 3, b"", line)?;
    }
    Ok(())
}

#[test]
fn rules_are_not_asked(rt: HostRuntime) -> Result<(), Fail> {
    // The second call of a file that begins with it names an instance that is not there.
    let file = file_of(rt.alloc(), 1, &ONE_TEXEL[1..2])?;
    let counts = b"version 1000.1\nblocks 1\ncalls 1\nframes 0\n";
    Outside::info(&file).ends(rt.alloc(), 0, counts, b"")?;
    let line = b"bad block 1 at 16: 11 NotLive\n";
    Outside::replay(&file).ends(rt.alloc(), 3, b"", line)
}

#[test]
fn a_call_that_fails_in_mid_stream_is_told(rt: HostRuntime) -> Result<(), Fail> {
    let file = one_frame(rt.alloc())?;
    let whole = Outside::info(&file).at_most(7);
    let unwritten = Outside {
        failing_writes: &[3],
        ..whole
    };
    unwritten.ends(rt.alloc(), 6, b"version 1000.1", b"")?;
    let unread = Outside {
        failing_reads: &[5],
        ..unwritten
    };
    unread.ends(rt.alloc(), 5, b"", b"read fault\n")?;
    let unnoted = Outside {
        failing_notes: &[2],
        ..unread
    };
    unnoted.ends(rt.alloc(), 6, b"", b"read fa")
}
