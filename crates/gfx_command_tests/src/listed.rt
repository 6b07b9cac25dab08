//! Files that are listed, and listings of which the files are made again.

use crate::frame::{FRAME, NEXT};
use gfx_outside::{Ended, Outside};
use gfx_samples::cuts::{BEGIN, STATES};
use gfx_samples::files::{TWO_IMAGES, append, file_of, one_frame, three_frames};
use std::alloc::Global;
use std::process::Abort;
use std::test::Fail;

const LIST: &[&str] = &["list"];

const UNLIST: &[&str] = &["unlist"];

/// The file is listed so, and made of this listing again.
fn both_ways(alloc: Global, file: &[u8], listing: &[u8]) -> Result<(), Fail> {
    Outside::of(LIST, file).ends(alloc, 0, listing, b"")?;
    Outside::of(UNLIST, listing).ends(alloc, 0, file, b"")
}

#[test]
fn frames_are_listed_line_by_line(rt: HostRuntime) -> Result<(), Fail> {
    both_ways(rt.alloc(), &one_frame(rt.alloc())?, FRAME)?;
    let mut listing = Vec::from_slice(rt.alloc(), FRAME)?;
    listing.extend_from_slice(NEXT)?;
    listing.extend_from_slice(NEXT)?;
    both_ways(rt.alloc(), &three_frames(rt.alloc())?, &listing)
}

#[test]
fn it_does_not_matter_how_bytes_come(rt: HostRuntime) -> Result<(), Fail> {
    let file = one_frame(rt.alloc())?;
    Outside::of(LIST, &file)
        .at_most(1)
        .ends(rt.alloc(), 0, FRAME, b"")?;
    Outside::of(UNLIST, FRAME)
        .at_most(1)
        .ends(rt.alloc(), 0, &file, b"")
}

#[test]
fn a_header_is_listed_with_its_options(rt: HostRuntime) -> Result<(), Fail> {
    both_ways(rt.alloc(), &file_of(rt.alloc(), 1, &[])?, b"gfxr 1000.1\n")?;
    let file = b"GFXR\xe8\x03\0\0\x02\0\0\0\x02\0\0\0\x05\0\0\0\x07\0\0\0\xff\xff\xff\xff\0\0\0\0";
    both_ways(rt.alloc(), file, b"gfxr 1000.2 5=7 4294967295=0\n")
}

#[test]
fn blocks_of_every_type_are_listed(rt: HostRuntime) -> Result<(), Fail> {
    let skipped = [
        "030000000000000001000000616263",
        "000000000000000005000000",
        "060000000000000003000000010000006869",
        BEGIN,
    ];
    let mut file = file_of(rt.alloc(), 1, &skipped)?;
    append(rt.alloc(), &STATES, &mut file)?;
    both_ways(
        rt.alloc(),
        &file,
        b"gfxr 1000.1
frame bytes=616263
annotation bytes=
message bytes=6869
begin frame=2
thread=0 SetSwapchainState swapchain=5 acquired=[0]
thread=0 InitImage image=6 layout=1000001002 bytes=616263
thread=0 vkCreateFence device=3 fence=7 flags=1
",
    )
}

#[test]
fn a_present_of_version_2_is_a_list(rt: HostRuntime) -> Result<(), Fail> {
    let file = file_of(rt.alloc(), 2, &TWO_IMAGES)?;
    let listing = Outside::of(LIST, &file).run(rt.alloc())?.text;
    let present = b"thread=0 vkQueuePresentKHR queue=4 waits=[] presents=[(5,0),(8,0)]\n";
    assert!(rt; listing.starts_with(b"gfxr 1000.2\n"));
    assert!(rt; listing.ends_with(present));
    both_ways(rt.alloc(), &file, &listing)
}

#[test]
fn lines_before_a_bad_block_are_written(rt: HostRuntime) -> Result<(), Fail> {
    let mut file = three_frames(rt.alloc())?;
    file.truncate(1570);
    let mut listing = Vec::from_slice(rt.alloc(), FRAME)?;
    listing.extend_from_slice(NEXT)?;
    listing.extend_from_slice(&NEXT[..NEXT.len().saturating_sub(64)])?;
    Outside::of(LIST, &file).ends(
        rt.alloc(),
        3,
        &listing,
        b"bad block 30 at 1523: 5 Truncated\n",
    )?;
    // Nothing is written of a bad header.
    Outside::of(LIST, b"GFXR").ends(rt.alloc(), 3, b"", b"bad block 0 at 0: 5 Truncated\n")
}

/// A call with this status failed behind a prefix of the output, or there is no such call.
fn assert_front(rt: &impl Abort, ended: &Ended, status: u8, output: &[u8]) {
    assert!(rt; ended.status == status || ended.status == 0);
    assert!(rt; output.starts_with(&ended.text));
}

/// Fails the read with this number, and then the write.
fn fail_call<'a>(
    rt: &(impl Abort + AllocGlobal),
    whole: Outside<'a>,
    output: &[u8],
    call: u64,
) -> Result<(), Fail> {
    let calls = [call];
    let read = Outside {
        failing_reads: &calls,
        ..whole
    };
    assert_front(rt, &read.run(rt.alloc())?, 5, output);
    let write = Outside {
        failing_writes: &calls,
        ..whole
    };
    assert_front(rt, &write.run(rt.alloc())?, 6, output);
    Ok(())
}

#[test]
fn each_read_and_each_write_may_fail(rt: HostRuntime) -> Result<(), Fail> {
    let file = one_frame(rt.alloc())?;
    for call in 1..40 {
        fail_call(&rt, Outside::of(LIST, &file).at_most(50), FRAME, call)?;
        fail_call(&rt, Outside::of(UNLIST, FRAME).at_most(50), &file, call)?;
    }
    Ok(())
}
