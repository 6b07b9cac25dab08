//! Texts that are no listings, each with the number of its first bad line.

use crate::frame::FRAME;
use gfx_outside::{Ended, Outside};
use gfx_samples::files::{file_of, one_frame};
use std::alloc::Global;
use std::process::Abort;
use std::test::Fail;

const LIST: &[&str] = &["list"];

const UNLIST: &[&str] = &["unlist"];

/// First lines with which no listing begins, whatever follows them.
const NO_HEADERS: [&[u8]; 9] = [
    b"",
    b"\n",
    b"gfxr 1000.1",
    b"gfxr 1000.3\n",
    b"gfxr 1001.1\n",
    b"gfxr  1000.1\n",
    b"gfxr 1000.01\n",
    b"gfxr 1000.1 \n",
    b"gfxr 1000.1 7=0 5=0\n",
];

/// Second lines of no listing of version 1.
const NO_BLOCKS: [&[u8]; 22] = [
    b"\n",
    b"frame\n",
    b"frame bytes=6A\n",
    b"frame bytes=616\n",
    b"frame bytes=61 62\n",
    b"marker bytes=\n",
    b"begin frame=2 \n",
    b"thread=0 begin frame=2\n",
    b"thread=0 vkDeviceWaitIdle device=3",
    b"thread=00 vkDeviceWaitIdle device=3\n",
    b"thread=0 vkDeviceWaitIdle device=03\n",
    b"thread=0  vkDeviceWaitIdle device=3\n",
    b"thread=0 vkDeviceWaitIdle  device=3\n",
    b"thread=0 DeviceWaitIdle device=3\n",
    b"thread=0 vkFillMemory memory=8 offset=0 bytes=61\n",
    b"vkDeviceWaitIdle device=3\n",
    b"thread=18446744073709551616 vkDeviceWaitIdle device=3\n",
    b"thread=0 vkDeviceWaitIdle device=18446744073709551616\n",
    b"thread=0 vkDeviceWaitIdle queue=3\n",
    b"thread=0 vkDeviceWaitIdle device=3 queue=4\n",
    b"thread=0 vkCreateInstance api=4194304\n",
    b"thread=0 vkQueuePresentKHR queue=4 waits=[] presents=[(5,0)]\n",
];

#[test]
fn a_header_is_spelled_in_one_way(rt: HostRuntime) -> Result<(), Fail> {
    for text in NO_HEADERS {
        Outside::of(UNLIST, text).ends(rt.alloc(), 11, b"", b"bad listing line 1\n")?;
    }
    Ok(())
}

#[test]
fn a_block_is_spelled_in_one_way(rt: HostRuntime) -> Result<(), Fail> {
    let header = file_of(rt.alloc(), 1, &[])?;
    for line in NO_BLOCKS {
        let mut text = Vec::from_slice(rt.alloc(), b"gfxr 1000.1\n")?;
        text.extend_from_slice(line)?;
        Outside::of(UNLIST, &text).ends(rt.alloc(), 11, &header, b"bad listing line 2\n")?;
    }
    Ok(())
}

/// How many lines end before a place.
fn lines_before(text: &[u8], at: usize) -> usize {
    text.iter().take(at).filter(|byte| **byte == b'\n').count()
}

/// The line that names a bad line of a text.
fn note(alloc: Global, line: usize) -> Result<String, Fail> {
    Ok(format!(in alloc; "bad listing line {line}\n")?)
}

/// The text has its first bad line here.
fn assert_bad(rt: &(impl Abort + AllocGlobal), ended: &Ended, line: usize) -> Result<(), Fail> {
    let line = note(rt.alloc(), line)?;
    assert_eq!(rt; ended.status, 11);
    assert!(rt; ended.notes.as_slice() == line.as_bytes());
    Ok(())
}

/// A front of the text is a listing where it ends behind a line, and else its last line is bad.
fn assert_cut(
    rt: &(impl Abort + AllocGlobal),
    file: &[u8],
    text: &[u8],
    ended: &Ended,
) -> Result<(), Fail> {
    assert!(rt; file.starts_with(&ended.text));
    if text.ends_with(b"\n") {
        assert_eq!(rt; ended.status, 0);
        return Ok(());
    }
    assert_bad(rt, ended, lines_before(text, text.len()).saturating_add(1))
}

#[test]
fn a_cut_text_is_a_listing_only_behind_a_line(rt: HostRuntime) -> Result<(), Fail> {
    let file = one_frame(rt.alloc())?;
    for length in 0..FRAME.len() {
        let text = &FRAME[..length];
        let ended = Outside::of(UNLIST, text).run(rt.alloc())?;
        assert_cut(&rt, &file, text, &ended)?;
    }
    Ok(())
}

/// The text with one byte changed is the listing of another file, or the line of that byte is bad.
fn assert_changed(rt: &(impl Abort + AllocGlobal), text: &[u8], at: usize) -> Result<(), Fail> {
    let ended = Outside::of(UNLIST, text).run(rt.alloc())?;
    if ended.status == 0 {
        return Outside::of(LIST, &ended.text).ends(rt.alloc(), 0, text, b"");
    }
    assert_bad(rt, &ended, lines_before(FRAME, at).saturating_add(1))
}

#[test]
fn a_changed_byte_is_a_bad_line_or_another_file(rt: HostRuntime) -> Result<(), Fail> {
    let mut text = Vec::from_slice(rt.alloc(), FRAME)?;
    for at in 0..FRAME.len() {
        let Some(byte) = text.get_mut(at) else { break };
        let old = *byte;
        *byte = old ^ 1;
        assert_changed(&rt, &text, at)?;
        if let Some(byte) = text.get_mut(at) {
            *byte = old;
        }
    }
    Ok(())
}
