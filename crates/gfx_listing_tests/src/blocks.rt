// The lines of blocks.
use crate::bad::BAD_LINES;
use crate::good::LINES;
use gfx_decode::Decoder;
use gfx_io::SliceSource;
use gfx_listing::{LineFault, put_line, read_head, read_line};
use gfx_text_samples::{BAD, CALLS, METAS, PRESENTS};
use std::alloc::Global;
use std::process::Abort;
use std::test::Fail;

const HEAD_1: &str = "gfxr 1000.1";

const HEAD_2: &str = "gfxr 1000.2";

const HEADER_LENGTH: usize = 16;

/// The bytes of a file with a header and a block of these lines.
fn file_of(alloc: Global, head: &str, line: &str) -> Result<Vec<u8>, LineFault> {
    let mut bytes = Vec::new(alloc);
    let minor = read_head(head.as_bytes(), &mut bytes)?;
    read_line(minor, line.as_bytes(), &mut bytes)?;
    Ok(bytes)
}

/// The line of the first block of a file.
fn line_of(alloc: Global, file: &[u8]) -> Result<Vec<u8>, Fail> {
    let mut source = SliceSource { rest: file };
    let mut decoder = Decoder::new(alloc);
    let header = decoder.header(&mut source)?;
    let mut buffer = Vec::new(alloc);
    let mut line = Vec::new(alloc);
    if let Some(raw) = decoder.next(&mut source, &mut buffer)? {
        put_line(header.minor, &raw, &mut line)?;
    }
    Ok(line)
}

/// A line is read, and written again as it was.
fn try_line(rt: &impl Abort, alloc: Global, head: &str, line: &str) -> Result<(), Fail> {
    let file = file_of(alloc, head, line)?;
    let again = line_of(alloc, &file)?;
    assert_eq!(rt; again.as_slice(), line.as_bytes());
    Ok(())
}

#[test]
fn each_call_is_read_and_written_in_both_versions(rt: HostRuntime) -> Result<(), Fail> {
    let alloc = rt.alloc();
    for &(fields, _) in &CALLS {
        let line = format!(in alloc; "thread=18446744073709551615 vk{fields}")?;
        try_line(&rt, alloc, HEAD_1, line.as_str())?;
        try_line(&rt, alloc, HEAD_2, line.as_str())?;
    }
    for &(minor, fields, _) in &PRESENTS {
        let head = if minor == 1 { HEAD_1 } else { HEAD_2 };
        let line = format!(in alloc; "thread=0 vk{fields}")?;
        try_line(&rt, alloc, head, line.as_str())?;
    }
    Ok(())
}

#[test]
fn each_metadata_is_read_and_written_in_both_versions(rt: HostRuntime) -> Result<(), Fail> {
    let alloc = rt.alloc();
    for &(fields, _) in &METAS {
        let line = format!(in alloc; "thread=3 {fields}")?;
        try_line(&rt, alloc, HEAD_1, line.as_str())?;
        try_line(&rt, alloc, HEAD_2, line.as_str())?;
    }
    Ok(())
}

#[test]
fn markers_and_skipped_blocks_are_read_and_written(rt: HostRuntime) -> Result<(), Fail> {
    let alloc = rt.alloc();
    for &(line, said) in &LINES {
        let file = file_of(alloc, HEAD_1, line)?;
        assert!(rt; HEADER_LENGTH <= file.len());
        let wanted = hex::decode(alloc, said)?;
        assert_eq!(rt; &file[HEADER_LENGTH..], wanted.as_slice(), "{line}");
        try_line(&rt, alloc, HEAD_2, line)?;
    }
    Ok(())
}

/// The line is bad in a file with this header, and leaves what was there.
fn is_bad(alloc: Global, head: &str, line: &str) -> Result<bool, LineFault> {
    let mut bytes = Vec::new(alloc);
    let minor = read_head(head.as_bytes(), &mut bytes)?;
    let answer = read_line(minor, line.as_bytes(), &mut bytes);
    Ok(matches!(answer, Err(LineFault::BadLine)) && bytes.len() == HEADER_LENGTH)
}

#[test]
fn a_line_with_a_fault_is_bad(rt: HostRuntime) -> Result<(), Fail> {
    let alloc = rt.alloc();
    for &(fault, line) in &BAD_LINES {
        let bad = is_bad(alloc, HEAD_1, line)?;
        assert!(rt; bad, "{fault}");
    }
    for &(fault, fields) in &BAD {
        let line = format!(in alloc; "thread=1 vk{fields}")?;
        let bad = is_bad(alloc, HEAD_1, line.as_str())?;
        assert!(rt; bad, "{fault}");
    }
    let one_present = "thread=1 vkQueuePresentKHR queue=3 waits=[] swapchain=5 index=1";
    let bad = is_bad(alloc, HEAD_2, one_present)?;
    assert!(rt; bad, "a present of version 1");
    Ok(())
}
