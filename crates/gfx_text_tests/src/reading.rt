// Lines that are read and written again, and lines that are bad.
use gfx_text::{Left, Numbered, TextFault, read_call, read_meta};
use gfx_text_samples::{BAD, CALLS, METAS, PRESENTS};
use gfx_text_writer::{show_call, show_meta};
use gfx_types::{Call, Meta, WantMemory};
use std::alloc::{AllocError, Global};
use std::process::Abort;
use std::test::Fail;

/// The words of a line.
fn words_of(alloc: Global, line: &str) -> Result<Vec<&[u8]>, AllocError> {
    line.as_bytes().split(|c| *c == b' ').collect(alloc)
}

fn call_of<'a>(
    alloc: Global,
    minor: u32,
    line: &str,
    room: &'a mut Vec<u8>,
) -> Result<Call<'a>, TextFault> {
    let words = words_of(alloc, line)?;
    let Some((name, fields)) = words.as_slice().split_first() else {
        return Err(TextFault::Bad);
    };
    read_call(
        alloc,
        &Numbered,
        minor,
        *name,
        Left { made: &[], fields },
        room,
    )
}

fn meta_of<'a>(alloc: Global, line: &str, room: &'a mut Vec<u8>) -> Result<Meta<'a>, TextFault> {
    let words = words_of(alloc, line)?;
    let Some((name, fields)) = words.as_slice().split_first() else {
        return Err(TextFault::Bad);
    };
    read_meta(alloc, &Numbered, *name, Left { made: &[], fields }, room)
}

/// The fields of a call, as they are written.
fn call_again(alloc: Global, minor: u32, call: &Call<'_>) -> Result<Vec<u8>, WantMemory> {
    let mut fields = Vec::new(alloc);
    show_call(&Numbered, minor, call, &mut fields)?;
    Ok(fields)
}

fn meta_again(alloc: Global, meta: &Meta<'_>) -> Result<Vec<u8>, WantMemory> {
    let mut fields = Vec::new(alloc);
    show_meta(&Numbered, meta, &mut fields)?;
    Ok(fields)
}

/// What follows the name in a line.
fn behind_name(line: &str) -> &[u8] {
    match line.as_bytes().iter().position(|c| *c == b' ') {
        Some(end) => &line.as_bytes()[end..],
        None => &[],
    }
}

/// What the call of a line is.
fn said_by(alloc: Global, minor: u32, line: &str) -> Result<String, Fail> {
    let mut room = Vec::new(alloc);
    let call = call_of(alloc, minor, line, &mut room)?;
    Ok(format!(in alloc; "{call:?}")?)
}

/// The fields of the call of a line, as they are written.
fn written_by(alloc: Global, minor: u32, line: &str) -> Result<Vec<u8>, Fail> {
    let mut room = Vec::new(alloc);
    let call = call_of(alloc, minor, line, &mut room)?;
    Ok(call_again(alloc, minor, &call)?)
}

/// Reads a line and writes it again. A call is held by functions with few exits alone, since letting one go takes the checker long.
fn assert_both_ways(
    rt: &(impl Abort + AllocGlobal),
    minor: u32,
    line: &str,
    said: &str,
) -> Result<(), Fail> {
    let text = said_by(rt.alloc(), minor, line)?;
    assert_eq!(rt; text.as_str(), said);
    let fields = written_by(rt.alloc(), minor, line)?;
    assert_eq!(rt; fields.as_slice(), behind_name(line));
    Ok(())
}

#[test]
fn each_call_is_read_and_written_in_both_versions(rt: HostRuntime) -> Result<(), Fail> {
    for &(line, said) in &CALLS {
        for minor in [1, 2] {
            assert_both_ways(&rt, minor, line, said)?;
        }
    }
    for &(minor, line, said) in &PRESENTS {
        assert_both_ways(&rt, minor, line, said)?;
    }
    Ok(())
}

#[test]
fn each_metadata_is_read_and_written(rt: HostRuntime) -> Result<(), Fail> {
    let alloc = rt.alloc();
    for &(line, said) in &METAS {
        let mut room = Vec::new(alloc);
        let meta = meta_of(alloc, line, &mut room)?;
        let text = format!(in alloc; "{meta:?}")?;
        assert_eq!(rt; text.as_str(), said);
        let fields = meta_again(alloc, &meta)?;
        assert_eq!(rt; fields.as_slice(), behind_name(line));
    }
    Ok(())
}

#[test]
fn a_line_with_a_fault_is_bad(rt: HostRuntime) -> Result<(), Fail> {
    let alloc = rt.alloc();
    for &(fault, line) in &BAD {
        let mut room = Vec::new(alloc);
        let answer = call_of(alloc, 1, line, &mut room);
        assert!(rt; matches!(answer, Err(TextFault::Bad)), "{fault}");
    }
    Ok(())
}
