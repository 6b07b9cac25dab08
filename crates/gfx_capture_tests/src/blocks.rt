//! The blocks of a log, read one after another.

use gfx_io::{take_u32, take_u64};
use std::process::Abort;

/// The bytes of the header of a log.
const HEADER: usize = 16;

/// A block of a call: the thread that made it, and the id of the call.
#[derive(Clone, Copy, Debug, PartialEq, Eq)]
pub struct Stood {
    pub thread: u64,
    pub id: u32,
}

/// What follows the header.
pub fn behind_header<'a, R: Abort>(rt: &R, file: &'a [u8]) -> &'a [u8] {
    file.get(HEADER..).expect(rt, "a header")
}

/// The block at the start of the bytes, and what follows it. None where there are no bytes.
pub fn split_block<'a, R: Abort>(rt: &R, bytes: &'a [u8]) -> Option<(Stood, &'a [u8])> {
    if bytes.is_empty() {
        return None;
    }
    let size = take_u64(bytes, 0).expect(rt, "a size");
    let id = take_u32(bytes, 12).expect(rt, "an id");
    let thread = take_u64(bytes, 16).expect(rt, "a thread");
    let behind = size.wrapping_add(12) as usize;
    let rest = bytes.get(behind..).expect(rt, "a whole block");
    Some((Stood { thread, id }, rest))
}
