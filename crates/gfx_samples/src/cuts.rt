//! Files that are cut out of others, put together by hand from the blocks of their sections and ranges.

use crate::files::{ONE_FRAME, append, file_of, with_bytes};
use std::alloc::Global;
use std::test::Fail;

/// The markers that begin and end the section before frame 2.
pub const BEGIN: &str = "0c0000000000000002000000010000000200000000000000";

const END: &str = "0c0000000000000002000000020000000200000000000000";

/// Of the memory all 64 bytes are mapped.
pub const MAPPED: &str =
    "2c00000000000000040000000a0000000000000000000000030000000000000008000000000000000000000000000000\
    4000000000000000";

/// No image is acquired, the image has the bytes `abc` and can be presented, and the fence is signalled.
pub const STATES: [&str; 3] = [
    "1c000000000000000300000004000000000000000000000005000000000000000100000000000000",
    "2300000000000000030000000300000000000000000000000600000000000000eacd9a3b0300000000000000616263",
    "2000000000000000040000002200000000000000000000000300000000000000070000000000000001000000",
];

/// The file of a section with these blocks before the frame with this number, and of the blocks behind it.
pub fn cut_file(
    alloc: Global,
    number: u8,
    section: &[&[&str]],
    behind: &[&[&str]],
) -> Result<Vec<u8>, Fail> {
    let mut file = file_of(alloc, 1, &[BEGIN])?;
    append_all(alloc, section, &mut file)?;
    let end = file.len();
    append(alloc, &[END], &mut file)?;
    append_all(alloc, behind, &mut file)?;
    let file = with_bytes(file, 32, &[number]);
    Ok(with_bytes(file, end.saturating_add(16), &[number]))
}

fn append_all(alloc: Global, parts: &[&[&str]], file: &mut Vec<u8>) -> Result<(), Fail> {
    for blocks in parts {
        append(alloc, *blocks, file)?;
    }
    Ok(())
}

/// The file of the first of three frames, and of what follows it.
pub fn first_cut(alloc: Global, behind: &[&[&str]]) -> Result<Vec<u8>, Fail> {
    let mut file = cut_file(alloc, 1, &[], &[&ONE_FRAME])?;
    append_all(alloc, behind, &mut file)?;
    Ok(file)
}

/// The file of the state behind the first or the second of three frames, and of what follows it.
pub fn later_cut(alloc: Global, number: u8, behind: &[&[&str]]) -> Result<Vec<u8>, Fail> {
    let section = [
        &ONE_FRAME[..4],
        &[ONE_FRAME[7], ONE_FRAME[9], MAPPED],
        &ONE_FRAME[10..12],
        &ONE_FRAME[4..6],
        &STATES,
        &ONE_FRAME[12..19],
    ];
    cut_file(alloc, number, &section, behind)
}
