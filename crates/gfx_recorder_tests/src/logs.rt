//! The logs that scripts leave.

use crate::recording::{Left, Refusal, run};
use gfx_io::NoGate;
use gfx_samples::files::one_frame;
use gfx_samples::scripts::{
    BARRIER, BEGIN, COPY, DRAW, END, LONG_COPY, MORE, OBJECTS, PRESENT, WRITES, joined,
};
use gfx_types::Fault;
use std::process::Abort;
use std::test::Fail;

/// A script, in pieces, and what comes of it.
#[derive(Clone, Copy)]
struct Case {
    name: &'static str,
    pieces: &'static [&'static [u8]],
    gathers: bool,
    refused: Option<Refusal>,
    /// How many bytes the log has.
    length: usize,
    /// Whether these are the first of the file of one frame.
    is_front: bool,
}

const FIRST: &[u8] = b"phase\nthread 0\n";

const SECOND: &[u8] = b"phase\nthread 1\n";

/// A write to memory that was unmapped.
const UNMAPPED: &[u8] = b"\
vkUnmapMemory device=dev memory=mem
write memory=mem offset=8 bytes=7a
";

const CASES: [Case; 9] = [
    Case {
        name: "a script without lines leaves the header",
        pieces: &[],
        gathers: false,
        refused: None,
        length: 16,
        is_front: true,
    },
    Case {
        name: "a script of one frame leaves its file",
        pieces: &[OBJECTS, BEGIN, BARRIER, COPY, END, DRAW, PRESENT],
        gathers: false,
        refused: None,
        length: 1131,
        is_front: true,
    },
    Case {
        name: "what stands before a refused command is kept",
        pieces: &[OBJECTS, BEGIN, BARRIER, LONG_COPY, END, DRAW, PRESENT],
        gathers: false,
        refused: Some((19, Fault::OutOfRange, 16)),
        length: 783,
        is_front: true,
    },
    Case {
        name: "a later phase uses what others made",
        pieces: &[
            OBJECTS, SECOND, BEGIN, BARRIER, COPY, END, FIRST, DRAW, PRESENT,
        ],
        gathers: false,
        refused: None,
        length: 1131,
        is_front: false,
    },
    Case {
        name: "no phase follows a refusal",
        pieces: &[OBJECTS, BEGIN, LONG_COPY, SECOND, MORE],
        gathers: false,
        refused: Some((18, Fault::OutOfRange, 15)),
        length: 731,
        is_front: true,
    },
    Case {
        name: "each write stands where it was made",
        pieces: &[OBJECTS, WRITES, BEGIN, BARRIER, COPY, END, DRAW, PRESENT],
        gathers: false,
        refused: None,
        length: 1230,
        is_front: false,
    },
    Case {
        name: "gathered writes stand before the next submit",
        pieces: &[OBJECTS, WRITES, BEGIN, BARRIER, COPY, END, DRAW, PRESENT],
        gathers: true,
        refused: None,
        length: 1180,
        is_front: false,
    },
    Case {
        name: "a write to unmapped memory is refused",
        pieces: &[OBJECTS, UNMAPPED, BEGIN, BARRIER, COPY, END, DRAW, PRESENT],
        gathers: false,
        refused: Some((16, Fault::MapState, 13)),
        length: 639,
        is_front: false,
    },
    Case {
        name: "and where it is gathered, before the next submit",
        pieces: &[OBJECTS, UNMAPPED, BEGIN, BARRIER, COPY, END, DRAW, PRESENT],
        gathers: true,
        refused: Some((25, Fault::MapState, 21)),
        length: 1059,
        is_front: false,
    },
];

fn assert_left(rt: &impl Abort, case: &Case, left: &Left, frame: &[u8]) {
    let name = case.name;
    assert_eq!(rt; left.refused, case.refused, "{name}");
    assert_eq!(rt; left.log.len(), case.length, "{name}");
    assert!(rt; frame.starts_with(&left.log) == case.is_front, "{name}");
}

#[test]
fn each_script_leaves_its_log(rt: HostRuntime) -> Result<(), Fail> {
    let frame = one_frame(rt.alloc())?;
    for case in &CASES {
        let text = joined(rt.alloc(), case.pieces)?;
        let left = run(&rt, rt.alloc(), &NoGate, case.gathers, text.as_slice())?;
        assert_left(&rt, case, &left, frame.as_slice());
    }
    Ok(())
}
