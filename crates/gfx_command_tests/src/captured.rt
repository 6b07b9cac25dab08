//! Scripts that are recorded: whole, cut and gathered, by several threads, and where a call or the text is refused or the log is full.

use crate::upgraded::upgraded;
use gfx_outside::Outside;
use gfx_samples::cuts::later_cut;
use gfx_samples::files::{
    NEXT_FRAME, ONE_FRAME, THREE_SHOWN, append, file_of, one_frame, three_frames,
};
use gfx_samples::scripts::{
    BARRIER, BEGIN, COPY, DRAW, END, LONG_COPY, MORE, OBJECTS, PRESENT, WRITES, joined,
};
use std::alloc::Global;
use std::process::Abort;
use std::sync::Wait;
use std::test::Fail;
use std::thread::Threads;

const CAPTURE: &[&str] = &["capture"];

/// Makes the image ready for its next frame.
const RESET: &[u8] = b"vkResetFences device=dev fences=[f]\n";

/// Presents the image in a script of version 2.
const PRESENT_2: &[u8] = b"vkQueuePresentKHR queue=q waits=[] presents=[(sc,0)]\n";

/// A script of one frame.
const ONE: &[&[u8]] = &[OBJECTS, BEGIN, BARRIER, COPY, END, DRAW, PRESENT];

/// A script of three frames.
const THREE: &[&[u8]] = &[
    OBJECTS, BEGIN, BARRIER, COPY, END, DRAW, PRESENT, RESET, DRAW, PRESENT, RESET, DRAW, PRESENT,
];

/// A script of three frames in version 2.
const THREE_2: &[&[u8]] = &[
    b"version 2\n",
    OBJECTS,
    BEGIN,
    BARRIER,
    COPY,
    END,
    DRAW,
    PRESENT_2,
    RESET,
    DRAW,
    PRESENT_2,
    RESET,
    DRAW,
    PRESENT_2,
];

/// A script of one frame with more writes.
const WRITTEN: &[&[u8]] = &[OBJECTS, WRITES, BEGIN, BARRIER, COPY, END, DRAW, PRESENT];

/// A script of one frame whose copy is refused.
const REFUSED: &[&[u8]] = &[OBJECTS, BEGIN, BARRIER, LONG_COPY, END, DRAW, PRESENT];

/// One thread makes the objects and presents, one records, and one makes something else meanwhile.
const BY_THREADS: &[&[u8]] = &[
    OBJECTS,
    b"phase\nthread 1\n",
    BEGIN,
    BARRIER,
    COPY,
    END,
    b"thread 2\n",
    MORE,
    b"phase\nthread 0\n",
    DRAW,
    PRESENT,
];

/// The fills of the writes of `OBJECTS` and `WRITES`.
const FILLS: [&str; 2] = [
    "27000000000000000300000002000000000000000000000008000000000000000000000000000000030000000000000061627a",
    "2500000000000000030000000200000000000000000000000800000000000000080000000000000001000000000000007a",
];

/// The log of `WRITTEN` where its writes are gathered: the fills are before the submit.
fn gathered(alloc: Global) -> Result<Vec<u8>, Fail> {
    let mut log = file_of(alloc, 1, &ONE_FRAME[..9])?;
    append(alloc, &ONE_FRAME[10..20], &mut log)?;
    append(alloc, &FILLS, &mut log)?;
    append(alloc, &ONE_FRAME[20..], &mut log)?;
    Ok(log)
}

/// Records a script by these words, and compares how that ends.
fn assert_captured(
    rt: &(impl Abort + AllocGlobal + Threads + Wait + Sync),
    name: &str,
    words: &[&str],
    script: &[&[u8]],
    (status, log, notes): (u8, &[u8], &[u8]),
) -> Result<(), Fail> {
    let script = joined(rt.alloc(), script)?;
    let ended = Outside::of(words, &script).capture(rt, rt.alloc())?;
    assert_eq!(rt; ended.notes.as_slice(), notes, "{name}");
    assert_eq!(rt; ended.text.as_slice(), log, "{name}");
    assert_eq!(rt; (ended.status, ended.left), (status, 0), "{name}");
    Ok(())
}

#[test]
fn accepted_scripts_are_recorded(rt: HostRuntime) -> Result<(), Fail> {
    let cases = [
        ("three frames", CAPTURE, THREE, three_frames(rt.alloc())?),
        (
            "the second of them",
            &["capture", "--frames", "2-2"],
            THREE,
            later_cut(rt.alloc(), 2, &[&NEXT_FRAME])?,
        ),
        ("version 2", CAPTURE, THREE_2, upgraded(rt.alloc())?),
        (
            "gathered writes",
            &["capture", "--gather"],
            WRITTEN,
            gathered(rt.alloc())?,
        ),
    ];
    for (name, words, script, log) in &cases {
        assert_captured(&rt, name, words, script, (0, log, b""))?;
    }
    Ok(())
}

/// A script in pieces, the words by which it is recorded, and how that ends.
#[derive(Clone, Copy)]
struct Case {
    name: &'static str,
    words: &'static [&'static str],
    script: &'static [&'static [u8]],
    status: u8,
    /// How many bytes are written, the first of the file of one frame.
    length: usize,
    notes: &'static [u8],
}

const CASES: [Case; 7] = [
    Case {
        name: "a script of one frame leaves its file",
        words: CAPTURE,
        script: ONE,
        status: 0,
        length: 1131,
        notes: b"",
    },
    Case {
        name: "a script without lines leaves the header",
        words: CAPTURE,
        script: &[],
        status: 0,
        length: 16,
        notes: b"",
    },
    Case {
        name: "a frame that isn't there is told",
        words: &["capture", "--frames", "2-2"],
        script: ONE,
        status: 4,
        length: 0,
        notes: b"no such frame: the file has 1 to 1\n",
    },
    Case {
        name: "what stands before a refused call is written",
        words: CAPTURE,
        script: REFUSED,
        status: 8,
        length: 783,
        notes: b"refused line 19: 16 OutOfRange after 16 blocks\n",
    },
    Case {
        name: "and no frame is cut out of it",
        words: &["capture", "--frames", "1-1"],
        script: REFUSED,
        status: 8,
        length: 783,
        notes: b"refused line 19: 16 OutOfRange after 16 blocks\n",
    },
    Case {
        name: "a version stands in the first line alone",
        words: CAPTURE,
        script: &[b"phase\nversion 2\n"],
        status: 7,
        length: 0,
        notes: b"bad script line 2: Structure\n",
    },
    Case {
        name: "a name is defined once",
        words: CAPTURE,
        script: &[OBJECTS, MORE, MORE, BEGIN],
        status: 7,
        length: 0,
        notes: b"bad script line 16: NameTaken\n",
    },
];

#[test]
fn each_script_ends_with_its_status(rt: HostRuntime) -> Result<(), Fail> {
    for case in &CASES {
        let mut log = one_frame(rt.alloc())?;
        log.truncate(case.length);
        let end = (case.status, log.as_slice(), case.notes);
        assert_captured(&rt, case.name, case.words, case.script, end)?;
    }
    Ok(())
}

#[test]
fn threads_record_what_another_presents(rt: HostRuntime) -> Result<(), Fail> {
    let script = joined(rt.alloc(), BY_THREADS)?;
    let ended = Outside::of(CAPTURE, &script).capture(&rt, rt.alloc())?;
    assert_eq!(rt; (ended.status, ended.notes.len()), (0, 0));
    // Where the call of thread 2 stands is left open, and what is shown isn't.
    assert_eq!(rt; ended.text.len(), 1131 + 36);
    let mut shown = Vec::from_slice(rt.alloc(), &THREE_SHOWN[..85])?;
    shown.extend_from_slice(b"frames 1\n")?;
    Outside::replay(&ended.text).ends(rt.alloc(), 0, &shown, b"")
}

/// A line of a call that names a fence 65,536 times.
fn long_line(alloc: Global) -> Result<Vec<u8>, Fail> {
    let mut line = Vec::from_slice(alloc, b"vkResetFences device=dev fences=[f")?;
    for _ in 1..65_536 {
        line.extend_from_slice(b",f")?;
    }
    line.extend_from_slice(b"]\n")?;
    Ok(line)
}

/// A script of 512 such lines, of whose blocks, of 524,324 bytes each, the last one has no room.
fn long_script(alloc: Global) -> Result<Vec<u8>, Fail> {
    let line = long_line(alloc)?;
    let mut script = Vec::from_slice(alloc, OBJECTS)?;
    for _ in 0..512 {
        script.extend_from_slice(&line)?;
    }
    Ok(script)
}

#[test]
fn a_full_log_is_told_and_written(rt: HostRuntime) -> Result<(), Fail> {
    let script = long_script(rt.alloc())?;
    let ended = Outside::of(CAPTURE, &script)
        .at_most(1 << 20)
        .capture(&rt, rt.alloc())?;
    let line = b"log full: 267930163 and 524324\n";
    assert_eq!(rt; ended.notes.as_slice(), line.as_slice());
    assert_eq!(rt; (ended.status, ended.text.len()), (9, 267_930_163));
    Ok(())
}
