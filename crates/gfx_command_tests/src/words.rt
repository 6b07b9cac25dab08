//! The words of the command line.

use gfx_outside::{Ended, Outside};
use std::alloc::Global;
use std::process::Abort;
use std::test::Fail;

const USAGE: &[u8] =
    b"usage: gfxcap info; replay [--pixels] [--frames A-B]; trim A-B; capture [--gather] [--frames A-B]; make N; upgrade; lean A-B; list; unlist; digests\n";

const HELP: &[u8] =
    b"usage: gfxcap info; replay [--pixels] [--frames A-B]; trim A-B; capture [--gather] [--frames A-B]; make N; upgrade; lean A-B; list; unlist; digests
A capture is read from standard input, and frames A to B are those with these numbers.
info describes it, replay writes a line with the digest of each frame, with --pixels its rows too,
and trim writes the capture of these frames alone, lean without what they never need. make tries the
program on a capture of N frames.
upgrade writes the capture in version 2. list writes it as text, a line for each block, and unlist
makes the capture of such a text again. digests writes what replay does, on all processors.
capture runs the script that it reads on threads, and writes the capture of their calls, with --gather
the writes of a thread as fills before its next submit, unmap or free.
--help and --version alone write this text and the version.
";

/// It wrote this and noted that, and read nothing of ten bytes.
fn assert_unread(
    rt: &impl Abort,
    words: &str,
    ended: &Ended,
    (status, text, notes): (u8, &[u8], &[u8]),
) {
    assert_eq!(rt; ended.notes.as_slice(), notes, "of {words}");
    assert_eq!(rt; ended.text.as_slice(), text, "of {words}");
    assert_eq!(rt; (ended.status, ended.left), (status, 10), "of {words}");
}

#[test]
fn help_and_version_go_to_the_sink_and_read_nothing(rt: HostRuntime) -> Result<(), Fail> {
    let helped = Outside::of(&["--help"], b"no capture").run(rt.alloc())?;
    assert_unread(&rt, "--help", &helped, (0, HELP, b""));
    let told = Outside::of(&["--version"], b"no capture").run(rt.alloc())?;
    assert_unread(&rt, "--version", &told, (0, b"gfxcap 0.1.0\n", b""));
    Ok(())
}

/// Words of no command, a line each; in the first line there are none.
const OTHERS: &str = "
Info
info info
--help info
--version --help
replay --pixels --pixels
replay --frames
replay --frames 3-2
replay --frames 02-3
replay --frames 1-18446744073709551616
replay --frames 1-2 --pixels
trim
trim 2
trim 3-2
trim 02-3
trim --frames 2-2
trim 2-2 --pixels
make 2
make 03
make 1001
";

/// The words of a line.
fn words_in<'a>(alloc: Global, line: &'a str) -> Result<Vec<&'a str>, Fail> {
    let mut words = Vec::new(alloc);
    for word in line.split_whitespace() {
        words.push(word)?;
    }
    Ok(words)
}

/// The words of a line are no command's.
fn assert_usage(rt: &(impl Abort + AllocGlobal), line: &str) -> Result<(), Fail> {
    let words = words_in(rt.alloc(), line)?;
    let ended = Outside::of(&words, b"no capture").run(rt.alloc())?;
    assert_unread(rt, line, &ended, (2, b"", USAGE));
    Ok(())
}

/// Words of a recording, which is no command over files.
const RECORDINGS: [&[&str]; 3] = [
    &["capture"],
    &["capture", "--gather"],
    &["capture", "--gather", "--frames", "1-1"],
];

#[test]
fn words_outside_the_grammar_are_answered_by_the_usage_line(rt: HostRuntime) -> Result<(), Fail> {
    for line in OTHERS.lines() {
        assert_usage(&rt, line)?;
    }
    assert_eq!(rt; OTHERS.lines().count(), 20);
    Ok(())
}

#[test]
fn words_of_a_recording_are_no_command_over_files(rt: HostRuntime) -> Result<(), Fail> {
    for words in RECORDINGS {
        Outside::of(words, b"").ends(rt.alloc(), 2, b"", USAGE)?;
    }
    Ok(())
}

/// Words of no recording, a line each; in the first line there are none.
const NO_RECORDINGS: &str = "
replay
capture 1-1
capture --gather --gather
capture --frames
capture --frames 2-1
capture --frames 1-1 --gather
";

#[test]
fn words_of_no_recording_are_answered_by_the_usage_line(rt: HostRuntime) -> Result<(), Fail> {
    for line in NO_RECORDINGS.lines() {
        let words = words_in(rt.alloc(), line)?;
        let ended = Outside::of(&words, b"no capture").capture(&rt, rt.alloc())?;
        assert_unread(&rt, line, &ended, (2, b"", USAGE));
    }
    Ok(())
}
