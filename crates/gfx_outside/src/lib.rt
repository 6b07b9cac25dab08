//! A run of the program for tests, with all that is outside of it in memory.
#![tactic(auto)]

use gfx_cli::{Status, run, run_capture, run_fan, run_files};
use gfx_io::{Gate, MemSink, MemSource, NoGate};
use std::alloc::{AllocError, Global};
use std::sync::Wait;
use std::test::Fail;
use std::thread::Threads;

/// The words that show the rows of all frames.
pub const PIXELS: &[&str] = &["replay", "--pixels"];

/// What a run is handed: its words, its input, how many bytes go at a time, and the calls that fail.
#[derive(Clone, Copy)]
pub struct Outside<'a> {
    pub words: &'a [&'a str],
    pub input: &'a [u8],
    pub most: usize,
    pub failing_reads: &'a [u64],
    pub failing_writes: &'a [u64],
    pub failing_notes: &'a [u64],
}

/// How a run ended, what it wrote and noted, and how many bytes of its input it left unread.
#[derive(Drop)]
pub struct Ended {
    pub status: u8,
    pub text: Vec<u8>,
    pub notes: Vec<u8>,
    pub left: usize,
}

/// The words, as a program is handed them.
pub fn words_of(alloc: Global, words: &[&str]) -> Result<Vec<String>, AllocError> {
    let mut all = Vec::new(alloc);
    for word in words {
        all.push(String::from_str(alloc, *word)?)?;
    }
    Ok(all)
}

/// How it ends that this range is cut out of a file, which comes whole, where no call fails.
pub fn trim<'a>(alloc: Global, range: &'a str, file: &'a [u8]) -> Result<Ended, AllocError> {
    let words = ["trim", range];
    Outside::of(&words, file).run(alloc)
}

/// The streams of a run, in memory.
#[derive(Drop)]
struct Streams {
    source: MemSource,
    sink: MemSink,
    notes: MemSink,
}

impl Streams {
    fn ended(self, status: Status) -> Ended {
        Ended {
            status: status.code(),
            text: self.sink.into_bytes(),
            notes: self.notes.into_bytes(),
            left: self.source.left().len(),
        }
    }
}

impl<'a> Outside<'a> {
    /// These words over input that comes whole, where no call fails.
    pub fn of(words: &'a [&'a str], input: &'a [u8]) -> Self {
        Outside {
            words,
            input,
            most: 4096,
            failing_reads: &[],
            failing_writes: &[],
            failing_notes: &[],
        }
    }

    /// The word `info`.
    pub fn info(input: &'a [u8]) -> Self {
        Outside::of(&["info"], input)
    }

    /// The word `replay`.
    pub fn replay(input: &'a [u8]) -> Self {
        Outside::of(&["replay"], input)
    }

    /// Moves at most so many bytes at a time.
    pub fn at_most(self, most: usize) -> Self {
        Outside { most, ..self }
    }

    /// How it ends.
    pub fn run(self, alloc: Global) -> Result<Ended, AllocError> {
        let words = words_of(alloc, self.words)?;
        let mut streams = self.streams(alloc)?;
        let Streams {
            source,
            sink,
            notes,
        } = &mut streams;
        let status = run_files(alloc, &words, source, sink, notes);
        Ok(streams.ended(status))
    }

    /// How it ends where all processors may work at it.
    pub fn fan<R: Threads + Sync>(self, rt: &R, alloc: Global) -> Result<Ended, AllocError> {
        let words = words_of(alloc, self.words)?;
        let mut streams = self.streams(alloc)?;
        let Streams {
            source,
            sink,
            notes,
        } = &mut streams;
        let status = run_fan(rt, alloc, &words, source, sink, notes);
        Ok(streams.ended(status))
    }

    /// How it ends where the threads of a script may run.
    pub fn capture<R: Threads + Wait + Sync>(
        self,
        rt: &R,
        alloc: Global,
    ) -> Result<Ended, AllocError> {
        let words = words_of(alloc, self.words)?;
        let mut streams = self.streams(alloc)?;
        let Streams {
            source,
            sink,
            notes,
        } = &mut streams;
        let status = run_capture(rt, alloc, &words, source, sink, notes, &NoGate);
        Ok(streams.ended(status))
    }

    /// How the program's one call ends, with the gate that threads of a script tell of their lines.
    pub fn gated<R: Threads + Wait + Sync, G: Gate + Sync>(
        self,
        rt: &R,
        alloc: Global,
        gate: &G,
    ) -> Result<Ended, AllocError> {
        let words = words_of(alloc, self.words)?;
        let mut streams = self.streams(alloc)?;
        let Streams {
            source,
            sink,
            notes,
        } = &mut streams;
        let status = run(rt, alloc, &words, source, sink, notes, gate);
        Ok(streams.ended(status))
    }

    fn streams(self, alloc: Global) -> Result<Streams, AllocError> {
        let source = MemSource::new(
            Vec::from_slice(alloc, self.input)?,
            self.most,
            Vec::from_slice(alloc, self.failing_reads)?,
        );
        let writes = Vec::from_slice(alloc, self.failing_writes)?;
        let noted = Vec::from_slice(alloc, self.failing_notes)?;
        Ok(Streams {
            source,
            sink: MemSink::new(alloc, self.most, writes),
            notes: MemSink::new(alloc, self.most, noted),
        })
    }

    /// Runs it, and compares its status, what it wrote and what it noted.
    pub fn ends(self, alloc: Global, status: u8, text: &[u8], notes: &[u8]) -> Result<(), Fail> {
        let ended = self.run(alloc)?;
        if ended.notes.as_slice() != notes {
            return Err(Fail::new("other notes"));
        }
        if ended.text.as_slice() != text {
            return Err(Fail::new("another text"));
        }
        if ended.status != status {
            return Err(Fail::new("another status"));
        }
        Ok(())
    }
}
