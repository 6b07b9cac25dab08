//! A frame is written, or its blocks are, before what follows it is read.
ghost use Rattle.std.specs.Prelude.{None};
ghost use Rattle.gfx_io.specs.Memory.{sink_faults};

use gfx_cli::run_files;
use gfx_io::{Failed, MemSink, Sink, Source};
use gfx_outside::{Ended, words_of};
use gfx_samples::cuts::first_cut;
use gfx_samples::files::{ENDS, NEXT_FRAME, THREE_SHOWN, three_frames};
use std::alloc::Global;
use std::sync::atomic::{AtomicU64, Ordering};
use std::test::Fail;

/// A file that is given in pieces; what follows the first frame comes only once enough was written.
#[derive(Drop)]
struct Held<'a> {
    file: Vec<u8>,
    at: usize,
    wanted: u64,
    written: &'a AtomicU64,
    faults: u64,
}

impl<'a> Source for Held<'a> {
    ghost left = { λ _. None };

    ghost faults = { λ s. s.faults };

    ghost are_bytes = { λ _. tt };

    fn read(&mut self, into: &mut [u8]) -> Result<usize, Failed> {
        if self.at >= ENDS[0] && self.written.load(Ordering::SeqCst) < self.wanted {
            self.faults = self.faults.saturating_add(1);
            return Err(Failed);
        }
        let rest = &self.file[self.at.min(self.file.len())..];
        let count = rest.len().min(into.len()).min(100);
        into[..count].copy_from_slice(&rest[..count]);
        self.at = self.at.saturating_add(count);
        Ok(count)
    }
}

/// A sink that tells how much it took while it takes more.
#[derive(Drop)]
struct Counted<'a> {
    sink: MemSink,
    written: &'a AtomicU64,
}

impl<'a> Sink for Counted<'a> {
    ghost taken = { λ _. None };

    ghost faults = { λ s. sink_faults s.sink };

    fn write(&mut self, piece: &[u8]) -> Result<usize, Failed> {
        let count = self.sink.write(piece)?;
        self.written.fetch_add(count as u64, Ordering::SeqCst);
        Ok(count)
    }
}

/// Runs these words over the file of three frames where so many bytes are needed.
fn run_held(alloc: Global, words: &[&str], wanted: u64) -> Result<Ended, Fail> {
    let written = AtomicU64::new(0);
    let mut source = Held {
        file: three_frames(alloc)?,
        at: 0,
        wanted,
        written: &written,
        faults: 0,
    };
    let mut sink = Counted {
        sink: MemSink::new(alloc, 4096, Vec::new(alloc)),
        written: &written,
    };
    let mut notes = MemSink::new(alloc, 4096, Vec::new(alloc));
    let words = words_of(alloc, words)?;
    let status = run_files(alloc, &words, &mut source, &mut sink, &mut notes);
    Ok(Ended {
        status: status.code(),
        text: sink.sink.into_bytes(),
        notes: notes.into_bytes(),
        left: source.file.len().saturating_sub(source.at),
    })
}

#[test]
fn a_frame_is_written_before_more_is_read(rt: HostRuntime) -> Result<(), Fail> {
    let ended = run_held(rt.alloc(), &["replay"], 85)?;
    assert_eq!(rt; ended.status, 0);
    assert_eq!(rt; ended.text.as_slice(), THREE_SHOWN);
    assert!(rt; ended.notes.is_empty());
    assert_eq!(rt; ended.left, 0);
    Ok(())
}

#[test]
fn no_frame_is_written_before_its_present_is_read(rt: HostRuntime) -> Result<(), Fail> {
    let ended = run_held(rt.alloc(), &["replay"], 86)?;
    assert_eq!(rt; ended.status, 5);
    assert_eq!(rt; ended.text.as_slice(), &THREE_SHOWN[..85]);
    assert_eq!(rt; ended.notes.as_slice(), b"read fault\n".as_slice());
    assert!(rt; ended.left > 0);
    Ok(())
}

#[test]
fn the_blocks_of_a_range_are_written_before_more_is_read(rt: HostRuntime) -> Result<(), Fail> {
    let ended = run_held(rt.alloc(), &["trim", "1-3"], 1179)?;
    let cut = first_cut(rt.alloc(), &[&NEXT_FRAME, &NEXT_FRAME])?;
    assert_eq!(rt; ended.status, 0);
    assert_eq!(rt; ended.text, cut);
    assert!(rt; ended.notes.is_empty());
    assert_eq!(rt; ended.left, 0);
    Ok(())
}

#[test]
fn no_block_is_written_before_it_is_read(rt: HostRuntime) -> Result<(), Fail> {
    let ended = run_held(rt.alloc(), &["trim", "1-3"], 1180)?;
    assert_eq!(rt; ended.status, 5);
    assert_eq!(rt; ended.text, first_cut(rt.alloc(), &[])?);
    assert_eq!(rt; ended.notes.as_slice(), b"read fault\n".as_slice());
    assert!(rt; ended.left > 0);
    Ok(())
}
