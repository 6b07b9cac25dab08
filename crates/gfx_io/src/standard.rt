// Readers and writers of std, as a source and a sink. They tell nothing of their bytes.
ghost use Rattle.std.specs.Prelude.{◌≡◌, ℕ, None};

use crate::{Failed, Sink, Source};
use std::io::{Read, Write};
use std::marker::Model;

/// A reader that counts its faults: contracts see it as that count.
#[derive(Drop)]
pub struct StdSource<R: Read> {
    reader: R,
    faults: u64,
}

impl<R: Read> Model for StdSource<R> {
    ghost Value = { ℕ };

    ghost view = { λ s. s.faults };
}

impl<R: Read> StdSource<R> {
    /// A source over the reader. Each `Err` of it will be counted, an interrupted call's too.
    pub fn new(reader: R) -> Self
        ensures { result ≡ 0 }
    {
        StdSource { reader, faults: 0 }
    }
}

impl<R: Read> Source for StdSource<R> {
    ghost left = { λ _. None };

    ghost faults = { λ s. s };

    ghost are_bytes = { λ _. tt };

    fn read(&mut self, into: &mut [u8]) -> Result<usize, Failed> {
        match self.reader.read(into) {
            Ok(count) => Ok(count),
            Err(_) => {
                self.faults = self.faults.saturating_add(1);
                Err(Failed)
            }
        }
    }
}

/// A writer that counts its faults: contracts see it as that count.
#[derive(Drop)]
pub struct StdSink<W: Write> {
    writer: W,
    faults: u64,
}

impl<W: Write> Model for StdSink<W> {
    ghost Value = { ℕ };

    ghost view = { λ s. s.faults };
}

impl<W: Write> StdSink<W> {
    /// A sink over the writer. Each `Err` of it will be counted, and so will a write that takes nothing of a piece.
    pub fn new(writer: W) -> Self
        ensures { result ≡ 0 }
    {
        StdSink { writer, faults: 0 }
    }
}

impl<W: Write> Sink for StdSink<W> {
    ghost taken = { λ _. None };

    ghost faults = { λ s. s };

    fn write(&mut self, piece: &[u8]) -> Result<usize, Failed> {
        match self.writer.write(piece) {
            Ok(count) if count > 0 || piece.is_empty() => Ok(count),
            _ => {
                self.faults = self.faults.saturating_add(1);
                Err(Failed)
            }
        }
    }
}
