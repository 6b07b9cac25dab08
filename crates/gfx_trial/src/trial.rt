//! A trial, and the lines on it.
//!
//! It reads the capture that it made through a `SliceSource`, whose count of failures is 0 by its type.
ghost use Rattle.std.specs.Prelude.{◌≡◌, ◌≤◌, ◌++◌, IfOk, OnOk, codes, string_bytes};
ghost use Rattle.std.specs.Io.KnownBytes.{Appends};
ghost use Rattle.gfx_io.specs.Causes.{Rose};
ghost use Rattle.gfx_io.specs.Pieces.{AppendsPart};
ghost use Rattle.gfx_trial.specs.Text.{cut_line, digest_line, file_line, line_feed, lines_on, trial_of, trial_text};

use crate::TrialFault;
use crate::middle::{cut_out, digest_of};
use gfx_digest::Digested;
use gfx_io::{Sink, write_whole};
use gfx_make::make_file;
use gfx_types::WantMemory;
use std::alloc::{AllocError, Global};

/// What was found of a capture and of the frames that were cut out of it.
#[derive(Clone, Copy)]
struct Trial {
    frames: u64,
    first: u64,
    last: u64,
    // the digests of these frames of the whole file, and of the file that was cut out
    whole: Digested,
    cut: Digested,
}

/// Makes a capture of so many frames, cuts its middle third out, replays both, and writes four lines on them. After a fault the
/// sink took a prefix of these.
pub fn write_trial<K: Sink>(alloc: Global, frames: u64, sink: &mut K) -> Result<(), TrialFault>
    requires { (3 ≤ frames) × (frames ≤ 1000) }
    ensures ok { OnOk result (Appends (K.taken sink.old) (K.taken sink.new) (trial_text frames)) }
    ensures front { AppendsPart (K.taken sink.old) (K.taken sink.new) (trial_text frames) }
    ensures cause { result ≡ Err TrialFault.SinkFault → Rose (K.faults sink.old) (K.faults sink.new) }
    ensures later { K.faults sink.old ≤ K.faults sink.new }
{
    let trial = try_middle(alloc, frames)?;
    let text = trial.lines(alloc)?;
    write_whole(sink, text.as_bytes())?;
    Ok(())
}

/// Makes a capture, cuts its middle third out, and replays both.
fn try_middle(alloc: Global, frames: u64) -> Result<Trial, WantMemory>
    requires { (3 ≤ frames) × (frames ≤ 1000) }
    ensures { IfOk result (λ trial. trial ≡ trial_of frames) }
{
    let file = make_file(alloc, frames)?;
    let (first, last) = (frames / 3, 2 * frames / 3);
    let whole = digest_of(alloc, first, last, file.as_slice())?;
    let cut_file = cut_out(alloc, first, last, file.as_slice())?;
    let cut = digest_of(alloc, first, last, cut_file.as_slice())?;
    Ok(Trial {
        frames,
        first,
        last,
        whole,
        cut,
    })
}

impl Trial {
    /// The four lines.
    fn lines(&self, alloc: Global) -> Result<String, AllocError>
        requires { self.now.frames ≤ 1000 }
        ensures { IfOk result (λ text. string_bytes text ≡ lines_on self.now) }
    {
        let file = file_line(alloc, self.frames)?;
        let cut = cut_line(alloc, self.first, self.last, self.cut.frames)?;
        let before = digest_line(alloc, &self.whole.digest)?;
        let after = digest_line(alloc, &self.cut.digest)?;
        joined(
            alloc,
            file.as_str(),
            cut.as_str(),
            before.as_str(),
            after.as_str(),
        )
    }
}

/// The line on the file that was made.
fn file_line(alloc: Global, frames: u64) -> Result<String, AllocError>
    requires { frames ≤ 1000 }
    ensures { IfOk result (λ text. string_bytes text ≡ file_line frames) }
{
    let blocks = 25 + 6 * frames;
    format!(in alloc; "file frames {frames} blocks {blocks}\n")
}

/// The line on the file that was cut out, with the number of its frames.
fn cut_line(alloc: Global, first: u64, last: u64, count: u64) -> Result<String, AllocError>
    ensures { IfOk result (λ text. string_bytes text ≡ cut_line first last count) }
{
    format!(in alloc; "trim {first}-{last} frames {count}\n")
}

/// The line of a digest.
fn digest_line(alloc: Global, digest: &[u8; 32]) -> Result<String, AllocError>
    ensures { IfOk result (λ text. string_bytes text ≡ digest_line digest.now) }
{
    let hex = hex::encode(alloc, digest.as_slice())?;
    hex_line(alloc, hex.as_str())
}

/// The line of a digest in hexadecimal.
fn hex_line(alloc: Global, hex: &str) -> Result<String, AllocError>
    ensures { IfOk result (λ text. string_bytes text ≡ codes "digest " ++ hex.now ++ line_feed) }
{
    format!(in alloc; "digest {hex}\n")
}

/// Four texts, one after another.
fn joined(alloc: Global, a: &str, b: &str, c: &str, d: &str) -> Result<String, AllocError>
    ensures { IfOk result (λ text. string_bytes text ≡ a.now ++ b.now ++ c.now ++ d.now) }
{
    format!(in alloc; "{a}{b}{c}{d}")
}
