// What each command reads and writes.
ghost use Rattle.std.specs.Prelude.{◌≡◌, ◌≤◌, Err, IfSome, IfErr, OnOk, IsNone, map, string_bytes};
ghost use Rattle.std.specs.Io.KnownBytes.{Appends};
ghost use Rattle.gfx_io.specs.Causes.{Rose};
ghost use Rattle.gfx_io.specs.Pieces.{AppendsPart};
ghost use Rattle.gfx_words.specs.Commands.{Fits};
ghost use Rattle.gfx_trial.specs.Text.{trial_text};
ghost use Rattle.gfx_cli.specs.CommandPromise.{KeepsCommand};
ghost use Rattle.gfx_cli.specs.Commands.{asked_by};
ghost use Rattle.gfx_cli.specs.Seen.{seen};
ghost use Rattle.gfx_cli.specs.Stop.{IsUnwritten};
ghost use Rattle.gfx_cli.specs.Words.{IsNamed, IsOutside, IsOnly};

use crate::Stop;
use crate::info::write_counts;
use gfx_io::{Sink, Source, write_whole};
use gfx_lean::lean;
use gfx_list::{list, unlist};
use gfx_play::show_frames;
use gfx_player::Asked;
use gfx_trial::write_trial;
use gfx_trim::trim;
use gfx_upgrade::upgrade;
use gfx_words::{Command, FrameRange};
use std::alloc::Global;

const HELP: &str =
    "usage: gfxcap info; replay [--pixels] [--frames A-B]; trim A-B; capture [--gather] [--frames A-B]; make N; upgrade; lean A-B; list; unlist; digests
A capture is read from standard input, and frames A to B are those with these numbers.
info describes it, replay writes a line with the digest of each frame, with --pixels its rows too,
and trim writes the capture of these frames alone, lean without what they never need. make tries the
program on a capture of N frames.
upgrade writes the capture in version 2. list writes it as text, a line for each block, and unlist
makes the capture of such a text again. digests writes what replay does, on all processors.
capture runs the script that it reads on threads, and writes the capture of their calls, with --gather
the writes of a thread as fills before its next submit, unmap or free.
--help and --version alone write this text and the version.
";

const VERSION: &str = "gfxcap 0.1.0\n";

/// The command that the words name.
pub(crate) fn named_command(words: &[String]) -> Option<Command>
    ensures some { IfSome result (IsNamed (map string_bytes words.now)) }
    ensures only { IfSome result (IsOnly (map string_bytes words.now)) }
    ensures none { IsNone result → IsOutside (map string_bytes words.now) }
{
    Command::of(words)
}

/// The frames that the words ask for.
pub(crate) fn asked_by(frames: Option<FrameRange>) -> Asked
    ensures { result ≡ asked_by frames }
{
    match frames {
        Some(FrameRange { first, last }) => Asked::Between { first, last },
        None => Asked::All,
    }
}

/// Makes a capture, cuts it, and writes what both show.
fn make<K: Sink>(alloc: Global, frames: u64, sink: &mut K) -> Result<(), Stop>
    requires { (3 ≤ frames) × (frames ≤ 1000) }
    ensures ok { OnOk result (Appends (K.taken sink.old) (K.taken sink.new) (trial_text frames)) }
    ensures front { AppendsPart (K.taken sink.old) (K.taken sink.new) (trial_text frames) }
    ensures why { IfErr result IsUnwritten }
    ensures write_fault { result ≡ Err Stop.WriteFault → Rose (K.faults sink.old) (K.faults sink.new) }
    ensures later { K.faults sink.old ≤ K.faults sink.new }
{
    write_trial(alloc, frames, sink)?;
    Ok(())
}

/// Writes a text that needs no file.
fn write_text<K: Sink>(text: &str, sink: &mut K) -> Result<(), Stop>
    ensures ok { OnOk result (Appends (K.taken sink.old) (K.taken sink.new) text.now) }
    ensures front { AppendsPart (K.taken sink.old) (K.taken sink.new) text.now }
    ensures why { IfErr result IsUnwritten }
    ensures write_fault { result ≡ Err Stop.WriteFault → Rose (K.faults sink.old) (K.faults sink.new) }
    ensures later { K.faults sink.old ≤ K.faults sink.new }
{
    write_whole(sink, text.as_bytes())?;
    Ok(())
}

/// Runs a command, up to its end or the first event that stops it.
pub(crate) fn run_command<S: Source, K: Sink>(
    alloc: Global,
    command: Command,
    source: &mut S,
    sink: &mut K,
) -> Result<(), Stop>
    requires { Fits command }
    ensures { KeepsCommand command (seen source.old source.new S.left S.faults) (seen sink.old sink.new K.taken K.faults) result }
{
    match command {
        Command::Info => write_counts(alloc, source, sink),
        Command::Replay { pixels, frames } => {
            Ok(show_frames(alloc, asked_by(frames), pixels, source, sink)?)
        }
        Command::Help => write_text(HELP, sink),
        Command::Version => write_text(VERSION, sink),
        Command::Trim(range) => Ok(trim(alloc, range.first, range.last, source, sink)?),
        Command::Lean(range) => Ok(lean(alloc, range.first, range.last, source, sink)?),
        Command::Upgrade => Ok(upgrade(alloc, source, sink)?),
        Command::List => Ok(list(alloc, source, sink)?),
        Command::Unlist => Ok(unlist(alloc, source, sink)?),
        Command::Make { frames } => make(alloc, frames, sink),
    }
}
