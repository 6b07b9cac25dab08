//! The log of a run, written whole or cut to a range of frames.
ghost use Rattle.std.specs.Prelude.{◌≡◌, ◌≤◌, List, Err};
ghost use Rattle.gfx_io.specs.Causes.{Rose};
ghost use Rattle.gfx_types.specs.declared.frame.Frame.{Frame};
ghost use Rattle.gfx_model.specs.Blocks.{clean};
ghost use Rattle.gfx_model.specs.Meaning.{Means};
ghost use Rattle.gfx_capture.specs.Log.{IsSound};
ghost use Rattle.gfx_log_law.specs.Logs.{log_file};
ghost use Rattle.gfx_recording.specs.Faults.{IsCutFault, recording_fault};
ghost use Rattle.gfx_recording.specs.Writing.{Cuts, IsOrdered, MeansHistory, TookThen, WritesAsked, WritesWhole};

use crate::RecordingFault;
use gfx_capture::Log;
use gfx_io::{Sink, SliceSource, write_whole};
use gfx_player::{Asked, PlayFault};
use gfx_trim::trim;
use std::alloc::Global;

/// Writes the frames of a log that are asked for.
pub(crate) fn write_asked<K: Sink>(
    alloc: Global,
    asked: Asked,
    log: &Log,
    sink: &mut K,
) -> Result<(), RecordingFault>
    requires { IsOrdered asked }
    ensures means { MeansHistory log.now.minor log.now.entries }
    ensures sound { IsSound log.now.minor log.now.entries }
    ensures wrote { WritesAsked asked (K.taken sink.old) (K.taken sink.new) log.now result }
    ensures sink_fault { result ≡ Err RecordingFault.SinkFault → Rose (K.faults sink.old) (K.faults sink.new) }
    ensures later { K.faults sink.old ≤ K.faults sink.new }
{
    match asked {
        Asked::All => write_log(log, sink),
        Asked::Between { first, last } => write_cut(alloc, first, last, log, sink),
    }
}

/// Writes the whole log of a run that ended early, and answers why it did.
pub(crate) fn write_halted<K: Sink>(
    log: &Log,
    why: RecordingFault,
    sink: &mut K,
) -> Result<(), RecordingFault>
    requires { why ≡ RecordingFault.SinkFault → ⊥ }
    ensures means { MeansHistory log.now.minor log.now.entries }
    ensures wrote { TookThen why (K.taken sink.old) (K.taken sink.new) (log_file log.now.minor log.now.entries) result }
    ensures sink_fault { result ≡ Err RecordingFault.SinkFault → Rose (K.faults sink.old) (K.faults sink.new) }
    ensures later { K.faults sink.old ≤ K.faults sink.new }
{
    write_log(log, sink)?;
    Err(why)
}

/// Writes the whole log.
fn write_log<K: Sink>(log: &Log, sink: &mut K) -> Result<(), RecordingFault>
    ensures means { MeansHistory log.now.minor log.now.entries }
    ensures sound { IsSound log.now.minor log.now.entries }
    ensures took { WritesWhole (K.taken sink.old) (K.taken sink.new) (log_file log.now.minor log.now.entries) result }
    ensures sink_fault { result ≡ Err RecordingFault.SinkFault → Rose (K.faults sink.old) (K.faults sink.new) }
    ensures later { K.faults sink.old ≤ K.faults sink.new }
{
    match write_whole(sink, log.bytes()) {
        Ok(()) => Ok(()),
        Err(_) => Err(RecordingFault::SinkFault),
    }
}

/// Writes the frames from `first` to `last` of a log, as a file.
fn write_cut<K: Sink>(
    alloc: Global,
    first: u64,
    last: u64,
    log: &Log,
    sink: &mut K,
) -> Result<(), RecordingFault>
    requires { first ≤ last }
    ensures means { MeansHistory log.now.minor log.now.entries }
    ensures sound { IsSound log.now.minor log.now.entries }
    ensures cuts { Cuts first last (K.taken sink.old) (K.taken sink.new) (log_file log.now.minor log.now.entries) result }
    ensures sink_fault { result ≡ Err RecordingFault.SinkFault → Rose (K.faults sink.old) (K.faults sink.new) }
    ensures later { K.faults sink.old ≤ K.faults sink.new }
{
    cut_file(alloc, first, last, log.bytes(), sink)
}

/// Writes the frames from `first` to `last` of a file without a bad block.
fn cut_file<K: Sink>(
    alloc: Global,
    first: u64,
    last: u64,
    file: &[u8],
    sink: &mut K,
) -> Result<(), RecordingFault>
    requires ordered { first ≤ last }
    requires means { (shown : List Frame) × Means file.now shown clean }
    ensures cuts { Cuts first last (K.taken sink.old) (K.taken sink.new) file.now result }
    ensures sink_fault { result ≡ Err RecordingFault.SinkFault → Rose (K.faults sink.old) (K.faults sink.new) }
    ensures later { K.faults sink.old ≤ K.faults sink.new }
{
    let mut source = SliceSource { rest: file };
    match trim(alloc, first, last, &mut source, sink) {
        Ok(()) => Ok(()),
        Err(fault) => Err(uncut(fault)),
    }
}

/// Why a file without a bad block was not cut.
fn uncut(fault: PlayFault) -> RecordingFault
    requires { IsCutFault fault }
    ensures { result ≡ recording_fault fault }
{
    match fault {
        PlayFault::NoSuchFrame { first, last } => RecordingFault::NoSuchFrame { first, last },
        PlayFault::SinkFault => RecordingFault::SinkFault,
        PlayFault::WantMemory => RecordingFault::WantMemory,
        PlayFault::ReadFault => unreachable!(),
        PlayFault::Bad { .. } => unreachable!(),
    }
}
