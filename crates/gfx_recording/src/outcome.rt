//! What a run left, written.
ghost use Rattle.std.specs.Prelude.{◌≡◌, ◌≤◌, Err};
ghost use Rattle.gfx_io.specs.Causes.{Rose};
ghost use Rattle.gfx_recording.specs.Records.{LeftIsSound, LeftMeans, Writes};
ghost use Rattle.gfx_recording.specs.Writing.{IsOrdered};

use crate::RecordingFault;
use crate::writing::{write_asked, write_halted};
use gfx_io::Sink;
use gfx_player::Asked;
use gfx_recorder::Outcome;
use std::alloc::Global;

/// Writes what a run left, and drops it.
pub(crate) fn write_outcome<K: Sink>(
    alloc: Global,
    asked: Asked,
    outcome: Outcome,
    sink: &mut K,
) -> Result<(), RecordingFault>
    requires { IsOrdered asked }
    ensures means { LeftMeans outcome }
    ensures sound { LeftIsSound outcome }
    ensures wrote { Writes asked (K.taken sink.old) (K.taken sink.new) outcome result }
    ensures sink_fault { result ≡ Err RecordingFault.SinkFault → Rose (K.faults sink.old) (K.faults sink.new) }
    ensures later { K.faults sink.old ≤ K.faults sink.new }
{
    let written = write_left(alloc, asked, &outcome, sink);
    drop(outcome);
    written
}

/// Writes what a run left: the frames that are asked for where each call was accepted, and else the whole log.
fn write_left<K: Sink>(
    alloc: Global,
    asked: Asked,
    outcome: &Outcome,
    sink: &mut K,
) -> Result<(), RecordingFault>
    requires { IsOrdered asked }
    ensures means { LeftMeans outcome.now }
    ensures sound { LeftIsSound outcome.now }
    ensures wrote { Writes asked (K.taken sink.old) (K.taken sink.new) outcome.now result }
    ensures sink_fault { result ≡ Err RecordingFault.SinkFault → Rose (K.faults sink.old) (K.faults sink.new) }
    ensures later { K.faults sink.old ≤ K.faults sink.new }
{
    match outcome {
        Outcome::Done { log } => write_asked(alloc, asked, log, sink),
        Outcome::Refused {
            line,
            fault,
            at,
            log,
        } => {
            let (line, fault, at) = (*line, *fault, *at);
            write_halted(log, RecordingFault::CallRefused { line, fault, at }, sink)
        }
        Outcome::LogFull {
            length,
            wanted,
            log,
        } => {
            let (length, wanted) = (*length, *wanted);
            write_halted(log, RecordingFault::LogFull { length, wanted }, sink)
        }
        Outcome::WantMemory => Err(RecordingFault::WantMemory),
    }
}
