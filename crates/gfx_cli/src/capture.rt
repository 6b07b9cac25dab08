// The command that runs a script on threads and writes the log.
ghost use Rattle.std.specs.Prelude.{IfSome, IsNone, map, string_bytes};
ghost use Rattle.gfx_words.specs.Commands.{FitsFrames};
ghost use Rattle.gfx_cli.specs.CapturePromise.{KeepsCapture, KeepsRecording};
ghost use Rattle.gfx_cli.specs.Seen.{seen};
ghost use Rattle.gfx_cli.specs.Words.{IsAsked, IsOnlyAsked, IsUnasked};

use crate::Status;
use crate::capture_notes::tell_capture;
use crate::commands::asked_by;
use crate::files::USAGE;
use crate::notes::note;
use gfx_io::{Gate, Sink, Source};
use gfx_recording::{RecordingFault, record};
use gfx_words::Recording;
use std::alloc::Global;
use std::sync::Wait;
use std::thread::Threads;

/// The recording that the words ask for.
fn asked_recording(words: &[String]) -> Option<Recording>
    ensures some { IfSome result (IsAsked (map string_bytes words.now)) }
    ensures only { IfSome result (IsOnlyAsked (map string_bytes words.now)) }
    ensures none { IsNone result → IsUnasked (map string_bytes words.now) }
{
    Recording::of(words)
}

/// Reads a script, runs its threads, and writes the frames that are asked for of the log that they leave.
fn record_frames<R: Threads + Wait + Sync, S: Source, K: Sink, G: Gate + Sync>(
    rt: &R,
    alloc: Global,
    recording: Recording,
    source: &mut S,
    sink: &mut K,
    gate: &G,
) -> Result<(), RecordingFault>
    requires { FitsFrames recording.frames }
    ensures { KeepsRecording recording (seen source.old source.new S.left S.faults) (seen sink.old sink.new K.taken K.faults) result }
{
    let asked = asked_by(recording.frames);
    record(rt, alloc, recording.gathers, asked, source, sink, gate)
}

/// Reads a script to its end, runs its threads, and writes the log that they leave, over a source and two sinks. It may wait. What
/// it promises is in `KeepsCapture`.
pub fn run_capture<R: Threads + Wait + Sync, S: Source, K: Sink, N: Sink, G: Gate + Sync>(
    rt: &R,
    alloc: Global,
    words: &[String],
    source: &mut S,
    sink: &mut K,
    notes: &mut N,
    gate: &G,
) -> Status
    ensures { KeepsCapture (map string_bytes words.now)
        (seen source.old source.new S.left S.faults) (seen sink.old sink.new K.taken K.faults) (seen notes.old notes.new N.taken N.faults)
        result }
{
    let Some(recording) = asked_recording(words) else {
        return note(notes, USAGE, Status::Usage);
    };
    match record_frames(rt, alloc, recording, source, sink, gate) {
        Ok(()) => Status::Done,
        Err(fault) => tell_capture(alloc, fault, notes),
    }
}
