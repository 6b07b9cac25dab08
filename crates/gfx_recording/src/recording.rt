//! A script read, run and written.
ghost use Rattle.std.specs.Prelude.{◌≡◌, ◌≤◌, ◌⊎◌, Err, IfSome, IfErr};
ghost use Rattle.gfx_io.specs.Causes.{Rose};
ghost use Rattle.gfx_io.specs.Told.{IfTold, IsTold};
ghost use Rattle.gfx_recording.specs.Records.{IsSafeText, IsUnstopped, Leaves, Records};
ghost use Rattle.gfx_recording.specs.Writing.{IsOrdered};

use crate::RecordingFault;
use crate::outcome::write_outcome;
use crate::script::{read_script, run_as};
use crate::text::read_text;
use gfx_io::{Gate, Sink, Source};
use gfx_player::Asked;
use gfx_recorder::record_script;
use std::alloc::Global;
use std::sync::Wait;
use std::thread::Threads;

/// Reads a script to its end, runs its threads, with their writes gathered where that is asked for, and writes the log that they
/// leave: whole, or cut to the frames that are asked for where each call was accepted. It may wait.
pub fn record<R: Threads + Wait + Sync, S: Source, K: Sink, G: Gate + Sync>(
    rt: &R,
    alloc: Global,
    gathers: bool,
    asked: Asked,
    source: &mut S,
    sink: &mut K,
    gate: &G,
) -> Result<(), RecordingFault>
    requires { IsOrdered asked }
    ensures told { IfTold (S.left source.old) (S.left source.new) (Records gathers asked (K.taken sink.old) (K.taken sink.new) result) }
    ensures leaves { Leaves result (sink.new ≡ sink.old) }
    ensures complete { IsTold (S.left source.old) → IfSome (S.left source.old) (IsSafeText gathers asked) → ¬ Rose (S.faults source.old) (S.faults source.new)
        → ¬ Rose (K.faults sink.old) (K.faults sink.new) → IsUnstopped result }
    ensures read_fault { result ≡ Err RecordingFault.ReadFault → Rose (S.faults source.old) (S.faults source.new) }
    ensures sink_fault { result ≡ Err RecordingFault.SinkFault → Rose (K.faults sink.old) (K.faults sink.new) }
    ensures later { (S.faults source.old ≤ S.faults source.new) × (K.faults sink.old ≤ K.faults sink.new) }
{
    let text = read_text(alloc, source)?;
    let script = read_script(alloc, text.as_slice())?;
    let shown = run_as(alloc, gathers, script)?;
    let outcome = record_script(rt, alloc, gate, &shown);
    write_outcome(alloc, asked, outcome, sink)
}
