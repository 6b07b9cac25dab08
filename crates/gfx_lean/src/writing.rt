//! The bytes of a lean file.
ghost use Rattle.std.specs.Prelude.{◌≡◌, ◌≤◌, List, Err, IfErr, OnOk};
ghost use Rattle.std.specs.Io.KnownBytes.{Appends};
ghost use Rattle.gfx_io.specs.Causes.{Rose};
ghost use Rattle.gfx_io.specs.Pieces.{AppendsPart};
ghost use Rattle.gfx_model.specs.Blocks.{Whole};
ghost use Rattle.gfx_model.specs.Events.{Event};
ghost use Rattle.gfx_player.specs.Faults.{IsUnwritten};
ghost use Rattle.gfx_range.specs.Range.{IsGathered};
ghost use Rattle.gfx_replay.specs.Replayer.{StandsFor};
ghost use Rattle.gfx_trim.specs.Faults.{of_state};
ghost use Rattle.gfx_lean.specs.Leaner.{IsFailed, Wrote};
ghost use Rattle.gfx_lean.specs.Written.{lean_text};

use gfx_blocks::put_header;
use gfx_io::{Sink, write_whole};
use gfx_player::PlayFault;
use gfx_range::Range;
use gfx_replay::Replayer;
use gfx_state::{Keep, StateFault, write_some};
use std::alloc::Global;

/// Writes the lean file of a range, behind what was replayed before it.
pub(crate) fn write_range<K: Sink>(
    alloc: Global,
    minor: u32,
    first: u64,
    range: Range,
    replayer: &Replayer,
    sink: &mut K,
) -> Result<(), PlayFault>
    requires { (h : List Event) × StandsFor replayer.now h }
    ensures ok { OnOk result ((h : List Event) (ws : List Whole) → StandsFor replayer.now h → IsGathered range h ws → Wrote minor first h ws (K.taken sink.old) (K.taken sink.new)) }
    ensures err { IfErr result (λ why. (h : List Event) (ws : List Whole) → StandsFor replayer.now h → IsGathered range h ws → IsFailed minor first h ws (K.taken sink.old) (K.taken sink.new) why) }
    ensures later { K.faults sink.old ≤ K.faults sink.new }
    ensures cause { result ≡ Err PlayFault.SinkFault → Rose (K.faults sink.old) (K.faults sink.new) }
{
    let (keep, blocks) = range.needs(replayer.tracker())?;
    write_lean(alloc, minor, first, replayer, &keep, &blocks, sink)
}

// Writes a header, what is kept of the section for what was replayed before frame `first`, and blocks behind it.
fn write_lean<P: Keep, K: Sink>(
    alloc: Global,
    minor: u32,
    first: u64,
    replayer: &Replayer,
    keep: &P,
    blocks: &[u8],
    sink: &mut K,
) -> Result<(), PlayFault>
    requires { (h : List Event) × StandsFor replayer.now h }
    ensures ok { (h : List Event) → StandsFor replayer.now h → OnOk result (Appends (K.taken sink.old) (K.taken sink.new) (lean_text minor (P.kept keep.now) h first blocks.now)) }
    ensures front { (h : List Event) → StandsFor replayer.now h → AppendsPart (K.taken sink.old) (K.taken sink.new) (lean_text minor (P.kept keep.now) h first blocks.now) }
    ensures err { IfErr result IsUnwritten }
    ensures later { K.faults sink.old ≤ K.faults sink.new }
    ensures cause { result ≡ Err PlayFault.SinkFault → Rose (K.faults sink.old) (K.faults sink.new) }
{
    let mut header = Vec::new(alloc);
    put_header(minor, &mut header)?;
    write_whole(sink, &header)?;
    match write_some(alloc, replayer.tracker(), replayer, first, keep, sink) {
        Ok(()) => {}
        Err(fault) => return Err(state_fault(fault)),
    }
    write_whole(sink, blocks)?;
    Ok(())
}

// The fault of a section that isn't written whole, passed on.
fn state_fault(fault: StateFault) -> PlayFault
    ensures { result ≡ of_state fault }
{
    match fault {
        StateFault::SinkFault => PlayFault::SinkFault,
        StateFault::WantMemory => PlayFault::WantMemory,
    }
}
