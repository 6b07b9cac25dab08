//! The prefix of a trimmed file.
ghost use Rattle.std.specs.Prelude.{◌≡◌, ◌≤◌, List, Err, IfErr, OnOk};
ghost use Rattle.std.specs.Io.KnownBytes.{Appends};
ghost use Rattle.gfx_io.specs.Causes.{Rose};
ghost use Rattle.gfx_io.specs.Pieces.{AppendsPart};
ghost use Rattle.gfx_model.specs.Events.{Event};
ghost use Rattle.gfx_replay.specs.Replayer.{StandsFor};
ghost use Rattle.gfx_trim.specs.Cutters.{opening};
ghost use Rattle.gfx_player.specs.Faults.{IsUnwritten};
ghost use Rattle.gfx_trim.specs.Faults.{of_state};

use gfx_blocks::put_header;
use gfx_io::{Sink, write_whole};
use gfx_player::PlayFault;
use gfx_replay::Replayer;
use gfx_state::{StateFault, write_state};
use std::alloc::Global;

/// Writes a header, the section for what was replayed before frame `first`, and the blocks that were kept.
pub(crate) fn write_opening<K: Sink>(
    alloc: Global,
    minor: u32,
    first: u64,
    replayer: &Replayer,
    kept: &[u8],
    sink: &mut K,
) -> Result<(), PlayFault>
    requires { (h : List Event) × StandsFor replayer.now h }
    ensures ok { (h : List Event) → StandsFor replayer.now h → OnOk result (Appends (K.taken sink.old) (K.taken sink.new) (opening minor h first kept.now)) }
    ensures front { (h : List Event) → StandsFor replayer.now h → AppendsPart (K.taken sink.old) (K.taken sink.new) (opening minor h first kept.now) }
    ensures err { IfErr result IsUnwritten }
    ensures later { K.faults sink.old ≤ K.faults sink.new }
    ensures cause { result ≡ Err PlayFault.SinkFault → Rose (K.faults sink.old) (K.faults sink.new) }
{
    let mut header = Vec::new(alloc);
    put_header(minor, &mut header)?;
    write_whole(sink, &header)?;
    match write_state(alloc, replayer.tracker(), replayer, first, sink) {
        Ok(()) => {}
        Err(fault) => return Err(state_fault(fault)),
    }
    write_whole(sink, kept)?;
    Ok(())
}

/// The fault of a section that isn't written whole, passed on.
fn state_fault(fault: StateFault) -> PlayFault
    ensures { result ≡ of_state fault }
{
    match fault {
        StateFault::SinkFault => PlayFault::SinkFault,
        StateFault::WantMemory => PlayFault::WantMemory,
    }
}
