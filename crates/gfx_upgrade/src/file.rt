//! A file in version 2, block by block.
ghost use Rattle.std.specs.Prelude.{◌≡◌, ◌≤◌, Err, IfErr, OnOk};
ghost use Rattle.gfx_io.specs.Causes.{Rose};
ghost use Rattle.gfx_io.specs.Told.{IfTold};
ghost use Rattle.gfx_rewrite.specs.Rewrites.{AsksForNone};
ghost use Rattle.gfx_upgrade.specs.Laws.{TookSame};
ghost use Rattle.gfx_upgrade.specs.Upgrades.{Answers};

use crate::version::VersionTwo;
use gfx_io::{Sink, Source};
use gfx_player::PlayFault;
use gfx_rewrite::rewrite;
use std::alloc::Global;

/// Writes a file in version 2: a header without options, and each block once it was read, unchanged, but of a present its
/// fields in version 2. It looks at the format alone and not at the rules. The blocks before a bad one were written, and
/// nothing where the header is bad.
pub fn upgrade<S: Source, K: Sink>(
    alloc: Global,
    source: &mut S,
    sink: &mut K,
) -> Result<(), PlayFault>
    ensures told { IfTold (S.left source.old) (S.left source.new) (Answers (K.taken sink.old) (K.taken sink.new) result) }

    // What the sink took has the history, the frames and the first bad block of the file.
    ensures same { IfTold (S.left source.old) (S.left source.new) (λ bytes _. OnOk result (TookSame (K.taken sink.old) (K.taken sink.new) bytes)) }
    ensures misses { IfErr result AsksForNone }
    ensures read_fault { result ≡ Err PlayFault.ReadFault → Rose (S.faults source.old) (S.faults source.new) }
    ensures sink_fault { result ≡ Err PlayFault.SinkFault → Rose (K.faults sink.old) (K.faults sink.new) }
    ensures later { (S.faults source.old ≤ S.faults source.new) × (K.faults sink.old ≤ K.faults sink.new) }
{
    rewrite(alloc, &VersionTwo, source, sink)
}
