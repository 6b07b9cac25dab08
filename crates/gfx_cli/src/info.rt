// The counts of a file, written.
ghost use Rattle.std.specs.Prelude.{◌≡◌, ◌≤◌, Err, IfErr};
ghost use Rattle.gfx_io.specs.Causes.{Rose};
ghost use Rattle.gfx_io.specs.Told.{IfTold};
ghost use Rattle.gfx_words.specs.declared.command.Command.TheVariants.{Info};
ghost use Rattle.gfx_cli.specs.Ends.{Ends};
ghost use Rattle.gfx_cli.specs.Run.{MayStop};

use crate::Stop;
use crate::counts::count;
use gfx_io::{Sink, Source, write_whole};
use std::alloc::Global;

/// Writes the counts of a file once it was read to its clean end.
pub(crate) fn write_counts<S: Source, K: Sink>(
    alloc: Global,
    source: &mut S,
    sink: &mut K,
) -> Result<(), Stop>
    ensures ends { IfTold (S.left source.old) (S.left source.new) (Ends Info (K.taken sink.old) (K.taken sink.new) result) }
    ensures may { IfErr result (MayStop Info) }
    ensures read_fault { result ≡ Err Stop.ReadFault → Rose (S.faults source.old) (S.faults source.new) }
    ensures write_fault { result ≡ Err Stop.WriteFault → Rose (K.faults sink.old) (K.faults sink.new) }
    ensures later { (S.faults source.old ≤ S.faults source.new) × (K.faults sink.old ≤ K.faults sink.new) }
{
    let counts = count(alloc, source)?;
    let text = counts.text(alloc)?;
    write_whole(sink, text.as_bytes())?;
    Ok(())
}
