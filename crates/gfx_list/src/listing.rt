//! The listing of a file, block by block.
ghost use Rattle.std.specs.Prelude.{◌≡◌, ◌≤◌, Err, IfErr, OnOk};
ghost use Rattle.gfx_io.specs.Causes.{Rose};
ghost use Rattle.gfx_io.specs.Told.{IfTold};
ghost use Rattle.gfx_rewrite.specs.Rewrites.{AsksForNone};
ghost use Rattle.gfx_list.specs.Lists.{Answers, TookListing};

use crate::writing::Listing;
use gfx_io::{Sink, Source};
use gfx_player::PlayFault;
use gfx_rewrite::rewrite;
use std::alloc::Global;

/// Writes the listing of a file: a line for its header, and one for each block once it was read. It looks at the format alone and not
/// at the rules. The lines before a bad block were written, and nothing where the header is bad.
pub fn list<S: Source, K: Sink>(
    alloc: Global,
    source: &mut S,
    sink: &mut K,
) -> Result<(), PlayFault>
    ensures told { IfTold (S.left source.old) (S.left source.new) (Answers (K.taken sink.old) (K.taken sink.new) result) }

    // What the sink took is the listing of the file.
    ensures listing { IfTold (S.left source.old) (S.left source.new) (λ bytes _. OnOk result (TookListing (K.taken sink.old) (K.taken sink.new) bytes)) }
    ensures misses { IfErr result AsksForNone }
    ensures read_fault { result ≡ Err PlayFault.ReadFault → Rose (S.faults source.old) (S.faults source.new) }
    ensures sink_fault { result ≡ Err PlayFault.SinkFault → Rose (K.faults sink.old) (K.faults sink.new) }
    ensures later { (S.faults source.old ≤ S.faults source.new) × (K.faults sink.old ≤ K.faults sink.new) }
{
    rewrite(alloc, &Listing, source, sink)
}
