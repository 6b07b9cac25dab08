//! A range of frames of a file, written as the file is read.
ghost use Rattle.std.specs.Prelude.{◌≡◌, ◌≤◌, ℕ, List, [], Err};
ghost use Rattle.std.specs.declared.option.Option.{Option as Maybe};
ghost use Rattle.gfx_io.specs.Causes.{Rose};
ghost use Rattle.gfx_io.specs.Told.{IfTold};
ghost use Rattle.gfx_player.specs.Walks.{HasRead, HasReplayed};
ghost use Rattle.gfx_trim.specs.Trims.{Answers, AnswersKeeping, KeepsIfDone};

use crate::cutter::Cutter;
use gfx_io::{Sink, Source};
use gfx_player::{PlayFault, Player};
use std::alloc::Global;

/// Writes the file of the frames `first` to `last` of a file: a header, the section for what was made before them, and their
/// blocks unchanged, each as it is read. What follows frame `last` is not read. A bad block is told where it is met, and a
/// range that is not in the file where the file ends; what the range has before it was written, once it has an effect.
pub fn trim<S: Source, K: Sink>(
    alloc: Global,
    first: u64,
    last: u64,
    source: &mut S,
    sink: &mut K,
) -> Result<(), PlayFault>
    requires ordered { first ≤ last }
    ensures told { IfTold (S.left source.old) (S.left source.new) (Answers first last (K.taken sink.old) (K.taken sink.new) result) }

    // The file that the sink took means exactly these frames.
    ensures keeps { IfTold (S.left source.old) (S.left source.new) (KeepsIfDone first last (K.taken sink.old) (K.taken sink.new) result) }
    ensures read_fault { result ≡ Err PlayFault.ReadFault → Rose (S.faults source.old) (S.faults source.new) }
    ensures sink_fault { result ≡ Err PlayFault.SinkFault → Rose (K.faults sink.old) (K.faults sink.new) }
    ensures later { (S.faults source.old ≤ S.faults source.new) × (K.faults sink.old ≤ K.faults sink.new) }
{
    cut_range(alloc, first, last, source, sink)
}

// What a source tells are bytes, which the loop doesn't ask for.
fn cut_range<S: Source, K: Sink>(
    alloc: Global,
    first: u64,
    last: u64,
    source: &mut S,
    sink: &mut K,
) -> Result<(), PlayFault>
    requires ordered { first ≤ last }
    ensures told { IfTold (S.left source.old) (S.left source.new) (AnswersKeeping first last (K.taken sink.old) (K.taken sink.new) result) }
    ensures read_fault { result ≡ Err PlayFault.ReadFault → Rose (S.faults source.old) (S.faults source.new) }
    ensures sink_fault { result ≡ Err PlayFault.SinkFault → Rose (K.faults sink.old) (K.faults sink.new) }
    ensures later { (S.faults source.old ≤ S.faults source.new) × (K.faults sink.old ≤ K.faults sink.new) }
{
    let mut player = Player::open(alloc, source)?;
    let cut = cut_opened(alloc, first, last, &mut player, source, sink);
    drop(player);
    cut
}

// The loop only borrows the player: each exit of an owner drops it field by field, which takes long to prove.
fn cut_opened<S: Source, K: Sink>(
    alloc: Global,
    first: u64,
    last: u64,
    player: &mut Player,
    source: &mut S,
    sink: &mut K,
) -> Result<(), PlayFault>
    requires ordered { first ≤ last }
    requires replayed { HasReplayed player.old [] }
    requires read { (file : Maybe (List ℕ)) × HasRead player.old [] file (S.left source.old) }
    ensures told { (file : Maybe (List ℕ)) → HasRead player.old [] file (S.left source.old)
        → IfTold file (S.left source.new) (AnswersKeeping first last (K.taken sink.old) (K.taken sink.new) result) }
    ensures read_fault { result ≡ Err PlayFault.ReadFault → Rose (S.faults source.old) (S.faults source.new) }
    ensures sink_fault { result ≡ Err PlayFault.SinkFault → Rose (K.faults sink.old) (K.faults sink.new) }
    ensures later { (S.faults source.old ≤ S.faults source.new) × (K.faults sink.old ≤ K.faults sink.new) }
{
    let mut cutter = Cutter::new(alloc, first, last, player.minor());
    let mut buffer = Vec::new(alloc);
    'reading: while let Some(raw) = player.next(source, &mut buffer)? {
        if cutter.take(alloc, player, raw, sink)? {
            return Ok(());
        }
    }
    Err(player.no_such_frame())
}
