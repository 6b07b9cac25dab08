//! A range of frames of a file, without what it never needs.
//!
//! What a range needs is known at its last block, so nothing is written before, and a bad block or a failed read
//! leaves the sink as it was.
ghost use Rattle.std.specs.Prelude.{◌≡◌, ◌≢◌, ◌≤◌, List, ℕ, [], Err, IfErr, OnOk};
ghost use Rattle.std.specs.declared.option.Option.{Option as Maybe};
ghost use Rattle.gfx_decode.specs.Reachable.{IsBehind};
ghost use Rattle.gfx_io.specs.Causes.{Rose};
ghost use Rattle.gfx_io.specs.Told.{IfTold};
ghost use Rattle.gfx_player.specs.Walks.{HasRead, HasReplayed};
ghost use Rattle.gfx_lean.specs.Leaner.{IsAfter};
ghost use Rattle.gfx_lean.specs.Leans.{Answers, AnswersIfBytes, KeepsIfDone};
ghost use Rattle.gfx_lean.specs.Reading.{Leaned};

use crate::leaner::Leaner;
use gfx_io::{Sink, Source};
use gfx_player::{PlayFault, Player};
use std::alloc::Global;

/// Writes the lean file of the frames `first` to `last` of a file: a header, a section with just what the frames need of what
/// was made before them, and their blocks unchanged. What follows frame `last` is not read, and nothing is written before
/// it was. A bad block is told where it is met, and a range that is not in the file where the file ends.
pub fn lean<S: Source, K: Sink>(
    alloc: Global,
    first: u64,
    last: u64,
    source: &mut S,
    sink: &mut K,
) -> Result<(), PlayFault>
    requires ordered { first ≤ last }
    ensures told { IfTold (S.left source.old) (S.left source.new) (Answers first last (K.taken sink.old) (K.taken sink.new) result) }

    // The file that the sink took means exactly these frames.
    ensures keeps { IfTold (S.left source.old) (S.left source.new) (KeepsIfDone first last (K.taken sink.old) (K.taken sink.new) result) }
    ensures read_fault { result ≡ Err PlayFault.ReadFault → Rose (S.faults source.old) (S.faults source.new) }
    ensures sink_fault { result ≡ Err PlayFault.SinkFault → Rose (K.faults sink.old) (K.faults sink.new) }
    ensures later { (S.faults source.old ≤ S.faults source.new) × (K.faults sink.old ≤ K.faults sink.new) }
{
    lean_range(alloc, first, last, source, sink)
}

// What a source tells are bytes, which reading doesn't ask for.
fn lean_range<S: Source, K: Sink>(
    alloc: Global,
    first: u64,
    last: u64,
    source: &mut S,
    sink: &mut K,
) -> Result<(), PlayFault>
    requires ordered { first ≤ last }
    ensures told { IfTold (S.left source.old) (S.left source.new) (AnswersIfBytes first last (K.taken sink.old) (K.taken sink.new) result) }
    ensures read_fault { result ≡ Err PlayFault.ReadFault → Rose (S.faults source.old) (S.faults source.new) }
    ensures sink_fault { result ≡ Err PlayFault.SinkFault → Rose (K.faults sink.old) (K.faults sink.new) }
    ensures later { (S.faults source.old ≤ S.faults source.new) × (K.faults sink.old ≤ K.faults sink.new) }
{
    let mut player = Player::open(alloc, source)?;
    let leaned = lean_opened(alloc, first, last, &mut player, source, sink);
    drop(player);
    leaned
}

// Writes the lean file where a player has read the header. It is lent: each way out of a function that owns it would drop it.
fn lean_opened<S: Source, K: Sink>(
    alloc: Global,
    first: u64,
    last: u64,
    player: &mut Player,
    source: &mut S,
    sink: &mut K,
) -> Result<(), PlayFault>
    requires ordered { first ≤ last }
    requires replayed { HasReplayed player.old [] }
    requires read { (file : Maybe (List ℕ)) × HasRead player.old [] file (S.left source.old) }
    requires going { IsBehind 0 player.old.decoder }
    ensures told { (file : Maybe (List ℕ)) → HasRead player.old [] file (S.left source.old) → IfTold file (S.left source.new) (AnswersIfBytes first last (K.taken sink.old) (K.taken sink.new) result) }
    ensures read_fault { result ≡ Err PlayFault.ReadFault → Rose (S.faults source.old) (S.faults source.new) }
    ensures sink_fault { result ≡ Err PlayFault.SinkFault → Rose (K.faults sink.old) (K.faults sink.new) }
    ensures later { (S.faults source.old ≤ S.faults source.new) × (K.faults sink.old ≤ K.faults sink.new) }
{
    let mut leaner = Leaner::new(alloc, first, last, player.minor());
    read_range(alloc, &mut leaner, player, source)?;
    leaner.write(alloc, player.replayer(), sink)
}

// Takes the blocks of a file up to the last of the range.
fn read_range<S: Source>(
    alloc: Global,
    leaner: &mut Leaner,
    player: &mut Player,
    source: &mut S,
) -> Result<(), PlayFault>
    requires ordered { leaner.old.first ≤ leaner.old.last }
    requires minor { leaner.old.minor ≡ player.old.minor }
    requires begun { IsAfter leaner.old player.old [] }
    requires going { IsBehind 0 player.old.decoder }
    ensures ok { OnOk result ((file : Maybe (List ℕ)) → HasRead player.old [] file (S.left source.old) → Leaned leaner.old.first leaner.old.last player.new leaner.new file (S.left source.new)) }
    ensures err { IfErr result (λ why. (file : Maybe (List ℕ)) → (taken : Maybe (List ℕ)) → HasRead player.old [] file (S.left source.old)
        → IfTold file (S.left source.new) (AnswersIfBytes leaner.old.first leaner.old.last taken taken (Err why))) }
    ensures sink { result ≢ Err PlayFault.SinkFault }
    ensures later { S.faults source.old ≤ S.faults source.new }
    ensures cause { result ≡ Err PlayFault.ReadFault → Rose (S.faults source.old) (S.faults source.new) }
{
    let mut buffer = Vec::new(alloc);
    'reading: while let Some(raw) = player.next(source, &mut buffer)? {
        if leaner.take(alloc, player, raw)? {
            return Ok(());
        }
    }
    Err(leaner.no_such_frame())
}
