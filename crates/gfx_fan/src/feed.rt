//! The blocks of a group, decoded together and replayed one after another.
ghost use Rattle.std.specs.Prelude.{◌≡◌, ◌⊎◌, ◌+◌, ◌-◌, ◌≤◌, ◌<◌, ◌^◌, ℕ, List, Err, Some, false, map, take, length, IfErr, OnOk};
ghost use Rattle.std.specs.List.{All};
ghost use Rattle.std.specs.declared.option.Option.{Option as Maybe};
ghost use Rattle.gfx_io.specs.Causes.{Rose};
ghost use Rattle.gfx_io.specs.Told.{IfTold};
ghost use Rattle.gfx_model.specs.Blocks.{Position};
ghost use Rattle.gfx_blocks.specs.Payloads.{content_of};
ghost use Rattle.gfx_decode.specs.Stage.{At, Stage};
ghost use Rattle.gfx_player.specs.Walks.{IsReadAlike, whole_of};
ghost use Rattle.gfx_fan.specs.Decoded.{IsInside, said};
ghost use Rattle.gfx_fan.specs.Gathered.{IsFeedFault, IsGathered, IsReplaying, ReadsOn, StopsAny};
ghost use Rattle.gfx_fan.specs.Groups.{HasBlocks, Remains, held};
ghost use Rattle.gfx_fan.specs.Kept.{GoesOn, IsListed};

use crate::FanFault;
use crate::album::Album;
use crate::decode::decode_all;
use crate::group::{Group, Spot};
use gfx_io::Sink;
use gfx_player::{PlayFault, Player};
use gfx_types::{Block, Fault};
use std::alloc::Global;
use std::thread::Threads;

/// Decodes the blocks of a group and replays them in order, and keeps or writes the frames that they show. At a bad block all
/// frames before it are written.
pub(crate) fn feed_group<R: Threads + Sync, K: Sink>(
    rt: &R,
    alloc: Global,
    group: &Group,
    player: &mut Player,
    album: &mut Album,
    sink: &mut K,
) -> Result<(), PlayFault>
    requires version { (player.old.minor ≡ 1) ⊎ (player.old.minor ≡ 2) }
    requires inside { All (IsInside group.now.bytes.items) group.now.places.items }
    requires spots { length group.now.spots.items ≡ length group.now.places.items }
    requires replaying { IsReplaying player.old }
    requires ready { IsListed album.old }
    requires room { album.old.screen.count + length group.now.places.items < 2 ^ 64 }
    ensures read { IsReadAlike player.old player.new }
    ensures ok { OnOk result ((at : Position) → (end : Position) → HasBlocks group.now at end → (file : Maybe (List ℕ)) → (middle : Maybe (List ℕ)) → (before : Maybe (List ℕ))
        → IsGathered player.old album.old (At player.old.minor at) file (held group.now.bytes.items middle) before (K.taken sink.old)
        → IsGathered player.new album.new (At player.old.minor end) file middle before (K.taken sink.new)) }
    ensures err { IfErr result (λ why. (at : Position) → (end : Position) → HasBlocks group.now at end → (file : Maybe (List ℕ)) → (middle : Maybe (List ℕ)) → (before : Maybe (List ℕ))
        → IsGathered player.old album.old (At player.old.minor at) file (held group.now.bytes.items middle) before (K.taken sink.old)
        → IfTold file middle (StopsAny why before (K.taken sink.new))) }
    ensures kind { IfErr result IsFeedFault }
    ensures later { K.faults sink.old ≤ K.faults sink.new }
    ensures cause { result ≡ Err PlayFault.SinkFault → Rose (K.faults sink.old) (K.faults sink.new) }
{
    let bytes = group.bytes.as_slice();
    let places = group.places.as_slice();
    match decode_all(rt, alloc, player.minor(), bytes, places) {
        Ok(blocks) => {
            let found = blocks.as_slice();
            feed_blocks(rt, group, found, player, album, sink)
        }
        Err(FanFault::Bad { fault, place }) => {
            let place = place as usize;
            feed_front(rt, alloc, group, place, player, album, sink)?;
            let spots = group.spots.as_slice();
            Err(album.stop(rt, sink, bad(fault, spots[place])))
        }
        Err(FanFault::WantMemory) => Err(PlayFault::WantMemory),
    }
}

/// Decodes the first blocks of a group, so many, and replays them.
fn feed_front<R: Threads + Sync, K: Sink>(
    rt: &R,
    alloc: Global,
    group: &Group,
    count: usize,
    player: &mut Player,
    album: &mut Album,
    sink: &mut K,
) -> Result<(), PlayFault>
    requires version { (player.old.minor ≡ 1) ⊎ (player.old.minor ≡ 2) }
    requires inside { All (IsInside group.now.bytes.items) group.now.places.items }
    requires spots { length group.now.spots.items ≡ length group.now.places.items }
    requires few { count ≤ length group.now.places.items }
    requires replaying { IsReplaying player.old }
    requires ready { IsListed album.old }
    requires room { album.old.screen.count + length group.now.places.items < 2 ^ 64 }
    ensures read { IsReadAlike player.old player.new }
    ensures ready { OnOk result (IsListed album.new) }
    ensures ok { OnOk result ((at : Position) → (end : Position) → HasBlocks group.now at end → (file : Maybe (List ℕ)) → (middle : Maybe (List ℕ)) → (before : Maybe (List ℕ))
        → IsGathered player.old album.old (At player.old.minor at) file (held group.now.bytes.items middle) before (K.taken sink.old)
        → Remains player.old.minor player.new album.new group.now count end file middle before (K.taken sink.new)) }
    ensures err { IfErr result (λ why. (at : Position) → (end : Position) → HasBlocks group.now at end → (file : Maybe (List ℕ)) → (middle : Maybe (List ℕ)) → (before : Maybe (List ℕ))
        → IsGathered player.old album.old (At player.old.minor at) file (held group.now.bytes.items middle) before (K.taken sink.old)
        → IfTold file middle (StopsAny why before (K.taken sink.new))) }
    ensures kind { IfErr result IsFeedFault }
    ensures later { K.faults sink.old ≤ K.faults sink.new }
    ensures cause { result ≡ Err PlayFault.SinkFault → Rose (K.faults sink.old) (K.faults sink.new) }
{
    let bytes = group.bytes.as_slice();
    let all = group.places.as_slice();
    match decode_all(rt, alloc, player.minor(), bytes, &all[..count]) {
        Ok(blocks) => {
            let found = blocks.as_slice();
            feed_blocks(rt, group, found, player, album, sink)
        }
        Err(_) => Err(PlayFault::WantMemory),
    }
}

/// Replays these blocks, which are the first of a group.
fn feed_blocks<R: Threads + Sync, K: Sink>(
    rt: &R,
    group: &Group,
    blocks: &[Block<'_>],
    player: &mut Player,
    album: &mut Album,
    sink: &mut K,
) -> Result<(), PlayFault>
    requires decoded { map (said player.old.minor group.now.bytes.items) (take (length blocks.now) group.now.places.items) ≡ map (λ b. Some (content_of b)) blocks.now }
    requires few { length blocks.now ≤ length group.now.spots.items }
    requires replaying { IsReplaying player.old }
    requires ready { IsListed album.old }
    requires room { album.old.screen.count + length blocks.now < 2 ^ 64 }
    ensures read { IsReadAlike player.old player.new }
    ensures ready { OnOk result (IsListed album.new) }
    ensures ok { OnOk result ((at : Position) → (end : Position) → HasBlocks group.now at end → (file : Maybe (List ℕ)) → (middle : Maybe (List ℕ)) → (before : Maybe (List ℕ))
        → IsGathered player.old album.old (At player.old.minor at) file (held group.now.bytes.items middle) before (K.taken sink.old)
        → Remains player.old.minor player.new album.new group.now (length blocks.now) end file middle before (K.taken sink.new)) }
    ensures err { IfErr result (λ why. (at : Position) → (end : Position) → HasBlocks group.now at end → (file : Maybe (List ℕ)) → (middle : Maybe (List ℕ)) → (before : Maybe (List ℕ))
        → IsGathered player.old album.old (At player.old.minor at) file (held group.now.bytes.items middle) before (K.taken sink.old)
        → IfTold file middle (StopsAny why before (K.taken sink.new))) }
    ensures kind { IfErr result IsFeedFault }
    ensures later { K.faults sink.old ≤ K.faults sink.new }
    ensures cause { result ≡ Err PlayFault.SinkFault → Rose (K.faults sink.old) (K.faults sink.new) }
{
    let spots = group.spots.as_slice();
    'feeding: for index in 0..blocks.len() {
        feed_one(rt, &blocks[index], spots[index], player, album, sink)?;
    }
    Ok(())
}

/// Replays a block, and keeps or writes the frame that it shows. At a rule fault all frames before it are written.
fn feed_one<R: Threads + Sync, K: Sink>(
    rt: &R,
    block: &Block<'_>,
    spot: Spot,
    player: &mut Player,
    album: &mut Album,
    sink: &mut K,
) -> Result<(), PlayFault>
    requires replaying { IsReplaying player.old }
    requires ready { IsListed album.old }
    requires room { album.old.screen.count + 1 < 2 ^ 64 }
    ensures read { IsReadAlike player.old player.new }
    ensures replaying { OnOk result (IsReplaying player.new) }
    ensures album { OnOk result (GoesOn album.old album.new) }
    ensures ok { OnOk result ((old : Stage) → (next : Stage) → (bytes : List ℕ) → (file : Maybe (List ℕ)) → (left : Maybe (List ℕ)) → (rest : Maybe (List ℕ)) → (before : Maybe (List ℕ))
        → ReadsOn player.old old next (whole_of spot.number spot.offset bytes block.now) file left rest
        → IsGathered player.old album.old old file left before (K.taken sink.old) → IsGathered player.new album.new next file rest before (K.taken sink.new)) }
    ensures err { IfErr result (λ why. (old : Stage) → (next : Stage) → (bytes : List ℕ) → (file : Maybe (List ℕ)) → (left : Maybe (List ℕ)) → (rest : Maybe (List ℕ)) → (before : Maybe (List ℕ))
        → ReadsOn player.old old next (whole_of spot.number spot.offset bytes block.now) file left rest
        → IsGathered player.old album.old old file left before (K.taken sink.old) → IfTold file rest (StopsAny why before (K.taken sink.new))) }
    ensures kind { IfErr result IsFeedFault }
    ensures later { K.faults sink.old ≤ K.faults sink.new }
    ensures cause { result ≡ Err PlayFault.SinkFault → Rose (K.faults sink.old) (K.faults sink.new) }
{
    match player.feed_block(block, spot.number, spot.offset) {
        Ok(Some(frame)) => album.show(rt, &frame, player.replayer(), sink),
        Ok(None) => Ok(()),
        Err(why) => Err(album.stop(rt, sink, why)),
    }
}

/// The block here is bad.
fn bad(fault: Fault, spot: Spot) -> PlayFault
    ensures { result ≡ PlayFault.Bad fault spot.number spot.offset }
{
    PlayFault::Bad {
        fault,
        block: spot.number,
        offset: spot.offset,
    }
}
