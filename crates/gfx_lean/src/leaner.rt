//! A lean cut of a capture, gathered as its blocks are read.
ghost use Rattle.std.specs.Prelude.{◌≡◌, ◌≤◌, ◌∷◌, ◌++◌, ℕ, List, [], false, Err, IfOk, IfErr, OnOk};
ghost use Rattle.gfx_io.specs.Causes.{Rose};
ghost use Rattle.gfx_decode.specs.Decoding.{item_of};
ghost use Rattle.gfx_model.specs.Blocks.{Whole};
ghost use Rattle.gfx_model.specs.Events.{Event};
ghost use Rattle.gfx_player.specs.Fed.{history_of};
ghost use Rattle.gfx_player.specs.Meanings.{first_in, last_in};
ghost use Rattle.gfx_player.specs.Walks.{HasReplayed, IsReadAlike};
ghost use Rattle.gfx_range.specs.Follower.{Followed, Follows, Refuses};
ghost use Rattle.gfx_range.specs.Range.{IsGathered};
ghost use Rattle.gfx_replay.specs.Replayer.{StandsFor};
ghost use Rattle.gfx_trim.specs.Phases.{Continues};

use crate::writing::write_range;
use gfx_decode::Raw;
use gfx_io::Sink;
use gfx_player::{PlayFault, Player};
use gfx_range::{Follower, Range};
use gfx_replay::Replayer;
use gfx_trim::{Phase, begins_behind, begins_section, shows_frame};
use gfx_types::{Block, OpList};
use std::alloc::Global;

/// How far the lean cut of a range of frames is.
#[derive(Drop)]
pub(crate) struct Leaner {
    pub first: u64,
    pub last: u64,
    pub minor: u32,
    pub phase: Phase,
    pub follower: Follower,
    pub range: Range,
}

impl Leaner {
    ghost use Rattle.gfx_lean.specs.Leaner.{GoesOn, HasRangeOf, IsAfter, IsFailed, IsFollowed, IsOfSameRange, Takes, Wrote};

    /// Before the first block.
    pub(crate) fn new(alloc: Global, first: u64, last: u64, minor: u32) -> Leaner
        ensures after { (p : Player) → HasReplayed p [] → IsAfter result p [] }
        ensures first { result.first ≡ first }
        ensures last { result.last ≡ last }
        ensures minor { result.minor ≡ minor }
    {
        Leaner {
            first,
            last,
            minor,
            phase: if first == 1 {
                Phase::Waiting
            } else {
                Phase::Before
            },
            follower: Follower::new(alloc),
            range: Range::new(alloc),
        }
    }

    /// Takes a block that a player read, and drops it. Answers whether it was the last of the range.
    pub(crate) fn take(
        &mut self,
        alloc: Global,
        player: &mut Player,
        raw: Raw<'_>,
    ) -> Result<bool, PlayFault>
        ensures ok { IfOk result (λ last. (fed : List Whole) → IsAfter self.old player.old fed → Takes last self.old self.new player.new fed (item_of raw.entry)) }
        ensures err { IfErr result (λ why. (fed : List Whole) → IsAfter self.old player.old fed → Refuses (history_of fed) (item_of raw.entry) why) }
        ensures same { IsReadAlike player.old player.new }
    {
        self.take_block(alloc, player, &raw)
    }

    /// Takes a block by how far the cut is.
    fn take_block(
        &mut self,
        alloc: Global,
        player: &mut Player,
        raw: &Raw<'_>,
    ) -> Result<bool, PlayFault>
        ensures ok { IfOk result (λ last. (fed : List Whole) → IsAfter self.old player.old fed → Takes last self.old self.new player.new fed (item_of raw.now)) }
        ensures err { IfErr result (λ why. (fed : List Whole) → IsAfter self.old player.old fed → Refuses (history_of fed) (item_of raw.now) why) }
        ensures same { IsReadAlike player.old player.new }
    {
        match self.phase {
            Phase::Before => self.pass(alloc, player, raw),
            Phase::Waiting => self.wait(alloc, player, raw),
            Phase::Writing => self.gather(alloc, player, raw),
        }
    }

    /// Takes a block before the range.
    fn pass(&mut self, alloc: Global, player: &mut Player, raw: &Raw<'_>) -> Result<bool, PlayFault>
        requires phase { self.old.phase ≡ Phase.Before }
        ensures ok { IfOk result (λ last. (fed : List Whole) → IsAfter self.old player.old fed → Takes last self.old self.new player.new fed (item_of raw.now)) }
        ensures err { IfErr result (λ why. (fed : List Whole) → IsAfter self.old player.old fed → Refuses (history_of fed) (item_of raw.now) why) }
        ensures same { IsReadAlike player.old player.new }
    {
        let number = self.replay(alloc, player, raw)?;
        if begins_behind(self.first, &raw.block, number) {
            self.phase = Phase::Waiting;
        }
        Ok(false)
    }

    /// Takes a block where the range begins.
    fn wait(&mut self, alloc: Global, player: &mut Player, raw: &Raw<'_>) -> Result<bool, PlayFault>
        requires phase { self.old.phase ≡ Phase.Waiting }
        ensures ok { IfOk result (λ last. (fed : List Whole) → IsAfter self.old player.old fed → Takes last self.old self.new player.new fed (item_of raw.now)) }
        ensures err { IfErr result (λ why. (fed : List Whole) → IsAfter self.old player.old fed → Refuses (history_of fed) (item_of raw.now) why) }
        ensures same { IsReadAlike player.old player.new }
    {
        if begins_section(&raw.block) {
            self.replay(alloc, player, raw)?;
            self.range.clear();
            self.phase = Phase::Before;
            return Ok(false);
        }
        match &raw.block {
            Block::Skip => {
                self.range.keep(raw)?;
                Ok(false)
            }
            Block::Effect { .. } => self.gather(alloc, player, raw),
        }
    }

    /// Takes a block of the range.
    fn gather(&mut self, alloc: Global, player: &Player, raw: &Raw<'_>) -> Result<bool, PlayFault>
        ensures ok { IfOk result (λ last. (fed : List Whole) → IsFollowed self.old player.now fed → Continues self.old.first self.old.last fed (item_of raw.now) → Takes last self.old self.new player.now fed (item_of raw.now)) }
        ensures err { IfErr result (λ why. (h : List Event) → Follows self.old.follower h → Refuses h (item_of raw.now) why) }
    {
        let boundary = player.replayer().tracker();
        let number = self.range.add(alloc, boundary, &mut self.follower, raw)?;
        self.phase = Phase::Writing;
        Ok(shows_frame(self.last, number))
    }

    /// Takes a block before the range, of objects, states and bytes.
    fn replay(
        &mut self,
        alloc: Global,
        player: &mut Player,
        raw: &Raw<'_>,
    ) -> Result<Option<u64>, PlayFault>
        ensures ok { IfOk result (λ number. (fed : List Whole) → Follows self.old.follower (history_of fed) → HasReplayed player.old fed
            → Followed self.new.follower (history_of fed) (item_of raw.now).content number × HasReplayed player.new (fed ++ item_of raw.now ∷ [])) }
        ensures others { self.new ≡ record self.old { follower = self.new.follower } }
        ensures err { IfErr result (λ why. (fed : List Whole) → Follows self.old.follower (history_of fed) → HasReplayed player.old fed → Refuses (history_of fed) (item_of raw.now) why) }
        ensures same { IsReadAlike player.old player.new }
    {
        let mut ops = OpList::of(Vec::new(alloc));
        let number = self.follower.follow(raw, &mut ops)?;
        player.feed(raw)?;
        Ok(number)
    }

    /// What is told at the clean end of a file before the range is whole: the frames that are there.
    pub(crate) fn no_such_frame(&self) -> PlayFault
        ensures { (h : List Event) → Follows self.now.follower h → result ≡ PlayFault.NoSuchFrame (first_in h) (last_in h) }
    {
        self.follower.no_such_frame()
    }

    /// Writes the lean file of the range, whose last block was taken.
    pub(crate) fn write<K: Sink>(
        self,
        alloc: Global,
        replayer: &Replayer,
        sink: &mut K,
    ) -> Result<(), PlayFault>
        requires { (h : List Event) × StandsFor replayer.now h }
        ensures ok { OnOk result ((h : List Event) (ws : List Whole) → StandsFor replayer.now h → IsGathered self.range h ws → Wrote self.minor self.first h ws (K.taken sink.old) (K.taken sink.new)) }
        ensures err { IfErr result (λ why. (h : List Event) (ws : List Whole) → StandsFor replayer.now h → IsGathered self.range h ws → IsFailed self.minor self.first h ws (K.taken sink.old) (K.taken sink.new) why) }
        ensures later { K.faults sink.old ≤ K.faults sink.new }
        ensures cause { result ≡ Err PlayFault.SinkFault → Rose (K.faults sink.old) (K.faults sink.new) }
    {
        write_range(alloc, self.minor, self.first, self.range, replayer, sink)
    }
}
