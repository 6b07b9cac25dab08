//! A cut of a capture, made as its blocks are read.
ghost use Rattle.std.specs.Prelude.{◌≡◌, ◌≤◌, ◌∷◌, ◌++◌, ℕ, List, [], false, Ok, Err, IfOk, IfErr, OnOk};
ghost use Rattle.std.specs.declared.option.Option.{Option as Maybe};
ghost use Rattle.std.specs.Io.KnownBytes.{Appends};
ghost use Rattle.gfx_io.specs.Causes.{Rose};
ghost use Rattle.gfx_io.specs.Pieces.{AppendsPart};
ghost use Rattle.gfx_types.specs.declared.names.Fault.{Fault as FileFault};
ghost use Rattle.gfx_model.specs.Blocks.{Whole};
ghost use Rattle.gfx_decode.specs.Decoding.{item_of};
ghost use Rattle.gfx_player.specs.Faults.{IsReplayFault};
ghost use Rattle.gfx_player.specs.Fed.{history_of};
ghost use Rattle.gfx_player.specs.Walks.{HasReplayed, IsReadAlike, Refuses};

use crate::marks::{begins_behind, begins_section, shown_number, shows_frame};
use crate::opening::write_opening;
use crate::phase::Phase;
use gfx_decode::Raw;
use gfx_io::{Sink, write_whole};
use gfx_player::{PlayFault, Player};
use gfx_types::Block;
use std::alloc::Global;

/// How far the cut of a range of frames is.
#[derive(Drop)]
pub(crate) struct Cutter {
    pub first: u64,
    pub last: u64,
    pub minor: u32,
    pub phase: Phase,
    // the blocks of the range before its first effect
    pub kept: Vec<u8>,
}

impl Cutter {
    ghost use Rattle.gfx_trim.specs.Cutters.{IsAfter, IsFed, IsOfSameRange, GoesOn, Takes, TakesBlock, opening};
    ghost use Rattle.gfx_trim.specs.Phases.{Continues, IsPhase};

    /// A cutter before the first block.
    pub(crate) fn new(alloc: Global, first: u64, last: u64, minor: u32) -> Cutter
        ensures phase { IsPhase result.phase first last result.kept.items [] }
        ensures first { result.first ≡ first }
        ensures last { result.last ≡ last }
        ensures minor { result.minor ≡ minor }
    {
        Cutter {
            first,
            last,
            minor,
            phase: if first == 1 {
                Phase::Waiting
            } else {
                Phase::Before
            },
            kept: Vec::new(alloc),
        }
    }

    /// Takes a block that a player read, has it replayed, writes what is to be written of it, and drops it. Answers
    /// whether it was the last of the range.
    pub(crate) fn take<K: Sink>(
        &mut self,
        alloc: Global,
        player: &mut Player,
        raw: Raw<'_>,
        sink: &mut K,
    ) -> Result<bool, PlayFault>
        requires after { (fed : List Whole) × IsAfter self.old player.old fed }
        ensures takes { TakesBlock self.old self.new player.old player.new (item_of raw.entry) (K.taken sink.old) (K.taken sink.new) result }
        ensures refused { (fault : FileFault) → (block : ℕ) → (offset : ℕ) → result ≡ Err (PlayFault.Bad fault block offset) → sink.new ≡ sink.old }
        ensures same { IsReadAlike player.old player.new }
        ensures later { K.faults sink.old ≤ K.faults sink.new }
        ensures cause { result ≡ Err PlayFault.SinkFault → Rose (K.faults sink.old) (K.faults sink.new) }
    {
        self.take_block(alloc, player, &raw, sink)
    }

    /// Takes a block by how far the cut is.
    fn take_block<K: Sink>(
        &mut self,
        alloc: Global,
        player: &mut Player,
        raw: &Raw<'_>,
        sink: &mut K,
    ) -> Result<bool, PlayFault>
        requires after { (fed : List Whole) × IsAfter self.old player.old fed }
        ensures takes { TakesBlock self.old self.new player.old player.new (item_of raw.now) (K.taken sink.old) (K.taken sink.new) result }
        ensures refused { (fault : FileFault) → (block : ℕ) → (offset : ℕ) → result ≡ Err (PlayFault.Bad fault block offset) → sink.new ≡ sink.old }
        ensures same { IsReadAlike player.old player.new }
        ensures later { K.faults sink.old ≤ K.faults sink.new }
        ensures cause { result ≡ Err PlayFault.SinkFault → Rose (K.faults sink.old) (K.faults sink.new) }
    {
        match self.phase {
            Phase::Before => self.pass(player, raw),
            Phase::Waiting => self.wait(alloc, player, raw, sink),
            Phase::Writing => self.write(player, raw, sink),
        }
    }

    /// Takes a block before the range.
    fn pass(&mut self, player: &mut Player, raw: &Raw<'_>) -> Result<bool, PlayFault>
        requires phase { self.old.phase ≡ Phase.Before }
        ensures ok { IfOk result (λ last. (fed : List Whole) → IsAfter self.old player.old fed → (last ≡ false) × GoesOn self.old self.new player.new fed (item_of raw.now)) }
        ensures err { IfErr result (λ why. IsReplayFault why × ((fed : List Whole) → HasReplayed player.old fed → Refuses (history_of fed) (item_of raw.now) why)) }
        ensures same { IsReadAlike player.old player.new }
    {
        let number = shown_number(player.feed(raw)?);
        if begins_behind(self.first, &raw.block, number) {
            self.phase = Phase::Waiting;
        }
        Ok(false)
    }

    /// Takes a block where the range begins.
    fn wait<K: Sink>(
        &mut self,
        alloc: Global,
        player: &mut Player,
        raw: &Raw<'_>,
        sink: &mut K,
    ) -> Result<bool, PlayFault>
        requires phase { self.old.phase ≡ Phase.Waiting }
        requires after { (fed : List Whole) × IsAfter self.old player.old fed }
        ensures takes { TakesBlock self.old self.new player.old player.new (item_of raw.now) (K.taken sink.old) (K.taken sink.new) result }
        ensures refused { (fault : FileFault) → (block : ℕ) → (offset : ℕ) → result ≡ Err (PlayFault.Bad fault block offset) → sink.new ≡ sink.old }
        ensures same { IsReadAlike player.old player.new }
        ensures later { K.faults sink.old ≤ K.faults sink.new }
        ensures cause { result ≡ Err PlayFault.SinkFault → Rose (K.faults sink.old) (K.faults sink.new) }
    {
        if begins_section(&raw.block) {
            return self.restart(player, raw);
        }
        match &raw.block {
            Block::Skip => self.keep(player, raw),
            Block::Effect { .. } => self.begin(alloc, player, raw, sink),
        }
    }

    /// Keeps a block until the range has an effect.
    fn keep(&mut self, player: &mut Player, raw: &Raw<'_>) -> Result<bool, PlayFault>
        ensures ok { IfOk result (λ last. (last ≡ false) × IsOfSameRange self.old self.new × (self.new.phase ≡ self.old.phase) × (self.new.kept.items ≡ self.old.kept.items ++ raw.now.bytes.now)
            × ((fed : List Whole) → HasReplayed player.old fed → HasReplayed player.new (fed ++ item_of raw.now ∷ []))) }
        ensures err { IfErr result (λ why. IsReplayFault why × ((fed : List Whole) → HasReplayed player.old fed → Refuses (history_of fed) (item_of raw.now) why)) }
        ensures same { IsReadAlike player.old player.new }
    {
        player.feed(raw)?;
        self.kept.extend_from_slice(raw.bytes)?;
        Ok(false)
    }

    /// Takes the block that begins the section of the file: what came before it is not in the range.
    fn restart(&mut self, player: &mut Player, raw: &Raw<'_>) -> Result<bool, PlayFault>
        ensures ok { IfOk result (λ last. (last ≡ false) × (self.new.phase ≡ Phase.Before) × (self.new.kept.items ≡ []) × IsOfSameRange self.old self.new
            × ((fed : List Whole) → HasReplayed player.old fed → IsFed player.new fed (item_of raw.now))) }
        ensures err { IfErr result (λ why. IsReplayFault why × ((fed : List Whole) → HasReplayed player.old fed → Refuses (history_of fed) (item_of raw.now) why)) }
        ensures same { IsReadAlike player.old player.new }
    {
        player.feed(raw)?;
        self.kept.clear();
        self.phase = Phase::Before;
        Ok(false)
    }

    /// Takes the first effect of the range: header, section and the kept blocks are before it.
    fn begin<K: Sink>(
        &mut self,
        alloc: Global,
        player: &mut Player,
        raw: &Raw<'_>,
        sink: &mut K,
    ) -> Result<bool, PlayFault>
        requires after { (fed : List Whole) × HasReplayed player.old fed }
        ensures ok { IfOk result (λ last. (fed : List Whole) → HasReplayed player.old fed → Continues self.old.first self.old.last fed (item_of raw.now) → Takes last self.old self.new player.new fed (item_of raw.now)) }
        ensures bytes { OnOk result ((fed : List Whole) → HasReplayed player.old fed → Appends (K.taken sink.old) (K.taken sink.new) (opening self.old.minor (history_of fed) self.old.first self.old.kept.items ++ raw.now.bytes.now)) }
        ensures err { IfErr result (λ why. (fed : List Whole) → HasReplayed player.old fed → Refuses (history_of fed) (item_of raw.now) why) }
        ensures refused { (fault : FileFault) → (block : ℕ) → (offset : ℕ) → result ≡ Err (PlayFault.Bad fault block offset) → sink.new ≡ sink.old }
        ensures front { (fed : List Whole) → HasReplayed player.old fed → AppendsPart (K.taken sink.old) (K.taken sink.new) (opening self.old.minor (history_of fed) self.old.first self.old.kept.items ++ raw.now.bytes.now) }
        ensures same { IsReadAlike player.old player.new }
        ensures later { K.faults sink.old ≤ K.faults sink.new }
        ensures cause { result ≡ Err PlayFault.SinkFault → Rose (K.faults sink.old) (K.faults sink.new) }
    {
        if let Some(fault) = player.fault_of(raw) {
            return Err(fault);
        }
        write_opening(
            alloc,
            self.minor,
            self.first,
            player.replayer(),
            &self.kept,
            sink,
        )?;
        self.phase = Phase::Writing;
        self.write(player, raw, sink)
    }

    /// Takes a block of the range.
    fn write<K: Sink>(
        &mut self,
        player: &mut Player,
        raw: &Raw<'_>,
        sink: &mut K,
    ) -> Result<bool, PlayFault>
        ensures ok { IfOk result (λ last. (fed : List Whole) → HasReplayed player.old fed → self.old.phase ≡ Phase.Writing → Continues self.old.first self.old.last fed (item_of raw.now) → Takes last self.old self.new player.new fed (item_of raw.now)) }
        ensures bytes { OnOk result (Appends (K.taken sink.old) (K.taken sink.new) raw.now.bytes.now) }
        ensures err { IfErr result (λ why. (fed : List Whole) → HasReplayed player.old fed → Refuses (history_of fed) (item_of raw.now) why) }
        ensures refused { (fault : FileFault) → (block : ℕ) → (offset : ℕ) → result ≡ Err (PlayFault.Bad fault block offset) → sink.new ≡ sink.old }
        ensures front { AppendsPart (K.taken sink.old) (K.taken sink.new) raw.now.bytes.now }
        ensures same { IsReadAlike player.old player.new }
        ensures later { K.faults sink.old ≤ K.faults sink.new }
        ensures cause { result ≡ Err PlayFault.SinkFault → Rose (K.faults sink.old) (K.faults sink.new) }
    {
        let number = shown_number(player.feed(raw)?);
        write_whole(sink, raw.bytes)?;
        Ok(shows_frame(self.last, number))
    }
}
