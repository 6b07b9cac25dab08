//! A walk through a capture file.
//!
//! `next_frame` serves who writes lines or digests. A cut needs each block's bytes and fault before it is replayed, so
//! `next`, `fault_of` and `feed` are public too; a visitor that the player calls could not change its way in the
//! middle.
ghost use Rattle.std.specs.Prelude.{◌≡◌, ◌≤◌, ◌<◌, ◌+◌, ◌-◌, ◌^◌, ◌∷◌, ◌++◌, ℕ, List, [], true, length, IfOk, IfErr, IfSome, Some, None, Ok, Err};
ghost use Rattle.std.specs.declared.option.Option.{Option as Maybe};
ghost use Rattle.std.specs.Io.KnownBytes.{Consumes, IsAtEnd};
ghost use Rattle.gfx_io.specs.Causes.{Rose};
ghost use Rattle.gfx_io.specs.Told.{IfTold};
ghost use Rattle.gfx_types.specs.declared.names.Fault.{Fault as FileFault};
ghost use Rattle.gfx_types.specs.declared.frame.Frame.{Frame};
ghost use Rattle.gfx_model.specs.Blocks.{Position, Whole};
ghost use Rattle.gfx_model.specs.Blocks.End.{clean};
ghost use Rattle.gfx_model.specs.History.{is_valid};
ghost use Rattle.gfx_model.specs.Meaning.{content_fault};
ghost use Rattle.gfx_decode.specs.Decoding.{Gives, GoesFramed, IsFramedAt, item_of};
ghost use Rattle.gfx_decode.specs.Reading.{ReadsSome, StopsFraming};
ghost use Rattle.gfx_decode.specs.Stage.{At};

use crate::PlayFault;
use gfx_decode::{DecodeFault, Decoder, FramedBlock, Raw};
use gfx_io::Source;
use gfx_replay::{FeedFault, Replayer, ShownFrame};
use gfx_types::{Block, Fault};
use std::alloc::Global;

/// A walk through a capture file: the blocks that were read, and the replay of those that were fed.
#[derive(Drop)]
pub struct Player {
    decoder: Decoder,
    replayer: Replayer,
    minor: u32,
    // the number of the first frame that was shown
    first: Option<u64>,
}

impl Player {
    ghost use Rattle.gfx_decode.specs.Reachable.{IsBehind, blocks_ahead};
    ghost use Rattle.gfx_player.specs.Faults.{IsReplayFault, IsWalkFault};
    ghost use Rattle.gfx_player.specs.Fed.{history_of};
    ghost use Rattle.gfx_player.specs.Ends.{EndsBehind, IsStopped, StopsBehind};
    ghost use Rattle.gfx_player.specs.Walks.{HasAll, HasRead, HasReplayed, IsAtBlock, IsReadAlike, IsReplayedAlike, Plays, Refuses, Replays, ShowsNext, first_frame_of, next_frame_of, told_of, whole_of};

    /// Reads the header of a file, and is before its first block.
    pub fn open<S: Source>(alloc: Global, source: &mut S) -> Result<Player, PlayFault>
        ensures replayed { IfOk result (λ p. HasReplayed p []) }
        ensures read { IfOk result (λ p. HasRead p [] (S.left source.old) (S.left source.new)) }
        ensures plays { IfOk result (λ p. Plays p [] (S.left source.old) (S.left source.new)) }
        ensures place { IfOk result IsAtBlock }
        ensures err { IfErr result (λ why. IfTold (S.left source.old) (S.left source.new) (StopsBehind [] why)) }
        ensures kind { IfErr result IsWalkFault }
        ensures stopped { IfErr result (λ why. IfTold (S.left source.old) (S.left source.new) (IsStopped [] why)) }
        ensures later { S.faults source.old ≤ S.faults source.new }
        ensures cause { result ≡ Err PlayFault.ReadFault → Rose (S.faults source.old) (S.faults source.new) }
    {
        let mut decoder = Decoder::new(alloc);
        let header = decoder.header(source)?;
        Ok(Player {
            decoder,
            replayer: Replayer::new(alloc),
            minor: header.minor,
            first: None,
        })
    }

    /// Reads the next block, lent from the buffer, or finds the clean end of the file. The block isn't replayed yet. Where the
    /// blocks before it have no fault, the file ends so, whether they were replayed or not.
    pub fn next<'b, S: Source>(
        &mut self,
        source: &mut S,
        buffer: &'b mut Vec<u8>,
    ) -> Result<Option<Raw<'b>>, PlayFault>
        requires going { IsBehind 0 self.old.decoder }
        ensures some { IfOk result (λ found. IfSome found (λ raw. (fed : List Whole) → (file : Maybe (List ℕ)) → HasRead self.old fed file (S.left source.old)
            → HasRead self.new (fed ++ item_of raw ∷ []) file (S.left source.new))) }
        ensures few { IfOk result (λ found. IfSome found (λ raw. (fed : List Whole) → (file : Maybe (List ℕ)) → HasRead self.old fed file (S.left source.old) → length fed ≤ 2 ^ 33)) }
        ensures none { result ≡ Ok None → (fed : List Whole) → (file : Maybe (List ℕ)) → is_valid (history_of fed) ≡ true → HasRead self.old fed file (S.left source.old)
            → IfTold file (S.left source.new) (λ bytes left. EndsBehind fed clean bytes × (left ≡ [])) }
        ensures err { IfErr result (λ why. (fed : List Whole) → (file : Maybe (List ℕ)) → is_valid (history_of fed) ≡ true → HasRead self.old fed file (S.left source.old)
            → IfTold file (S.left source.new) (StopsBehind fed why)) }
        ensures kind { IfErr result IsWalkFault }
        ensures kept { IsReplayedAlike self.old self.new }
        ensures fewer { IfOk result (λ found. IfSome found (λ raw. (IsBehind 0 self.new.decoder) × (blocks_ahead self.new.decoder < blocks_ahead self.old.decoder))) }
        ensures later { S.faults source.old ≤ S.faults source.new }
        ensures cause { result ≡ Err PlayFault.ReadFault → Rose (S.faults source.old) (S.faults source.new) }
    {
        Ok(self.decoder.next(source, buffer)?)
    }

    /// Reads the next block, lent from the buffer, with all checked but what its payload says, or finds the clean end of the
    /// file. Once its payload is decoded the block is fed as any other, in its turn.
    pub fn next_framed<'b, S: Source>(
        &mut self,
        source: &mut S,
        buffer: &'b mut Vec<u8>,
    ) -> Result<Option<FramedBlock<'b>>, DecodeFault>
        requires going { IsBehind 0 self.old.decoder }
        ensures block { IfOk result (λ found. IfSome found (IsFramedAt self.old.decoder)) }
        ensures few { IfOk result (λ found. IfSome found (λ block. block.number ≤ 2 ^ 33 + 1)) }
        ensures none { result ≡ Ok None → IfTold (S.left source.old) (S.left source.new) (Gives self.old.decoder (Ok None)) }
        ensures err { IfErr result (λ why. IfTold (S.left source.old) (S.left source.new) (Gives self.old.decoder (Err why))) }
        ensures reads { ReadsSome (S.left source.old) (S.left source.new) }
        ensures bytes { IfOk result (λ found. IfSome found (λ block. Consumes (S.left source.old) (S.left source.new) block.bytes.now)) }
        ensures end { result ≡ Ok None → IsAtEnd (S.left source.new) }
        ensures framing { (minor : ℕ) → (at : Position) → self.old.decoder ≡ At minor at
            → IfErr result (StopsFraming at (S.left source.old) (S.left source.new)) }
        ensures kept { IsReplayedAlike self.old self.new }
        ensures after { GoesFramed self.old.decoder result self.new.decoder }
        ensures later { S.faults source.old ≤ S.faults source.new }
        ensures cause { result ≡ Err DecodeFault.ReadFault → Rose (S.faults source.old) (S.faults source.new) }
    {
        self.decoder.next_framed(source, buffer)
    }

    /// The fault of a block that was read and isn't replayed yet.
    pub fn fault_of(&self, raw: &Raw<'_>) -> Option<PlayFault>
        ensures { (fed : List Whole) → HasReplayed self.now fed → result ≡ told_of (item_of raw.now) (content_fault (history_of fed) (item_of raw.now).content) }
    {
        match &raw.block {
            Block::Skip => None,
            Block::Effect { effect, .. } => match self.replayer.tracker().fault_of(effect) {
                Some(fault) => Some(bad(fault, raw.number, raw.offset)),
                None => None,
            },
        }
    }

    /// Replays a block that was read, and gives the frame that it shows, whose bytes are those of the places of its
    /// images. After the fault of a block all is as it was.
    pub fn feed(&mut self, raw: &Raw<'_>) -> Result<Option<ShownFrame>, PlayFault>
        ensures ok { IfOk result (λ shown. (fed : List Whole) → HasReplayed self.old fed → Replays self.new fed (item_of raw.now) shown) }
        ensures err { IfErr result (λ why. (fed : List Whole) → HasReplayed self.old fed → Refuses (history_of fed) (item_of raw.now) why) }
        ensures refused { (fault : FileFault) → (block : ℕ) → (offset : ℕ) → result ≡ Err (PlayFault.Bad fault block offset) → self.new ≡ self.old }
        ensures kind { IfErr result IsReplayFault }
        ensures same { IsReadAlike self.old self.new }
    {
        self.feed_block(&raw.block, raw.number, raw.offset)
    }

    /// Replays a block, as `feed` does, by what it says and its number and offset, whatever its bytes are.
    pub fn feed_block(
        &mut self,
        block: &Block<'_>,
        number: u64,
        offset: u64,
    ) -> Result<Option<ShownFrame>, PlayFault>
        ensures ok { IfOk result (λ shown. (fed : List Whole) → (bytes : List ℕ) → HasReplayed self.old fed → Replays self.new fed (whole_of number offset bytes block.now) shown) }
        ensures err { IfErr result (λ why. (fed : List Whole) → (bytes : List ℕ) → HasReplayed self.old fed → Refuses (history_of fed) (whole_of number offset bytes block.now) why) }
        ensures refused { (fault : FileFault) → (n : ℕ) → (place : ℕ) → result ≡ Err (PlayFault.Bad fault n place) → self.new ≡ self.old }
        ensures kind { IfErr result IsReplayFault }
        ensures same { IsReadAlike self.old self.new }
    {
        match self.replayer.feed(block) {
            Ok(Some(frame)) => {
                self.first = Some(self.first.unwrap_or(frame.number));
                Ok(Some(frame))
            }
            Ok(None) => Ok(None),
            Err(FeedFault::Rule(fault)) => Err(bad(fault, number, offset)),
            Err(FeedFault::WantMemory) => Err(PlayFault::WantMemory),
        }
    }

    /// Reads and replays the blocks through the next one that shows a frame, and gives this frame, or finds the clean
    /// end of the file.
    pub fn next_frame<S: Source>(
        &mut self,
        source: &mut S,
        buffer: &mut Vec<u8>,
    ) -> Result<Option<ShownFrame>, PlayFault>
        requires going { IsBehind 0 self.old.decoder }
        ensures some { IfOk result (λ found. IfSome found (λ frame. (shown : List Frame) → (file : Maybe (List ℕ)) → Plays self.old shown file (S.left source.old)
            → ShowsNext self.new shown frame file (S.left source.new))) }
        ensures none { result ≡ Ok None → (shown : List Frame) → (file : Maybe (List ℕ)) → Plays self.old shown file (S.left source.old)
            → IfTold file (S.left source.new) (HasAll self.new shown) }
        ensures err { IfErr result (λ why. (shown : List Frame) → (file : Maybe (List ℕ)) → Plays self.old shown file (S.left source.old)
            → IfTold file (S.left source.new) (IsStopped shown why)) }
        ensures kind { IfErr result IsWalkFault }
        ensures minor { self.new.minor ≡ self.old.minor }
        ensures fewer { IfOk result (λ found. IfSome found (λ frame. (IsBehind 0 self.new.decoder) × (blocks_ahead self.new.decoder < blocks_ahead self.old.decoder))) }
        ensures later { S.faults source.old ≤ S.faults source.new }
        ensures cause { result ≡ Err PlayFault.ReadFault → Rose (S.faults source.old) (S.faults source.new) }
    {
        'reading: while let Some(raw) = self.next(source, buffer)? {
            if let Some(frame) = self.step(raw)? {
                return Ok(Some(frame));
            }
        }
        Ok(None)
    }

    /// Replays a block, as `feed` does, and drops it.
    fn step(&mut self, raw: Raw<'_>) -> Result<Option<ShownFrame>, PlayFault>
        ensures ok { IfOk result (λ shown. (fed : List Whole) → HasReplayed self.old fed → Replays self.new fed (item_of raw.entry) shown) }
        ensures err { IfErr result (λ why. (fed : List Whole) → HasReplayed self.old fed → Refuses (history_of fed) (item_of raw.entry) why) }
        ensures kind { IfErr result IsReplayFault }
        ensures same { IsReadAlike self.old self.new }
    {
        self.feed(&raw)
    }

    /// The number of the first frame that was shown, or of the next one where none was.
    pub fn first_frame(&self) -> u64
        ensures { result ≡ first_frame_of self.now }
    {
        self.first.unwrap_or(self.replayer.tracker().next_frame())
    }

    /// What is told at the clean end of a file without a frame that is asked for: the frames that are there.
    pub fn no_such_frame(&self) -> PlayFault
        ensures { result ≡ PlayFault.NoSuchFrame (first_frame_of self.now) (next_frame_of self.now - 1) }
    {
        PlayFault::NoSuchFrame {
            first: self.first_frame(),
            last: self.replayer.tracker().next_frame().saturating_sub(1),
        }
    }

    /// The minor version of the file.
    pub fn minor(&self) -> u32
        ensures { result ≡ self.now.minor }
    {
        self.minor
    }

    /// The objects and bytes after the blocks that were fed.
    pub fn replayer(&self) -> &Replayer
        ensures { result.now ≡ self.now.replayer }
    {
        &self.replayer
    }
}

/// The block is bad.
fn bad(fault: Fault, block: u64, offset: u64) -> PlayFault
    ensures { result ≡ PlayFault.Bad fault block offset }
{
    PlayFault::Bad {
        fault,
        block,
        offset,
    }
}
