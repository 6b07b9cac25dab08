// A decoder, by the place of its next block.
//
// Blocks are read into a buffer that the caller lends: a result that owns lists and borrows from `self` has no
// contract about what follows it. The buffer is not cleared between blocks, which would take as long as copying them.
ghost use Rattle.std.specs.Prelude.{◌≡◌, ◌≢◌, ◌+◌, ◌*◌, ◌^◌, ◌≤◌, ℕ, List, take, IfOk, IfErr, IfSome, None, Some};
ghost use Rattle.std.specs.Io.KnownBytes.{Consumes, IsAtEnd};
ghost use Rattle.gfx_io.specs.Causes.{Rose};
ghost use Rattle.gfx_io.specs.Told.{IfTold};
ghost use Rattle.gfx_model.specs.Blocks as blocks;

use crate::DecodeFault;
use crate::blocks::{block_in, place_behind};
use crate::places::first_position;
use crate::position::Position;
use crate::reading::{MOST_HEADER, fetch, read_front};
use gfx_blocks::{Framing, Header};
use gfx_io::Source;
use gfx_types::Block;
use std::alloc::Global;
use std::marker::Model;

/// A block with its exact bytes, and its place in the file: its number from 1 on, and its offset in bytes.
#[derive(Debug, Drop)]
pub struct Raw<'a> {
    pub block: Block<'a>,
    pub bytes: &'a [u8],
    pub number: u64,
    pub offset: u64,
}

/// A block with its exact bytes, of which all is checked but what the payload behind its first twelve bytes says, and its place
/// in the file: its number from 1 on, and its offset in bytes.
#[derive(Debug, Drop)]
pub struct FramedBlock<'a> {
    pub framing: Framing,
    pub bytes: &'a [u8],
    pub number: u64,
    pub offset: u64,
}

/// How far a decoder is: before the header, before a block of a file in a minor version, or at a fault, which it
/// answers from then on.
#[derive(Clone, Copy, Debug, PartialEq, Eq)]
pub enum State {
    Fresh,
    At { minor: u32, at: Position },
    Failed(DecodeFault),
}

/// Reads the blocks of a capture file, one at a time, each into a buffer of the caller's.
#[derive(Drop)]
pub struct Decoder {
    alloc: Global,
    state: State,
}

impl Model for Decoder {
    ghost use Rattle.gfx_decode.specs.Reachable.{IsReachable};
    ghost use Rattle.gfx_decode.specs.Stage.{Stage, stage_of};

    ghost Value = { Stage };

    ghost view = { λ d. stage_of d.state };

    ghost invariant = { λ d. IsReachable (stage_of d.state) };
}

impl Decoder {
    ghost use Rattle.gfx_decode.specs.Decoding.{Gives, GivesHeader, Goes, GoesFramed, IsBlockAt, IsFramedAt, stage_after};
    ghost use Rattle.gfx_decode.specs.Reading.{IsHeader, ReadsBlock, ReadsSome, StopsAt, StopsFraming, StopsInHeader};
    ghost use Rattle.gfx_decode.specs.Stage.{Fresh, At, Failed};

    /// A decoder before its header. Lists of calls will take memory of this allocator.
    pub fn new(alloc: Global) -> Self
        ensures { result ≡ Fresh }
    {
        Decoder {
            alloc,
            state: State::Fresh,
        }
    }

    /// Reads the header. It is called once, before the first block.
    pub fn header<S: Source>(&mut self, source: &mut S) -> Result<Header, DecodeFault>
        requires { self.old ≡ Fresh }
        ensures gives { IfTold (S.left source.old) (S.left source.new) (GivesHeader result) }
        ensures bytes { IfOk result (λ header. (bytes : List ℕ) × IsHeader header bytes × Consumes (S.left source.old) (S.left source.new) bytes) }
        ensures fault { IfErr result (StopsInHeader (S.left source.old) (S.left source.new)) }
        ensures reads { ReadsSome (S.left source.old) (S.left source.new) }
        ensures later { S.faults source.old ≤ S.faults source.new }
        ensures cause { result ≡ Err DecodeFault.ReadFault → Rose (S.faults source.old) (S.faults source.new) }
        ensures after { self.new ≡ stage_after result }
    {
        self.header_into(source, &mut [0; MOST_HEADER])
    }

    /// Reads the header as `header` does, and leaves its bytes at the start of `into`: sixteen, and eight for each option.
    pub fn header_into<S: Source>(
        &mut self,
        source: &mut S,
        into: &mut [u8; MOST_HEADER],
    ) -> Result<Header, DecodeFault>
        requires { self.old ≡ Fresh }
        ensures gives { IfTold (S.left source.old) (S.left source.new) (GivesHeader result) }
        ensures bytes { IfOk result (λ header. IsHeader header (take (16 + 8 * header.options) into.new)
            × Consumes (S.left source.old) (S.left source.new) (take (16 + 8 * header.options) into.new)) }
        ensures fault { IfErr result (StopsInHeader (S.left source.old) (S.left source.new)) }
        ensures reads { ReadsSome (S.left source.old) (S.left source.new) }
        ensures later { S.faults source.old ≤ S.faults source.new }
        ensures cause { result ≡ Err DecodeFault.ReadFault → Rose (S.faults source.old) (S.faults source.new) }
        ensures after { self.new ≡ stage_after result }
    {
        match read_front(source, into) {
            Ok(header) => {
                self.state = State::At {
                    minor: header.minor,
                    at: first_position(header),
                };
                Ok(header)
            }
            Err(why) => {
                self.state = State::Failed(why);
                Err(why)
            }
        }
    }

    /// The next block, lent from the buffer, or the end of the file. After a fault it answers the same again, and
    /// reads nothing. What the buffer held is lost.
    pub fn next<'b, S: Source>(
        &mut self,
        source: &mut S,
        buffer: &'b mut Vec<u8>,
    ) -> Result<Option<Raw<'b>>, DecodeFault>
        requires { self.old ≢ Fresh }

        // The answer is the first of the blocks that are left, or their end.
        ensures gives { IfTold (S.left source.old) (S.left source.new) (Gives self.old result) }
        ensures block { IfOk result (λ found. IfSome found (IsBlockAt self.old)) }

        // A file has at most 2^32 blocks on each side of its state section, so the blocks come to an end.
        ensures few { IfOk result (λ found. IfSome found (λ raw. raw.number ≤ 2 ^ 33 + 1)) }

        // Just the bytes of the block were read. At a fault no more than its head was, or no more than the head and the size that it
        // tells, where that is in order and a side has room for the block.
        ensures reads { ReadsSome (S.left source.old) (S.left source.new) }
        ensures within { (minor : ℕ) → (at : blocks.Position) → self.old ≡ At minor at
            → ReadsBlock at (S.left source.old) (S.left source.new) }
        ensures bytes { IfOk result (λ found. IfSome found (λ raw. Consumes (S.left source.old) (S.left source.new) raw.bytes.now)) }
        ensures end { result ≡ Ok None → IsAtEnd (S.left source.old) × IsAtEnd (S.left source.new) }

        // A fault that comes now is the one of this block, and one from before stays.
        ensures fault { (minor : ℕ) → (at : blocks.Position) → self.old ≡ At minor at
            → IfErr result (StopsAt minor at (S.left source.old) (S.left source.new)) }
        ensures stays { (why : DecodeFault) → self.old ≡ Failed why
            → (result ≡ Err why) × (source.new ≡ source.old) }
        ensures later { S.faults source.old ≤ S.faults source.new }
        ensures cause { result ≡ Err DecodeFault.ReadFault → self.old ≢ Failed DecodeFault.ReadFault
            → Rose (S.faults source.old) (S.faults source.new) }

        // It follows the block afterwards, or has failed from then on.
        ensures after { Goes self.old result self.new }
    {
        let (minor, at) = match self.state {
            State::At { minor, at } => (minor, at),
            State::Failed(why) => return Err(why),
            State::Fresh => unreachable!(),
        };
        let Some(framed) = self.next_framed(source, buffer)? else {
            return Ok(None);
        };
        let FramedBlock {
            framing,
            bytes,
            number,
            offset,
        } = framed;
        match block_in(self.alloc, minor, at, framing, bytes) {
            Ok(block) => Ok(Some(Raw {
                block,
                bytes,
                number,
                offset,
            })),
            Err(why) => {
                self.state = State::Failed(why);
                Err(why)
            }
        }
    }

    /// The next block, lent from the buffer, with all checked but what its payload says, or the end of the file. After a fault it
    /// answers the same again, and reads nothing. What the buffer held is lost.
    pub fn next_framed<'b, S: Source>(
        &mut self,
        source: &mut S,
        buffer: &'b mut Vec<u8>,
    ) -> Result<Option<FramedBlock<'b>>, DecodeFault>
        requires { self.old ≢ Fresh }

        // The block is where the decoder was, and what its payload says is left to be asked.
        ensures block { IfOk result (λ found. IfSome found (IsFramedAt self.old)) }
        ensures few { IfOk result (λ found. IfSome found (λ block. block.number ≤ 2 ^ 33 + 1)) }

        // The end of the file, or a fault, is answered just as `next` answers it.
        ensures none { result ≡ Ok None → IfTold (S.left source.old) (S.left source.new) (Gives self.old (Ok None)) }
        ensures err { IfErr result (λ why. IfTold (S.left source.old) (S.left source.new) (Gives self.old (Err why))) }

        // Just the bytes of the block were read. At a fault no more than its head was, or no more than the head and the size that it
        // tells, where that is in order and a side has room for the block.
        ensures reads { ReadsSome (S.left source.old) (S.left source.new) }
        ensures within { (minor : ℕ) → (at : blocks.Position) → self.old ≡ At minor at
            → ReadsBlock at (S.left source.old) (S.left source.new) }
        ensures bytes { IfOk result (λ found. IfSome found (λ block. Consumes (S.left source.old) (S.left source.new) block.bytes.now)) }
        ensures end { result ≡ Ok None → IsAtEnd (S.left source.old) × IsAtEnd (S.left source.new) }

        // A fault that comes now is one of the framing, whatever the payload says, and one from before stays.
        ensures framing { (minor : ℕ) → (at : blocks.Position) → self.old ≡ At minor at
            → IfErr result (StopsFraming at (S.left source.old) (S.left source.new)) }
        ensures stays { (why : DecodeFault) → self.old ≡ Failed why
            → (result ≡ Err why) × (source.new ≡ source.old) }
        ensures later { S.faults source.old ≤ S.faults source.new }
        ensures cause { result ≡ Err DecodeFault.ReadFault → self.old ≢ Failed DecodeFault.ReadFault
            → Rose (S.faults source.old) (S.faults source.new) }

        // It follows the block afterwards, or has failed from then on.
        ensures after { GoesFramed self.old result self.new }
    {
        let (minor, at) = match self.state {
            State::At { minor, at } => (minor, at),
            State::Failed(fault) => return Err(fault),
            State::Fresh => unreachable!(),
        };
        let (framing, bytes) = match fetch(source, at, buffer) {
            Ok(Some(block)) => block,
            Ok(None) => return Ok(None),
            Err(why) => {
                self.state = State::Failed(why);
                return Err(why);
            }
        };
        match place_behind(at, framing, bytes) {
            Ok(next) => {
                self.state = State::At { minor, at: next };
                Ok(Some(FramedBlock {
                    framing,
                    bytes,
                    number: at.number,
                    offset: at.offset,
                }))
            }
            Err(why) => {
                self.state = State::Failed(why);
                Err(why)
            }
        }
    }
}
