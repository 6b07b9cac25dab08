//! Blocks that were read and are decoded together.
//!
//! Groups are small, so that the first image is shown soon and few bytes wait in memory; only the last payload of a
//! group may be large.
ghost use Rattle.std.specs.Prelude.{◌≡◌, ◌≤◌, ◌+◌, ◌<◌, ◌++◌, ◌∷◌, ◌*◌, ◌||◌, nat_le, [], Ok, IfOk, OnOk, length};
ghost use Rattle.gfx_io.specs.Causes.{Rose};
ghost use Rattle.gfx_model.specs.Blocks.{Position};
ghost use Rattle.gfx_decode.specs.Reachable.{IsBehind, blocks_ahead};
ghost use Rattle.gfx_decode.specs.Reading.{ReadsSome};
ghost use Rattle.gfx_decode.specs.Stage.{At};
ghost use Rattle.gfx_player.specs.Walks.{IsAtBlock, IsReplayedAlike};
ghost use Rattle.gfx_fan.specs.Groups.{AreRead, IsFull, IsLimited, framed_at, spot_of};

use crate::decode::Framed;
use gfx_decode::{DecodeFault, FramedBlock};
use gfx_io::Source;
use gfx_player::Player;
use std::alloc::{AllocError, Global};

// A group has at most so many blocks, and no further one once their payloads have so many bytes. The next group is read while images
// of this one are digested, so a large one would only put off the first of them.
const MOST_BLOCKS: usize = 65_536;

const MOST_BYTES: usize = 1 << 22;

// The bytes of a block's size and type, which are before its payload.
const HEAD: usize = 12;

/// Where a block is in its file: its number from 1 on, and its offset in bytes.
#[derive(Clone, Copy, Debug, PartialEq, Eq)]
pub(crate) struct Spot {
    pub number: u64,
    pub offset: u64,
}

/// Why a group has no further block: it has enough, the file ends, or the next block has a fault.
#[derive(Clone, Copy, Debug, PartialEq, Eq)]
pub(crate) enum Ending {
    Full,
    Clean,
    Stopped(DecodeFault),
}

/// The bytes of blocks, one after another, with the places of their payloads in them and the places of the blocks in the file.
#[derive(Drop)]
pub(crate) struct Group {
    pub bytes: Vec<u8>,
    pub places: Vec<Framed>,
    pub spots: Vec<Spot>,
}

impl Group {
    /// A group without blocks.
    pub(crate) fn new(alloc: Global) -> Group {
        Group {
            bytes: Vec::new(alloc),
            places: Vec::new(alloc),
            spots: Vec::new(alloc),
        }
    }

    /// Reads the next blocks of a file in place of those that the group had, as many as a group may have. Each goes through the
    /// buffer.
    pub(crate) fn fill<S: Source>(
        &mut self,
        player: &mut Player,
        source: &mut S,
        buffer: &mut Vec<u8>,
    ) -> Result<Ending, AllocError>
        requires place { IsAtBlock player.old }
        requires going { IsBehind 0 player.old.decoder }
        ensures kept { IsReplayedAlike player.old player.new }
        ensures read { (at : Position) → player.old.decoder ≡ At player.old.minor at → IfOk result (λ ending. AreRead player.old.minor at self.new ending player.new.decoder (S.left source.old) (S.left source.new)) }
        ensures limited { OnOk result (IsLimited self.new) }
        ensures full { result ≡ Ok Ending.Full → IsFull self.new }
        ensures fewer { result ≡ Ok Ending.Full → blocks_ahead player.new.decoder < blocks_ahead player.old.decoder }
        ensures some { ReadsSome (S.left source.old) (S.left source.new) }
        ensures later { S.faults source.old ≤ S.faults source.new }
        ensures cause { result ≡ Ok (Ending.Stopped DecodeFault.ReadFault) → Rose (S.faults source.old) (S.faults source.new) }
    {
        self.clear();
        'reading: while !self.is_full() {
            match player.next_framed(source, buffer) {
                Ok(Some(block)) => self.keep(block)?,
                Ok(None) => return Ok(Ending::Clean),
                Err(why) => return Ok(Ending::Stopped(why)),
            }
        }
        Ok(Ending::Full)
    }

    /// Drops all blocks.
    fn clear(&mut self)
        ensures bytes { self.new.bytes.items ≡ [] }
        ensures places { self.new.places.items ≡ [] }
        ensures spots { self.new.spots.items ≡ [] }
    {
        self.bytes.clear();
        self.places.clear();
        self.spots.clear();
    }

    /// Whether there are enough blocks.
    fn is_full(&self) -> bool
        ensures { result ≡ (nat_le MOST_BLOCKS (length self.now.places.items) || nat_le (MOST_BYTES + HEAD * length self.now.places.items) (length self.now.bytes.items)) }
    {
        let count = self.places.len();
        MOST_BLOCKS <= count || MOST_BYTES + HEAD * count <= self.bytes.len()
    }

    /// Adds a block.
    fn keep(&mut self, block: FramedBlock<'_>) -> Result<(), AllocError>
        ensures bytes { OnOk result (self.new.bytes.items ≡ self.old.bytes.items ++ block.entry.bytes.now) }
        ensures places { OnOk result (self.new.places.items ≡ self.old.places.items ++ framed_at (length self.old.bytes.items) block.entry ∷ []) }
        ensures spots { OnOk result (self.new.spots.items ≡ self.old.spots.items ++ spot_of block.entry ∷ []) }
    {
        self.places.push(Framed {
            at: (self.bytes.len() + HEAD) as u64,
            framing: block.framing,
        })?;
        self.spots.push(Spot {
            number: block.number,
            offset: block.offset,
        })?;
        self.bytes.extend_from_slice(block.bytes)
    }
}
