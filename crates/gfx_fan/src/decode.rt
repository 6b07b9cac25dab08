//! The payloads of blocks, decoded side by side.
//!
//! The answer is all blocks or the first bad place. A bad payload ends the file, so the places before it are decoded
//! once more.
ghost use Rattle.std.specs.Prelude.{◌≡◌, ◌⊎◌, ◌+◌, ◌≤◌, ◌<◌, IfOk, IfErr, Some, length, map};
ghost use Rattle.std.specs.List.{All};
ghost use Rattle.gfx_blocks.specs.Payloads.{Says, content_of};
ghost use Rattle.gfx_fan.specs.Decoded.{IsInside, StopsAmong, payload_at, said};

use crate::FanFault;
use gfx_blocks::{BlockFault, Framing, read_payload};
use gfx_types::Block;
use rayon::prelude::*;
use std::alloc::{AllocError, Global};
use std::thread::Threads;

/// A payload that lies in bytes from `at` on, by the size and the type of its block.
#[derive(Clone, Copy, Debug, PartialEq, Eq)]
pub struct Framed {
    pub at: u64,
    pub framing: Framing,
}

/// The blocks that the payloads spell in a file of this minor version, in order. Where some payload spells none the
/// first of these is told, with its fault.
pub fn decode_all<'a, R: Threads + Sync>(
    rt: &R,
    alloc: Global,
    minor: u32,
    bytes: &'a [u8],
    places: &[Framed],
) -> Result<Vec<Block<'a>>, FanFault>
    requires version { (minor ≡ 1) ⊎ (minor ≡ 2) }
    requires inside { All (IsInside bytes.now) places.now }
    ensures blocks { IfOk result (λ blocks. map (said minor bytes.now) places.now ≡ map (λ b. Some (content_of b)) blocks.items) }
    ensures fault { IfErr result (StopsAmong minor bytes.now places.now) }
{
    match blocks_of(rt, alloc, minor, bytes, places) {
        Ok(Ok(blocks)) => Ok(blocks),
        Ok(Err(_)) => Err(first_fault(alloc, minor, bytes, places)),
        Err(_) => Err(FanFault::WantMemory),
    }
}

/// All blocks, or the fault of one of the payloads.
fn blocks_of<'a, R: Threads + Sync>(
    rt: &R,
    alloc: Global,
    minor: u32,
    bytes: &'a [u8],
    places: &[Framed],
) -> Result<Result<Vec<Block<'a>>, BlockFault>, AllocError>
    requires version { (minor ≡ 1) ⊎ (minor ≡ 2) }
    requires inside { All (IsInside bytes.now) places.now }
    ensures { IfOk result (λ found. IfOk found (λ blocks. map (said minor bytes.now) places.now ≡ map (λ b. Some (content_of b)) blocks.items)) }
{
    places
        .par_iter()
        .map(
            |place: &Framed| -> Result<Block<'_>, BlockFault>
                requires { ((minor ≡ 1) ⊎ (minor ≡ 2)) × IsInside bytes.now place.now }
                ensures { Says result minor place.now.framing.kind (payload_at bytes.entry.now place.now) }
            { block_at(alloc, minor, bytes, *place) },
        )
        .collect(rt, alloc)
}

/// The block of one payload.
fn block_at<'a>(
    alloc: Global,
    minor: u32,
    bytes: &'a [u8],
    place: Framed,
) -> Result<Block<'a>, BlockFault>
    requires version { (minor ≡ 1) ⊎ (minor ≡ 2) }
    requires inside { IsInside bytes.now place }
    ensures { Says result minor place.framing.kind (payload_at bytes.now place) }
{
    let at = place.at as usize;
    let payload = &bytes[at..at + place.framing.size as usize];
    read_payload(alloc, minor, place.framing, payload)
}

/// The first payload that spells nothing, where memory is found for those before it.
fn first_fault(alloc: Global, minor: u32, bytes: &[u8], places: &[Framed]) -> FanFault
    requires version { (minor ≡ 1) ⊎ (minor ≡ 2) }
    requires inside { All (IsInside bytes.now) places.now }
    ensures { StopsAmong minor bytes.now places.now result }
{
    'places: for index in 0..places.len() {
        match block_at(alloc, minor, bytes, places[index]) {
            Ok(_) => (),
            Err(BlockFault::Bad(fault)) => {
                return FanFault::Bad {
                    fault,
                    place: index as u64,
                };
            }
            Err(BlockFault::WantMemory) => return FanFault::WantMemory,
        }
    }
    FanFault::WantMemory
}
