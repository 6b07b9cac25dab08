// The block in a buffer.
ghost use Rattle.std.specs.Prelude.{◌≡◌, ◌<◌, ◌≤◌, ◌^◌, ℕ, IfOk, IfErr, OnErr};
ghost use Rattle.gfx_model.specs.Blocks.{side_count};
ghost use Rattle.gfx_grammar.specs.Framing.{IsBlock};
ghost use Rattle.gfx_blocks.specs.Payloads.{content_of};
ghost use Rattle.gfx_decode.specs.Position.{position_of};
ghost use Rattle.gfx_decode.specs.Reachable.{IsInReach};
ghost use Rattle.gfx_decode.specs.Reading.{IsFramed, StopsInBytes};
ghost use Rattle.gfx_decode.specs.Whole.{LeadsTo};

use crate::DecodeFault;
use crate::places::{is_full, position_behind};
use crate::position::Position;
use gfx_blocks::{BlockFault, Framing, is_marker, read_payload};
use gfx_types::{Block, Fault};
use std::alloc::Global;

/// Where the next block follows the one in the buffer, or TooManyBlocks where there is no room for it.
pub fn place_behind(at: Position, framing: Framing, buffer: &[u8]) -> Result<Position, DecodeFault>
    requires reach { IsInReach (position_of at) }
    requires framed { IsFramed framing.kind framing.size buffer.now }
    ensures leads { IfOk result (λ next. LeadsTo (position_of at) buffer.now (position_of next)) }
    ensures fault { IfErr result (λ why. why ≡ DecodeFault.Bad Fault.TooManyBlocks at.number at.offset) }
    ensures full { OnErr result (2 ^ 32 ≤ side_count (position_of at) buffer.now) }
{
    let payload = &buffer[12..];
    let begins = is_marker(1, framing, payload);
    if is_full(at, begins) {
        return Err(DecodeFault::bad(Fault::TooManyBlocks, at.number, at.offset));
    }
    let ends = is_marker(2, framing, payload);
    Ok(position_behind(at, framing.size, begins, ends))
}

/// The block in the buffer, for which there is room, or the step that its payload breaks.
pub fn block_in(
    alloc: Global,
    minor: u32,
    at: Position,
    framing: Framing,
    buffer: &[u8],
) -> Result<Block<'_>, DecodeFault>
    requires version { (1 ≤ minor) × (minor ≤ 2) }
    requires framed { IsFramed framing.kind framing.size buffer.now }
    requires room { side_count (position_of at) buffer.now < 2 ^ 32 }
    ensures whole { IfOk result (λ block. IsBlock minor buffer.now (content_of block)) }
    ensures fault { IfErr result (StopsInBytes minor (position_of at) buffer.now) }
{
    match read_payload(alloc, minor, framing, &buffer[12..]) {
        Ok(block) => Ok(block),
        Err(BlockFault::Bad(fault)) => Err(DecodeFault::bad(fault, at.number, at.offset)),
        Err(BlockFault::WantMemory) => Err(DecodeFault::WantMemory),
    }
}
