//! The header and the blocks that lines of a listing list.
ghost use Rattle.std.specs.Prelude.{◌≡◌, ◌⊎◌, ◌≤◌, ◌+◌, ◌-◌, ◌^◌, [], length, IfOk, IfErr, OnErr, MatchOption};
ghost use Rattle.gfx_model.specs.Blocks.{side_count, type_field};
ghost use Rattle.gfx_decode.specs.Position.{position_of};
ghost use Rattle.gfx_decode.specs.Reachable.{IsInReach};
ghost use Rattle.gfx_decode.specs.Whole.{LeadsTo};
ghost use Rattle.gfx_list.specs.Parts.{IsNoBlock, IsNoHeader, IsSomeBlock, TakesBlock, TakesHeader, fault_of, first_place};

use crate::UnlistFault;
use gfx_blocks::Framing;
use gfx_decode::{Position, place_behind};
use gfx_io::take_u32;
use gfx_listing::{LineFault, read_head, read_line};

/// Appends the header that has this line, and answers its minor version.
pub(crate) fn take_header(line: &[u8], bytes: &mut Vec<u8>) -> Result<u32, UnlistFault>
    requires { bytes.old.items ≡ [] }
    ensures takes { IfOk result (TakesHeader line.now bytes.new.items) }
    ensures fault { IfErr result (IsNoHeader line.now) }
    ensures unchanged { OnErr result (bytes.new.items ≡ []) }
{
    match read_head(line, bytes) {
        Ok(minor) => Ok(minor),
        Err(fault) => Err(line_fault(fault, 1)),
    }
}

/// Where the first block stands, behind a header of so many bytes.
pub(crate) fn first_place(header: &[u8]) -> Position
    ensures { position_of result ≡ first_place (length header.now) }
{
    Position {
        number: 1,
        offset: header.len() as u64,
        in_section: false,
        inside: 0,
        outside: 0,
    }
}

/// Appends the block that has this line, and answers where the next one stands.
pub(crate) fn take_block(
    minor: u32,
    at: Position,
    line: &[u8],
    bytes: &mut Vec<u8>,
) -> Result<Position, UnlistFault>
    requires version { (minor ≡ 1) ⊎ (minor ≡ 2) }
    requires reach { IsInReach (position_of at) }
    ensures takes { IfOk result (λ next. TakesBlock minor (position_of at) line.now bytes.old.items bytes.new.items (position_of next)) }
    ensures fault { IfErr result (IsNoBlock minor (position_of at) line.now) }
    ensures unchanged { OnErr result (bytes.new.items ≡ bytes.old.items) }
{
    let front = bytes.len();
    if let Err(fault) = read_line(minor, line, bytes) {
        return Err(line_fault(fault, at.number + 1));
    }
    match place_after(at, &bytes[front..]) {
        Some(next) => Ok(next),
        None => {
            bytes.truncate(front);
            Err(UnlistFault::BadListing {
                line: at.number + 1,
            })
        }
    }
}

/// Where the next block follows this one, None where there is no room for it.
fn place_after(at: Position, block: &[u8]) -> Option<Position>
    requires reach { IsInReach (position_of at) }
    requires block { IsSomeBlock block.now }
    ensures { MatchOption result (2 ^ 32 ≤ side_count (position_of at) block.now) (λ next. LeadsTo (position_of at) block.now (position_of next)) }
{
    let framing = framing_of(block);
    match place_behind(at, framing, block) {
        Ok(next) => Some(next),
        Err(_) => None,
    }
}

/// The size and the type of a block.
fn framing_of(block: &[u8]) -> Framing
    requires { 12 ≤ length block.now }
    ensures { (result.kind ≡ type_field block.now) × (result.size ≡ length block.now - 12) }
{
    let size = (block.len() - 12) as u64;
    match take_u32(block, 8) {
        Some(kind) => Framing { size, kind },
        None => unreachable!(),
    }
}

/// Why a line of this number lists nothing.
fn line_fault(fault: LineFault, number: u64) -> UnlistFault
    ensures { result ≡ fault_of number fault }
{
    match fault {
        LineFault::BadLine => UnlistFault::BadListing { line: number },
        LineFault::WantMemory => UnlistFault::WantMemory,
    }
}
