// How a decoder's position follows the blocks.
ghost use Rattle.std.specs.Prelude.{◌≡◌, ◌+◌, ◌*◌, ◌^◌, ◌≤◌, ◌<◌, ◌&&◌, not, true, false, nat_le};
ghost use Rattle.gfx_grammar.specs.Framing.{past, side};
ghost use Rattle.gfx_decode.specs.Decoding.{start_of};
ghost use Rattle.gfx_decode.specs.Position.{position_of};
ghost use Rattle.gfx_decode.specs.Reachable.{IsInReach};

use crate::position::Position;
use gfx_blocks::Header;

/// How many blocks may occur inside the state section, and how many outside it.
const MOST_BLOCKS: u64 = 1 << 32;

/// Where the first block stands.
pub fn first_position(header: Header) -> Position
    requires { header.options ≤ 16 }
    ensures { position_of result ≡ start_of header }
{
    Position {
        number: 1,
        offset: 16 + 8 * u64::from(header.options),
        in_section: false,
        inside: 0,
        outside: 0,
    }
}

/// Whether there is no room for a block here, which begins the state section or does not.
pub fn is_full(at: Position, begins: bool) -> bool
    ensures { result ≡ nat_le (2 ^ 32) (side (position_of at) begins) }
{
    let count = if at.in_section || begins {
        at.inside
    } else {
        at.outside
    };
    MOST_BLOCKS <= count
}

/// Whether a block has room here, which may begin the state section or not.
pub fn has_room(at: Position) -> bool
    ensures { result ≡ not (nat_le (2 ^ 32) (side (position_of at) false) && nat_le (2 ^ 32) (side (position_of at) true)) }
{
    !(is_full(at, false) && is_full(at, true))
}

/// Where the next block stands, behind one with a payload of so many bytes.
pub fn position_behind(at: Position, size: u64, begins: bool, ends: bool) -> Position
    requires reach { IsInReach (position_of at) }
    requires room { side (position_of at) begins < 2 ^ 32 }
    requires size { size ≤ 2 ^ 27 }
    ensures { position_of result ≡ past (position_of at) size begins ends }
{
    let inside = at.in_section || begins;
    Position {
        number: at.number + 1,
        offset: at.offset + 12 + size,
        in_section: inside && !ends,
        inside: if inside { at.inside + 1 } else { at.inside },
        outside: if inside { at.outside } else { at.outside + 1 },
    }
}
