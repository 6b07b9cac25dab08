// Numbers at a place, their lowest byte first.
ghost use Rattle.std.specs.Prelude.{◌≡◌, ◌+◌, ◌≤◌, length};
ghost use Rattle.gfx_model.specs.Blocks as blocks;

use gfx_io::{take_u32, take_u64};

/// The number in the four bytes from a place on, which are there.
pub fn u32_at(bytes: &[u8], at: usize) -> u32
    requires { at + 4 ≤ length bytes.now }
    ensures { result ≡ blocks.u32_at bytes.now at }
{
    match take_u32(bytes, at) {
        Some(number) => number,
        None => unreachable!(),
    }
}

/// The number in the eight bytes from a place on, which are there.
pub fn u64_at(bytes: &[u8], at: usize) -> u64
    requires { at + 8 ≤ length bytes.now }
    ensures { result ≡ blocks.u64_at bytes.now at }
{
    match take_u64(bytes, at) {
        Some(number) => number,
        None => unreachable!(),
    }
}
