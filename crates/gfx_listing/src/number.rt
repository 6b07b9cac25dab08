//! Numbers of four bytes.
ghost use Rattle.std.specs.Prelude.{◌≡◌, ◌+◌, ◌≤◌, length};
ghost use Rattle.gfx_model.specs.Blocks as blocks;

use gfx_io::take_u32;

/// The number in the four bytes from a place on.
pub(crate) fn u32_at(bytes: &[u8], at: usize) -> u32
    requires { at + 4 ≤ length bytes.now }
    ensures { result ≡ blocks.u32_at bytes.now at }
{
    match take_u32(bytes, at) {
        Some(number) => number,
        None => unreachable!(),
    }
}
