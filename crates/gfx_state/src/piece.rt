//! Bytes of a place.
ghost use Rattle.std.specs.Prelude.{◌≡◌, ◌+◌, ◌≤◌, length, slice_range, IfOk, IsSomeAnd};
ghost use Rattle.gfx_state.specs.Known.{bytes_in};

use gfx_device::StateBytes;
use gfx_types::Place;
use std::alloc::{AllocError, Global};

/// So many bytes of a place, from an offset on.
pub(crate) fn piece_of<B: StateBytes>(
    alloc: Global,
    bytes: &B,
    place: Place,
    at: u64,
    count: u64,
) -> Result<Vec<u8>, AllocError>
    requires { IsSomeAnd (B.bytes bytes.now place) (λ all. at + count ≤ length all) }
    ensures bytes { IfOk result (λ piece. piece.items ≡ slice_range (bytes_in (B.bytes bytes.now) place) at (at + count)) }
    ensures long { IfOk result (λ piece. length piece.items ≡ count) }
{
    let mut piece = vec![in alloc; 0; count as usize]?;
    bytes.read(place, at, &mut piece);
    Ok(piece)
}
