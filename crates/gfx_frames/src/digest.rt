//! The digest of the bytes of a place, read in pieces.
ghost use Rattle.std.specs.Prelude.{◌≡◌, ◌<◌, ◌≤◌, ◌^◌, length, IsSomeAnd};
ghost use Rattle.sha2.specs.Sha256.{sha256};
ghost use Rattle.gfx_frames.specs.Texts.{bytes_of};

use gfx_device::StateBytes;
use gfx_types::Place;
use sha2::{Digest, Sha256};

/// The SHA-256 of the first `size` bytes of a place, which are all that it has. Each piece goes through the buffer.
pub(crate) fn digest_of<B: StateBytes>(
    bytes: &B,
    place: Place,
    size: u64,
    buffer: &mut [u8],
) -> [u8; 32]
    requires there { IsSomeAnd (B.bytes bytes.now place) (λ all. length all ≡ size) }
    requires room { 0 < length buffer.old }
    ensures { result ≡ sha256 (bytes_of (B.bytes bytes.now) place) }
{
    let mut hasher = Sha256::new();
    let mut at = 0;
    'pieces: while at < size {
        let count = (size - at).min(buffer.len() as u64);
        let piece = &mut buffer[..count as usize];
        bytes.read(place, at, piece);
        hasher.update(&*piece);
        at += count;
    }
    hasher.finalize()
}
