//! The bytes of shown images, hashed in pieces.
ghost use Rattle.std.specs.Prelude.{◌<◌, ◌++◌, ℕ, List, length};
ghost use Rattle.sha2.specs.Hashers.{Holds256};
ghost use Rattle.gfx_frames.specs.Texts.{bytes_of};
ghost use Rattle.gfx_replay.specs.Shown.{frame_of};
ghost use Rattle.gfx_digest.specs.Images.{frame_bytes};

use gfx_device::StateBytes;
use gfx_replay::ShownFrame;
use gfx_types::Place;
use sha2::{Digest, Sha256};

/// Hashes the bytes of the images of a frame, one image after another.
pub(crate) fn hash_frame<B: StateBytes>(
    frame: &ShownFrame,
    bytes: &B,
    hasher: &mut Sha256,
    buffer: &mut [u8],
)
    requires room { 0 < length buffer.old }
    ensures { (before : List ℕ) → Holds256 hasher.old before → Holds256 hasher.new (before ++ frame_bytes (frame_of (B.bytes bytes.now) frame.now)) }
{
    let pictures = frame.pictures.as_slice();
    'pictures: for index in 0..pictures.len() {
        hash_place(pictures[index].place, bytes, hasher, buffer);
    }
}

/// Hashes the bytes of a place. Each piece goes through the buffer.
fn hash_place<B: StateBytes>(place: Place, bytes: &B, hasher: &mut Sha256, buffer: &mut [u8])
    requires room { 0 < length buffer.old }
    ensures { (before : List ℕ) → Holds256 hasher.old before → Holds256 hasher.new (before ++ bytes_of (B.bytes bytes.now) place) }
{
    let size = bytes.length(place).unwrap_or(0);
    let mut at = 0;
    'pieces: while at < size {
        let count = (size - at).min(buffer.len() as u64);
        let piece = &mut buffer[..count as usize];
        bytes.read(place, at, piece);
        hasher.update(&*piece);
        at += count;
    }
}
