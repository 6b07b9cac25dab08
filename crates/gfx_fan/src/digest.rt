//! The digests of images, side by side.
ghost use Rattle.std.specs.Prelude.{◌≡◌, ◌<◌, IfOk, length, map};
ghost use Rattle.sha2.specs.Sha256.{sha256};

use gfx_pages::Bytes;
use gfx_types::{Picture, WantMemory};
use rayon::prelude::*;
use sha2::{Digest as Hasher, Sha256};
use std::alloc::{AllocError, Global};
use std::thread::Threads;

/// A SHA-256: 32 bytes.
pub type Digest = [u8; 32];

// How many bytes of pages are looked at in one piece.
const PIECE: usize = 4096;

/// An image, which is digested by its bytes.
pub trait Pixels {
    ghost use Rattle.std.specs.Prelude.{List, ℕ};

    ghost pixels: { Self → List ℕ };

    /// The SHA-256 of its bytes.
    fn digest(&self) -> Digest
        ensures { result ≡ sha256 (pixels self.now) };
}

impl Pixels for Picture {
    ghost pixels = { λ p. p.pixels };

    fn digest(&self) -> Digest {
        Sha256::digest(self.pixels.items())
    }
}

/// Pages are read through a buffer, piece by piece.
impl Pixels for Bytes {
    ghost pixels = { λ bytes. bytes };

    fn digest(&self) -> Digest {
        let mut buffer = [0; PIECE];
        digest_through(self, &mut buffer)
    }
}

/// The SHA-256 of the bytes of each picture, in order.
pub fn digest_all<R: Threads + Sync, P: Pixels + Sync>(
    rt: &R,
    alloc: Global,
    pictures: &[P],
) -> Result<Vec<Digest>, WantMemory>
    ensures { IfOk result (λ digests. digests.items ≡ map (λ p. sha256 (P.pixels p)) pictures.now) }
{
    match digests_of(rt, alloc, pictures) {
        Ok(digests) => Ok(digests),
        Err(_) => Err(WantMemory),
    }
}

/// The digests of the pictures, with the allocator's own error.
fn digests_of<R: Threads + Sync, P: Pixels + Sync>(
    rt: &R,
    alloc: Global,
    pictures: &[P],
) -> Result<Vec<Digest>, AllocError>
    ensures { IfOk result (λ digests. digests.items ≡ map (λ p. sha256 (P.pixels p)) pictures.now) }
{
    pictures
        .par_iter()
        .with_min_len(1)
        .map(
            |picture: &P| -> Digest
                ensures { result ≡ sha256 (P.pixels picture.now) }
            { picture.digest() },
        )
        .collect(rt, alloc)
}

/// The SHA-256 of bytes, each piece of which goes through the buffer.
fn digest_through(bytes: &Bytes, buffer: &mut [u8]) -> Digest
    requires { 0 < length buffer.old }
    ensures { result ≡ sha256 bytes.now }
{
    let size = bytes.length();
    let mut hasher = Sha256::new();
    let mut at = 0;
    'pieces: while at < size {
        let count = (size - at).min(buffer.len() as u64);
        let piece = &mut buffer[..count as usize];
        bytes.read_into(at, piece);
        hasher.update(&*piece);
        at += count;
    }
    hasher.finalize()
}
