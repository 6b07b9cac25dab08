//! Digests that threads of their own find.
//!
//! One half of the images has threads at work while the other half is shown: threads that begin at once stay on fewer
//! processors than there are.
ghost use Rattle.std.specs.Prelude.{◌≡◌};
ghost use Rattle.sha2.specs.Sha256.{sha256};
ghost use Rattle.gfx_fan.specs.Hashing.{digest_of};

use crate::digest::{Digest, Pixels};
use gfx_pages::Bytes;
use std::snapshot::Snapshot;
use std::thread::{Promise, PromisedHandle, Threads, spawn_with};

// Fewer bytes are digested sooner than a thread is made.
const WORTH_A_THREAD: u64 = 1 << 14;

/// What a thread answers: the SHA-256 of these bytes.
#[derive(Drop)]
pub(crate) struct DigestOf(Snapshot<Bytes>);

impl Promise<Digest> for DigestOf {
    ghost kept_by = { λ of digest. digest ≡ sha256 of.0.value };
}

/// A digest that a thread is at work on, or that was found at once.
#[derive(Drop)]
pub(crate) enum Work {
    Thread(PromisedHandle<Digest, DigestOf>),
    Done(Digest),
}

impl Work {
    /// Begins to digest these bytes in a thread. Where none can be made they are digested at once.
    fn begin<R: Threads>(rt: &R, pixels: Bytes) -> Work
        ensures { digest_of result ≡ sha256 pixels }
    {
        let promise = DigestOf(Snapshot::of(&pixels));
        let digest = move || -> Digest
            ensures { result ≡ sha256 pixels }
        { pixels.digest() };
        match spawn_with(rt, promise, digest) {
            Ok(thread) => Work::Thread(thread),
            Err(refused) => Work::Done((refused.value)()),
        }
    }
}

/// Bytes whose digest is being found.
#[derive(Drop)]
pub(crate) struct Hashing {
    // a thread has the bytes themselves, and keeps them until it ends
    pixels: Snapshot<Bytes>,
    work: Work,
    ghost right: { digest_of work ≡ sha256 pixels.value },
}

impl Hashing {
    /// Begins to digest these bytes.
    pub(crate) fn begin<R: Threads>(rt: &R, pixels: Bytes) -> Hashing
        ensures { result.pixels.value ≡ pixels }
    {
        let of = Snapshot::of(&pixels);
        let work = if pixels.length() < WORTH_A_THREAD {
            Work::Done(pixels.digest())
        } else {
            Work::begin(rt, pixels)
        };
        Hashing { pixels: of, work }
    }

    /// The digest, once it is found.
    pub(crate) fn end<R: Threads>(self, rt: &R) -> Digest
        ensures { result ≡ sha256 self.pixels.value }
    {
        let Hashing { pixels: _, work } = self;
        match work {
            Work::Thread(thread) => thread.join(rt),
            Work::Done(digest) => digest,
        }
    }
}
