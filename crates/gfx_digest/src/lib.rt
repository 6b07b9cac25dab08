//! The digest of a range of the frames of a capture file, which is read and replayed.
#![tactic(auto)]

mod digest;
mod hasher;
mod images;

pub use digest::{Digested, digest_frames};
