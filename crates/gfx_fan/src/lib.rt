//! What `replay` says of a file, with payloads decoded and images digested by as many threads as there are processors.
#![tactic(auto)]

mod album;
mod begun;
mod decode;
mod digest;
mod fault;
mod feed;
mod group;
mod hashing;
mod shown;
mod walk;

pub use decode::{Framed, decode_all};
pub use digest::{Digest, digest_all};
pub use fault::FanFault;
pub use walk::digests;
