//! Bytes of a fixed length, kept in pages of 65,536 bytes. A page that was never written takes no memory and reads as
//! zeros; a page may be shared by several lists and is copied when one of them writes into it.
#![tactic(auto)]

ghost use Rattle.gfx_pages.specs.Fills.{FillsGiveBytes};

mod bytes;
mod error;
mod page;
mod scan;
mod shared;

pub use bytes::{Bytes, Span};
pub use error::WantMemory;

/// The fills of bytes lie within them and, written over zeros, give them back.
pub fn fills_give_bytes()
    ensures { FillsGiveBytes }
{}
