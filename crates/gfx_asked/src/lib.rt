//! Which bytes of places a range of events asks for of the state before it.
#![tactic(auto)]

mod access;
mod accesses;
mod asked;
mod bounds;
mod offsets;

ghost use Rattle.gfx_asked.specs.Law.{AccessesStand};

pub use access::{Access, RowCopy};
pub use accesses::Accesses;
pub use asked::Asked;

/// The accesses of a range, kept event by event, ask for the bytes that its frames ask for.
pub fn accesses_stand()
    ensures { AccessesStand }
{}
