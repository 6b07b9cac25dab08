//! One way through a capture file: its blocks are read and replayed, one after another.
#![tactic(auto)]

ghost use Rattle.gfx_player.specs.Laws.{CallsAreSpelled, MeaningIsComputed};

mod asked;
mod fault;
mod player;

pub use asked::Asked;
pub use fault::PlayFault;
pub use player::Player;

/// What clauses cite of bytes, their blocks, frames and end, is what they mean by the definitions.
pub fn meaning_is_computed()
    ensures { MeaningIsComputed }
{}

/// What is read as a call is spelled so, and the other way round.
pub fn calls_are_spelled()
    ensures { CallsAreSpelled }
{}
