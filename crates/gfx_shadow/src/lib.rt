//! Writes to memory that are held back, and the fills that stand for them.
#![tactic(auto)]

mod memories;
mod memory;
mod shadow;
mod stretch;
mod stretches;

ghost use Rattle.gfx_shadow.specs.Longest.{RunsAreLongest};
ghost use Rattle.gfx_shadow.specs.Laws.{FillsGiveHeld, FillsServe, FillsGather, FillsByIds};

pub use shadow::{Held, Shadow};

/// After any changes, the fills of held writes give every byte that the held writes in order give.
pub fn fills_give_held()
    ensures { FillsGiveHeld }
{}

/// With more writes behind them the fills of held writes have the same fills as the held writes.
pub fn fills_serve()
    ensures { FillsServe }
{}

/// Writes that are held one after another, in place of those before them just their fills, have the fills of all of them;
/// and where they have no fills there are none.
pub fn fills_gather()
    ensures { FillsGather }
{}

/// The fills of writes with other ids for their memories are the fills with these ids.
pub fn fills_by_ids()
    ensures { FillsByIds }
{}

/// The runs that fills are made of are the longest runs of bytes, cut at multiples of 65,536.
pub fn runs_are_longest()
    ensures { RunsAreLongest }
{}
