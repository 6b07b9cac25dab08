//! The tracker: what follows a capture's effects, and which effect may follow.
#![tactic(auto)]

mod asked;
mod buffers;
mod commands;
mod creations;
mod each;
mod end;
mod ends;
mod expansion;
mod fences;
mod markers;
mod metadata;
mod outcome;
mod presents;
mod queues;
mod registry;
mod resources;
mod rows;
mod sought;
mod spelled;
mod state;
mod submits;
mod swapchains;
mod tracker;
mod waits;

ghost use Rattle.gfx_tracker.specs.Laws.{OperationsOfEvents};

pub use outcome::{ApplyFault, Outcome};
pub use tracker::Tracker;

/// The operations of an effect make the changes of its steps.
pub fn operations_of_events()
    ensures { OperationsOfEvents }
{}
