//! Which ids a range of events needs of what is before it.
#![tactic(auto)]

mod fields;
mod listing;
mod lists;
mod needed;

pub use needed::NeededIds;
