//! A range of blocks, and what it needs of the state before it, gathered as it is read.
#![tactic(auto)]

mod follower;
mod keep;
mod range;
mod shown;

pub use follower::Follower;
pub use keep::RangeKeep;
pub use range::Range;
