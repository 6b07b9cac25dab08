//! A range of frames of a capture file, without what it never needs of the state before it.
#![tactic(auto)]

mod leaner;
mod leaning;
mod writing;

pub use leaning::lean;
