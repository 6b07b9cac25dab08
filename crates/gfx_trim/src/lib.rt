//! A range of frames, cut out of a capture file as it is read.
#![tactic(auto)]

mod cutter;
mod marks;
mod opening;
mod phase;
mod trimming;

pub use marks::{begins_behind, begins_section, shows_frame};
pub use phase::Phase;
pub use trimming::trim;
