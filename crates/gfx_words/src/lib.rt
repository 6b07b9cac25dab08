//! The words of the command line.
#![tactic(auto)]

mod command;
mod number;
mod range;
mod recording;

pub use command::Command;
pub use range::FrameRange;
pub use recording::Recording;
