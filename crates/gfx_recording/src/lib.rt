//! A recording: a script is read, its threads are run, and the log that they leave is written.
#![tactic(auto)]

mod fault;
mod outcome;
mod recording;
mod script;
mod text;
mod writing;

pub use fault::RecordingFault;
pub use recording::record;
