//! The commands of the program, over a source and two sinks.
#![tactic(auto)]

mod capture;
mod capture_notes;
mod commands;
mod counts;
mod fan;
mod files;
mod info;
mod notes;
mod program;
mod status;
mod stop;

pub use capture::run_capture;
pub use fan::run_fan;
pub use files::run_files;
pub use program::run;
pub use status::Status;
use stop::Stop;
