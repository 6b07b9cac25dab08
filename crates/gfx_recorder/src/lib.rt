//! Runs a script on threads that write to one log.
#![tactic(auto)]

mod drawing;
mod end;
mod finish;
mod lines;
mod names;
mod outcome;
mod phase;
mod run;
mod start;
mod worker;

pub use outcome::Outcome;
pub use start::record_script;
