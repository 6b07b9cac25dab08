//! A capture that is made, cut and replayed, and what was found.
#![tactic(auto)]

mod fault;
mod middle;
mod trial;

pub use fault::TrialFault;
pub use trial::write_trial;
