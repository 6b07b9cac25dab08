//! What is recorded in each command buffer.
#![tactic(auto)]

mod commands;
mod laid;
mod layouts;
mod recorded;
mod recording;
mod recordings;
mod rows;
mod users;
mod uses;

pub use recorded::Recorded;
pub use recording::CbState;
pub use recordings::Recordings;
pub use rows::Totals;
