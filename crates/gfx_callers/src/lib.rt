//! Threads that call at one capture, for tests of `gfx_capture` and for the program that times it.
#![tactic(auto)]

mod caller;
mod effects;
mod objects;
mod opening;
mod workers;

pub use caller::Caller;
pub use effects::{Creation, Use};
pub use objects::Objects;
pub use opening::{close, open};
pub use workers::{Plan, put_barriers, run_all};
