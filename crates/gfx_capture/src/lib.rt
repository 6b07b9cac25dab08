//! A capture: each thread calls with a pass of its own, and all their effects are in one log.
#![tactic(auto)]

mod answer;
mod block;
mod capture;
mod entry;
mod log;
mod thread_buffer;

pub use answer::{AppendFault, Receipt};
pub use capture::{Capture, Pass};
pub use entry::Entry;
pub use log::Log;
pub use thread_buffer::ThreadBuffer;
