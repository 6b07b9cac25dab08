//! Threads at one desk over a journal of events, for tests of `gfx_seats` and for the program that times it.
#![tactic(auto)]

mod journal;
mod workers;

pub use journal::{Batch, Entry, Event, Journal, Receipt, Refused};
pub use workers::{Plan, batch_size, open, run_all};

#[cfg(test)]
mod many_threads;
#[cfg(test)]
mod two_seats;
