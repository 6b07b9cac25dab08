//! Samples for tests of texts: lines of each call and metadata, and lines with one fault.
#![tactic(auto)]

mod lines;

pub use lines::{BAD, CALLS, METAS, PRESENTS};
