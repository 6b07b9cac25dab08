//! The lines of a listing: of a header and of blocks, written and read.
#![tactic(auto)]

mod blocks;
mod effects;
mod fault;
mod framing;
mod header;
mod hex;
mod markers;
mod names;
mod number;
mod skipped;
mod threaded;
mod tokens;
mod words;

pub use blocks::{put_line, read_line};
pub use fault::LineFault;
pub use header::{put_head, read_head};
