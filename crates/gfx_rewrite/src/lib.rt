//! A capture file written anew, header and block by block, as it is read.
#![tactic(auto)]

mod file;
mod held;
mod rewriter;

pub use file::rewrite;
pub use held::{put, remove_front, write_held, write_many};
pub use rewriter::{Rewriter, Written};
