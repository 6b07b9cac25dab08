//! The text of shown frames: a line for each image, with the digest of its bytes, and its rows in hexadecimal.
#![tactic(auto)]

mod digest;
mod lines;
mod rows;

pub use lines::{Listing, PrintFault, picture_line, title_at, write_frame};
