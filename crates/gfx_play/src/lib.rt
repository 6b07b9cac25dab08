//! A capture file that is read and replayed, and the text of its frames.
#![tactic(auto)]

mod play;
mod screen;

pub use play::show_frames;
pub use screen::Screen;
