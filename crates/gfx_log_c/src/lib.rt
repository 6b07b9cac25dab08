//! The log of a capture for programs in C and C++: open, append, read, close. See gfx_log.h for the C side.
#![tactic(auto)]

mod answer;
mod exports;
mod fields;
mod handle;
mod parts;
mod state;
