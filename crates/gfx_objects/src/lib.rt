//! The live objects of a capture, and all ids that were ever used.
#![tactic(auto)]

mod children;
mod detail;
mod devices;
mod kinds;
mod least;
mod object;
mod objects;
mod questions;
mod tables;

pub use gfx_types::MapRange;
pub use object::{Binding, Detail, Object, Window};
pub use objects::Objects;
