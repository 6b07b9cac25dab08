//! The cases, by groups of rows. Faults are those that the rules in `docs/` name, and never what a program answers.

pub mod buffers;
pub mod commands;
pub mod copies;
pub mod image_copies;
pub mod kept;
pub mod limits;
pub mod memory;
pub mod metadata;
pub mod objects;
pub mod pools;
pub mod presents;
pub mod resources;
pub mod signals;
pub mod submits;
pub mod swapchains;
