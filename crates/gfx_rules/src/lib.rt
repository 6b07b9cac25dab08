//! Which check of its row an effect breaks first, asked of any answers.
#![tactic(auto)]

mod answers;
mod apart;
mod broken;
mod calls;
mod checks;
mod derived;
mod distinct;
mod effects;
mod fits;
mod ids;
mod items;
mod lists;
mod places;
mod presents;
mod resources;
mod rows_buffers;
mod rows_commands;
mod rows_copies;
mod rows_memory;
mod rows_metadata;
mod rows_objects;
mod rows_queue;
mod rows_signals;
mod rows_swapchains;
mod spans;
mod submits;
mod turns;
mod values;

pub use answers::Answers;
pub use effects::fault_of;
