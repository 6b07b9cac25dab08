//! Rows under ids, in the order of the ids or without it, and sets of ids. All have places that are reserved before they are
//! needed, so that a change in the middle of a call cannot fail.
#![tactic(auto)]

mod dense;
mod groups;
mod id_list;
mod id_set;
mod ordered;
mod rest;
mod slot;
mod slotted;
mod spill;
mod stored;

pub use dense::Dense;
pub use groups::Groups;
pub use id_set::IdSet;
pub use ordered::Table;
pub use slotted::Slotted;
pub use stored::Stored;
