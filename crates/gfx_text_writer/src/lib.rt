//! The text of the fields of calls and metadata, written whatever ids are shown like.
#![tactic(auto)]

mod show_fields;
mod show_items;
mod show_lists;
mod show_values;
mod showing;
mod shown;

pub use showing::{show_call, show_meta};
pub use shown::{ShowId, put_bytes, put_number};
