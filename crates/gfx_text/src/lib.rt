//! The text of the fields of calls and metadata, read whatever ids are written like.
#![tactic(auto)]

mod fault;
mod fields;
mod ids;
mod lists;
mod names;
mod reading;
mod records;
mod values;
mod words;

pub use fault::TextFault;
pub use fields::Left;
pub use ids::{Numbered, ReadId};
pub use reading::{read_call, read_meta};
pub use words::{byte_of, number_of};
