//! Scripts: what the threads of a recording call, read from text.
#![tactic(auto)]

mod adding;
mod early;
mod fault;
mod kept;
mod key;
mod kind;
mod line;
mod line_fault;
mod lines;
mod marks;
mod names;
mod numbering;
mod parsing;
mod plain;
mod putting;
mod reading;
mod record_lists;
mod records;
mod resolver;
mod script;
mod statement;
mod supply;
mod tokens;
mod words;

pub use fault::ScriptFault;
pub use kind::ScriptKind;
pub use line::Line;
pub use parsing::parse;
pub use script::{Lines, Part, Parts, Phase, Phases, Script};
