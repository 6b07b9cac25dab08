//! Samples for tests: captures that were spelled by hand, cuts of them that were put together by hand, and the scripts of their calls.
#![tactic(auto)]

pub mod cuts;
pub mod files;
pub mod made;
pub mod scenes;
pub mod scripts;
pub mod variants;
