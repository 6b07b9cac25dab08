//! Tests of scripts: texts that are scripts, texts with a fault, each with its line and kind, and what lines say.
#![tactic(auto)]

#[cfg(test)]
mod calls;
#[cfg(test)]
mod faults;
#[cfg(test)]
mod limits;
#[cfg(test)]
mod lines;
