//! Tests of whole runs over files and texts in memory, by what they write, what they note and their status: the words of the
//! command line, `info`, `make`, `capture`, `upgrade`, `list` and `unlist`, and files with numbers that were made to do harm.
#![tactic(auto)]

#[cfg(test)]
mod captured;
#[cfg(test)]
mod damaged;
#[cfg(test)]
mod frame;
#[cfg(test)]
mod gated;
#[cfg(test)]
mod info;
#[cfg(test)]
mod listed;
#[cfg(test)]
mod making;
#[cfg(test)]
mod refused;
#[cfg(test)]
mod upgraded;
#[cfg(test)]
mod words;
