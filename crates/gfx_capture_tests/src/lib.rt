//! Tests of captures: two passes, batches, and eight threads that call at once.
#![tactic(auto)]

#[cfg(test)]
mod batches;
#[cfg(test)]
mod blocks;
#[cfg(test)]
mod many_threads;
#[cfg(test)]
mod two_passes;
