//! Tests of recordings: the log of a script, the line that is refused, and threads of a phase that run at once.
#![tactic(auto)]

#[cfg(test)]
mod logs;
#[cfg(test)]
mod recording;
#[cfg(test)]
mod side_by_side;
