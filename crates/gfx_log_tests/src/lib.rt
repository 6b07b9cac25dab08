//! Tests of logs: one that is filled to its last byte.
#![tactic(auto)]

#[cfg(test)]
mod full_log;
