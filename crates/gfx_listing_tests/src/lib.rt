//! Tests of listings: lines of each block are read and written again, and lines with one fault are bad.
#![tactic(auto)]

#[cfg(test)]
mod bad;
#[cfg(test)]
mod blocks;
#[cfg(test)]
mod good;
#[cfg(test)]
mod headers;
