//! Tests of the text of calls: a line of each call and metadata in both versions is read, and lines with one fault are bad.
#![tactic(auto)]

#[cfg(test)]
mod reading;
