//! Tests of whole runs of `trim` and `lean` over files in memory: cuts are compared with files that were put together by hand, and show what the whole shows.
#![tactic(auto)]

#[cfg(test)]
mod carried;
#[cfg(test)]
mod interrupted;
#[cfg(test)]
mod leaned;
#[cfg(test)]
mod same_pictures;
#[cfg(test)]
mod streaming;
#[cfg(test)]
mod trimmed;
