//! Tests of whole runs over files in memory that show frames: what `replay` writes, what it notes and its status, and that
//! those of `digests` end as those of `replay`.
#![tactic(auto)]

#[cfg(test)]
mod digests;
#[cfg(test)]
mod failing;
#[cfg(test)]
mod pictures;
#[cfg(test)]
mod prefixes;
#[cfg(test)]
mod presents;
#[cfg(test)]
mod ranges;
#[cfg(test)]
mod replay;
#[cfg(test)]
mod section;
