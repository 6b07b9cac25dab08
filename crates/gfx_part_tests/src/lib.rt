//! Tests of what no clause of the lowest crates says: the adapters of std's readers and writers, that a stream in memory
//! goes on after a fault, that zeros take no pages, and which image of a swapchain is next.
#![tactic(auto)]

#[cfg(test)]
mod images;
#[cfg(test)]
mod outside;
#[cfg(test)]
mod pages;
