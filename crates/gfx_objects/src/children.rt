//! How many children each object has.
ghost use Rattle.std.specs.Prelude.{◌≡◌, ℕ, Some, ◌+◌, ◌-◌, ◌<◌, ◌≤◌, ◌^◌, ◌==◌, OnOk, if◌then◌else◌};
ghost use Rattle.gfx_objects.specs.Children.{is_at, count_of};

use gfx_table::Slotted;
use std::alloc::{AllocError, Global};

/// The number of children by the id of the parent. An object without children takes no place.
#[derive(Drop)]
pub(crate) struct ChildCounts {
    counts: Slotted<u32>,
}

impl ChildCounts {
    /// Nothing has children.
    pub(crate) fn new(alloc: Global) -> Self
        ensures { count_of result.counts.map ≡ (λ parent. 0) }
    {
        ChildCounts {
            counts: Slotted::new(alloc),
        }
    }

    /// Makes room for so many new parents.
    pub(crate) fn reserve(&mut self, more: usize) -> Result<(), AllocError>
        ensures counts { count_of self.new.counts.map ≡ count_of self.old.counts.map }
        ensures ok { OnOk result (more ≤ self.new.counts.spare) }
        ensures room { self.old.counts.spare ≤ self.new.counts.spare }
    {
        self.counts.reserve(more)
    }

    /// How many children the parent has.
    pub(crate) fn get(&self, parent: u64) -> u32
        ensures { result ≡ count_of self.now.counts.map parent }
    {
        self.counts.get(parent).copied().unwrap_or(0)
    }

    /// Counts one child more. It takes one of the spare places.
    pub(crate) fn add(&mut self, parent: u64)
        requires room { 1 ≤ self.old.counts.spare }
        requires few { count_of self.old.counts.map parent + 1 < 2 ^ 32 }
        ensures counts { count_of self.new.counts.map ≡ (λ other. if parent == other then count_of self.old.counts.map other + 1 else count_of self.old.counts.map other) }
        ensures room { self.old.counts.spare ≤ self.new.counts.spare + 1 }
    {
        let count = self.get(parent);
        self.counts.set(parent, count + 1);
    }

    /// Counts one child less.
    pub(crate) fn remove(&mut self, parent: u64)
        ensures counts { count_of self.new.counts.map ≡ (λ other. if parent == other then count_of self.old.counts.map other - 1 else count_of self.old.counts.map other) }
        ensures room { self.old.counts.spare ≤ self.new.counts.spare }
    {
        let count = self.get(parent);
        if count <= 1 {
            let _count = self.counts.remove(parent);
        } else {
            self.counts.set(parent, count - 1);
        }
    }

    /// Counts one child more, where there is a parent.
    pub(crate) fn add_to(&mut self, parent: Option<u64>)
        requires room { 1 ≤ self.old.counts.spare }
        requires few { (p : ℕ) → parent ≡ Some p → count_of self.old.counts.map p + 1 < 2 ^ 32 }
        ensures counts { (p : ℕ) → count_of self.new.counts.map p ≡ count_of self.old.counts.map p + (if is_at p parent then 1 else 0) }
        ensures room { self.old.counts.spare ≤ self.new.counts.spare + 1 }
    {
        if let Some(parent) = parent {
            self.add(parent);
        }
    }

    /// Counts one child less, where there is a parent.
    pub(crate) fn remove_from(&mut self, parent: Option<u64>)
        ensures counts { (p : ℕ) → count_of self.new.counts.map p ≡ count_of self.old.counts.map p - (if is_at p parent then 1 else 0) }
        ensures room { self.old.counts.spare ≤ self.new.counts.spare }
    {
        if let Some(parent) = parent {
            self.remove(parent);
        }
    }
}
