//! A set of ids.
ghost use Rattle.std.specs.Prelude.{◌≡◌, ◌+◌, ◌≤◌, ◌==◌, ◌||◌, false, OnOk};
ghost use Rattle.gfx_table.specs.IdSet.{holds};

use crate::slotted::Slotted;
use std::alloc::{AllocError, Global};
use std::marker::Model;

/// A set of ids that only grows. It keeps one bit an id, in words of 64 ids, so ids that lie close together take little
/// memory, and ids that lie apart one row each.
#[derive(Drop)]
pub struct IdSet {
    words: Slotted<u64>,
}

impl Model for IdSet {
    ghost use Rattle.std.specs.Prelude.{ℕ};
    ghost use Rattle.std.specs.Coded.{coded_ℕ};
    ghost use Rattle.gfx_table.specs.Slots.{Slots, slots_code};

    ghost Value = { Slots ℕ };

    ghost coded = { slots_code coded_ℕ };

    ghost view = { λ ids. ids.words };
}

impl IdSet {
    /// The empty set.
    pub fn new(alloc: Global) -> Self
        ensures { holds result ≡ (λ id. false) }
    {
        IdSet {
            words: Slotted::new(alloc),
        }
    }

    /// Makes room for so many new ids.
    pub fn reserve(&mut self, more: usize) -> Result<(), AllocError>
        ensures ids { holds self.new ≡ holds self.old }
        ensures ok { OnOk result (more ≤ self.new.spare) }
        ensures spare { self.old.spare ≤ self.new.spare }
    {
        self.words.reserve(more)
    }

    /// Whether the id is in the set.
    pub fn contains(&self, id: u64) -> bool
        ensures { result ≡ holds self.now id }
    {
        match self.words.get(id / 64) {
            Some(word) => (*word >> (id % 64)) & 1 == 1,
            None => false,
        }
    }

    /// Puts the id into the set. It takes one of the spare places.
    pub fn insert(&mut self, id: u64)
        requires { 1 ≤ self.old.spare }
        ensures ids { holds self.new ≡ (λ other. id == other || holds self.old other) }
        ensures spare { self.old.spare ≤ self.new.spare + 1 }
    {
        let bit = 1 << (id % 64);
        match self.words.get(id / 64).copied() {
            Some(word) => self.words.set(id / 64, word | bit),
            None => self.words.insert(id / 64, bit),
        }
    }
}
