//! Large rows under ids, each of which stays where it was put.
//!
//! Rows are in a slab and only their keys in slots, so that a look at a scattered id touches one small slot and one
//! row.
ghost use Rattle.std.specs.Prelude.{◌≡◌, ◌+◌, ◌≤◌, IsSome, IfOk, OnOk, None};
ghost use Rattle.std.specs.Option.{option_copied};
ghost use Rattle.std.specs.FinMap as map;

use crate::slotted::Slotted;
use slab::Slab;
use std::alloc::{AllocError, Global};
use std::marker::Model;

/// Large rows under ids, in no order. The rows are in a slab, and only their keys are sought, so that of ids drawn at random few bytes
/// are gone over.
#[derive(Drop)]
pub struct Stored<V: Copy> {
    keys: Slotted<usize>,
    rows: Slab<V>,
}

impl<V: Copy> Model for Stored<V> {
    ghost use Rattle.std.specs.Prelude.{◌-◌, min};
    ghost use Rattle.slab.specs.Slab.{slab_len};
    ghost use Rattle.gfx_table.specs.Slots.{Slots, slots_code};
    ghost use Rattle.gfx_table.specs.Stored.{stored, AreStored};

    ghost Value = { Slots V };

    ghost coded = { slots_code V.code };

    ghost view = { λ t. record { map = stored t.rows t.keys.map; spare = min t.keys.spare (t.rows.capacity - slab_len t.rows) } };

    ghost invariant = { λ t. AreStored t.rows t.keys.map };
}

impl<V: Copy> Stored<V> {
    /// No rows.
    pub fn new(alloc: Global) -> Self
        ensures { result.map ≡ map.empty }
    {
        Stored {
            keys: Slotted::new(alloc),
            rows: Slab::new(alloc),
        }
    }

    /// Makes room for so many new ids.
    pub fn reserve(&mut self, more: usize) -> Result<(), AllocError>
        ensures map { self.new.map ≡ self.old.map }
        ensures ok { OnOk result (more ≤ self.new.spare) }
        ensures spare { self.old.spare ≤ self.new.spare }
    {
        self.keys.reserve(more)?;
        self.rows.reserve(more)
    }

    /// The row under the id.
    pub fn get(&self, id: u64) -> Option<&V>
        ensures { option_copied result ≡ map.get self.now.map id }
    {
        match self.keys.get(id) {
            Some(key) => self.rows.get(*key),
            None => None,
        }
    }

    /// The ids, rising.
    pub fn ids(&self, alloc: Global) -> Result<Vec<u64>, AllocError>
        ensures { IfOk result (λ ids. ids.items ≡ map.keys self.now.map) }
    {
        self.keys.ids(alloc)
    }

    /// Puts another row under an id that has one.
    pub fn set(&mut self, id: u64, row: V)
        requires { IsSome (map.get self.old.map id) }
        ensures map { self.new.map ≡ map.insert self.old.map id row }
        ensures spare { self.new.spare ≡ self.old.spare }
    {
        if let Some(key) = self.keys.get(id).copied() {
            self.rows[key] = row;
        }
    }

    /// Puts a row under a new id, which isn't looked for. It takes one of the spare places.
    pub fn insert(&mut self, id: u64, row: V)
        requires new { map.get self.old.map id ≡ None }
        requires room { 1 ≤ self.old.spare }
        ensures map { self.new.map ≡ map.insert self.old.map id row }
        ensures spare { self.old.spare ≤ self.new.spare + 1 }
    {
        let key = self.rows.insert_reserved(row);
        self.keys.insert(id, key);
    }

    /// Takes the row under the id out.
    pub fn remove(&mut self, id: u64) -> Option<V>
        ensures value { result ≡ map.get self.old.map id }
        ensures map { self.new.map ≡ map.remove self.old.map id }
        ensures spare { self.old.spare ≤ self.new.spare }
    {
        let key = self.keys.remove(id)?;
        self.rows.try_remove(key)
    }
}
