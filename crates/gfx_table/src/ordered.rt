//! A table of rows under ids.
ghost use Rattle.std.specs.Prelude.{◌≡◌, ◌+◌, ◌≤◌, ◌↔◌, ◌++◌, IsTrue, IsSome, OnOk, OnErr, None, length};
ghost use Rattle.std.specs.Io.{StartsWith};
ghost use Rattle.std.specs.Option.{option_copied};
ghost use Rattle.std.specs.FinMap as map;
ghost use Rattle.gfx_table.specs.Slots.{least_above};
ghost use Rattle.gfx_table.specs.Least.{lesser_of, least_in};

use crate::spill::SpillList;
use std::alloc::{AllocError, Global};
use std::collections::BTreeMap;
use std::marker::Model;
use std::ops::Bound;

/// Rows under ids, in the order of the ids. A new row cannot fail where places are reserved: it goes into the tree,
/// and where the tree finds no memory into a reserved place.
#[derive(Drop)]
pub struct Table<V> {
    rows: BTreeMap<u64, V>,
    spilled: SpillList<V>,
}

impl<V> Model for Table<V> {
    ghost use Rattle.gfx_table.specs.Slots.{Slots, slots_code};
    ghost use Rattle.gfx_table.specs.Joined.{joined, IsApart};

    ghost Value = { Slots V };

    ghost coded = { slots_code V.code };

    ghost view = { λ t. record { map = joined t.rows.entries t.spilled.map; spare = t.spilled.spare } };

    ghost invariant = { λ t. IsApart t.rows.entries t.spilled.map };
}

impl<V: Drop> Table<V> {
    /// A table without rows.
    pub fn new(alloc: Global) -> Self
        ensures { result.map ≡ map.empty }
    {
        Table {
            rows: BTreeMap::new(alloc),
            spilled: SpillList::new(alloc),
        }
    }

    /// Makes room for so many new ids.
    pub fn reserve(&mut self, more: usize) -> Result<(), AllocError>
        ensures map { self.new.map ≡ self.old.map }
        ensures ok { OnOk result (more ≤ self.new.spare) }
        ensures spare { self.old.spare ≤ self.new.spare }
    {
        self.spilled.reserve(more)
    }

    /// How many rows there are.
    pub fn len(&self) -> usize
        ensures { result ≡ map.len self.now.map }
    {
        self.rows.len() + self.spilled.len()
    }

    /// Whether there are no rows.
    pub fn is_empty(&self) -> bool
        ensures { IsTrue result ↔ (map.len self.now.map ≡ 0) }
    {
        self.len() == 0
    }

    /// The row under the id.
    pub fn get(&self, id: u64) -> Option<&V>
        ensures { option_copied result ≡ map.get self.now.map id }
    {
        match self.rows.get(&id) {
            Some(row) => Some(row),
            None => self.spilled.get(id),
        }
    }

    /// Puts a row under the id, and gives back the one that was there. A new id takes one of the spare places.
    pub fn replace(&mut self, id: u64, row: V) -> Option<V>
        requires { map.get self.old.map id ≡ None → 1 ≤ self.old.spare }
        ensures value { result ≡ map.get self.old.map id }
        ensures map { self.new.map ≡ map.insert self.old.map id row }
        ensures spare { self.old.spare ≤ self.new.spare + 1 }
        ensures kept { IsSome result → self.old.spare ≤ self.new.spare }
    {
        if self.spilled.contains(id) {
            return self.spilled.replace(id, row);
        }
        match self.rows.insert(id, row) {
            Ok(old) => old,
            Err(refused) => self.spilled.replace(id, refused.value.1),
        }
    }

    /// Puts a row under the id, as `replace` does, and drops the one that was there.
    pub fn set(&mut self, id: u64, row: V)
        requires { map.get self.old.map id ≡ None → 1 ≤ self.old.spare }
        ensures map { self.new.map ≡ map.insert self.old.map id row }
        ensures spare { self.old.spare ≤ self.new.spare + 1 }
        ensures kept { IsSome (map.get self.old.map id) → self.old.spare ≤ self.new.spare }
    {
        let _old = self.replace(id, row);
    }

    /// Takes the row under the id out.
    pub fn remove(&mut self, id: u64) -> Option<V>
        ensures value { result ≡ map.get self.old.map id }
        ensures map { self.new.map ≡ map.remove self.old.map id }
        ensures spare { self.old.spare ≤ self.new.spare }
    {
        match self.rows.remove(&id) {
            Some(row) => Some(row),
            None => self.spilled.remove(id),
        }
    }

    /// Appends the ids, rising. After an error the first of them are appended, those that found memory.
    pub(crate) fn push_ids(&self, ids: &mut Vec<u64>) -> Result<(), AllocError>
        ensures ok { OnOk result (ids.new.items ≡ ids.old.items ++ map.keys self.now.map) }
        ensures err { OnErr result (StartsWith (ids.old.items ++ map.keys self.now.map) ids.new.items) }
        ensures kept { length ids.old.items ≤ length ids.new.items }
    {
        if self.get(0).is_some() {
            ids.push(0)?;
        }
        let mut after = 0;
        'rows: while let Some(id) = self.next_above(after) {
            ids.push(id)?;
            after = id;
        }
        Ok(())
    }

    /// The least id above the given one.
    pub fn next_above(&self, after: u64) -> Option<u64>
        ensures { result ≡ least_above self.now.map after }
    {
        lesser_of(
            next_in_tree(&self.rows, after),
            self.spilled.next_above(after),
        )
    }
}

// The least id of the tree above the given one.
fn next_in_tree<V>(rows: &BTreeMap<u64, V>, after: u64) -> Option<u64>
    ensures { result ≡ least_in after rows.now.entries }
{
    match rows
        .range((Bound::Excluded(after), Bound::Unbounded))
        .next()
    {
        Some((id, _)) => Some(*id),
        None => None,
    }
}

// The lesser of two ids, or the one that there is.
fn lesser_of(first: Option<u64>, second: Option<u64>) -> Option<u64>
    ensures { result ≡ lesser_of first second }
{
    match (first, second) {
        (Some(a), Some(b)) => Some(a.min(b)),
        (None, id) => id,
        (id, None) => id,
    }
}
