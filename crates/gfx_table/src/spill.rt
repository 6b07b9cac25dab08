//! The reserved places of a table: a sorted list with room.
ghost use Rattle.std.specs.Prelude.{◌≡◌, ◌+◌, ◌<◌, ◌≤◌, ◌^◌, IsSome, OnOk, OnErr, IfOk, IfErr, None};
ghost use Rattle.std.specs.Option.{option_copied};
ghost use Rattle.std.specs.FinMap as map;
ghost use Rattle.gfx_table.specs.Slots.{IsRising, IsFoundAt, IsMissingAt, IsEndAt, least_above};

use std::alloc::{AllocError, Global};
use std::marker::Model;
use std::mem;

/// Rows under ids in a sorted list.
#[derive(Drop)]
pub(crate) struct SpillList<V> {
    entries: Vec<(u64, V)>,
}

impl<V> Model for SpillList<V> {
    ghost use Rattle.std.specs.Prelude.{◌-◌, length, vec_capacity};
    ghost use Rattle.gfx_table.specs.Slots.{Slots, IsRising, slots_code, map_of};

    ghost Value = { Slots V };

    ghost coded = { slots_code V.code };

    ghost view = { λ t. record { map = map_of t.entries.items; spare = vec_capacity t.entries - length t.entries.items } };

    ghost invariant = { λ t. IsRising t.entries.items };
}

// Where the id stands, or where it would go.
fn search<V>(entries: &[(u64, V)], id: u64) -> Result<usize, usize>
    requires { IsRising entries.now }
    ensures found { IfOk result (IsFoundAt entries.now id) }
    ensures missing { IfErr result (IsMissingAt entries.now id) }
{
    entries.binary_search_by_key(&id, |entry| entry.0)
}

// The place where the ids up to the given one end.
fn end_of<V>(entries: &[(u64, V)], id: u64) -> usize
    requires { IsRising entries.now }
    ensures { IsEndAt entries.now id result }
{
    entries.partition_point(|entry| entry.0 <= id)
}

impl<V: Drop> SpillList<V> {
    /// An empty list.
    pub(crate) fn new(alloc: Global) -> Self
        ensures { result.map ≡ map.empty }
    {
        SpillList {
            entries: Vec::new(alloc),
        }
    }

    /// Makes room for so many more rows.
    pub(crate) fn reserve(&mut self, more: usize) -> Result<(), AllocError>
        ensures map { self.new.map ≡ self.old.map }
        ensures ok { OnOk result (more ≤ self.new.spare) }
        ensures spare { self.old.spare ≤ self.new.spare }
    {
        self.entries.reserve(more)
    }

    /// How many rows are here.
    pub(crate) fn len(&self) -> usize
        ensures len { result ≡ map.len self.now.map }
        ensures small { result < 2 ^ 63 }
    {
        self.entries.len()
    }

    /// The row under the id.
    pub(crate) fn get(&self, id: u64) -> Option<&V>
        ensures { option_copied result ≡ map.get self.now.map id }
    {
        match search(&self.entries, id) {
            Ok(at) => Some(&self.entries[at].1),
            Err(_) => None,
        }
    }

    /// Whether a row is under the id.
    pub(crate) fn contains(&self, id: u64) -> bool
        ensures { result ≡ map.contains_key self.now.map id }
    {
        self.get(id).is_some()
    }

    /// Puts a row in the place of the id, and gives back the one that was there. It takes no memory.
    pub(crate) fn replace(&mut self, id: u64, row: V) -> Option<V>
        requires { map.get self.old.map id ≡ None → 1 ≤ self.old.spare }
        ensures value { result ≡ map.get self.old.map id }
        ensures map { self.new.map ≡ map.insert self.old.map id row }
        ensures spare { self.old.spare ≤ self.new.spare + 1 }
        ensures kept { IsSome result → self.old.spare ≤ self.new.spare }
    {
        match search(&self.entries, id) {
            Ok(at) => {
                let (_, old) = mem::replace(&mut self.entries[at], (id, row));
                Some(old)
            }
            Err(at) => {
                if let Err(_) = self.entries.insert(at, (id, row)) {
                    unreachable!()
                }
                None
            }
        }
    }

    /// Takes the row under the id out.
    pub(crate) fn remove(&mut self, id: u64) -> Option<V>
        ensures value { result ≡ map.get self.old.map id }
        ensures map { self.new.map ≡ map.remove self.old.map id }
        ensures spare { self.old.spare ≤ self.new.spare }
    {
        match search(&self.entries, id) {
            Ok(at) => Some(self.entries.remove(at).1),
            Err(_) => None,
        }
    }

    /// The least id above the given one.
    pub(crate) fn next_above(&self, after: u64) -> Option<u64>
        ensures { result ≡ least_above self.now.map after }
    {
        let at = end_of(&self.entries, after);
        if at < self.entries.len() {
            Some(self.entries[at].0)
        } else {
            None
        }
    }
}
