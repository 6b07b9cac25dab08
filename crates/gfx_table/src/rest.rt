//! Rows that found no slot, with marks that tell most ids which aren't among them.
//!
//! An id whose last bits have no mark isn't in the table, so most scattered ids that aren't there are not sought in
//! it.
ghost use Rattle.std.specs.Prelude.{◌≡◌, ◌+◌, ◌≤◌, ◌++◌, ℕ, true, IsSome, OnOk, None};
ghost use Rattle.std.specs.Option.{option_copied};
ghost use Rattle.std.specs.FinMap as map;
ghost use Rattle.gfx_table.specs.Rest.{mark_at, place_in};

use crate::ordered::Table;
use std::alloc::{AllocError, Global};
use std::marker::Model;

/// A table of rows, of which an id that has no mark isn't asked. Ids that end alike have one mark.
#[derive(Drop)]
pub(crate) struct Rest<V: Copy> {
    rows: Table<V>,
    marks: Vec<bool>,
    alloc: Global,
}

impl<V: Copy> Model for Rest<V> {
    ghost use Rattle.gfx_table.specs.Slots.{Slots, slots_code};
    ghost use Rattle.gfx_table.specs.Rest.{AreMarked};

    ghost Value = { Slots V };

    ghost coded = { slots_code V.code };

    ghost view = { λ t. record { map = t.rows.map; spare = t.rows.spare } };

    ghost invariant = { λ t. AreMarked t.marks.items t.rows.map };
}

impl<V: Copy> Rest<V> {
    /// No rows, and no marks: each id is asked for.
    pub(crate) fn new(alloc: Global) -> Self
        ensures { result.map ≡ map.empty }
    {
        Rest {
            rows: Table::new(alloc),
            marks: Vec::new(alloc),
            alloc,
        }
    }

    /// Makes room for so many new ids.
    pub(crate) fn reserve(&mut self, more: usize) -> Result<(), AllocError>
        ensures map { self.new.map ≡ self.old.map }
        ensures ok { OnOk result (more ≤ self.new.spare) }
        ensures spare { self.old.spare ≤ self.new.spare }
    {
        self.rows.reserve(more)
    }

    /// Makes so many new marks, where no row is marked and there is memory for them.
    pub(crate) fn mark_anew(&mut self, marks: usize)
        ensures { self.new ≡ self.old }
    {
        if !self.rows.is_empty() {
            return;
        }
        if let Ok(marks) = Vec::from_elem(self.alloc, false, marks) {
            self.marks = marks;
        }
    }

    /// How many rows there are.
    pub(crate) fn len(&self) -> usize
        ensures { result ≡ map.len self.now.map }
    {
        self.rows.len()
    }

    /// The row under the id.
    pub(crate) fn get(&self, id: u64) -> Option<&V>
        ensures { option_copied result ≡ map.get self.now.map id }
    {
        if has_mark(&self.marks, id) {
            self.rows.get(id)
        } else {
            None
        }
    }

    /// Appends the ids, rising.
    pub(crate) fn push_ids(&self, ids: &mut Vec<u64>) -> Result<(), AllocError>
        ensures { OnOk result (ids.new.items ≡ ids.old.items ++ map.keys self.now.map) }
    {
        self.rows.push_ids(ids)
    }

    /// Puts a row under the id. A new id takes one of the spare places.
    pub(crate) fn set(&mut self, id: u64, row: V)
        requires { map.get self.old.map id ≡ None → 1 ≤ self.old.spare }
        ensures map { self.new.map ≡ map.insert self.old.map id row }
        ensures spare { self.old.spare ≤ self.new.spare + 1 }
        ensures kept { IsSome (map.get self.old.map id) → self.old.spare ≤ self.new.spare }
    {
        mark(&mut self.marks, id);
        self.rows.set(id, row);
    }

    /// Takes the row under the id out.
    pub(crate) fn remove(&mut self, id: u64) -> Option<V>
        ensures value { result ≡ map.get self.old.map id }
        ensures map { self.new.map ≡ map.remove self.old.map id }
        ensures spare { self.old.spare ≤ self.new.spare }
    {
        self.rows.remove(id)
    }
}

// Where the mark of an id is among so many: at its last bits.
fn place_of(id: u64, marks: usize) -> usize
    ensures { result ≡ place_in marks id }
{
    (id & (marks as u64).saturating_sub(1)) as usize
}

// Whether the id has a mark, as each has where there are none.
fn has_mark(marks: &[bool], id: u64) -> bool
    ensures { result ≡ mark_at marks.now id }
{
    let at = place_of(id, marks.len());
    marks.get(at).copied().unwrap_or(true)
}

// Marks the id.
fn mark(marks: &mut Vec<bool>, id: u64)
    ensures own { mark_at marks.new.items id ≡ true }
    ensures others { (other : ℕ) → mark_at marks.old.items other ≡ true → mark_at marks.new.items other ≡ true }
{
    let at = place_of(id, marks.len());
    if let Some(mark) = marks.get_mut(at) {
        *mark = true;
    }
}
