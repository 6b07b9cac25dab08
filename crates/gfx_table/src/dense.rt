//! Rows under ids that stand one after another, each of which is changed in its place.
//!
//! A row that goes leaves its place to the last one. Up to eight ids are searched in order; beyond that the place of
//! each is kept in slots.
ghost use Rattle.std.specs.Prelude.{◌≡◌, ℕ, ◌+◌, ◌≤◌, is_some, IsSome, OnOk, None};
ghost use Rattle.std.specs.Option.{option_copied, option_copied_mut};
ghost use Rattle.std.specs.Borrow.{LendsIf, sem};
ghost use Rattle.std.specs.FinMap as map;
ghost use Rattle.gfx_table.specs.Dense.{is_listed, StandApart};

use crate::id_list::IdList;
use std::alloc::{AllocError, Global};
use std::marker::Model;

/// Rows under ids, in no order. A row is changed where it stands, and all ids are at hand.
#[derive(Drop)]
pub struct Dense<V> {
    ids: IdList,
    rows: Vec<V>,
}

impl<V> Model for Dense<V> {
    ghost use Rattle.std.specs.Prelude.{length, vec_capacity, ◌-◌, min};
    ghost use Rattle.gfx_table.specs.Slots.{Slots, slots_code};
    ghost use Rattle.gfx_table.specs.Dense.{rows_of, IsDense};
    ghost use Rattle.gfx_table.specs.IdList.{places_in};

    ghost Value = { Slots V };

    ghost coded = { slots_code V.code };

    ghost view = { λ t. record { map = rows_of t.rows.items (places_in t.ids.items); spare = min t.ids.spare (vec_capacity t.rows - length t.rows.items) } };

    ghost invariant = { λ t. IsDense t.ids.items (length t.rows.items) (places_in t.ids.items) };
}

impl<V: Drop> Dense<V> {
    ghost use Rattle.gfx_table.specs.contracts.dense.Dense.{the_row};

    /// No rows.
    pub fn new(alloc: Global) -> Self
        ensures { result.map ≡ map.empty }
    {
        Dense {
            ids: IdList::new(alloc),
            rows: Vec::new(alloc),
        }
    }

    /// Makes room for so many new ids.
    pub fn reserve(&mut self, more: usize) -> Result<(), AllocError>
        ensures map { self.new.map ≡ self.old.map }
        ensures ok { OnOk result (more ≤ self.new.spare) }
        ensures spare { self.old.spare ≤ self.new.spare }
    {
        self.ids.reserve(more)?;
        self.rows.reserve(more)
    }

    /// The ids, each once.
    pub fn ids(&self) -> &[u64]
        ensures all { (id : ℕ) → is_listed id result.now ≡ is_some (map.get self.now.map id) }
        ensures once { StandApart result.now }
    {
        self.ids.items()
    }

    /// The row under the id.
    pub fn get(&self, id: u64) -> Option<&V>
        ensures { option_copied result ≡ map.get self.now.map id }
    {
        match self.ids.place(id) {
            Some(place) => self.rows.get(place),
            None => None,
        }
    }

    /// The row under the id, to be changed.
    pub fn get_mut(&mut self, id: u64) -> Option<&mut V>
        ensures* writes_back { sem 𝓛 (LendsIf (the_row V.row) V.row self.entry result (λ row. record self.old { map = map.insert self.old.map id row }) self.old) }
        ensures value { option_copied_mut result ≡ map.get self.old.map id }
    {
        match self.ids.place(id) {
            Some(place) => Some(&mut self.rows[place]),
            None => None,
        }
    }

    /// Puts a row under the id. A new id takes one of the spare places.
    pub fn set(&mut self, id: u64, row: V)
        requires { map.get self.old.map id ≡ None → 1 ≤ self.old.spare }
        ensures map { self.new.map ≡ map.insert self.old.map id row }
        ensures spare { self.old.spare ≤ self.new.spare + 1 }
        ensures kept { IsSome (map.get self.old.map id) → self.old.spare ≤ self.new.spare }
    {
        match self.ids.place(id) {
            Some(place) => self.rows[place] = row,
            None => {
                self.ids.push(id);
                self.rows.push_reserved(row);
            }
        }
    }

    /// Takes the row under the id out. The last one is in its place then.
    pub fn remove(&mut self, id: u64) -> Option<V>
        ensures value { result ≡ map.get self.old.map id }
        ensures map { self.new.map ≡ map.remove self.old.map id }
        ensures spare { self.old.spare ≤ self.new.spare }
    {
        let place = self.ids.place(id)?;
        let _id = self.ids.swap_remove(place);
        Some(self.rows.swap_remove(place))
    }

    /// Takes all rows out. There is no less room for new ones.
    pub fn clear(&mut self)
        ensures map { self.new.map ≡ map.empty }
        ensures spare { self.old.spare ≤ self.new.spare }
    {
        self.ids.clear();
        self.rows.clear();
    }
}
