//! Ids that stand one after another, each of which is found.
ghost use Rattle.std.specs.Prelude.{◌≡◌, ℕ, ◌+◌, ◌<◌, ◌≤◌, ◌++◌, ◌∷◌, [], false, length, slice_get, IsSome, IfSome, OnOk, None, Some};
ghost use Rattle.std.specs.List.{slice_index_or, swap_remove};
ghost use Rattle.std.specs.FinMap as map;
ghost use Rattle.gfx_table.specs.Dense.{is_listed, StandApart, settled};
ghost use Rattle.gfx_table.specs.IdList.{places_in};

use crate::slotted::Slotted;
use std::alloc::{AllocError, Global};
use std::marker::Model;

// Where room for more ids than these is asked for, the place of each is kept.
const FEW: usize = 8;

/// Ids one after another, each once. Few are found by going over them; where there was ever room for more, the place of each is kept.
#[derive(Drop)]
pub(crate) struct IdList {
    ids: Vec<u64>,
    // whether the place of each id is kept
    is_placed: bool,
    places: Slotted<usize>,
}

impl Model for IdList {
    ghost use Rattle.std.specs.Prelude.{length, vec_capacity, ◌-◌};
    ghost use Rattle.gfx_table.specs.IdList.{Ids, ids_code, room, IsPlaced};

    ghost Value = { Ids };

    ghost coded = { ids_code };

    ghost view = { λ t. record { items = t.ids.items; spare = room t.is_placed (vec_capacity t.ids - length t.ids.items) t.places.spare } };

    ghost invariant = { λ t. IsPlaced t.ids.items t.is_placed t.places.map };
}

impl IdList {
    /// No ids.
    pub(crate) fn new(alloc: Global) -> Self
        ensures { result.items ≡ [] }
    {
        IdList {
            ids: Vec::new(alloc),
            is_placed: false,
            places: Slotted::new(alloc),
        }
    }

    /// Makes room for so many new ids.
    pub(crate) fn reserve(&mut self, more: usize) -> Result<(), AllocError>
        ensures items { self.new.items ≡ self.old.items }
        ensures ok { OnOk result (more ≤ self.new.spare) }
        ensures spare { self.old.spare ≤ self.new.spare }
    {
        self.ids.reserve(more)?;
        if self.is_placed {
            return self.places.reserve(more);
        }
        if self.ids.len().saturating_add(more) > FEW {
            self.places.reserve(self.ids.capacity())?;
            place_all(&self.ids, &mut self.places);
            self.is_placed = true;
        }
        Ok(())
    }

    /// The ids.
    pub(crate) fn items(&self) -> &[u64]
        ensures items { result.now ≡ self.now.items }
        ensures once { StandApart result.now }
    {
        &self.ids
    }

    /// Where the id stands.
    pub(crate) fn place(&self, id: u64) -> Option<usize>
        ensures { result ≡ map.get (places_in self.now.items) id }
    {
        if self.is_placed {
            self.places.get(id).copied()
        } else {
            place_among(&self.ids, id)
        }
    }

    /// Puts a new id at the end. It takes one of the spare places.
    pub(crate) fn push(&mut self, id: u64)
        requires new { is_listed id self.old.items ≡ false }
        requires room { 1 ≤ self.old.spare }
        ensures items { self.new.items ≡ self.old.items ++ id ∷ [] }
        ensures spare { self.old.spare ≤ self.new.spare + 1 }
    {
        if self.is_placed {
            self.places.insert(id, self.ids.len());
        }
        self.ids.push_reserved(id);
    }

    /// Takes the id at a place out. The last one is there then.
    pub(crate) fn swap_remove(&mut self, place: usize) -> u64
        requires { place < length self.old.items }
        ensures value { result ≡ slice_index_or self.old.items place result }
        ensures items { self.new.items ≡ swap_remove self.old.items place result }
        ensures spare { self.old.spare ≤ self.new.spare }
    {
        let id = self.ids.swap_remove(place);
        if self.is_placed {
            let _place = self.places.remove(id);
            settle(&self.ids, &mut self.places, place);
        }
        id
    }

    /// Takes all ids out. There is no less room for new ones.
    pub(crate) fn clear(&mut self)
        ensures items { self.new.items ≡ [] }
        ensures spare { self.old.spare ≤ self.new.spare }
    {
        if self.is_placed {
            forget(&self.ids, &mut self.places);
        }
        self.ids.clear();
    }
}

// Where the id is among these.
fn place_among(ids: &[u64], id: u64) -> Option<usize>
    ensures some { IfSome result (λ place. slice_get ids.now place ≡ Some id) }
    ensures none { result ≡ None → is_listed id ids.now ≡ false }
{
    'ids: for place in 0..ids.len() {
        if ids[place] == id {
            return Some(place);
        }
    }
    None
}

// Keeps the place of each of these ids.
fn place_all(ids: &[u64], places: &mut Slotted<usize>)
    requires apart { StandApart ids.now }
    requires none { places.old.map ≡ map.empty }
    requires room { length ids.now ≤ places.old.spare }
    ensures places { places.new.map ≡ places_in ids.now }
    ensures spare { places.old.spare ≤ places.new.spare + length ids.now }
{
    'ids: for place in 0..ids.len() {
        places.insert(ids[place], place);
    }
}

// Takes the place of each of these ids out.
fn forget(ids: &[u64], places: &mut Slotted<usize>)
    requires { places.old.map ≡ places_in ids.now }
    ensures places { places.new.map ≡ map.empty }
    ensures spare { places.old.spare ≤ places.new.spare }
{
    'ids: for id in ids {
        let _place = places.remove(*id);
    }
}

// What is at this place among the ids, where something does, gets this place in place of the one that it has.
fn settle(ids: &[u64], places: &mut Slotted<usize>, place: usize)
    requires { (id : ℕ) → slice_get ids.now place ≡ Some id → IsSome (map.get places.old.map id) }
    ensures map { places.new.map ≡ settled places.old.map (slice_get ids.now place) place }
    ensures spare { places.old.spare ≤ places.new.spare }
{
    if let Some(id) = ids.get(place) {
        places.set(*id, place);
    }
}
