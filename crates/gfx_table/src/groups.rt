//! Sets of ids under ids.
ghost use Rattle.std.specs.Prelude.{◌≡◌, ℕ, ◌+◌, ◌≤◌, ◌==◌, ◌&&◌, ◌||◌, true, false, OnOk, if◌then◌else◌};
ghost use Rattle.gfx_table.specs.Dense.{is_listed, StandApart};
ghost use Rattle.gfx_table.specs.Groups.{is_member, room_in};

use crate::dense::Dense;
use std::alloc::{AllocError, Global};

/// A set of ids under each id. A set without members takes no place.
#[derive(Drop)]
pub struct Groups {
    pub sets: Dense<Dense<()>>,
    alloc: Global,
}

impl Groups {
    /// All sets are empty.
    pub fn new(alloc: Global) -> Self
        ensures { is_member result.sets.map ≡ (λ group id. false) }
    {
        Groups {
            sets: Dense::new(alloc),
            alloc,
        }
    }

    /// The members of a set, each once.
    pub fn members(&self, group: u64) -> &[u64]
        ensures all { (id : ℕ) → is_listed id result.now ≡ is_member self.now.sets.map group id }
        ensures once { StandApart result.now }
    {
        match self.sets.get(group) {
            Some(set) => set.ids(),
            None => &[],
        }
    }

    /// Whether the id is in the set.
    pub fn contains(&self, group: u64, id: u64) -> bool
        ensures { result ≡ is_member self.now.sets.map group id }
    {
        match self.sets.get(group) {
            Some(set) => set.get(id).is_some(),
            None => false,
        }
    }

    /// Makes room for so many new members of a set.
    pub fn reserve(&mut self, group: u64, more: usize) -> Result<(), AllocError>
        ensures same { is_member self.new.sets.map ≡ is_member self.old.sets.map }
        ensures ok { OnOk result (more ≤ room_in self.new.sets.map group) }
        ensures room { (other : ℕ) → room_in self.old.sets.map other ≤ room_in self.new.sets.map other }
    {
        if let Some(set) = self.sets.get_mut(group) {
            return set.reserve(more);
        }
        let mut set = Dense::new(self.alloc);
        set.reserve(more)?;
        self.sets.reserve(1)?;
        self.sets.set(group, set);
        Ok(())
    }

    /// Puts the id into the set, where there is room for it.
    pub fn insert(&mut self, group: u64, id: u64)
        requires { is_member self.old.sets.map group id ≡ false → 1 ≤ room_in self.old.sets.map group }
        ensures members { is_member self.new.sets.map ≡ (λ g x. (group == g && id == x) || is_member self.old.sets.map g x) }
        ensures room { (g : ℕ) → room_in self.old.sets.map g ≤ room_in self.new.sets.map g + (if group == g then 1 else 0) }
    {
        if let Some(set) = self.sets.get_mut(group) {
            set.set(id, ());
        }
    }

    /// Takes the id out of the set. The room for new members stays, except that of a set whose last member this was.
    pub fn remove(&mut self, group: u64, id: u64)
        ensures members { is_member self.new.sets.map ≡ (λ g x. if group == g && id == x then false else is_member self.old.sets.map g x) }
        ensures left { (g x : ℕ) → is_member self.new.sets.map g x ≡ true → room_in self.old.sets.map g ≤ room_in self.new.sets.map g }
        ensures others { (g : ℕ) → (group == g) ≡ false → room_in self.old.sets.map g ≤ room_in self.new.sets.map g }
    {
        let Some(set) = self.sets.get_mut(group) else {
            return;
        };
        let _member = set.remove(id);
        if set.ids().is_empty() {
            let _set = self.sets.remove(group);
        }
    }

    /// Takes all ids out of the set, and drops its room for new members.
    pub fn close(&mut self, group: u64)
        ensures members { is_member self.new.sets.map ≡ (λ g x. if group == g then false else is_member self.old.sets.map g x) }
        ensures others { (g : ℕ) → (group == g) ≡ false → room_in self.old.sets.map g ≤ room_in self.new.sets.map g }
    {
        let _set = self.sets.remove(group);
    }
}
