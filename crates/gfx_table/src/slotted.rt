//! Small rows under ids, which are found at once where the ids lie close together.
//!
//! The last bits of an id choose a group of eight slots, and the slot to look at first; a row whose group is full goes
//! to a sorted table. Ids that programs draw are found at one look, and no ids that a file chooses cost more than
//! eight looks and the table: there is no hash to defeat.
ghost use Rattle.std.specs.Prelude.{◌≡◌, ◌≢◌, ℕ, ◌+◌, ◌<◌, ◌≤◌, ◌++◌, true, false, length, bit_and, slice_set, is_some, IsSome, IfSome, IfOk, OnOk, Some, None, map as each};
ghost use Rattle.std.specs.Option.{option_copied, option_or};
ghost use Rattle.std.specs.Ordering.{nat_cmp};
ghost use Rattle.std.specs.FinMap as map;
ghost use Rattle.gfx_table.specs.Slotted.{slot_at, row_in, filled, own_slot, StandsOwn, IsInGroup, IsNowhere, CanTake, StandOnce, AreOwn, ArePlaced};

use crate::rest::Rest;
use crate::slot::{Slot, free_slots, in_slot, is_free};
use std::alloc::{AllocError, Global};
use std::marker::Model;
use std::mem;

// So many slots stand together, and an id may occur in any of those to which its bits lead.
const GROUP: usize = 8;

/// Small rows under ids, in no order. The last bits of an id tell a group of slots, and a row whose group is full is in a
/// table. So of ids that lie close together, as programs draw them, each has a slot of its own, of ids drawn at random few go
/// into the table, and no ids cost more than the table does.
#[derive(Drop)]
pub struct Slotted<V: Copy> {
    slots: Vec<Slot<V>>,
    // the bits of an id that tell where its group begins
    mask: u64,
    // how many slots are taken
    taken: usize,
    // whether an id may occur in another slot of its group than its own
    displaced: bool,
    rest: Rest<V>,
    alloc: Global,
}

impl<V: Copy> Model for Slotted<V> {
    ghost use Rattle.std.specs.Prelude.{◌≡◌, length};
    ghost use Rattle.gfx_table.specs.Slots.{Slots, slots_code};
    ghost use Rattle.gfx_table.specs.Joined.{joined};
    ghost use Rattle.gfx_table.specs.Slotted.{filled, IsSlotted};

    ghost Value = { Slots V };

    ghost coded = { slots_code V.code };

    ghost view = { λ t. record { map = joined (filled t.slots.items) t.rest.map; spare = t.rest.spare } };

    ghost invariant = { λ t. IsSlotted t.mask t.displaced t.slots.items t.rest.map × (t.taken ≡ length (filled t.slots.items)) };
}

impl<V: Copy + Default> Slotted<V> {
    /// No rows.
    pub fn new(alloc: Global) -> Self
        ensures { result.map ≡ map.empty }
    {
        Slotted {
            slots: Vec::new(alloc),
            mask: 0,
            taken: 0,
            displaced: false,
            rest: Rest::new(alloc),
            alloc,
        }
    }

    /// Makes room for so many new ids.
    pub fn reserve(&mut self, more: usize) -> Result<(), AllocError>
        ensures map { self.new.map ≡ self.old.map }
        ensures ok { OnOk result (more ≤ self.new.spare) }
        ensures spare { self.old.spare ≤ self.new.spare }
    {
        self.rest.reserve(more)?;
        // One slot for each row while each id is in its own, and else as many that are free.
        let rows = self.taken.saturating_add(more);
        let wanted = rows.saturating_mul(1 + usize::from(self.displaced));
        if wanted > self.slots.len() {
            self.widen(wanted);
            self.gather();
            self.rest.mark_anew(self.slots.len() / GROUP);
        }
        Ok(())
    }

    // Moves rows of the rest into slots that are free now, where the rest is the smaller part: it is gone over so seldom then that
    // each row pays for a fixed number of looks.
    fn gather(&mut self)
        ensures map { self.new.map ≡ self.old.map }
        ensures spare { self.old.spare ≤ self.new.spare }
    {
        if self.rest.len() > self.taken {
            return;
        }
        let mut ids = Vec::new(self.alloc);
        if self.rest.push_ids(&mut ids).is_err() {
            return;
        }
        'ids: for id in &ids {
            self.move_in(*id);
        }
    }

    // Moves the row of an id from the rest into a free slot of its group, where there are both.
    fn move_in(&mut self, id: u64)
        ensures map { self.new.map ≡ self.old.map }
        ensures spare { self.old.spare ≤ self.new.spare }
    {
        let first = first_of(id, self.mask);
        let Some(slot) = free_in(&self.slots, first, id) else {
            return;
        };
        if let Some(row) = self.rest.remove(id) {
            put(&mut self.slots, &mut self.taken, slot, (id, row));
            self.displaced = displaces(self.displaced, slot, first, id);
        }
    }

    // Makes so many slots, where there is memory for them.
    fn widen(&mut self, wanted: usize)
        ensures { self.new ≡ self.old }
    {
        let mask = mask_over(wanted);
        let Ok(mut wide) = free_slots(self.alloc, (mask as usize).saturating_add(GROUP)) else {
            return;
        };
        if let Some(displaced) = spread(&self.slots, mask, &mut wide) {
            self.slots = wide;
            self.mask = mask;
            self.displaced = displaced;
        }
    }

    /// The row under the id.
    pub fn get(&self, id: u64) -> Option<&V>
        ensures { option_copied result ≡ map.get self.now.map id }
    {
        // A look at free slots alone would be at a place of memory that no cache has.
        if self.taken == 0 {
            return self.rest.get(id);
        }
        let own = own_of(id, first_of(id, self.mask));
        match in_slot(&self.slots, id, own) {
            Some(row) => Some(row),
            None => self.get_anywhere(id),
        }
    }

    // The row under the id, wherever it stands; most rows were found in their own slot before.
    fn get_anywhere(&self, id: u64) -> Option<&V>
        ensures { option_copied result ≡ map.get self.now.map id }
    {
        match slot_of(&self.slots, self.displaced, first_of(id, self.mask), id) {
            Some(slot) => in_slot(&self.slots, id, slot),
            None => self.rest.get(id),
        }
    }

    /// The ids, rising.
    pub fn ids(&self, alloc: Global) -> Result<Vec<u64>, AllocError>
        ensures { IfOk result (λ ids. ids.items ≡ map.keys self.now.map) }
    {
        let mut ids = Vec::new(alloc);
        push_taken(&mut ids, &self.slots)?;
        self.rest.push_ids(&mut ids)?;
        ids.sort_unstable();
        Ok(ids)
    }

    /// Puts a row under the id. A new id takes one of the spare places.
    pub fn set(&mut self, id: u64, row: V)
        requires { map.get self.old.map id ≡ None → 1 ≤ self.old.spare }
        ensures map { self.new.map ≡ map.insert self.old.map id row }
        ensures spare { self.old.spare ≤ self.new.spare + 1 }
        ensures kept { IsSome (map.get self.old.map id) → self.old.spare ≤ self.new.spare }
    {
        let first = first_of(id, self.mask);
        match slot_for(&self.slots, self.displaced, &self.rest, first, id) {
            Some(slot) => {
                put(&mut self.slots, &mut self.taken, slot, (id, row));
                self.displaced = displaces(self.displaced, slot, first, id);
            }
            None => self.rest.set(id, row),
        }
    }

    /// Puts a row under a new id, which isn't looked for. It takes one of the spare places.
    pub fn insert(&mut self, id: u64, row: V)
        requires new { map.get self.old.map id ≡ None }
        requires room { 1 ≤ self.old.spare }
        ensures map { self.new.map ≡ map.insert self.old.map id row }
        ensures spare { self.old.spare ≤ self.new.spare + 1 }
    {
        let first = first_of(id, self.mask);
        match free_in(&self.slots, first, id) {
            Some(slot) => {
                put(&mut self.slots, &mut self.taken, slot, (id, row));
                self.displaced = displaces(self.displaced, slot, first, id);
            }
            None => self.rest.set(id, row),
        }
    }

    /// Takes the row under the id out.
    pub fn remove(&mut self, id: u64) -> Option<V>
        ensures value { result ≡ map.get self.old.map id }
        ensures map { self.new.map ≡ map.remove self.old.map id }
        ensures spare { self.old.spare ≤ self.new.spare }
    {
        let Some(slot) = slot_of(&self.slots, self.displaced, first_of(id, self.mask), id) else {
            return self.rest.remove(id);
        };
        let row = in_slot(&self.slots, id, slot).copied();
        self.slots[slot] = Slot::free();
        self.taken = self.taken.saturating_sub(1);
        row
    }
}

// The bits that tell a group, where so many slots are needed.
fn mask_over(slots: usize) -> u64 {
    let all = u64::MAX
        .checked_shr((slots as u64).saturating_sub(1).leading_zeros())
        .unwrap_or(0);
    all - all % GROUP as u64
}

// Where the group of an id begins.
fn first_of(id: u64, mask: u64) -> usize
    ensures { result ≡ bit_and id mask }
{
    (id & mask) as usize
}

// The slot that an id takes in its group while no other has it.
fn own_of(id: u64, first: usize) -> usize
    ensures group { IsInGroup first result }
    ensures own { result ≡ own_slot first id }
{
    first.saturating_add(id as usize % GROUP)
}

// Whether an id is displaced, once this one is in a slot.
fn displaces(displaced: bool, slot: usize, first: usize, id: u64) -> bool
    ensures { result ≡ false → (displaced ≡ false) × (slot ≡ own_slot first id) }
{
    displaced || slot != own_of(id, first)
}

// The slot in which the row of the id stands, among those of the group that begins here.
fn slot_of<V: Copy + Default>(
    slots: &[Slot<V>],
    displaced: bool,
    first: usize,
    id: u64,
) -> Option<usize>
    requires { displaced ≡ false → StandsOwn slots.now first id }
    ensures here { IfSome result (λ s. is_some (row_in (slot_at slots.now s) id) ≡ true) }
    ensures inside { IfSome result (IsInGroup first) }
    ensures id { IsSome result → id ≢ 0 }
    ensures none { result ≡ None → IsNowhere slots.now first id }
{
    let own = own_of(id, first);
    if in_slot(slots, id, own).is_some() {
        return Some(own);
    }
    if !displaced {
        return None;
    }
    'slots: for slot in first..first.saturating_add(GROUP) {
        if in_slot(slots, id, slot).is_some() {
            return Some(slot);
        }
    }
    None
}

// The slot into which a row under the id goes: the one in which it is already, or a free one of the group where the rest has
// none.
fn slot_for<V: Copy + Default>(
    slots: &[Slot<V>],
    displaced: bool,
    rest: &Rest<V>,
    first: usize,
    id: u64,
) -> Option<usize>
    requires { displaced ≡ false → StandsOwn slots.now first id }
    ensures some { IfSome result (CanTake slots.now rest.now.map first id) }
    ensures id { IsSome result → id ≢ 0 }
    ensures none { result ≡ None → IsNowhere slots.now first id }
{
    match slot_of(slots, displaced, first, id) {
        Some(slot) => Some(slot),
        None => {
            if rest.get(id).is_some() {
                None
            } else {
                free_in(slots, first, id)
            }
        }
    }
}

// A free slot of the group that begins here: that of the id, where it is free.
fn free_in<V: Copy + Default>(slots: &[Slot<V>], first: usize, id: u64) -> Option<usize>
    ensures group { IfSome result (IsInGroup first) }
    ensures inside { IfSome result (λ s. s < length slots.now) }
    ensures free { IfSome result (λ s. slot_at slots.now s ≡ None) }
    ensures id { IsSome result → id ≢ 0 }
{
    if id == 0 {
        return None;
    }
    let own = own_of(id, first);
    if is_free(slots, own) {
        return Some(own);
    }
    'slots: for slot in first..first.saturating_add(GROUP) {
        if is_free(slots, slot) {
            return Some(slot);
        }
    }
    None
}

// Puts an entry into a slot, and counts the slot where it was free.
fn put<V: Copy + Default>(slots: &mut Vec<Slot<V>>, taken: &mut usize, slot: usize, entry: (u64, V))
    requires slot { slot < length slots.old.items }
    requires id { entry.0 ≢ 0 }
    ensures slots { slots.new.items ≡ slice_set slots.old.items slot (Some entry) }
    ensures taken { taken.old ≡ length (filled slots.old.items) → taken.new ≡ length (filled slots.new.items) }
{
    if mem::replace(&mut slots[slot], Slot::new(entry.0, entry.1)).is_free() {
        *taken = taken.saturating_add(1);
    }
}

// Puts what is in the slots into more slots, where there is one for each, and says whether an id is displaced there.
fn spread<V: Copy + Default>(slots: &[Slot<V>], mask: u64, wide: &mut Vec<Slot<V>>) -> Option<bool>
    requires once { StandOnce slots.now }
    requires free { (i : ℕ) → slot_at wide.old.items i ≡ None }
    ensures placed { IfSome result (λ displaced. ArePlaced mask wide.new.items) }
    ensures own { IfSome result (λ displaced. displaced ≡ false → AreOwn mask wide.new.items) }
    ensures same { IfSome result (λ displaced. (q : ℕ) → map.find nat_cmp q (filled wide.new.items) ≡ map.find nat_cmp q (filled slots.now)) }
    ensures count { IfSome result (λ displaced. length (filled wide.new.items) ≡ length (filled slots.now)) }
{
    let mut displaced = false;
    'slots: for slot in slots {
        if let Some(entry) = slot.entry() {
            let first = first_of(entry.0, mask);
            let place = spread_one(entry, first, wide)?;
            displaced = displaces(displaced, place, first, entry.0);
        }
    }
    Some(displaced)
}

// Puts an entry into a free slot of the group that begins here, where there is one.
fn spread_one<V: Copy + Default>(
    entry: (u64, V),
    first: usize,
    wide: &mut Vec<Slot<V>>,
) -> Option<usize>
    ensures group { IfSome result (IsInGroup first) }
    ensures inside { IfSome result (λ s. s < length wide.old.items) }
    ensures free { IfSome result (λ s. slot_at wide.old.items s ≡ None) }
    ensures put { IfSome result (λ s. wide.new.items ≡ slice_set wide.old.items s (Some entry)) }
{
    let slot = free_in(wide, first, entry.0)?;
    wide[slot] = Slot::new(entry.0, entry.1);
    Some(slot)
}

// Appends the ids of what is in the slots.
fn push_taken<V: Copy + Default>(ids: &mut Vec<u64>, slots: &[Slot<V>]) -> Result<(), AllocError>
    ensures { OnOk result (ids.new.items ≡ ids.old.items ++ each (λ e. e.0) (filled slots.now)) }
{
    'slots: for slot in slots {
        if let Some(entry) = slot.entry() {
            ids.push(entry.0)?;
        }
    }
    Ok(())
}
