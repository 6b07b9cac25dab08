//! A place for one row and its id, and many of them.
//!
//! The id 0 marks a free slot, which keeps a slot at 16 bytes in place of 24.
ghost use Rattle.std.specs.Prelude.{◌≡◌, ◌≢◌, ◌<◌, ◌↔◌, ℕ, length, true, false, IsTrue, Some, None, IsSome, IfSome, IfOk};
ghost use Rattle.std.specs.Option.{option_copied};
ghost use Rattle.gfx_table.specs.Slotted.{slot_at, row_in};

use std::alloc::{AllocError, Global};
use std::marker::Model;

/// An id and its row, or nothing. The id 0 tells that nothing is there, so that a slot takes no more bytes than an id and a row.
#[derive(Drop)]
pub(crate) struct Slot<V: Copy> {
    id: u64,
    row: V,
}

impl<V: Copy> Model for Slot<V> {
    ghost use Rattle.std.specs.Prelude.{ℕ, ◌==◌, Option, Some, None, if◌then◌else◌};

    ghost Value = { Option (ℕ × V) };

    ghost view = { λ s. if s.id == 0 then None else Some (s.id, s.row) };
}

impl<V: Copy + Default> Slot<V> {
    /// Nothing.
    pub(crate) fn free() -> Self
        ensures { result ≡ None }
    {
        Slot {
            id: 0,
            row: V::default(),
        }
    }

    /// A row under an id that isn't 0.
    pub(crate) fn new(id: u64, row: V) -> Self
        requires { id ≢ 0 }
        ensures { result ≡ Some (id, row) }
    {
        Slot { id, row }
    }

    /// The id and the row, where something is there.
    pub(crate) fn entry(&self) -> Option<(u64, V)>
        ensures value { result ≡ self.now }
        ensures id { IfSome result (λ e. e.0 ≢ 0) }
    {
        if self.id == 0 {
            None
        } else {
            Some((self.id, self.row))
        }
    }

    /// Whether nothing is there.
    pub(crate) fn is_free(&self) -> bool
        ensures { IsTrue result ↔ (self.now ≡ None) }
    {
        self.id == 0
    }

    /// The row, where it is that of the id.
    pub(crate) fn row_of(&self, id: u64) -> Option<&V>
        ensures row { option_copied result ≡ row_in self.now id }
        ensures id { IsSome result → id ≢ 0 }
    {
        if self.id == id && id != 0 {
            Some(&self.row)
        } else {
            None
        }
    }
}

/// So many free slots.
pub(crate) fn free_slots<V: Copy + Default>(
    alloc: Global,
    slots: usize,
) -> Result<Vec<Slot<V>>, AllocError>
    ensures len { IfOk result (λ made. length made.items ≡ slots) }
    ensures free { IfOk result (λ made. (i : ℕ) → slot_at made.items i ≡ None) }
{
    let mut made = Vec::with_capacity(alloc, slots)?;
    'slots: for _ in 0..slots {
        made.push(Slot::free())?;
    }
    Ok(made)
}

/// The row in a slot, where it is that of the id.
pub(crate) fn in_slot<V: Copy + Default>(slots: &[Slot<V>], id: u64, slot: usize) -> Option<&V>
    ensures row { option_copied result ≡ row_in (slot_at slots.now slot) id }
    ensures id { IsSome result → id ≢ 0 }
{
    match slots.get(slot) {
        Some(held) => held.row_of(id),
        None => None,
    }
}

/// Whether there is such a slot, and nothing is in it.
pub(crate) fn is_free<V: Copy + Default>(slots: &[Slot<V>], slot: usize) -> bool
    ensures inside { result ≡ true → slot < length slots.now }
    ensures free { result ≡ true → slot_at slots.now slot ≡ None }
    ensures taken { result ≡ false → slot < length slots.now → IsSome (slot_at slots.now slot) }
{
    match slots.get(slot) {
        Some(held) => held.is_free(),
        None => false,
    }
}
