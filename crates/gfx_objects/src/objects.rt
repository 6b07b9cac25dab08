//! The live objects, and the ids of those that ended.
//!
//! One call ends an object with its command buffers, its queue or its images, since that is one step of the history.
//! The ids of what ended are remembered, and those of live objects are not: an id was used where its object is live or
//! ended.
ghost use Rattle.std.specs.Prelude.{◌≡◌, ℕ, ◌+◌, ◌-◌, ◌<◌, ◌≤◌, ◌^◌, ◌==◌, ◌&&◌, ◌||◌, [], true, false, Some, None, IsTrue, IsSome, IfSome, IfOk, OnOk, OnErr, option_map, if◌then◌else◌};
ghost use Rattle.std.specs.Option.{option_copied};
ghost use Rattle.std.specs.FinMap as map;
ghost use Rattle.gfx_types.specs.declared.names.Kind.TheVariants as kind;
ghost use Rattle.gfx_model.specs.Steps.Step.{creates, ends, binds, maps, unmaps, changes};
ghost use Rattle.gfx_model.specs.Steps.Change.{set_layout};
ghost use Rattle.gfx_model.specs.Questions as asked;
ghost use Rattle.gfx_model.specs.Views as view;
ghost use Rattle.gfx_model.specs.After.{after};
ghost use Rattle.gfx_model.specs.Limits.{max_live_bytes, max_live_objects};
ghost use Rattle.gfx_table.specs.Dense.{is_listed, StandApart};
ghost use Rattle.gfx_table.specs.Slots.{least_above};
ghost use Rattle.gfx_table.specs.Groups.{room_in};
ghost use Rattle.gfx_objects.specs.Object.{made, detail_of, bound_of, memory_of, IsNew, is_within};
ghost use Rattle.gfx_objects.specs.Objects.{answers, was_used, owns, of_owner, IsRow, RestsIn, IsSound, bytes_in};

use crate::children::ChildCounts;
use crate::devices::Noted;
use crate::kinds::number_of;
use crate::least::least_of;
use crate::object::{Binding, Detail, Object};
use crate::tables::{move_to, put_in, reserve_each, take_from};
use gfx_table::{Groups, IdSet, Stored};
use gfx_types::{Kind, MapRange, WantMemory};
use std::alloc::Global;
use std::marker::Model;

// So many creations are made room for at once.
const AHEAD: u32 = 64;

/// The live objects of a capture, and the ids of those that ended, so that no id is used twice.
#[derive(Drop)]
pub struct Objects {
    rows: Stored<Object>,
    // the ids of what ended
    ended: IdSet,
    children: ChildCounts,
    // the live swapchains on each surface
    swapchains: ChildCounts,
    // what each object owns
    owned: Groups,
    // the resources that are bound to each memory
    resting: Groups,
    bytes: u64,
    // how many objects are live
    count: u32,
    // how many creations there is room for
    room: u32,
    // the device of the object that was noted last, until objects change
    pub(crate) noted: Option<Noted>,
}

impl Model for Objects {
    ghost use Rattle.gfx_objects.specs.Objects.{Kept, kept_code};
    ghost use Rattle.gfx_objects.specs.contracts.object.Object as object;

    ghost Value = { Kept };

    ghost coded = { kept_code object.the_row.coded };

    ghost use Rattle.gfx_objects.specs.Inside.{kept_of, IsKept};

    ghost view = { kept_of };

    ghost invariant = { IsKept };
}

impl Objects {
    /// No objects, and no used ids.
    pub fn new(alloc: Global) -> Self
        ensures rows { result.rows ≡ map.empty }
        ensures plain { answers result ≡ record (view.view_of []) { is_empty = false } }
    {
        Objects {
            rows: Stored::new(alloc),
            ended: IdSet::new(alloc),
            children: ChildCounts::new(alloc),
            swapchains: ChildCounts::new(alloc),
            owned: Groups::new(alloc),
            resting: Groups::new(alloc),
            bytes: 0,
            count: 0,
            room: 0,
            noted: None,
        }
    }

    /// The live object of this id.
    pub fn get(&self, id: u64) -> Option<&Object>
        ensures row { option_copied result ≡ map.get self.now.rows id }
        ensures live { option_map made (option_copied result) ≡ (answers self.now).live id }
        ensures sound { IfSome result (λ o. IsRow id o.now) }
        ensures all { IsSound self.now }
    {
        self.rows.get(id)
    }

    /// Whether a live object of this kind has this id.
    pub fn is_live(&self, kind: Kind, id: u64) -> bool
        ensures { result ≡ view.is_live (answers self.now) kind id }
    {
        match self.get(id) {
            Some(object) => number_of(object.kind) == number_of(kind),
            None => false,
        }
    }

    /// Whether an object of this id was ever created.
    pub fn was_used(&self, id: u64) -> bool
        ensures { result ≡ (answers self.now).used id }
    {
        self.rows.get(id).is_some() || self.ended.contains(id)
    }

    /// How many live objects have this parent.
    pub fn children(&self, id: u64) -> u32
        ensures { result ≡ view.children (answers self.now) id }
    {
        self.children.get(id)
    }

    /// How many objects are live.
    pub fn live(&self) -> u32
        ensures count { result ≡ view.object_count (answers self.now) }
        ensures sound { IsSound self.now }
    {
        self.count
    }

    /// What the object owns: the queue of a device, the command buffers of a pool, the fetched images of a swapchain.
    pub fn owned(&self, id: u64) -> &[u64]
        ensures all { (x : ℕ) → is_listed x result.now ≡ asked.passes (λ o. asked.is_owned o.detail && id == o.parent) ((answers self.now).live x) }
        ensures once { StandApart result.now }
    {
        self.owned.members(id)
    }

    /// The live buffers and images that are bound to the memory.
    pub fn resting(&self, memory: u64) -> &[u64]
        ensures all { (x : ℕ) → is_listed x result.now ≡ asked.rests_on memory ((answers self.now).bound x) }
        ensures once { StandApart result.now }
    {
        self.resting.members(memory)
    }

    /// Whether a live swapchain was created on this surface.
    pub fn has_swapchain(&self, surface: u64) -> bool
        ensures { result ≡ view.has_swapchain (answers self.now) surface }
    {
        self.swapchains.get(surface) > 0
    }

    /// The bytes of live memory and of images of live swapchains.
    pub fn bytes(&self) -> u64
        ensures { result ≡ view.live_bytes (answers self.now) }
    {
        self.bytes
    }

    /// The ids of all live objects, rising.
    pub fn ids(&self, alloc: Global) -> Result<Vec<u64>, WantMemory>
        ensures { IfOk result (λ ids. ids.items ≡ (answers self.now).ids) }
    {
        Ok(self.rows.ids(alloc)?)
    }

    /// The least id above the given one among what the object owns.
    pub fn next_owned(&self, owner: u64, after: u64) -> Option<u64>
        ensures least { result ≡ least_above (of_owner owner self.now.rows) after }
        ensures sound { IsSound self.now }
    {
        least_of(self.owned.members(owner), after)
    }

    /// Makes room for so many creations, and for as many in what the parent owns. When out of memory there is the room that
    /// there was, or more.
    pub fn reserve(&mut self, n: u32, parent: u64) -> Result<(), WantMemory>
        ensures same { answers self.new ≡ answers self.old }
        ensures rows { self.new.rows ≡ self.old.rows }
        ensures ok { OnOk result (n ≤ self.new.spare) }
        ensures spare { self.old.spare ≤ self.new.spare }
        ensures room { OnOk result (n ≤ room_in self.new.owned parent) }
        ensures rooms { (x : ℕ) → room_in self.old.owned x ≤ room_in self.new.owned x }
    {
        self.owned.reserve(parent, n as usize)?;
        if self.room >= n {
            return Ok(());
        }
        let room = n.max(AHEAD);
        self.noted = None;
        reserve_each(
            &mut self.rows,
            &mut self.ended,
            &mut self.children,
            &mut self.swapchains,
            room as usize,
            self.count as usize,
        )?;
        self.room = room;
        Ok(())
    }

    /// Creates an object, which takes one of the spare places. Its id is new, and there is room for it, also in what its
    /// parent owns, where it is owned.
    pub fn create(&mut self, id: u64, parent: u64, detail: Detail)
        requires not_zero { 0 < id }
        requires unused { (answers self.old).used id ≡ false }
        requires new { IsNew detail }
        requires within { IsTrue (is_within (detail_of detail)) }
        requires room { view.object_count (answers self.old) < max_live_objects }
        requires bytes { view.live_bytes (answers self.old) + view.detail_bytes (detail_of detail) ≤ max_live_bytes }
        requires spare { 1 ≤ self.old.spare }
        requires owner { asked.is_owned (detail_of detail) ≡ true → 1 ≤ room_in self.old.owned parent }
        ensures step { answers self.new ≡ after (answers self.old) (creates id parent (detail_of detail)) }
        ensures spare { self.new.spare + 1 ≡ self.old.spare }
        ensures rooms { (x : ℕ) → room_in self.old.owned x ≤ room_in self.new.owned x + (if parent == x then 1 else 0) }
    {
        self.add(Object {
            id,
            kind: detail.kind(),
            parent,
            detail,
        });
    }

    /// Binds a live buffer or image to a live memory, at an offset in bytes from which it ends inside the memory. When out
    /// of memory nothing is bound.
    pub fn bind(&mut self, id: u64, memory: u64, offset: u64) -> Result<(), WantMemory>
        requires resource { IsTrue (view.is_live (answers self.old) kind.Buffer id || view.is_live (answers self.old) kind.Image id) }
        requires memory { IsTrue (view.is_live (answers self.old) kind.Memory memory) }
        requires inside { offset + view.size_of (answers self.old) id ≤ view.size_of (answers self.old) memory }
        ensures ok { OnOk result (answers self.new ≡ after (answers self.old) (binds id memory offset)) }
        ensures err { OnErr result (answers self.new ≡ answers self.old) }
        ensures spare { self.new.spare ≡ self.old.spare }
        ensures rooms { (x : ℕ) → room_in self.old.owned x ≤ room_in self.new.owned x }
    {
        let Some(object) = self.get(id).copied() else {
            return Ok(());
        };
        let detail = object.detail.bound_to(Binding { memory, offset });
        self.rest_on(id, object, detail, memory)
    }

    /// Maps bytes of a live memory, from an offset on.
    pub fn map(&mut self, memory: u64, offset: u64, length: u64)
        requires { IsTrue (view.is_live (answers self.old) kind.Memory memory) }
        ensures step { answers self.new ≡ after (answers self.old) (maps memory offset length) }
        ensures spare { self.new.spare ≡ self.old.spare }
        ensures rooms { (x : ℕ) → room_in self.old.owned x ≤ room_in self.new.owned x }
    {
        if let Some(object) = self.get(memory).copied() {
            let detail = object.detail.mapped_to(Some(MapRange { offset, length }));
            self.set_detail(memory, object, detail);
        }
    }

    /// Takes the map of a live memory away.
    pub fn unmap(&mut self, memory: u64)
        requires { IsTrue (view.is_live (answers self.old) kind.Memory memory) }
        ensures step { answers self.new ≡ after (answers self.old) (unmaps memory) }
        ensures spare { self.new.spare ≡ self.old.spare }
        ensures rooms { (x : ℕ) → room_in self.old.owned x ≤ room_in self.new.owned x }
    {
        if let Some(object) = self.get(memory).copied() {
            let detail = object.detail.mapped_to(None);
            self.set_detail(memory, object, detail);
        }
    }

    /// Sets the layout of a live image.
    pub fn set_layout(&mut self, image: u64, layout: u32)
        requires { IsTrue (view.is_live (answers self.old) kind.Image image) }
        ensures step { answers self.new ≡ after (answers self.old) (changes (set_layout image layout)) }
        ensures spare { self.new.spare ≡ self.old.spare }
        ensures rooms { (x : ℕ) → room_in self.old.owned x ≤ room_in self.new.owned x }
    {
        if let Some(object) = self.get(image).copied() {
            if object.detail.layout() != layout {
                let detail = object.detail.with_layout(layout);
                self.set_detail(image, object, detail);
            }
        }
    }

    /// Ends a live object, and with it what it owns: the queue of a device, the command buffers of a pool, the fetched
    /// images of a swapchain. Room for what other objects own stays, except where this was the last of it.
    pub fn remove(&mut self, id: u64)
        requires { IsSome ((answers self.old).live id) }
        ensures step { answers self.new ≡ after (answers self.old) (ends id) }
        ensures spare { self.new.spare ≡ self.old.spare }
        ensures left { (x y : ℕ) → owns (answers self.new) x y ≡ true → room_in self.old.owned x ≤ room_in self.new.owned x }
        ensures others { (x : ℕ) → (id == x) ≡ false → owns (answers self.old) x id ≡ false → room_in self.old.owned x ≤ room_in self.new.owned x }
    {
        'owned: while let Some(child) = self.owned(id).last().copied() {
            self.remove_row(child);
        }
        self.owned.close(id);
        self.remove_row(id);
    }

    // Puts a row to the others, and counts it.
    fn add(&mut self, object: Object)
        requires unused { was_used self.old object.id ≡ false }
        requires row { IsRow object.id object }
        requires unbound { bound_of object.detail ≡ None }
        requires few { map.len self.old.rows < max_live_objects }
        requires small { bytes_in self.old.rows + view.detail_bytes (detail_of object.detail) ≤ max_live_bytes }
        requires spare { 1 ≤ self.old.spare }
        requires owner { asked.is_owned (detail_of object.detail) ≡ true → 1 ≤ room_in self.old.owned object.parent }
        ensures fresh { map.get self.old.rows object.id ≡ None }
        ensures rows { self.new.rows ≡ map.insert self.old.rows object.id object }
        ensures used { was_used self.new ≡ (λ other. object.id == other || was_used self.old other) }
        ensures spare { self.new.spare + 1 ≡ self.old.spare }
        ensures rooms { (x : ℕ) → room_in self.old.owned x ≤ room_in self.new.owned x + (if object.parent == x then 1 else 0) }
    {
        let owner = object.owner();
        let surface = object.detail.surface();
        self.noted = None;
        self.bytes += object.detail.bytes();
        self.count += 1;
        self.children.add(object.parent);
        put_in(&mut self.owned, owner, object.id);
        self.swapchains.add_to(surface);
        self.rows.insert(object.id, object);
        self.room -= 1;
    }

    // Changes what was mapped or set of a row.
    fn set_detail(&mut self, id: u64, object: Object, detail: Detail)
        requires row { map.get self.old.rows id ≡ Some object }
        requires parameters { detail_of detail ≡ detail_of object.detail }
        requires bound { bound_of detail ≡ bound_of object.detail }
        ensures rows { self.new.rows ≡ map.insert self.old.rows id (record object { detail = detail }) }
        ensures ended { self.new.ended ≡ self.old.ended }
        ensures owned { self.new.owned ≡ self.old.owned }
        ensures spare { self.new.spare ≡ self.old.spare }
    {
        self.noted = None;
        self.rows.set(id, Object { detail, ..object });
    }

    // Changes what a row is bound to. When out of memory it stays as it is.
    fn rest_on(
        &mut self,
        id: u64,
        object: Object,
        detail: Detail,
        memory: u64,
    ) -> Result<(), WantMemory>
        requires row { map.get self.old.rows id ≡ Some object }
        requires parameters { detail_of detail ≡ detail_of object.detail }
        requires memory { memory_of detail ≡ Some memory }
        requires rests { (b : asked.Binding) → bound_of detail ≡ Some b → RestsIn self.old (detail_of detail) b }
        ensures ok { OnOk result (self.new.rows ≡ map.insert self.old.rows id (record object { detail = detail })) }
        ensures err { OnErr result (self.new.rows ≡ self.old.rows) }
        ensures ended { self.new.ended ≡ self.old.ended }
        ensures owned { self.new.owned ≡ self.old.owned }
        ensures spare { self.new.spare ≡ self.old.spare }
    {
        self.resting.reserve(memory, 1)?;
        let before = object.detail.memory();
        self.noted = None;
        move_to(&mut self.resting, before, memory, id);
        self.rows.set(id, Object { detail, ..object });
        Ok(())
    }

    // Takes a row out, where there is one, uncounts it, and keeps its id.
    fn remove_row(&mut self, id: u64)
        ensures rows { self.new.rows ≡ map.remove self.old.rows id }
        ensures used { was_used self.new ≡ was_used self.old }
        ensures spare { self.new.spare ≡ self.old.spare }
        ensures left { (x y : ℕ) → owns (answers self.new) x y ≡ true → room_in self.old.owned x ≤ room_in self.new.owned x }
        ensures others { (x : ℕ) → owns (answers self.old) x id ≡ false → room_in self.old.owned x ≤ room_in self.new.owned x }
    {
        self.noted = None;
        if let Some(object) = self.rows.remove(id) {
            let owner = object.owner();
            let surface = object.detail.surface();
            let memory = object.detail.memory();
            self.children.remove(object.parent);
            take_from(&mut self.owned, owner, id);
            self.swapchains.remove_from(surface);
            take_from(&mut self.resting, memory, id);
            self.ended.insert(id);
            self.bytes -= object.detail.bytes();
            self.count -= 1;
        }
    }
}
