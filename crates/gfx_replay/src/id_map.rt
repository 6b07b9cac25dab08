//! The handles of places.
ghost use Rattle.std.specs.Prelude.{◌≡◌, ◌≤◌, Some, None, OnOk};
ghost use Rattle.gfx_replay.specs.Maps.{IsSame, IsSet};

use gfx_device::Handle;
use gfx_table::Table;
use gfx_types::{Place, WantMemory};
use std::alloc::Global;

/// The handle of each place, by the id of the memory or image.
#[derive(Drop)]
pub struct IdMap {
    memories: Table<Handle>,
    images: Table<Handle>,
}

impl IdMap {
    ghost use Rattle.gfx_replay.specs.Handles.{handle_of, room_for};

    /// No place has a handle.
    pub fn new(alloc: Global) -> IdMap
        ensures { (at : Place) → handle_of result at ≡ None }
    {
        IdMap {
            memories: Table::new(alloc),
            images: Table::new(alloc),
        }
    }

    /// The handle of a place.
    pub fn get(&self, place: Place) -> Option<Handle>
        ensures { result ≡ handle_of self.now place }
    {
        match place {
            Place::Memory(id) => self.memories.get(id).copied(),
            Place::Image(id) => self.images.get(id).copied(),
        }
    }

    /// Makes room for the handle of a place.
    pub fn reserve(&mut self, place: Place) -> Result<(), WantMemory>
        ensures same { IsSame (handle_of self.old) (handle_of self.new) }
        ensures ok { OnOk result (1 ≤ room_for self.new place) }
    {
        match place {
            Place::Memory(_) => Ok(self.memories.reserve(1)?),
            Place::Image(_) => Ok(self.images.reserve(1)?),
        }
    }

    /// Gives a place a handle, for which there is room.
    pub fn set(&mut self, place: Place, handle: Handle)
        requires { 1 ≤ room_for self.old place }
        ensures { IsSet (handle_of self.old) (handle_of self.new) place (Some handle) }
    {
        match place {
            Place::Memory(id) => self.memories.set(id, handle),
            Place::Image(id) => self.images.set(id, handle),
        }
    }

    /// Takes the handle of a place out.
    pub fn remove(&mut self, place: Place) -> Option<Handle>
        ensures value { result ≡ handle_of self.old place }
        ensures others { IsSet (handle_of self.old) (handle_of self.new) place None }
    {
        match place {
            Place::Memory(id) => self.memories.remove(id),
            Place::Image(id) => self.images.remove(id),
        }
    }
}
