//! The bytes of all places of a replay.
ghost use Rattle.std.specs.Prelude.{◌≡◌, List, [], ◌∷◌, ℕ, false, Some, None, IsSome, IfOk, OnOk, OnErr, flat_map, length, replicate};
ghost use Rattle.std.specs.List.{list_any};
ghost use Rattle.std.specs.Option.{option_map};
ghost use Rattle.gfx_device.specs.Places.{places};
ghost use Rattle.gfx_replay.specs.Maps.{IsSame, IsSet};
ghost use Rattle.gfx_replay.specs.Handles.{handle_of, IsSound};

use crate::id_map::IdMap;
use gfx_device::{Device, DeviceOp, Handle, StateBytes};
use gfx_pages::{Bytes, Span};
use gfx_types::{Op, OpList, Place, WantMemory};
use std::alloc::Global;

/// The bytes of memories and of swapchain images.
#[derive(Drop)]
pub struct Places {
    ids: IdMap,
    device: Device,
    // each place has a handle of its own, under which the device has bytes
    ghost sound: { IsSound (handle_of ids) (places device) },
}

impl Places {
    ghost use Rattle.gfx_model.specs.Bytes.{same_place};
    ghost use Rattle.gfx_model.specs.Effects.{changes_of_op};
    ghost use Rattle.gfx_model.specs.Steps.Change.{put};
    ghost use Rattle.gfx_replay.specs.Held.{HoldsMore};
    ghost use Rattle.gfx_replay.specs.Ranges.{HasRange, IsWithin, is_target, AreAllWithin};
    ghost use Rattle.gfx_replay.specs.Places.{bytes_in, sizes_in};

    /// No places.
    pub fn new(alloc: Global) -> Places
        ensures { (at : Place) → bytes_in result at ≡ None }
    {
        Places {
            ids: IdMap::new(alloc),
            device: Device::new(alloc),
        }
    }

    /// Adds a place of `length` zeros. When out of memory all places are as they were.
    pub fn add(&mut self, place: Place, length: u64) -> Result<(), WantMemory>
        requires { bytes_in self.old place ≡ None }
        ensures ok { OnOk result (IsSet (bytes_in self.old) (bytes_in self.new) place (Some (replicate length 0))) }
        ensures err { OnErr result (IsSame (bytes_in self.old) (bytes_in self.new)) }
    {
        self.ids.reserve(place)?;
        let handle = self.device.add_place(length)?;
        self.ids.set(place, handle);
        Ok(())
    }

    /// Drops a place, where there is one.
    pub fn remove(&mut self, place: Place)
        ensures { IsSet (bytes_in self.old) (bytes_in self.new) place None }
    {
        if let Some(handle) = self.ids.remove(place) {
            self.device.drop_place(handle);
        }
    }

    /// Carries out one operation. `given` is what a `PutGiven` puts. When out of memory only the bytes of the place
    /// that it changes are not known.
    pub fn run(&mut self, op: &Op, given: &[u8]) -> Result<(), WantMemory>
        requires { IsWithin (sizes_in self.old) given.now op.now }
        ensures ok { OnOk result (HoldsMore (changes_of_op given.now op.now) (bytes_in self.old) (bytes_in self.new)) }
        ensures sizes { IsSame (sizes_in self.old) (sizes_in self.new) }
        ensures others { (at : Place) → is_target op.now at ≡ false → bytes_in self.new at ≡ bytes_in self.old at }
    {
        match op {
            Op::Put {
                place,
                offset,
                bytes,
            } => self.put(*place, *offset, bytes.items()),
            Op::PutGiven { place, offset } => self.put(*place, *offset, given),
            Op::Fill {
                place,
                offset,
                length,
                word,
            } => {
                let fill = DeviceOp::Fill {
                    place: self.handle(*place),
                    offset: *offset,
                    length: *length,
                    word: *word,
                };
                self.device.run(&fill, given)
            }
            Op::Copy {
                to,
                to_offset,
                to_step,
                from,
                from_offset,
                from_step,
                length,
                rows,
            } => {
                let copy = DeviceOp::Copy {
                    to: self.handle(*to),
                    to_offset: *to_offset,
                    to_step: *to_step,
                    from: self.handle(*from),
                    from_offset: *from_offset,
                    from_step: *from_step,
                    length: *length,
                    rows: *rows,
                };
                self.device.run(&copy, given)
            }
            Op::SetLayout { .. } => Ok(()),
        }
    }

    /// Carries out operations in order. `given` is what a `PutGiven` puts. When out of memory only the bytes of the places that
    /// they change are not known.
    pub fn run_all(&mut self, ops: &OpList, given: &[u8]) -> Result<(), WantMemory>
        requires { AreAllWithin (sizes_in self.old) given.now ops.now }
        ensures ok { OnOk result (HoldsMore (flat_map (changes_of_op given.now) ops.now) (bytes_in self.old) (bytes_in self.new)) }
        ensures sizes { IsSame (sizes_in self.old) (sizes_in self.new) }
        ensures others { (at : Place) → list_any (λ op. is_target op at) ops.now ≡ false → bytes_in self.new at ≡ bytes_in self.old at }
    {
        for op in ops.items() {
            self.run(op, given)?;
        }
        Ok(())
    }

    /// The bytes of a place, in pages that are shared until they are written.
    pub fn share(&self, place: Place) -> Result<Bytes, WantMemory>
        requires { IsSome (bytes_in self.now place) }
        ensures { IfOk result (λ bytes. Some bytes ≡ bytes_in self.now place) }
    {
        self.device.share(self.handle(place))
    }

    // Writes a piece into a place.
    fn put(&mut self, place: Place, offset: u64, piece: &[u8]) -> Result<(), WantMemory>
        requires { HasRange (sizes_in self.old) place offset (length piece.now) }
        ensures ok { OnOk result (HoldsMore (put place offset piece.now ∷ []) (bytes_in self.old) (bytes_in self.new)) }
        ensures sizes { IsSame (sizes_in self.old) (sizes_in self.new) }
        ensures others { (at : Place) → same_place place at ≡ false → bytes_in self.new at ≡ bytes_in self.old at }
    {
        let put = DeviceOp::PutGiven {
            place: self.handle(place),
            offset,
        };
        self.device.run(&put, piece)
    }

    // The handle of a place that is there.
    fn handle(&self, place: Place) -> Handle
        requires { IsSome (bytes_in self.now place) }
        ensures { handle_of self.now.ids place ≡ Some result }
    {
        self.ids.get(place).unwrap()
    }
}

impl StateBytes for Places {
    ghost use Rattle.gfx_replay.specs.Places.{bytes_in};

    ghost bytes = { bytes_in };

    fn length(&self, place: Place) -> Option<u64> {
        let handle = self.ids.get(place)?;
        self.device.length(handle)
    }

    fn next_fill(&self, place: Place, after: u64) -> Option<Span> {
        self.device.next_fill(self.handle(place), after)
    }

    fn read(&self, place: Place, at: u64, into: &mut [u8]) {
        self.device.read(self.handle(place), at, into);
    }
}
