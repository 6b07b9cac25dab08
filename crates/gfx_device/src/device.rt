// The places of a device, each under its handle.
ghost use Rattle.std.specs.Prelude.{◌≡◌, ◌≢◌, ◌+◌, ◌≤◌, None, Some, IsSome, IsSomeAnd, IfOk, OnOk, OnErr, find, length, nat_le, replicate, slice_range};
ghost use Rattle.std.specs.Option.{option_map};
ghost use Rattle.gfx_pages.specs.Fills.{fills};
ghost use Rattle.gfx_pages.specs.Lists.{overwrite, repeated};
ghost use Rattle.gfx_device.specs.Rows.{AreWithin, copied};

use crate::op::{DeviceOp, Handle};
use crate::rows::{Rows, copy_apart, move_rows};
use gfx_pages::{Bytes, Span};
use gfx_types::WantMemory;
use slab::Slab;
use std::alloc::Global;

/// Places of bytes. Contracts see the bytes under each handle, by `places`.
#[derive(Drop)]
pub struct Device {
    places: Slab<Bytes>,
    alloc: Global,
}

impl Device {
    ghost use Rattle.gfx_device.specs.declared.op.Handle.{Handle};
    ghost use Rattle.gfx_device.specs.Places.{places, bytes_of, Sets, KeepsOthers, HasRange, IsChanged, IsWithin, after, target_of};

    /// A device with no place.
    pub fn new(alloc: Global) -> Device
        ensures { (handle : Handle) → places result handle ≡ None }
    {
        Device {
            places: Slab::new(alloc),
            alloc,
        }
    }

    /// Adds a place of `length` zeros under a handle that has none. After an error no place has changed.
    pub fn add_place(&mut self, length: u64) -> Result<Handle, WantMemory>
        ensures vacant { IfOk result (λ handle. places self.old handle ≡ None) }
        ensures added { IfOk result (λ handle. Sets (places self.old) (places self.new) handle (Some (replicate length 0))) }
        ensures err { OnErr result ((handle : Handle) → places self.new handle ≡ places self.old handle) }
    {
        let Ok(bytes) = Bytes::new(self.alloc, length) else {
            return Err(WantMemory);
        };
        match self.places.insert(bytes) {
            Ok(key) => Ok(Handle { key }),
            Err(_) => Err(WantMemory),
        }
    }

    /// Drops a place.
    pub fn drop_place(&mut self, handle: Handle)
        requires { IsSome (places self.old handle) }
        ensures { Sets (places self.old) (places self.new) handle None }
    {
        let _bytes = self.places.remove(handle.key);
    }

    /// How many bytes a place has; `None` where there is none under the handle.
    pub fn length(&self, handle: Handle) -> Option<u64>
        ensures { result ≡ option_map length (places self.now handle) }
    {
        match self.places.get(handle.key) {
            Some(bytes) => Some(bytes.length()),
            None => None,
        }
    }

    /// The first fill of a place that begins at `after` or later.
    pub fn next_fill(&self, handle: Handle, after: u64) -> Option<Span>
        requires { IsSome (places self.now handle) }
        ensures { result ≡ find (λ fill. nat_le after fill.at) (fills (bytes_of (places self.now) handle)) }
    {
        let bytes = &self.places[handle.key];
        bytes.next_fill(after)
    }

    /// Reads a place's bytes from `at` on. Takes no memory.
    pub fn read(&self, handle: Handle, at: u64, into: &mut [u8])
        requires { HasRange (places self.now) handle at (length into.old) }
        ensures { into.new ≡ slice_range (bytes_of (places self.now) handle) at (at + length into.old) }
    {
        let bytes = &self.places[handle.key];
        bytes.read_into(at, into);
    }

    /// A place's bytes, in pages that are shared until they are written.
    pub fn share(&self, handle: Handle) -> Result<Bytes, WantMemory>
        requires { IsSome (places self.now handle) }
        ensures { IfOk result (λ bytes. Some bytes ≡ places self.now handle) }
    {
        let bytes = &self.places[handle.key];
        match bytes.share() {
            Ok(copy) => Ok(copy),
            Err(_) => Err(WantMemory),
        }
    }

    /// Carries out one op. `given` is what a `PutGiven` puts. After an error only the bytes of the target are not known.
    pub fn run(&mut self, op: &DeviceOp, given: &[u8]) -> Result<(), WantMemory>
        requires { IsWithin (places self.old) given.now op.now }
        ensures ok { OnOk result ((handle : Handle) → places self.new handle ≡ after op.now given.now (places self.old) handle) }
        ensures others { KeepsOthers (places self.old) (places self.new) (target_of op.now) }
    {
        let done = match op {
            DeviceOp::Put {
                place,
                offset,
                bytes,
            } => self.put(*place, *offset, bytes.items()),
            DeviceOp::PutGiven { place, offset } => self.put(*place, *offset, given),
            DeviceOp::Fill {
                place,
                offset,
                length,
                word,
            } => self.fill(*place, *offset, *length, *word),
            DeviceOp::Copy {
                to,
                to_offset,
                to_step,
                from,
                from_offset,
                from_step,
                length,
                rows,
            } => {
                let copy = Rows {
                    to_offset: *to_offset,
                    to_step: *to_step,
                    from_offset: *from_offset,
                    from_step: *from_step,
                    length: *length,
                    rows: *rows,
                };
                if to.key == from.key {
                    self.copy_within(*to, copy)
                } else {
                    self.copy_between(*to, *from, copy)
                }
            }
        };
        match done {
            Ok(()) => Ok(()),
            Err(_) => Err(WantMemory),
        }
    }

    fn put(&mut self, place: Handle, offset: u64, piece: &[u8]) -> Result<(), gfx_pages::WantMemory>
        requires { HasRange (places self.old) place offset (length piece.now) }
        ensures ok { OnOk result (IsChanged place (λ here. overwrite here offset piece.now) (places self.old) (places self.new)) }
        ensures others { KeepsOthers (places self.old) (places self.new) place }
    {
        let bytes = &mut self.places[place.key];
        bytes.write(offset, piece)
    }

    fn fill(
        &mut self,
        place: Handle,
        offset: u64,
        count: u64,
        word: u32,
    ) -> Result<(), gfx_pages::WantMemory>
        requires { HasRange (places self.old) place offset count }
        ensures ok { OnOk result (IsChanged place (λ here. overwrite here offset (repeated word count)) (places self.old) (places self.new)) }
        ensures others { KeepsOthers (places self.old) (places self.new) place }
    {
        let bytes = &mut self.places[place.key];
        bytes.fill(offset, count, word)
    }

    fn copy_within(&mut self, place: Handle, copy: Rows) -> Result<(), gfx_pages::WantMemory>
        requires to { IsSomeAnd (places self.old place) (λ bytes. AreWithin (length bytes) copy.to_offset copy.to_step copy.length copy.rows) }
        requires from { IsSomeAnd (places self.old place) (λ bytes. AreWithin (length bytes) copy.from_offset copy.from_step copy.length copy.rows) }
        ensures ok { OnOk result (IsChanged place (copied copy (λ here. here) copy.rows) (places self.old) (places self.new)) }
        ensures others { KeepsOthers (places self.old) (places self.new) place }
    {
        let bytes = &mut self.places[place.key];
        move_rows(bytes, copy)
    }

    fn copy_between(
        &mut self,
        to: Handle,
        from: Handle,
        copy: Rows,
    ) -> Result<(), gfx_pages::WantMemory>
        requires apart { to.key ≢ from.key }
        requires to { IsSomeAnd (places self.old to) (λ bytes. AreWithin (length bytes) copy.to_offset copy.to_step copy.length copy.rows) }
        requires from { IsSomeAnd (places self.old from) (λ bytes. AreWithin (length bytes) copy.from_offset copy.from_step copy.length copy.rows) }
        ensures ok { OnOk result (IsChanged to (copied copy (λ _. bytes_of (places self.old) from) copy.rows) (places self.old) (places self.new)) }
        ensures others { KeepsOthers (places self.old) (places self.new) to }
    {
        let mut target = self.places.remove(to.key);
        let source = &self.places[from.key];
        let done = copy_apart(&mut target, source, copy);
        let _key = self.places.insert_reserved(target);
        done
    }
}
