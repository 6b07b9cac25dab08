//! The bytes that are asked for.
//!
//! What is asked for is found from the accesses of the range, backwards, which know nothing of objects.
ghost use Rattle.std.specs.Prelude.{IsTrue, ◌↔◌, ◌≡◌, ℕ, ◌+◌, ◌<◌, ◌^◌, false, Some, None, OnOk};
ghost use Rattle.std.specs.List.{list_any, range_with_len};
ghost use Rattle.gfx_types.specs.declared.op.Place.{Place};
ghost use Rattle.gfx_types.specs.declared.op.Place.TheVariants as place;
ghost use Rattle.gfx_model.specs.Steps.Change.{copy};
ghost use Rattle.gfx_feature_model.specs.Asked.{below};
ghost use Rattle.gfx_asked.specs.declared.access.Access.TheVariants as access;
ghost use Rattle.gfx_asked.specs.Accesses.{before, IsGapless, IsNear};

use crate::access::{Access, RowCopy};
use crate::offsets::Offsets;
use gfx_types::{Place, WantMemory};
use std::alloc::Global;
use std::collections::BTreeMap;

/// The bytes of places that are asked for.
#[derive(Drop)]
pub struct Asked {
    memories: BTreeMap<u64, Offsets>,
    images: BTreeMap<u64, Offsets>,
    alloc: Global,
}

impl Asked {
    ghost use Rattle.gfx_asked.specs.Asked.{offsets_at, questions, IsSet, AreSame};

    /// No byte is asked for.
    pub(crate) fn new(alloc: Global) -> Asked
        ensures { AreSame (questions result) (λ at j. false) }
    {
        Asked {
            memories: BTreeMap::new(alloc),
            images: BTreeMap::new(alloc),
            alloc,
        }
    }

    /// Whether one of the `length` bytes of a memory from `offset` on is asked for. Takes no memory.
    pub fn any(&self, memory: u64, offset: u64, length: u64) -> bool
        ensures { result ≡ list_any (questions self.now (place.Memory memory)) (range_with_len offset length) }
    {
        match self.memories.get(&memory) {
            Some(offsets) => offsets.any(offset, length),
            None => false,
        }
    }

    // Takes out the set of a place.
    fn take(&mut self, place: Place) -> Option<Offsets>
        ensures value { result ≡ offsets_at self.old place }
        ensures others { IsSet (offsets_at self.old) (offsets_at self.new) place None }
    {
        match place {
            Place::Memory(id) => self.memories.remove(&id),
            Place::Image(id) => self.images.remove(&id),
        }
    }

    // Gives a place a set.
    fn give(&mut self, place: Place, offsets: Offsets) -> Result<(), WantMemory>
        ensures { OnOk result (IsSet (offsets_at self.old) (offsets_at self.new) place (Some offsets)) }
    {
        match place {
            Place::Memory(id) => self.memories.insert(id, offsets)?,
            Place::Image(id) => self.images.insert(id, offsets)?,
        };
        Ok(())
    }

    /// Goes back before an access. When out of memory it is not known what is asked for.
    pub(crate) fn go_before(&mut self, access: &Access) -> Result<(), WantMemory>
        requires { IsNear access.now }
        ensures { OnOk result (AreSame (questions self.new) (before access.now (questions self.old))) }
    {
        match access {
            Access::Show { image, size } => self.show(*image, *size),
            Access::Write {
                place,
                offset,
                length,
            } => self.write(*place, *offset, *length),
            Access::Copy(copy) => self.copy(copy),
        }
    }

    // Asks for an image.
    fn show(&mut self, image: u64, size: u64) -> Result<(), WantMemory>
        ensures { OnOk result (AreSame (questions self.new) (before (access.Show image size) (questions self.old))) }
    {
        let place = Place::Image(image);
        let mut offsets = self.take(place).unwrap_or(Offsets::new(self.alloc));
        offsets.set(0, size, true)?;
        self.give(place, offsets)
    }

    // Asks no longer for bytes that are written.
    fn write(&mut self, place: Place, offset: u64, length: u64) -> Result<(), WantMemory>
        requires { offset + length < 2 ^ 64 }
        ensures { OnOk result (AreSame (questions self.new) (before (access.Write place offset length) (questions self.old))) }
    {
        let Some(mut offsets) = self.take(place) else {
            return Ok(());
        };
        offsets.set(offset, offset + length, false)?;
        self.give(place, offsets)
    }

    // Goes back before rows were copied: at once where they follow one another without a gap from one place to another.
    fn copy(&mut self, copy: &RowCopy) -> Result<(), WantMemory>
        requires { IsNear (access.Copy copy.now) }
        ensures { OnOk result (AreSame (questions self.new) (before (access.Copy copy.now) (questions self.old))) }
    {
        if copy.rows > 0 && is_gapless(copy) {
            let length = copy.rows * copy.length;
            self.copy_row(copy.to, copy.to_offset, copy.from, copy.from_offset, length)
        } else {
            self.copy_rows(copy)
        }
    }

    // Goes back before rows were copied, from the last to the first.
    fn copy_rows(&mut self, copy: &RowCopy) -> Result<(), WantMemory>
        requires { IsNear (access.Copy copy.now) }
        ensures { OnOk result (AreSame (questions self.new) (before (access.Copy copy.now) (questions self.old))) }
    {
        let mut row = copy.rows;
        'rows: while row > 0 {
            row -= 1;
            let to_offset = copy.to_offset + row * copy.to_step;
            let from_offset = copy.from_offset + row * copy.from_step;
            self.copy_row(copy.to, to_offset, copy.from, from_offset, copy.length)?;
        }
        Ok(())
    }

    // Asks for what a row was copied from in place of what was written.
    fn copy_row(
        &mut self,
        to: Place,
        to_offset: u64,
        from: Place,
        from_offset: u64,
        length: u64,
    ) -> Result<(), WantMemory>
        requires to { to_offset + length < 2 ^ 64 }
        requires from { from_offset + length < 2 ^ 64 }
        ensures { OnOk result (AreSame (questions self.new) (below (copy to to_offset from from_offset length) (questions self.old))) }
    {
        let Some(mut target) = self.take(to) else {
            return Ok(());
        };
        let moved = target.moved(self.alloc, to_offset, length, from_offset)?;
        target.set(to_offset, to_offset + length, false)?;
        self.give(to, target)?;
        let mut source = self.take(from).unwrap_or(Offsets::new(self.alloc));
        source.put_all(&moved)?;
        self.give(from, source)
    }
}

// Whether rows follow one another without a gap, from one place to another.
fn is_gapless(copy: &RowCopy) -> bool
    ensures { IsTrue result ↔ IsGapless copy.now }
{
    copy.to != copy.from && copy.to_step == copy.length && copy.from_step == copy.length
}
