//! What is held in stretches.
ghost use Rattle.std.specs.Prelude.{◌≡◌, ◌≢◌, ◌⊎◌, ◌+◌, ◌≤◌, true, false, OnOk, OnErr, MatchOption, length};
ghost use Rattle.gfx_shadow.specs.Overlay.{nothing, overlay, IsFirst, IsDropped};
ghost use Rattle.gfx_shadow.specs.Writes.{memory_limit};
ghost use Rattle.gfx_shadow.specs.Stretches.{stretches_byte};

use super::Stretches;
use super::join::{join_all, put_back, take};
use super::touch::{joined_end, joined_start};
use crate::stretch::{Piece, Stretch};
use gfx_table::Table;
use gfx_types::WantMemory;
use std::alloc::Global;

impl Stretches {
    /// No bytes.
    pub(crate) fn new(alloc: Global) -> Self
        ensures { stretches_byte result ≡ nothing }
    {
        Stretches {
            by_end: Table::new(alloc),
            alloc,
        }
    }

    /// Holds a piece from an offset on. It makes all room before it changes a byte.
    pub(crate) fn put(&mut self, offset: usize, piece: &[u8]) -> Result<(), WantMemory>
        requires some { 1 ≤ length piece.now }
        requires inside { offset + length piece.now ≤ memory_limit }
        ensures ok { OnOk result (stretches_byte self.new ≡ overlay offset piece.now (stretches_byte self.old)) }
        ensures err { OnErr result (stretches_byte self.new ≡ stretches_byte self.old) }
    {
        self.by_end.reserve(1)?;
        let end = offset + piece.len();
        let from = joined_start(&self.by_end, offset);
        let to = joined_end(&self.by_end, end);
        let mut stretch = take(&mut self.by_end, self.alloc, offset, end);
        if let Err(WantMemory) = stretch.reach(self.alloc, from, to) {
            put_back(&mut self.by_end, stretch);
            return Err(WantMemory);
        }
        stretch.write(offset, piece);
        join_all(&mut self.by_end, &mut stretch);
        put_back(&mut self.by_end, stretch);
        Ok(())
    }

    /// The first run.
    pub(crate) fn first(&self) -> Option<Piece<'_>>
        ensures { MatchOption result (stretches_byte self.now ≡ nothing) (λ run. IsFirst (stretches_byte self.now) run.offset run.bytes.now) }
    {
        match self.by_end.next_above(0) {
            Some(key) => match self.by_end.get(key) {
                Some(stretch) => Some(stretch.first()),
                None => None,
            },
            None => None,
        }
    }

    /// Lets the first run go, if there is one.
    pub(crate) fn drop_first(&mut self)
        ensures { IsDropped (stretches_byte self.old) (stretches_byte self.new) ⊎ ((stretches_byte self.old ≡ nothing) × (stretches_byte self.new ≡ nothing)) }
    {
        if let Some(key) = self.by_end.next_above(0) {
            if let Some(mut stretch) = self.by_end.replace(key, Stretch::new(self.alloc, 0)) {
                stretch.drop_first();
                if stretch.start < stretch.end {
                    self.by_end.set(key, stretch);
                } else {
                    let _stretch = self.by_end.remove(key);
                }
            }
        }
    }

    /// Whether there are no bytes.
    pub(crate) fn is_bare(&self) -> bool
        ensures yes { result ≡ true → stretches_byte self.now ≡ nothing }
        ensures no { result ≡ false → stretches_byte self.now ≢ nothing }
    {
        match self.first() {
            Some(_) => false,
            None => true,
        }
    }
}
