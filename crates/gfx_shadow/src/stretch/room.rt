//! Room for more bytes.
ghost use Rattle.std.specs.Prelude.{◌≡◌, ◌+◌, ◌≤◌, length, replicate, ◌++◌, OnOk, IfOk};
ghost use Rattle.gfx_shadow.specs.Writes.{memory_limit};
ghost use Rattle.gfx_shadow.specs.Stretch.{stretch_byte, HasRoom};

use super::Stretch;
use gfx_types::WantMemory;
use std::alloc::{AllocError, Global};

// No byte is held at this offset or a higher one.
const LIMIT: usize = 1 << 28;

// The bytes with room before and behind them.
fn with_room(
    alloc: Global,
    before: usize,
    bytes: &[u8],
    behind: usize,
) -> Result<Vec<u8>, AllocError>
    requires { before + length bytes.now + behind ≤ memory_limit }
    ensures { IfOk result (λ v. v.items ≡ replicate before 0 ++ bytes.now ++ replicate behind 0) }
{
    let size = before + bytes.len() + behind;
    let mut moved = Vec::with_capacity(alloc, size)?;
    moved.resize(before, 0)?;
    moved.extend_from_slice(bytes)?;
    moved.resize(size, 0)?;
    Ok(moved)
}

impl Stretch {
    /// No bytes yet, at an offset.
    pub(crate) fn new(alloc: Global, offset: usize) -> Self
        requires { offset ≤ memory_limit }
        ensures start { result.start ≡ offset }
        ensures end { result.end ≡ offset }
    {
        Stretch {
            base: offset,
            bytes: Vec::new(alloc),
            start: offset,
            end: offset,
        }
    }

    /// Makes room for offsets. On the side where it lacks it also makes room for as many bytes as there are.
    pub(crate) fn reach(&mut self, alloc: Global, from: usize, to: usize) -> Result<(), WantMemory>
        requires forward { from ≤ to }
        requires inside { to ≤ memory_limit }
        ensures same { stretch_byte self.new ≡ stretch_byte self.old }
        ensures start { self.new.start ≡ self.old.start }
        ensures end { self.new.end ≡ self.old.end }
        ensures ok { OnOk result (HasRoom self.new from to) }
    {
        let places_end = self.base + self.bytes.len();
        if self.base <= from && to <= places_end {
            return Ok(());
        }
        let size = self.end - self.start;
        let base = if from < self.base {
            from.saturating_sub(size)
        } else {
            self.base
        };
        let end = if places_end < to {
            LIMIT.min(to + size)
        } else {
            places_end
        };
        self.bytes = with_room(alloc, self.base - base, &self.bytes, end - places_end)?;
        self.base = base;
        Ok(())
    }
}
