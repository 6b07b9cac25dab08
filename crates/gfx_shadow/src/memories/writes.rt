//! Writes are held and given back as fills.
ghost use Rattle.std.specs.Prelude.{◌≡◌, ◌≢◌, ◌≤◌, ◌∷◌, [], ◌++◌, false, drop, slice_get, Some, OnOk, OnErr, MatchOption};
ghost use Rattle.gfx_model.specs.Checks.{is_among};
ghost use Rattle.gfx_shadow.specs.Memories.{numbers_of, fills_of};
ghost use Rattle.gfx_shadow.specs.Writes.{write_of, fills, MayHold};
ghost use Rattle.gfx_shadow.specs.Places.{left_of, held_by, IsAt, AreIndexed, IsFirst};

use super::Memories;
use crate::memory::MemoryBytes;
use crate::shadow::Held;
use crate::stretches::Stretches;
use gfx_table::Table;
use gfx_types::WantMemory;
use std::alloc::Global;

// Where a memory stands.
fn place_of(memories: &Memories, memory: u64) -> Option<usize>
    requires { AreIndexed memories.now }
    ensures { MatchOption result (is_among memory (drop memories.now.first (numbers_of memories.now.rows.items)) ≡ false) (λ at. IsAt memories.now.first (numbers_of memories.now.rows.items) memory at) }
{
    match memories.places.get(memory) {
        Some(at) => Some(*at),
        None => None,
    }
}

// Holds a write to a memory for which something is held.
fn put_there(
    memories: &mut Memories,
    at: usize,
    memory: u64,
    offset: usize,
    bytes: &[u8],
) -> Result<(), WantMemory>
    requires indexed { AreIndexed memories.old }
    requires place { IsAt memories.old.first (numbers_of memories.old.rows.items) memory at }
    requires may { MayHold (write_of memory offset bytes.now) }
    ensures indexed { AreIndexed memories.new }
    ensures ok { OnOk result (held_by memories.new ≡ fills (held_by memories.old ++ write_of memory offset bytes.now ∷ [])) }
    ensures err { OnErr result (held_by memories.new ≡ held_by memories.old) }
{
    let row = &mut memories.rows[at];
    row.stretches.put(offset, bytes)?;
    Ok(())
}

// Holds a write to a memory for which nothing is held.
fn put_new(
    alloc: Global,
    memories: &mut Memories,
    memory: u64,
    offset: usize,
    bytes: &[u8],
) -> Result<(), WantMemory>
    requires indexed { AreIndexed memories.old }
    requires new { is_among memory (drop memories.old.first (numbers_of memories.old.rows.items)) ≡ false }
    requires may { MayHold (write_of memory offset bytes.now) }
    ensures indexed { AreIndexed memories.new }
    ensures ok { OnOk result (held_by memories.new ≡ fills (held_by memories.old ++ write_of memory offset bytes.now ∷ [])) }
    ensures err { OnErr result (held_by memories.new ≡ held_by memories.old) }
{
    let mut stretches = Stretches::new(alloc);
    stretches.put(offset, bytes)?;
    memories.places.reserve(1)?;
    let at = memories.rows.len();
    memories.rows.push(MemoryBytes { memory, stretches })?;
    memories.places.set(memory, at);
    Ok(())
}

// Lets the first memory go, of which nothing is held any more. The room of those that went is given back with the last.
fn leave(memories: &mut Memories, memory: u64)
    requires first { IsFirst memories.old memory }
    ensures indexed { AreIndexed memories.new }
    ensures rows { left_of memories.new ≡ drop 1 (left_of memories.old) }
{
    let _place = memories.places.remove(memory);
    memories.first += 1;
    if memories.first == memories.rows.len() {
        memories.rows.clear();
        memories.first = 0;
    }
}

impl Memories {
    /// No memory.
    pub(crate) fn new(alloc: Global) -> Self
        ensures indexed { AreIndexed result }
        ensures nothing { held_by result ≡ [] }
    {
        Memories {
            rows: Vec::new(alloc),
            first: 0,
            places: Table::new(alloc),
        }
    }

    /// Holds a write.
    pub(crate) fn put(
        &mut self,
        alloc: Global,
        memory: u64,
        offset: usize,
        bytes: &[u8],
    ) -> Result<(), WantMemory>
        requires indexed { AreIndexed self.old }
        requires may { MayHold (write_of memory offset bytes.now) }
        ensures indexed { AreIndexed self.new }
        ensures ok { OnOk result (held_by self.new ≡ fills (held_by self.old ++ write_of memory offset bytes.now ∷ [])) }
        ensures err { OnErr result (held_by self.new ≡ held_by self.old) }
    {
        match place_of(self, memory) {
            Some(at) => put_there(self, at, memory, offset, bytes),
            None => put_new(alloc, self, memory, offset, bytes),
        }
    }

    /// The first fill.
    pub(crate) fn first(&self) -> Option<Held<'_>>
        requires { AreIndexed self.now }
        ensures { MatchOption result (held_by self.now ≡ []) (λ fill. slice_get (held_by self.now) 0 ≡ Some (write_of fill.memory fill.offset fill.bytes.now)) }
    {
        if self.first >= self.rows.len() {
            return None;
        }
        let row = &self.rows[self.first];
        match row.stretches.first() {
            Some(run) => Some(Held {
                memory: row.memory,
                offset: run.offset as u64,
                bytes: run.bytes,
            }),
            None => None,
        }
    }

    /// Lets the first fill go.
    pub(crate) fn drop_first(&mut self)
        requires indexed { AreIndexed self.old }
        requires some { held_by self.old ≢ [] }
        ensures indexed { AreIndexed self.new }
        ensures fills { held_by self.new ≡ drop 1 (held_by self.old) }
    {
        if self.first >= self.rows.len() {
            return;
        }
        let row = &mut self.rows[self.first];
        row.stretches.drop_first();
        if row.stretches.is_bare() {
            let memory = row.memory;
            leave(self, memory);
        }
    }
}
