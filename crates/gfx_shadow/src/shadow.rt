//! Held writes.
ghost use Rattle.std.specs.Prelude.{◌≡◌, ◌≢◌, ◌∷◌, [], ◌++◌, drop, slice_get, Some, OnOk, OnErr, MatchOption};
ghost use Rattle.gfx_shadow.specs.Writes.{write_of, fills, MayHold};

use crate::memories::Memories;
use gfx_types::WantMemory;
use std::alloc::Global;
use std::marker::Model;

/// A fill that stands for held writes.
#[derive(Clone, Copy)]
pub struct Held<'a> {
    pub memory: u64,
    pub offset: u64,
    pub bytes: &'a [u8],
}

/// Held writes. Contracts see the fills that stand for them.
#[derive(Drop)]
pub struct Shadow {
    memories: Memories,
    alloc: Global,
}

impl Model for Shadow {
    ghost use Rattle.std.specs.Prelude.{List};
    ghost use Rattle.gfx_shadow.specs.Writes.{Write};

    ghost Value = { List Write };

    ghost use Rattle.gfx_shadow.specs.Places.{held_by, AreIndexed};

    ghost view = { λ s. held_by s.memories };

    ghost invariant = { λ s. AreIndexed s.memories };
}

impl Shadow {
    /// Nothing is held.
    pub fn new(alloc: Global) -> Self
        ensures { result ≡ [] }
    {
        Shadow {
            memories: Memories::new(alloc),
            alloc,
        }
    }

    /// Holds a write of a byte or more that ends at 2^28 or below.
    pub fn put(&mut self, memory: u64, offset: u64, bytes: &[u8]) -> Result<(), WantMemory>
        requires { MayHold (write_of memory offset bytes.now) }
        ensures ok { OnOk result (self.new ≡ fills (self.old ++ write_of memory offset bytes.now ∷ [])) }
        ensures err { OnErr result (self.new ≡ self.old) }
    {
        self.memories
            .put(self.alloc, memory, offset as usize, bytes)
    }

    /// The first fill, if anything is held. Takes no memory.
    pub fn first(&self) -> Option<Held<'_>>
        ensures { MatchOption result (self.now ≡ []) (λ fill. slice_get self.now 0 ≡ Some (write_of fill.memory fill.offset fill.bytes.now)) }
    {
        self.memories.first()
    }

    /// Lets the first fill go. Takes no memory.
    pub fn drop_first(&mut self)
        requires { self.old ≢ [] }
        ensures { self.new ≡ drop 1 self.old }
    {
        self.memories.drop_first();
    }
}
