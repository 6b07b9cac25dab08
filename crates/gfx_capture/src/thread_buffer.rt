//! Effects of one thread that are appended together.
//!
//! Effects borrow their bytes from the caller, so a buffer keeps blocks, under thread 0; the log writes the thread's
//! number into its copy.
ghost use Rattle.std.specs.Prelude.{◌≡◌, ◌<◌, ◌++◌, [], ◌∷◌, ℕ, length, OnOk, OnErr};
ghost use Rattle.std.specs.List.{AllByRecursion};
ghost use Rattle.gfx_model.specs.Events.{event_of};
ghost use Rattle.gfx_script_model.specs.Runs.{log_bytes};
ghost use Rattle.gfx_capture.specs.Entry.{IsVersion, entries_under};
ghost use Rattle.gfx_capture.specs.ThreadBuffer.{CanBePut, max_events};

use gfx_blocks::put_block;
use gfx_types::{Effect, WantMemory};
use std::alloc::Global;
use std::marker::Model;

/// Up to 256 effects of a thread, in order, for a log of its minor version.
#[derive(Drop)]
pub struct ThreadBuffer {
    minor: u32,
    count: u32,
    // a block for each effect, all of them under thread 0
    blocks: Vec<u8>,
}

impl Model for ThreadBuffer {
    ghost use Rattle.gfx_capture.specs.ThreadBuffer.{Buffered};

    ghost Value = { Buffered };

    ghost use Rattle.gfx_capture.specs.ThreadBuffer.{buffered, IsBuffer};

    ghost view = { λ s. buffered s.minor s.count s.blocks.items };

    ghost invariant = { λ s. IsBuffer s.minor s.count s.blocks.items };
}

impl ThreadBuffer {
    /// A buffer without effects. It takes no memory.
    pub fn new(alloc: Global, minor: u32) -> Self
        requires { IsVersion minor }
        ensures minor { result.minor ≡ minor }
        ensures empty { result.events ≡ [] }
    {
        ThreadBuffer {
            minor,
            count: 0,
            blocks: Vec::new(alloc),
        }
    }

    /// Adds an effect at the end. When out of memory the buffer is as it was. It never waits.
    pub fn put(&mut self, effect: &Effect<'_>) -> Result<(), WantMemory>
        requires room { length self.old.events < max_events }
        requires fits { CanBePut self.old.minor (event_of effect.now) }
        ensures minor { self.new.minor ≡ self.old.minor }
        ensures ok { OnOk result (self.new.events ≡ self.old.events ++ event_of effect.now ∷ []) }
        ensures err { OnErr result (self.new ≡ self.old) }
    {
        put_block(self.minor, 0, effect, &mut self.blocks)?;
        self.count += 1;
        Ok(())
    }

    /// How many effects it has. It takes no memory.
    pub fn len(&self) -> u32
        ensures { result ≡ length self.now.events }
    {
        self.count
    }

    /// The bytes of their blocks together, which are as many under every thread. It takes no memory.
    pub fn bytes(&self) -> u64
        ensures { (thread : ℕ) → result ≡ length (log_bytes self.now.minor (entries_under thread self.now.events)) }
    {
        self.blocks.len() as u64
    }

    /// Takes all effects out, and keeps the room. It takes no memory.
    pub fn clear(&mut self)
        ensures minor { self.new.minor ≡ self.old.minor }
        ensures empty { self.new.events ≡ [] }
    {
        self.count = 0;
        self.blocks.clear();
    }

    /// The blocks, under thread 0.
    pub(crate) fn blocks(&self) -> &[u8]
        ensures version { IsVersion self.now.minor }
        ensures spelled { result.now ≡ log_bytes self.now.minor (entries_under 0 self.now.events) }
        ensures can { AllByRecursion (CanBePut self.now.minor) self.now.events }
    {
        self.blocks.as_slice()
    }
}
