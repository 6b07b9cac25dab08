//! Signals of fences and semaphores.
ghost use Rattle.std.specs.Prelude.{◌≡◌, IsSome, OnOk, OnErr};
ghost use Rattle.std.specs.FinMap as map;
ghost use Rattle.gfx_swap.specs.Signals.{is_signalled};

use gfx_table::Slotted;
use gfx_types::WantMemory;
use std::alloc::Global;
use std::marker::Model;

/// Whether each kept fence and semaphore is signalled.
#[derive(Drop)]
pub struct Sync {
    signals: Slotted<bool>,
}

impl Model for Sync {
    ghost use Rattle.std.specs.Prelude.{Bool};
    ghost use Rattle.std.specs.Coded.{coded_ℕ, coded_bool};
    ghost use Rattle.std.specs.Ordering.{nat_cmp};
    ghost use Rattle.std.specs.FinMap as map;

    ghost Value = { map.FinMap nat_cmp Bool };

    ghost coded = { map.code coded_ℕ coded_bool };

    ghost view = { λ s. s.signals.map };
}

impl Sync {
    /// Nothing is kept.
    pub fn new(alloc: Global) -> Self
        ensures { result ≡ map.empty }
    {
        Sync {
            signals: Slotted::new(alloc),
        }
    }

    /// Whether the fence or semaphore is signalled; false where it isn't kept.
    pub fn status(&self, id: u64) -> bool
        ensures { result ≡ is_signalled self.now id }
    {
        self.signals.get(id).copied().unwrap_or(false)
    }

    /// Keeps a fence or semaphore. When out of memory all is as it was.
    pub fn add(&mut self, id: u64, signalled: bool) -> Result<(), WantMemory>
        ensures ok { OnOk result (self.new ≡ map.insert self.old id signalled) }
        ensures err { OnErr result (self.new ≡ self.old) }
    {
        self.signals.reserve(1)?;
        self.signals.set(id, signalled);
        Ok(())
    }

    /// Signals or unsignals a kept fence or semaphore.
    pub fn set(&mut self, id: u64, signalled: bool)
        requires { IsSome (map.get self.old id) }
        ensures { self.new ≡ map.insert self.old id signalled }
    {
        self.signals.set(id, signalled);
    }

    /// Drops a kept fence or semaphore.
    pub fn remove(&mut self, id: u64)
        requires { IsSome (map.get self.old id) }
        ensures { self.new ≡ map.remove self.old id }
    {
        let _signalled = self.signals.remove(id);
    }
}
