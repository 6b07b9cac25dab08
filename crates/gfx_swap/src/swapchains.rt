//! Acquired images of swapchains.
ghost use Rattle.std.specs.Prelude.{◌≡◌, ◌<◌, false, not, length, replicate, position, slice_get, slice_set, unwrap_or, IsSome, OnOk, OnErr};
ghost use Rattle.std.specs.FinMap as map;
ghost use Rattle.gfx_swap.specs.Acquired.{marks_of, is_acquired};

use crate::marks::Marks;
use gfx_table::Table;
use gfx_types::WantMemory;
use std::alloc::Global;
use std::marker::Model;

/// Which images of each kept swapchain are acquired.
#[derive(Drop)]
pub struct Swaps {
    swapchains: Table<Marks>,
    alloc: Global,
}

impl Model for Swaps {
    ghost use Rattle.std.specs.Prelude.{List, Bool};
    ghost use Rattle.std.specs.Coded.{coded_ℕ, coded_bool, coded_list};
    ghost use Rattle.std.specs.Ordering.{nat_cmp};
    ghost use Rattle.std.specs.FinMap as map;

    ghost Value = { map.FinMap nat_cmp (List Bool) };

    ghost coded = { map.code coded_ℕ (coded_list coded_bool) };

    ghost view = { λ s. s.swapchains.map };
}

impl Swaps {
    /// No swapchain is kept.
    pub fn new(alloc: Global) -> Self
        ensures { result ≡ map.empty }
    {
        Swaps {
            swapchains: Table::new(alloc),
            alloc,
        }
    }

    /// Whether the image is acquired; false where it isn't kept.
    pub fn acquired(&self, swapchain: u64, index: u32) -> bool
        ensures { result ≡ is_acquired self.now swapchain index }
    {
        match self.swapchains.get(swapchain) {
            Some(marks) => marks.get(index),
            None => false,
        }
    }

    /// The least index that isn't acquired: none exactly where all are.
    pub fn next_image(&self, swapchain: u64) -> Option<u32>
        ensures { result ≡ position (λ acquired. not acquired) (marks_of self.now swapchain) }
    {
        match self.swapchains.get(swapchain) {
            Some(marks) => marks.first_free(),
            None => None,
        }
    }

    /// Keeps a swapchain with so many images, none of them acquired. When out of memory all is as it was.
    pub fn add(&mut self, swapchain: u64, images: u32) -> Result<(), WantMemory>
        ensures ok { OnOk result (self.new ≡ map.insert self.old swapchain (replicate images false)) }
        ensures err { OnErr result (self.new ≡ self.old) }
    {
        let marks = Marks::new(self.alloc, images)?;
        self.swapchains.reserve(1)?;
        self.swapchains.set(swapchain, marks);
        Ok(())
    }

    /// Acquires an image of a kept swapchain, or gives it back.
    pub fn set(&mut self, swapchain: u64, index: u32, acquired: bool)
        requires { index < length (marks_of self.old swapchain) }
        ensures { self.new ≡ map.insert self.old swapchain (slice_set (marks_of self.old swapchain) index acquired) }
    {
        let Some(mut marks) = self.swapchains.replace(swapchain, Marks::none(self.alloc)) else {
            unreachable!()
        };
        marks.set(index, acquired);
        self.swapchains.set(swapchain, marks);
    }

    /// Drops a kept swapchain.
    pub fn remove(&mut self, swapchain: u64)
        requires { IsSome (map.get self.old swapchain) }
        ensures { self.new ≡ map.remove self.old swapchain }
    {
        let _marks = self.swapchains.remove(swapchain);
    }
}
