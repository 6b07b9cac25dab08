//! Sets of offsets of bytes.
ghost use Rattle.std.specs.Prelude.{◌≡◌, ℕ, ◌+◌, ◌-◌, ◌<◌, ◌≤◌, ◌^◌, ◌&&◌, ◌||◌, nat_le, nat_lt, false, IfOk, OnOk};
ghost use Rattle.std.specs.List.{list_any, range_with_len, AllByRecursion};
ghost use Rattle.gfx_asked.specs.Bounds.{holds, with_range};
ghost use Rattle.gfx_asked.specs.Ends.{EndsInside};

use crate::bounds::{Bounds, holds, set, steady_to};
use gfx_types::WantMemory;
use std::alloc::Global;
use std::collections::BTreeMap;

/// The offsets from one up to another.
#[derive(Clone, Copy, Debug, PartialEq, Eq)]
pub(crate) struct Stretch {
    pub(crate) from: u64,
    pub(crate) to: u64,
}

/// A set of offsets.
#[derive(Drop)]
pub(crate) struct Offsets {
    bounds: Bounds,
    ghost ends: { EndsInside bounds },
}

impl Offsets {
    ghost use Rattle.gfx_asked.specs.Offsets.{are_in, IsForward};

    /// The empty set.
    pub(crate) fn new(alloc: Global) -> Offsets
        ensures { (j : ℕ) → holds result.bounds j ≡ false }
    {
        Offsets {
            bounds: BTreeMap::new(alloc),
        }
    }

    /// Puts the offsets from one up to another into the set, or takes them out.
    pub(crate) fn set(&mut self, from: u64, to: u64, held: bool) -> Result<(), WantMemory>
        requires { from ≤ to }
        ensures { OnOk result ((j : ℕ) → holds self.new.bounds j ≡ with_range (holds self.old.bounds) from to held j) }
    {
        if from < to {
            set(&mut self.bounds, from, to, held)
        } else {
            Ok(())
        }
    }

    /// The stretches of the set among the `length` offsets from `from` on, moved to where these lie from `target` on.
    pub(crate) fn moved(
        &self,
        alloc: Global,
        from: u64,
        length: u64,
        target: u64,
    ) -> Result<Vec<Stretch>, WantMemory>
        requires from { from + length < 2 ^ 64 }
        requires target { target + length < 2 ^ 64 }
        ensures are { IfOk result (λ v. (j : ℕ) → are_in v.items j ≡ (nat_le target j && nat_lt j (target + length) && holds self.now.bounds (from + (j - target)))) }
        ensures forward { IfOk result (λ v. AllByRecursion IsForward v.items) }
    {
        let mut stretches = Vec::new(alloc);
        let mut at = 0;
        'finding: while at < length {
            let end = steady_to(&self.bounds, from + at, from + length) - from;
            if holds(&self.bounds, from + at) {
                let stretch = Stretch {
                    from: target + at,
                    to: target + end,
                };
                stretches.push(stretch)?;
            }
            at = end;
        }
        Ok(stretches)
    }

    /// Puts stretches into the set.
    pub(crate) fn put_all(&mut self, stretches: &[Stretch]) -> Result<(), WantMemory>
        requires { AllByRecursion IsForward stretches.now }
        ensures { OnOk result ((j : ℕ) → holds self.new.bounds j ≡ (holds self.old.bounds j || are_in stretches.now j)) }
    {
        'putting: for stretch in stretches {
            self.set(stretch.from, stretch.to, true)?;
        }
        Ok(())
    }

    /// Whether one of `length` offsets from `from` on is in the set.
    pub(crate) fn any(&self, from: u64, length: u64) -> bool
        ensures { result ≡ list_any (holds self.now.bounds) (range_with_len from length) }
    {
        let to = from.saturating_add(length);
        let mut at = from;
        'looking: while at < to {
            if holds(&self.bounds, at) {
                return true;
            }
            at = steady_to(&self.bounds, at, to);
        }
        false
    }
}
