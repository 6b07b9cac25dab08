//! Sets of numbers, told by the places where they change.
//!
//! A set is where it changes, and the last entry up to an offset decides. Lists of ranges would need a case for each
//! way in which ranges meet.
ghost use Rattle.std.specs.Prelude.{◌≡◌, ◌==◌, ℕ, ◌<◌, ◌≤◌, ◌&&◌, nat_lt, false, if◌then◌else◌, Some, None, unwrap_or, MatchOption, OnOk, OnErr};
ghost use Rattle.gfx_asked.specs.Bounds.{change_at, earlier, holds, with_range, IsSteady, IsNext};

use gfx_types::WantMemory;
use std::collections::BTreeMap;
use std::ops::Bound;

/// Where a set changes: from each place on, up to the next one, its numbers are in the set or not. Before the first
/// none is.
pub(crate) type Bounds = BTreeMap<u64, bool>;

/// Whether a number is in the set.
pub(crate) fn holds(bounds: &Bounds, number: u64) -> bool
    ensures { result ≡ holds bounds.now number }
{
    match bounds
        .range((Bound::Unbounded, Bound::Included(number)))
        .next_back()
    {
        Some((_, held)) => *held,
        None => false,
    }
}

// The first change between two numbers.
fn next_between(bounds: &Bounds, from: u64, to: u64) -> Option<u64>
    requires { from < to }
    ensures { MatchOption result (IsSteady (change_at bounds.now) from to) (IsNext (change_at bounds.now) from to) }
{
    match bounds
        .range((Bound::Excluded(from), Bound::Excluded(to)))
        .next()
    {
        Some((next, _)) => Some(*next),
        None => None,
    }
}

/// How far what holds of a number goes on, up to an end.
pub(crate) fn steady_to(bounds: &Bounds, number: u64, end: u64) -> u64
    requires { number < end }
    ensures after { number < result }
    ensures within { result ≤ end }
    ensures steady { (j : ℕ) → number ≤ j → j < result → holds bounds.now j ≡ holds bounds.now number }
{
    match next_between(bounds, number, end) {
        Some(next) => next,
        None => end,
    }
}

// Takes out the changes between two numbers.
fn clear_between(bounds: &mut Bounds, from: u64, to: u64)
    requires { from < to }
    ensures { (j : ℕ) → change_at bounds.new j ≡ (if nat_lt from j && nat_lt j to then None else change_at bounds.old j) }
{
    'clearing: while let Some(next) = next_between(bounds, from, to) {
        let _held = bounds.remove(&next);
    }
}

// What holds of the number before another; of the one before 0 nothing does.
fn held_before(bounds: &Bounds, number: u64) -> bool
    ensures { result ≡ earlier (change_at bounds.now) number }
{
    number > 0 && holds(bounds, number - 1)
}

// Takes out a change to what held before it.
fn drop_idle(bounds: &mut Bounds, place: u64, before: bool, held: bool)
    requires { change_at bounds.old place ≡ Some held }
    ensures here { unwrap_or (change_at bounds.new place) before ≡ held }
    ensures others { (j : ℕ) → (j == place) ≡ false → change_at bounds.new j ≡ change_at bounds.old j }
{
    if before == held {
        let _held = bounds.remove(&place);
    }
}

/// Puts the numbers of a range into the set, or takes them out. Ranges that touch become one. When out of memory the
/// set is as it was.
pub(crate) fn set(bounds: &mut Bounds, from: u64, to: u64, held: bool) -> Result<(), WantMemory>
    requires { from < to }
    ensures ok { OnOk result ((j : ℕ) → holds bounds.new j ≡ with_range (holds bounds.old) from to held j) }
    ensures err { OnErr result ((j : ℕ) → holds bounds.new j ≡ holds bounds.old j) }
{
    let before = held_before(bounds, from);
    let after = holds(bounds, to);
    bounds.insert(to, after)?;
    bounds.insert(from, held)?;
    clear_between(bounds, from, to);
    drop_idle(bounds, from, before, held);
    drop_idle(bounds, to, held, after);
    Ok(())
}
