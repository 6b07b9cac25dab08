//! Stretches that are taken out, joined and put back.
ghost use Rattle.std.specs.Prelude.{◌≡◌, ℕ, ◌<◌, ◌≤◌, Some, length};
ghost use Rattle.std.specs.FinMap as map;
ghost use Rattle.gfx_shadow.specs.ByEnd.{byte_of, AreApart, IsClear, IsLongestAt, IsHull, Fits};
ghost use Rattle.gfx_shadow.specs.Overlay.{either};
ghost use Rattle.gfx_shadow.specs.Stretch.{stretch_byte};
ghost use Rattle.gfx_shadow.specs.Writes.{memory_limit};

use super::touch::{longest, touching};
use crate::stretch::Stretch;
use gfx_table::Table;
use std::alloc::Global;

/// Takes out the stretch to which a piece is written: the longer one at its ends, or one without bytes.
pub(super) fn take(by_end: &mut Table<Stretch>, alloc: Global, offset: usize, end: usize) -> Stretch
    requires apart { AreApart by_end.old.map }
    requires forward { offset ≤ end }
    requires inside { end ≤ memory_limit }
    ensures apart { AreApart by_end.new.map }
    ensures spare { by_end.old.spare ≤ by_end.new.spare }
    ensures fewer { (key : ℕ) (s : Stretch) → map.get by_end.new.map key ≡ Some s → map.get by_end.old.map key ≡ Some s }
    ensures low { result.start ≤ end }
    ensures high { offset ≤ result.end }
    ensures hull { (from : ℕ) (to : ℕ) → IsHull by_end.old.map from to → from ≤ offset → end ≤ to → (from ≤ result.start) × (result.end ≤ to) }
    ensures left { IsLongestAt by_end.old.map offset result }
    ensures right { IsLongestAt by_end.old.map end result }
    ensures clear { result.start < result.end → IsClear by_end.new.map result.start result.end }
    ensures bytes { either (stretch_byte result) (byte_of by_end.new.map) ≡ byte_of by_end.old.map }
{
    if let Some(stretch) = longest(by_end, offset, end) {
        let key = stretch.end as u64;
        if let Some(taken) = by_end.remove(key) {
            return taken;
        }
    }
    Stretch::new(alloc, offset)
}

/// Joins to a stretch all those that touch it.
pub(super) fn join_all(by_end: &mut Table<Stretch>, stretch: &mut Stretch)
    requires apart { AreApart by_end.old.map }
    requires fits { Fits by_end.old.map stretch.old }
    ensures apart { AreApart by_end.new.map }
    ensures spare { by_end.old.spare ≤ by_end.new.spare }
    ensures clear { IsClear by_end.new.map stretch.new.start stretch.new.end }
    ensures bytes { either (stretch_byte stretch.new) (byte_of by_end.new.map) ≡ either (stretch_byte stretch.old) (byte_of by_end.old.map) }
{
    'joining: while let Some(other) = touching(by_end, stretch.start, stretch.end) {
        let key = other.end as u64;
        if let Some(other) = by_end.remove(key) {
            stretch.join(&other);
        }
    }
}

/// Puts back a stretch that no other touches, if it has bytes.
pub(super) fn put_back(by_end: &mut Table<Stretch>, stretch: Stretch)
    requires apart { AreApart by_end.old.map }
    requires spare { 1 ≤ by_end.old.spare }
    requires clear { stretch.start < stretch.end → IsClear by_end.old.map stretch.start stretch.end }
    ensures apart { AreApart by_end.new.map }
    ensures bytes { byte_of by_end.new.map ≡ either (stretch_byte stretch) (byte_of by_end.old.map) }
{
    if stretch.start < stretch.end {
        by_end.set(stretch.end as u64, stretch);
    }
}
