//! The stretches that a piece touches.
ghost use Rattle.std.specs.Prelude.{◌≡◌, ℕ, ◌≤◌, MatchOption, Some};
ghost use Rattle.std.specs.FinMap as map;
ghost use Rattle.gfx_shadow.specs.ByEnd.{AreApart, Touches, IsClear, IsLongest};
ghost use Rattle.gfx_shadow.specs.Writes.{memory_limit};

use crate::stretch::Stretch;
use gfx_table::Table;

/// The first stretch that touches the offsets from one up to another.
pub(super) fn touching(by_end: &Table<Stretch>, from: usize, to: usize) -> Option<&Stretch>
    requires { AreApart by_end.now.map }
    ensures { MatchOption result (IsClear by_end.now.map from to) (λ s. Touches by_end.now.map from to s.now) }
{
    let before = (from as u64).saturating_sub(1);
    match by_end.next_above(before) {
        Some(key) => match by_end.get(key) {
            Some(stretch) => {
                if stretch.start <= to {
                    Some(stretch)
                } else {
                    None
                }
            }
            None => None,
        },
        None => None,
    }
}

/// Where the stretch begins that touches an offset, or the offset itself.
pub(super) fn joined_start(by_end: &Table<Stretch>, offset: usize) -> usize
    requires { AreApart by_end.now.map }
    ensures low { result ≤ offset }
    ensures hull { (key : ℕ) (s : Stretch) → map.get by_end.now.map key ≡ Some s → result ≤ key → result ≤ s.start }
{
    match touching(by_end, offset, offset) {
        Some(stretch) => stretch.start,
        None => offset,
    }
}

/// Where the stretch ends that touches an offset, or the offset itself.
pub(super) fn joined_end(by_end: &Table<Stretch>, offset: usize) -> usize
    requires apart { AreApart by_end.now.map }
    requires inside { offset ≤ memory_limit }
    ensures high { offset ≤ result }
    ensures inside { result ≤ memory_limit }
    ensures hull { (key : ℕ) (s : Stretch) → map.get by_end.now.map key ≡ Some s → s.start ≤ result → key ≤ result }
{
    match touching(by_end, offset, offset) {
        Some(stretch) => stretch.end,
        None => offset,
    }
}

/// The longer one of the stretches that touch the ends of a piece.
pub(super) fn longest(by_end: &Table<Stretch>, offset: usize, end: usize) -> Option<&Stretch>
    requires apart { AreApart by_end.now.map }
    requires forward { offset ≤ end }
    ensures { MatchOption result (IsClear by_end.now.map offset offset × IsClear by_end.now.map end end) (λ s. IsLongest by_end.now.map offset end s.now) }
{
    match touching(by_end, offset, offset) {
        Some(left) => match touching(by_end, end, end) {
            Some(right) => {
                if left.end - left.start < right.end - right.start {
                    Some(right)
                } else {
                    Some(left)
                }
            }
            None => Some(left),
        },
        None => touching(by_end, end, end),
    }
}
