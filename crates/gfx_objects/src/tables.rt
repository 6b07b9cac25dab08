//! What is done to some of the tables, whatever the others say.
ghost use Rattle.std.specs.Prelude.{◌≡◌, ℕ, ◌+◌, ◌<◌, ◌≤◌, ◌^◌, ◌==◌, ◌&&◌, ◌||◌, true, false, Some, OnOk, if◌then◌else◌};
ghost use Rattle.gfx_table.specs.Groups.{is_member, room_in};
ghost use Rattle.gfx_table.specs.IdSet.{holds};
ghost use Rattle.gfx_objects.specs.Children.{is_at, count_of};

use crate::children::ChildCounts;
use crate::object::Object;
use gfx_table::{Groups, IdSet, Stored};
use std::alloc::AllocError;

/// Makes room for so many rows in each of the tables, and for the ids of what is live, which will end.
pub(crate) fn reserve_each(
    rows: &mut Stored<Object>,
    ended: &mut IdSet,
    children: &mut ChildCounts,
    swapchains: &mut ChildCounts,
    more: usize,
    live: usize,
) -> Result<(), AllocError>
    requires { live + more < 2 ^ 64 }
    ensures rows { rows.new.map ≡ rows.old.map }
    ensures ended { holds ended.new ≡ holds ended.old }
    ensures children { count_of children.new.counts.map ≡ count_of children.old.counts.map }
    ensures swapchains { count_of swapchains.new.counts.map ≡ count_of swapchains.old.counts.map }

    ensures rows_room { rows.old.spare ≤ rows.new.spare }
    ensures ended_room { ended.old.spare ≤ ended.new.spare }
    ensures children_room { children.old.counts.spare ≤ children.new.counts.spare }
    ensures swapchains_room { swapchains.old.counts.spare ≤ swapchains.new.counts.spare }

    ensures rows_made { OnOk result (more ≤ rows.new.spare) }
    ensures ended_made { OnOk result (live + more ≤ ended.new.spare) }
    ensures children_made { OnOk result (more ≤ children.new.counts.spare) }
    ensures swapchains_made { OnOk result (more ≤ swapchains.new.counts.spare) }
{
    rows.reserve(more)?;
    ended.reserve(live + more)?;
    children.reserve(more)?;
    swapchains.reserve(more)
}

/// Puts the id into the set of this group, where there is a group.
pub(crate) fn put_in(groups: &mut Groups, group: Option<u64>, id: u64)
    requires { (g : ℕ) → group ≡ Some g → 1 ≤ room_in groups.old.sets.map g }
    ensures members { (g x : ℕ) → is_member groups.new.sets.map g x ≡ ((is_at g group && id == x) || is_member groups.old.sets.map g x) }
    ensures room { (g : ℕ) → room_in groups.old.sets.map g ≤ room_in groups.new.sets.map g + (if is_at g group then 1 else 0) }
{
    if let Some(its) = group {
        groups.insert(its, id);
    }
}

/// Takes the id out of the set of this group, where there is a group.
pub(crate) fn take_from(groups: &mut Groups, group: Option<u64>, id: u64)
    ensures members { (g x : ℕ) → is_member groups.new.sets.map g x ≡ (if is_at g group && id == x then false else is_member groups.old.sets.map g x) }
    ensures left { (g x : ℕ) → is_member groups.new.sets.map g x ≡ true → room_in groups.old.sets.map g ≤ room_in groups.new.sets.map g }
    ensures others { (g : ℕ) → is_at g group ≡ false → room_in groups.old.sets.map g ≤ room_in groups.new.sets.map g }
{
    if let Some(its) = group {
        groups.remove(its, id);
    }
}

/// Puts the id into the set of this group, and takes it out of the one in which it was.
pub(crate) fn move_to(groups: &mut Groups, before: Option<u64>, group: u64, id: u64)
    requires member { (g : ℕ) → is_member groups.old.sets.map g id ≡ is_at g before }
    requires room { 1 ≤ room_in groups.old.sets.map group }
    ensures { (g x : ℕ) → is_member groups.new.sets.map g x ≡ (if id == x then group == g else is_member groups.old.sets.map g x) }
{
    groups.insert(group, id);
    if let Some(before) = before {
        if before != group {
            groups.remove(before, id);
        }
    }
}
