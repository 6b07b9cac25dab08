//! Which command buffers name a resource.
ghost use Rattle.std.specs.Prelude.{◌≡◌, ℕ, ◌==◌, ◌&&◌, ◌||◌, true, false, is_some, OnOk, if◌then◌else◌};
ghost use Rattle.std.specs.FinMap as map;
ghost use Rattle.gfx_table.specs.Dense.{is_listed};
ghost use Rattle.gfx_table.specs.Groups.{is_member};
ghost use Rattle.gfx_model.specs.Events.{event_of_call};
ghost use Rattle.gfx_model.specs.Steps.{resources_of};
ghost use Rattle.gfx_model.specs.Checks.{is_among};
ghost use Rattle.gfx_commands.specs.Users.{HasRoom};

use crate::uses::{Uses, resource_at, resources_in};
use gfx_table::Groups;
use gfx_types::{Call, WantMemory};
use std::alloc::Global;

/// The command buffers that name a resource, by the id of the resource. A resource without users takes no place.
#[derive(Drop)]
pub(crate) struct Users {
    pub(crate) groups: Groups,
}

impl Users {
    /// No resource is named.
    pub(crate) fn new(alloc: Global) -> Self
        ensures { is_member result.groups.sets.map ≡ (λ resource cb. false) }
    {
        Users {
            groups: Groups::new(alloc),
        }
    }

    /// The users of a resource, each once.
    pub(crate) fn of(&self, resource: u64) -> &[u64]
        ensures { (cb : ℕ) → is_listed cb result.now ≡ is_member self.now.groups.sets.map resource cb }
    {
        self.groups.members(resource)
    }

    /// Makes room for one more buffer among the users of each resource that the command names.
    pub(crate) fn reserve(&mut self, call: &Call<'_>) -> Result<(), WantMemory>
        ensures same { is_member self.new.groups.sets.map ≡ is_member self.old.groups.sets.map }
        ensures ok { OnOk result ((cb : ℕ) → HasRoom self.new.groups.sets.map cb (resources_of (event_of_call call.now))) }
    {
        'resources: for at in 0..resources_in(call) {
            let Some(resource) = resource_at(call, at) else {
                unreachable!()
            };
            self.groups.reserve(resource, 1)?;
        }
        Ok(())
    }

    /// Puts the buffer to the users of each resource that the command names. There is room for it.
    pub(crate) fn insert(&mut self, cb: u64, call: &Call<'_>)
        requires { HasRoom self.old.groups.sets.map cb (resources_of (event_of_call call.now)) }
        ensures { is_member self.new.groups.sets.map ≡ (λ x y. (cb == y && is_among x (resources_of (event_of_call call.now))) || is_member self.old.groups.sets.map x y) }
    {
        'resources: for at in 0..resources_in(call) {
            let Some(resource) = resource_at(call, at) else {
                unreachable!()
            };
            self.groups.insert(resource, cb);
        }
    }

    /// Takes a buffer, which names nothing but what these uses tell, from the users of each resource.
    pub(crate) fn forget(&mut self, cb: u64, uses: &Uses)
        requires { (x : ℕ) → is_member self.old.groups.sets.map x cb ≡ true → is_some (map.get uses.now.table.map x) ≡ true }
        ensures { is_member self.new.groups.sets.map ≡ (λ x y. if cb == y then false else is_member self.old.groups.sets.map x y) }
    {
        'resources: for resource in uses.ids() {
            self.groups.remove(*resource, cb);
        }
    }
}
