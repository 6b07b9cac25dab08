//! What is recorded in all command buffers, and how much of it counts.
ghost use Rattle.std.specs.Prelude.{◌≡◌, ◌+◌, ◌<◌, ◌≤◌, ◌^◌, ◌==◌, ◌&&◌, ◌++◌, ◌∷◌, [], None, length, is_some, if◌then◌else◌, IsTrue, OnOk, OnErr, true};
ghost use Rattle.std.specs.Option.{option_copied};
ghost use Rattle.std.specs.List.{list_all};
ghost use Rattle.std.specs.FinMap as map;
ghost use Rattle.gfx_model.specs.Events.{event_of_call};
ghost use Rattle.gfx_model.specs.Spelling.{HasSpelling, spelling};
ghost use Rattle.gfx_model.specs.Questions.{State, new_buffer, invalidated};
ghost use Rattle.gfx_model.specs.Views.{commands_in, bytes_in};
ghost use Rattle.gfx_model.specs.Checks.{is_recording};
ghost use Rattle.gfx_model.specs.Steps.{resources_of};
ghost use Rattle.gfx_table.specs.Groups.{is_member};
ghost use Rattle.gfx_commands.specs.Recording.{buffer_of, names};
ghost use Rattle.gfx_model.specs.Limits.{max_kept_bytes, max_kept_commands};
ghost use Rattle.gfx_commands.specs.Counted.{IsCounted};
ghost use Rattle.gfx_commands.specs.Recordings.{buffers, commands_total, bytes_total};

use crate::recording::{CbState, Recording};
use crate::users::Users;
use gfx_table::Dense;
use gfx_types::{Call, WantMemory};
use std::alloc::Global;
use std::marker::Model;

/// How many commands recording and executable buffers have, and how many bytes the fields of these are.
#[derive(Clone, Copy, Debug, PartialEq, Eq)]
pub struct Totals {
    pub commands: u32,
    pub bytes: u64,
}

impl Totals {
    /// With the commands of a recording.
    fn with(self, row: &Recording) -> Totals
        requires few { self.commands + commands_in (buffer_of row.now) < 2 ^ 32 }
        requires small { self.bytes + bytes_in (buffer_of row.now) < 2 ^ 64 }
        ensures commands { result.commands ≡ self.commands + commands_in (buffer_of row.now) }
        ensures bytes { result.bytes ≡ self.bytes + bytes_in (buffer_of row.now) }
    {
        Totals {
            commands: self.commands + row.commands_kept() as u32,
            bytes: self.bytes + row.bytes_kept(),
        }
    }

    /// Without the commands of a recording that was counted.
    fn without(self, row: &Recording) -> Totals
        requires commands { commands_in (buffer_of row.now) ≤ self.commands }
        requires bytes { bytes_in (buffer_of row.now) ≤ self.bytes }
        ensures commands { result.commands + commands_in (buffer_of row.now) ≡ self.commands }
        ensures bytes { result.bytes + bytes_in (buffer_of row.now) ≡ self.bytes }
    {
        Totals {
            commands: self.commands - row.commands_kept() as u32,
            bytes: self.bytes - row.bytes_kept(),
        }
    }
}

/// The rows of command buffers, with the commands and bytes of all that are recording or executable.
#[derive(Drop)]
pub(crate) struct Rows {
    table: Dense<Recording>,
    totals: Totals,
    alloc: Global,
}

impl Model for Rows {
    ghost use Rattle.gfx_table.specs.Slots.{Slots, slots_code};
    ghost use Rattle.gfx_commands.specs.declared.recording.Recording.{Recording};
    ghost use Rattle.gfx_commands.specs.contracts.recording.Recording as recording;

    ghost Value = { Slots Recording };

    ghost coded = { slots_code recording.the_row.coded };

    ghost use Rattle.gfx_commands.specs.Counted.{IsCounted};

    ghost view = { λ s. s.table };

    ghost invariant = { λ s. IsCounted s.table.map s.totals };
}

impl Rows {
    /// No rows.
    pub(crate) fn new(alloc: Global) -> Self
        ensures { result.map ≡ map.empty }
    {
        Rows {
            table: Dense::new(alloc),
            totals: Totals {
                commands: 0,
                bytes: 0,
            },
            alloc,
        }
    }

    /// The row of a buffer, where one is kept.
    pub(crate) fn get(&self, cb: u64) -> Option<&Recording>
        ensures { option_copied result ≡ map.get self.now.map cb }
    {
        self.table.get(cb)
    }

    /// The commands of recording and executable buffers, and the bytes of their fields.
    pub(crate) fn totals(&self) -> Totals
        ensures { IsCounted self.now.map result }
    {
        self.totals
    }

    /// Whether the buffer is kept, and names each resource that the command names.
    pub(crate) fn names_all(&self, cb: u64, call: &Call<'_>) -> bool
        ensures { result ≡ (is_some (map.get self.now.map cb) && list_all (λ x. names x (buffers self.now.map cb)) (resources_of (event_of_call call.now))) }
    {
        match self.table.get(cb) {
            Some(row) => row.commands.uses().names_all(call),
            None => false,
        }
    }

    /// Makes room for one more buffer.
    pub(crate) fn reserve(&mut self) -> Result<(), WantMemory>
        ensures same { self.new.map ≡ self.old.map }
        ensures ok { OnOk result (1 ≤ self.new.spare) }
    {
        Ok(self.table.reserve(1)?)
    }

    /// Begins to record. A new buffer takes one of the spare places.
    pub(crate) fn begin(&mut self, cb: u64, flags: u32)
        requires { map.get self.old.map cb ≡ None → 1 ≤ self.old.spare }
        ensures { buffers self.new.map ≡ (λ x. if cb == x then record { state = State.recording; flags = flags; commands = [] } else buffers self.old.map x) }
    {
        match self.table.get_mut(cb) {
            Some(row) => {
                self.totals = self.totals.without(row);
                row.restart(flags);
            }
            None => {
                let row = Recording::new(self.alloc, CbState::Recording, flags);
                self.table.set(cb, row);
            }
        }
    }

    /// Adds a command to a recording buffer, which is perhaps known to name its resources already. When out of memory all is as
    /// before.
    pub(crate) fn add(&mut self, cb: u64, call: &Call<'_>, is_known: bool) -> Result<(), WantMemory>
        requires known { is_known ≡ true → list_all (λ x. names x (buffers self.old.map cb)) (resources_of (event_of_call call.now)) ≡ true }
        requires recording { IsTrue (is_recording (buffers self.old.map cb).state) }
        requires spelled { HasSpelling 1 (event_of_call call.now) }
        requires few { commands_total self.old.map + 1 ≤ max_kept_commands }
        requires small { bytes_total self.old.map + length (spelling 1 (event_of_call call.now)) ≤ max_kept_bytes }
        ensures ok { OnOk result (buffers self.new.map ≡ (λ x. if cb == x then record (buffers self.old.map x) { commands = (buffers self.old.map x).commands ++ event_of_call call.now ∷ [] } else buffers self.old.map x)) }
        ensures err { OnErr result (self.new.map ≡ self.old.map) }
    {
        let Some(row) = self.table.get_mut(cb) else {
            unreachable!()
        };
        let bytes = row.commands.add(call, is_known)?;
        self.totals = Totals {
            commands: self.totals.commands + 1,
            bytes: self.totals.bytes + bytes,
        };
        Ok(())
    }

    /// Ends the recording of a recording buffer.
    pub(crate) fn end(&mut self, cb: u64)
        requires { IsTrue (is_recording (buffers self.old.map cb).state) }
        ensures { buffers self.new.map ≡ (λ x. if cb == x then record (buffers self.old.map x) { state = State.executable } else buffers self.old.map x) }
    {
        let Some(row) = self.table.get_mut(cb) else {
            unreachable!()
        };
        row.state = CbState::Executable;
    }

    /// Takes the row of a buffer out, which is as a new one then.
    pub(crate) fn remove(&mut self, cb: u64) -> Option<Recording>
        ensures value { result ≡ map.get self.old.map cb }
        ensures buffers { buffers self.new.map ≡ (λ x. if cb == x then new_buffer else buffers self.old.map x) }
    {
        match self.table.remove(cb) {
            Some(before) => {
                self.totals = self.totals.without(&before);
                Some(before)
            }
            None => None,
        }
    }

    /// A recording or executable buffer becomes invalid.
    pub(crate) fn invalidate(&mut self, cb: u64)
        ensures { buffers self.new.map ≡ (λ x. if cb == x then invalidated true (buffers self.old.map x) else buffers self.old.map x) }
    {
        if let Some(row) = self.table.get_mut(cb) {
            self.totals = self.totals.without(row);
            row.invalidate();
            self.totals = self.totals.with(row);
        }
    }

    /// Recording and executable buffers that name the resource become invalid.
    pub(crate) fn invalidate_users(&mut self, users: &Users, resource: u64)
        ensures { buffers self.new.map ≡ (λ x. invalidated (is_member users.now.groups.sets.map resource x) (buffers self.old.map x)) }
    {
        'users: for cb in users.of(resource) {
            self.invalidate(*cb);
        }
    }
}
