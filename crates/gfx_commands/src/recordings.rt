//! What is recorded in all command buffers.
//!
//! What ends visits only the command buffers that name it: `Users` keeps these for each resource. So an object that no
//! command can name ends without a look at any buffer.
ghost use Rattle.std.specs.Prelude.{flat_map, filter, ◌≡◌, ℕ, ◌+◌, ◌≤◌, ◌==◌, ◌&&◌, ◌++◌, ◌∷◌, [], List, length, sum_by, slice_get, option_map, Some, IsTrue, IsNone, IfSome, OnOk, OnErr, true, if◌then◌else◌};
ghost use Rattle.std.specs.List.{AllByRecursion};
ghost use Rattle.gfx_model.specs.Events.{event_of_call};
ghost use Rattle.gfx_model.specs.Spelling.{HasSpelling, spelling};
ghost use Rattle.gfx_model.specs.Questions.{State, new_buffer, is_once, invalidated};
ghost use Rattle.gfx_model.specs.Steps.{resources_of};
ghost use Rattle.gfx_model.specs.Views.{commands_in, bytes_in};
ghost use Rattle.gfx_model.specs.Checks.{is_recording, is_distinct};
ghost use Rattle.gfx_objects.specs.Objects.{answers};
ghost use Rattle.gfx_ops.specs.Operations.{ops_of_command, changes_bytes, listed};
ghost use Rattle.gfx_commands.specs.Runnable.{IsRunnable};
ghost use Rattle.gfx_commands.specs.Recorded.{event_in, IsRecorded};
ghost use Rattle.gfx_commands.specs.Recording.{state_of, names};
ghost use Rattle.gfx_commands.specs.Uses.{IsIndex};
ghost use Rattle.gfx_model.specs.Layouts.{asked_in};
ghost use Rattle.gfx_model.specs.Limits.{max_kept_bytes, max_kept_commands};
ghost use Rattle.gfx_commands.specs.Recordings.{buffers, commands_total, bytes_total, HoldsKept};

use crate::recorded::Recorded;
use crate::recording::CbState;
use crate::rows::{Rows, Totals};
use crate::users::Users;
use crate::uses::Uses;
use gfx_objects::Objects;
use gfx_types::{Call, OpList, WantMemory};
use std::alloc::Global;
use std::marker::Model;

/// The state, the flags and the commands of each command buffer. Any other id is as a new buffer.
#[derive(Drop)]
pub struct Recordings {
    rows: Rows,
    users: Users,
    alloc: Global,
}

impl Model for Recordings {
    ghost use Rattle.std.specs.Coded.{coded_ℕ};
    ghost use Rattle.std.specs.Ordering.{nat_cmp};
    ghost use Rattle.std.specs.FinMap as map;
    ghost use Rattle.gfx_commands.specs.declared.recording.Recording.{Recording};
    ghost use Rattle.gfx_commands.specs.contracts.recording.Recording as recording;

    ghost Value = { map.FinMap nat_cmp Recording };

    ghost coded = { map.code coded_ℕ recording.the_row.coded };

    ghost use Rattle.gfx_commands.specs.Recordings.{buffers};
    ghost use Rattle.gfx_commands.specs.Users.{AreUsers};

    ghost view = { λ s. s.rows.map };

    ghost invariant = { λ s. AreUsers s.users.groups.sets.map (buffers s.rows.map) };
}

impl Recordings {
    /// All buffers are new.
    pub fn new(alloc: Global) -> Self
        ensures { buffers result ≡ (λ x. new_buffer) }
    {
        Recordings {
            rows: Rows::new(alloc),
            users: Users::new(alloc),
            alloc,
        }
    }

    /// The state of the buffer.
    pub fn state(&self, cb: u64) -> CbState
        ensures { state_of result ≡ (buffers self.now cb).state }
    {
        match self.rows.get(cb) {
            Some(row) => row.state,
            None => CbState::Initial,
        }
    }

    /// The flags with which the buffer was begun.
    pub fn flags(&self, cb: u64) -> u32
        ensures { result ≡ (buffers self.now cb).flags }
    {
        match self.rows.get(cb) {
            Some(row) => row.flags,
            None => 0,
        }
    }

    /// The command of the buffer at this place, none past the last.
    pub fn command(&self, cb: u64, k: u32) -> Option<Recorded<'_>>
        ensures item { option_map event_in result ≡ slice_get (buffers self.now cb).commands k }
        ensures recorded { IfSome result IsRecorded }
    {
        match self.rows.get(cb) {
            Some(row) => row.commands.get(k),
            None => None,
        }
    }

    /// The commands of recording and executable buffers, and the bytes of their fields.
    pub fn totals(&self) -> Totals
        ensures commands { (ids : List ℕ) → is_distinct ids ≡ true → HoldsKept (buffers self.now) ids → sum_by (λ x. commands_in (buffers self.now x)) ids ≡ result.commands }
        ensures bytes { (ids : List ℕ) → is_distinct ids ≡ true → HoldsKept (buffers self.now) ids → sum_by (λ x. bytes_in (buffers self.now x)) ids ≡ result.bytes }
        ensures same_commands { commands_total self.now ≡ result.commands }
        ensures same_bytes { bytes_total self.now ≡ result.bytes }
        ensures few { result.commands ≤ max_kept_commands }
        ensures small { result.bytes ≤ max_kept_bytes }
    {
        self.rows.totals()
    }

    /// Begins to record: what was recorded before is dropped. When out of memory all is as before.
    pub fn begin(&mut self, cb: u64, flags: u32) -> Result<(), WantMemory>
        ensures ok { OnOk result (buffers self.new ≡ (λ x. if cb == x then record { state = State.recording; flags = flags; commands = [] } else buffers self.old x)) }
        ensures err { OnErr result (self.new ≡ self.old) }
    {
        self.rows.reserve()?;
        if let Some(row) = self.rows.get(cb) {
            self.users.forget(cb, row.commands.uses());
        }
        self.rows.begin(cb, flags);
        Ok(())
    }

    /// Adds a command to a recording buffer. When out of memory all is as before.
    pub fn add(&mut self, cb: u64, call: &Call<'_>) -> Result<(), WantMemory>
        requires recording { IsTrue (is_recording (buffers self.old cb).state) }
        requires spelled { HasSpelling 1 (event_of_call call.now) }
        requires few { commands_total self.old + 1 ≤ max_kept_commands }
        requires small { bytes_total self.old + length (spelling 1 (event_of_call call.now)) ≤ max_kept_bytes }
        ensures ok { OnOk result (buffers self.new ≡ (λ x. if cb == x then record (buffers self.old x) { commands = (buffers self.old x).commands ++ event_of_call call.now ∷ [] } else buffers self.old x)) }
        ensures err { OnErr result (self.new ≡ self.old) }
    {
        if self.rows.names_all(cb, call) {
            self.rows.add(cb, call, true)?;
            return Ok(());
        }
        self.users.reserve(call)?;
        self.rows.add(cb, call, false)?;
        self.users.insert(cb, call);
        Ok(())
    }

    /// Ends the recording of a recording buffer, which can be executed then.
    pub fn end(&mut self, cb: u64)
        requires { IsTrue (is_recording (buffers self.old cb).state) }
        ensures { buffers self.new ≡ (λ x. if cb == x then record (buffers self.old x) { state = State.executable } else buffers self.old x) }
    {
        self.rows.end(cb);
    }

    /// The buffer is as a new one.
    pub fn reset(&mut self, cb: u64)
        ensures { buffers self.new ≡ (λ x. if cb == x then new_buffer else buffers self.old x) }
    {
        if let Some(before) = self.rows.remove(cb) {
            self.users.forget(cb, before.commands.uses());
        }
    }

    /// The buffer was executed: where it was begun to be executed once, it is invalid then.
    pub fn executed(&mut self, cb: u64)
        ensures { buffers self.new ≡ (λ x. invalidated (cb == x && is_once (buffers self.old x)) (buffers self.old x)) }
    {
        let Some(row) = self.rows.get(cb) else {
            return;
        };
        if row.is_once() {
            self.rows.invalidate(cb);
        }
    }

    /// Recording and executable buffers that name the resource become invalid.
    pub fn invalidate_users(&mut self, resource: u64)
        ensures { buffers self.new ≡ (λ x. invalidated (names resource (buffers self.old x)) (buffers self.old x)) }
    {
        self.rows.invalidate_users(&self.users, resource);
    }

    /// Appends what the commands of a buffer do to a list of operations. Each of them breaks no check of its row but
    /// perhaps that its buffer is recording and that there is room. When out of memory the list is as it was.
    pub fn expand(&self, cb: u64, objects: &Objects, ops: &mut OpList) -> Result<(), WantMemory>
        requires { AllByRecursion (IsRunnable (answers objects.now)) (buffers self.now cb).commands }
        ensures ok { OnOk result (ops.new ≡ ops.old ++ flat_map (ops_of_command (answers objects.now)) (buffers self.now cb).commands) }
        ensures err { OnErr result (ops.new ≡ ops.old) }
    {
        self.append_ops(cb, objects, true, ops)
    }

    /// Appends what the commands of a buffer do to bytes, without the layouts. When out of memory the list is as it was.
    pub fn expand_bytes(
        &self,
        cb: u64,
        objects: &Objects,
        ops: &mut OpList,
    ) -> Result<(), WantMemory>
        requires { AllByRecursion (IsRunnable (answers objects.now)) (buffers self.now cb).commands }
        ensures ok { OnOk result (ops.new ≡ ops.old ++ filter changes_bytes (flat_map (ops_of_command (answers objects.now)) (buffers self.now cb).commands)) }
        ensures err { OnErr result (ops.new ≡ ops.old) }
    {
        self.append_ops(cb, objects, false, ops)
    }

    // Appends what the commands of a buffer do, with the layouts that they set or without. When out of memory the list is
    // as it was.
    fn append_ops(
        &self,
        cb: u64,
        objects: &Objects,
        with_layouts: bool,
        ops: &mut OpList,
    ) -> Result<(), WantMemory>
        requires { AllByRecursion (IsRunnable (answers objects.now)) (buffers self.now cb).commands }
        ensures ok { OnOk result (ops.new ≡ ops.old ++ listed with_layouts (flat_map (ops_of_command (answers objects.now)) (buffers self.now cb).commands)) }
        ensures err { OnErr result (ops.new ≡ ops.old) }
    {
        let Some(row) = self.rows.get(cb) else {
            return Ok(());
        };
        let length = ops.items().len();
        match row
            .commands
            .append_ops(self.alloc, objects, with_layouts, ops)
        {
            Ok(()) => Ok(()),
            Err(WantMemory) => {
                ops.cut(length);
                Err(WantMemory)
            }
        }
    }

    /// Where memory comes from.
    pub(crate) fn allocator(&self) -> Global {
        self.alloc
    }

    /// The uses of a buffer; those of a buffer that isn't kept are none.
    pub(crate) fn uses(&self, cb: u64) -> Option<&Uses>
        ensures index { IfSome result (λ u. IsIndex u.now.table.map u.now.agrees (flat_map resources_of (buffers self.now cb).commands) (asked_in (buffers self.now) cb)) }
        ensures none { IsNone result → asked_in (buffers self.now) cb ≡ [] }
    {
        match self.rows.get(cb) {
            Some(row) => Some(row.commands.uses()),
            None => None,
        }
    }
}
