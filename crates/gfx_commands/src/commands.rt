//! The commands of a buffer, and what is kept beside them so that no byte is read again.
//!
//! Commands are kept as their spelled fields, which are alike in both versions of a file, so the bytes that count
//! against the limit are those that are kept, and a state section copies them.
ghost use Rattle.std.specs.Prelude.{flat_map, ◌≡◌, ◌≤◌, ◌++◌, ◌∷◌, [], true, length, slice_get, take, option_map, IfOk, OnOk, OnErr, IfSome};
ghost use Rattle.std.specs.List.{AllByRecursion, list_all};
ghost use Rattle.gfx_model.specs.Events.{event_of_call};
ghost use Rattle.gfx_model.specs.Spelling.{HasSpelling, spelling};
ghost use Rattle.gfx_model.specs.Steps.{resources_of};
ghost use Rattle.gfx_model.specs.Checks.{is_among, layouts_of};
ghost use Rattle.gfx_objects.specs.Objects.{answers};
ghost use Rattle.gfx_ops.specs.Operations.{ops_of_command, listed};
ghost use Rattle.gfx_commands.specs.Runnable.{IsRunnable};
ghost use Rattle.gfx_commands.specs.Recorded.{event_in, IsRecorded};
ghost use Rattle.gfx_commands.specs.Uses.{IsIndex};
ghost use Rattle.gfx_commands.specs.Commands.{events_in, bytes_of, start_at};

use crate::recorded::Recorded;
use crate::uses::Uses;
use gfx_objects::Objects;
use gfx_types::{Call, OpList, WantMemory};
use std::alloc::Global;
use std::marker::Model;

// A command: the id of its call, and where its fields end among those of all.
#[derive(Clone, Copy)]
struct Command {
    call_id: u32,
    end: usize,
}

/// The commands of a buffer in order, how many bytes their fields are, and the uses of the resources that they name.
#[derive(Drop)]
pub(crate) struct Commands {
    commands: Vec<Command>,
    // the fields of all commands, one after another
    fields: Vec<u8>,
    uses: Uses,
}

impl Model for Commands {
    ghost use Rattle.std.specs.Prelude.{List};
    ghost use Rattle.std.specs.Coded.{coded_list};
    ghost use Rattle.gfx_commands.specs.Commands.{Spelled, spelled_code};

    ghost Value = { List Spelled };

    ghost coded = { coded_list spelled_code };

    ghost use Rattle.gfx_commands.specs.Inside.{IsKept, spelled_in};

    ghost view = { spelled_in };

    ghost invariant = { IsKept };
}

impl Commands {
    /// No commands.
    pub(crate) fn new(alloc: Global) -> Self
        ensures { result ≡ [] }
    {
        Commands {
            commands: Vec::new(alloc),
            fields: Vec::new(alloc),
            uses: Uses::new(alloc),
        }
    }

    /// Takes all commands out.
    pub(crate) fn clear(&mut self)
        ensures { self.new ≡ [] }
    {
        self.commands.clear();
        self.fields.clear();
        self.uses.clear();
    }

    /// How many commands there are.
    pub(crate) fn len(&self) -> usize
        ensures { result ≡ length (events_in self.now) }
    {
        self.commands.len()
    }

    /// How many bytes the fields of the commands are.
    pub(crate) fn bytes(&self) -> u64
        ensures { result ≡ bytes_of (events_in self.now) }
    {
        self.fields.len() as u64
    }

    /// The command at a place, none past the last.
    pub(crate) fn get(&self, k: u32) -> Option<Recorded<'_>>
        ensures item { option_map event_in result ≡ slice_get (events_in self.now) k }
        ensures recorded { IfSome result IsRecorded }
    {
        let at = k as usize;
        let command = self.commands.get(at)?;
        let start = start_at(&self.commands, at);
        Some(Recorded {
            call_id: command.call_id,
            params: &self.fields[start..command.end],
        })
    }

    /// Adds a command at the end, whose resources are perhaps known to be named already, and says how many bytes its fields
    /// are. When out of memory the commands are as before.
    pub(crate) fn add(&mut self, call: &Call<'_>, is_known: bool) -> Result<u64, WantMemory>
        requires spelled { HasSpelling 1 (event_of_call call.now) }
        requires known { is_known ≡ true → list_all (λ x. is_among x (flat_map resources_of (events_in self.old))) (resources_of (event_of_call call.now)) ≡ true }
        ensures ok { OnOk result (events_in self.new ≡ events_in self.old ++ event_of_call call.now ∷ []) }
        ensures bytes { IfOk result (λ bytes. bytes ≡ length (spelling 1 (event_of_call call.now))) }
        ensures err { OnErr result (self.new ≡ self.old) }
    {
        let before = self.fields.len();
        self.uses.reserve(call, is_known)?;
        self.commands.reserve(1)?;
        gfx_params::encode(1, call, &mut self.fields)?;
        gfx_grammar::spelled_is_read();
        self.commands.push_reserved(Command {
            call_id: gfx_params::call_id(call),
            end: self.fields.len(),
        });
        self.uses.add(call);
        Ok((self.fields.len() - before) as u64)
    }

    /// Appends what the commands do to a list of operations, with the layouts that they set or without. When out of memory
    /// the list begins with what it was.
    pub(crate) fn append_ops(
        &self,
        alloc: Global,
        objects: &Objects,
        with_layouts: bool,
        ops: &mut OpList,
    ) -> Result<(), WantMemory>
        requires { AllByRecursion (IsRunnable (answers objects.now)) (events_in self.now) }
        ensures ok { OnOk result (ops.new ≡ ops.old ++ listed with_layouts (flat_map (ops_of_command (answers objects.now)) (events_in self.now))) }
        ensures err { OnErr result (take (length ops.old) ops.new ≡ ops.old) }
    {
        let mut start = 0;
        'items: for command in &self.commands {
            let recorded = Recorded {
                call_id: command.call_id,
                params: &self.fields[start..command.end],
            };
            recorded.append_ops(alloc, objects, with_layouts, ops)?;
            start = command.end;
        }
        Ok(())
    }

    /// The uses of the resources that the commands name.
    pub(crate) fn uses(&self) -> &Uses
        ensures { IsIndex result.now.table.map result.now.agrees (flat_map resources_of (events_in self.now)) (flat_map layouts_of (events_in self.now)) }
    {
        &self.uses
    }
}

// Where the fields of the command at a place start, or where those of all end.
fn start_at(commands: &[Command], at: usize) -> usize
    requires { at ≤ length commands.now }
    ensures { result ≡ start_at 0 commands.now at }
{
    if at == 0 { 0 } else { commands[at - 1].end }
}
