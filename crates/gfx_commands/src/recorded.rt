//! One recorded command.
ghost use Rattle.std.specs.Prelude.{◌≡◌, ◌++◌, length, take, OnOk, OnErr};
ghost use Rattle.gfx_objects.specs.Objects.{answers};
ghost use Rattle.gfx_ops.specs.Operations.{ops_of_command, listed, is_barrier};
ghost use Rattle.gfx_commands.specs.Recorded.{event_in, IsRecorded};
ghost use Rattle.gfx_commands.specs.Runnable.{IsRunnable};

use gfx_objects::Objects;
use gfx_params::ParamFault;
use gfx_types::{OpList, WantMemory};
use std::alloc::Global;

/// A recorded command: the id of its call, and its spelled fields, which are the same in both versions of a file.
#[derive(Clone, Copy, Debug)]
pub struct Recorded<'a> {
    pub call_id: u32,
    pub params: &'a [u8],
}

// The number of a barrier in the table of calls, which tells it without its fields being read.
const BARRIER: u32 = 26;

impl Recorded<'_> {
    /// Appends what the command does to a list of operations, with the layouts that it sets or without. When out of memory
    /// the list begins with what it was.
    pub(crate) fn append_ops(
        &self,
        alloc: Global,
        objects: &Objects,
        with_layouts: bool,
        ops: &mut OpList,
    ) -> Result<(), WantMemory>
        requires recorded { IsRecorded self.now }
        requires runs { IsRunnable (answers objects.now) (event_in self.now) }
        ensures ok { OnOk result (ops.new ≡ ops.old ++ listed with_layouts (ops_of_command (answers objects.now) (event_in self.now))) }
        ensures err { OnErr result (take (length ops.old) ops.new ≡ ops.old) }
    {
        if !with_layouts && self.is_barrier() {
            return Ok(());
        }
        self.append_all(alloc, objects, ops)
    }

    // Whether the command is a barrier, which sets layouts and changes no bytes.
    fn is_barrier(&self) -> bool
        requires { IsRecorded self.now }
        ensures { result ≡ is_barrier (event_in self.now) }
    {
        self.call_id == BARRIER
    }

    // Appends all that the command does. When out of memory the list begins with what it was.
    fn append_all(
        &self,
        alloc: Global,
        objects: &Objects,
        ops: &mut OpList,
    ) -> Result<(), WantMemory>
        requires recorded { IsRecorded self.now }
        requires runs { IsRunnable (answers objects.now) (event_in self.now) }
        ensures ok { OnOk result (ops.new ≡ ops.old ++ ops_of_command (answers objects.now) (event_in self.now)) }
        ensures err { OnErr result (take (length ops.old) ops.new ≡ ops.old) }
    {
        match gfx_params::decode(alloc, 1, self.call_id, self.params) {
            Ok(call) => gfx_ops::append_ops(alloc, &call, objects, ops),
            Err(ParamFault::BadParams) => unreachable!(),
            Err(ParamFault::WantMemory) => Err(WantMemory),
        }
    }
}
