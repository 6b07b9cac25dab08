//! The operations of a command.
ghost use Rattle.std.specs.Prelude.{◌≡◌, ◌++◌, IsTrue, length, take, OnOk, OnErr};
ghost use Rattle.gfx_model.specs.Events.{event_of_call};
ghost use Rattle.gfx_model.specs.Events.Event.{CmdPipelineBarrier};
ghost use Rattle.gfx_laws.specs.Lawful.{CommandPasses};
ghost use Rattle.gfx_laws.specs.Laws.{is_command};
ghost use Rattle.gfx_objects.specs.Objects.{answers};
ghost use Rattle.gfx_ops.specs.Operations.{ops_of_command};

use crate::copies::{
    cmd_copy_buffer, cmd_copy_buffer_to_image, cmd_copy_image, cmd_copy_image_to_buffer,
};
use crate::fills::{cmd_clear_color_image, cmd_fill_buffer, cmd_update_buffer};
use crate::region::{Layouts, append_each};
use gfx_objects::Objects;
use gfx_types::{Barriers, Call, OpList, WantMemory, argument, calls};
use std::alloc::Global;

/// A field of a row as its function takes it: a list is lent whole.
macro_rules! lent {
    (records $field:ident) => { $field };
    ($mark:ident $field:ident) => { argument!($mark $field) };
}

/// The operations of a command by its row. An update keeps a copy of its bytes.
macro_rules! appended {
    (@cmd_update_buffer($alloc:expr, $objects:expr, $ops:expr; $($mark:ident $field:ident),+)) => {
        cmd_update_buffer($alloc, $(lent!($mark $field)),+, $objects, $ops)
    };
    (@$row:ident($alloc:expr, $objects:expr, $ops:expr; $($mark:ident $field:ident),+)) => {
        $row($(lent!($mark $field)),+, $objects, $ops)
    };
    ($alloc:expr, $call:expr, $objects:expr, $ops:expr; devices $devices:tt memory $memory:tt pools $pools:tt commands { $($id:literal $name:ident $row:ident($($field:ident: $mark:ident),+);)+ } signals $signals:tt swapchains $swapchains:tt) => {
        match $call {
            $(Call::$name { $($field),+ } => appended!(@$row($alloc, $objects, $ops; $($mark $field),+)),)+
            _ => unreachable!(),
        }
    };
}

/// Appends the operations of a recorded command to a list. The command breaks no check of its row but perhaps that its
/// buffer is recording and that there is room. When out of memory the list begins with what it was.
#[tactic(auto, unfolding(crate::specs::Operations::ops_of_command))]
pub fn append_ops(
    alloc: Global,
    call: &Call<'_>,
    objects: &Objects,
    ops: &mut OpList,
) -> Result<(), WantMemory>
    requires command { IsTrue (is_command (event_of_call call.now)) }
    requires passes { CommandPasses (answers objects.now) (event_of_call call.now) }
    ensures ok { OnOk result (ops.new ≡ ops.old ++ ops_of_command (answers objects.now) (event_of_call call.now)) }
    ensures err { OnErr result (take (length ops.old) ops.new ≡ ops.old) }
{
    calls!(appended, alloc, call, objects, ops)
}

// A barrier sets the layouts of its images.
#[tactic(auto, unfolding(crate::specs::Operations::ops_of_command))]
fn cmd_pipeline_barrier(
    _cb: u64,
    barriers: &Barriers,
    _objects: &Objects,
    ops: &mut OpList,
) -> Result<(), WantMemory>
    ensures ok { OnOk result (ops.new ≡ ops.old ++ ops_of_command (answers _objects.now) (CmdPipelineBarrier _cb barriers.now)) }
    ensures err { OnErr result (take (length ops.old) ops.new ≡ ops.old) }
{
    append_each(&Layouts, barriers.items(), ops)
}
