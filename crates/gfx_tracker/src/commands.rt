//! The rows of the commands that are recorded.
ghost use Rattle.std.specs.Prelude.{◌≡◌, OnOk, OnErr, true};
ghost use Rattle.gfx_model.specs.Events.{event_of_call};
ghost use Rattle.gfx_laws.specs.Laws.{is_command};
ghost use Rattle.gfx_laws.specs.Lawful.{cb_of};
ghost use Rattle.gfx_tracker.specs.State.{state_answers};
ghost use Rattle.gfx_tracker.specs.Taking.{after_event, IsNext};

use crate::spelled::command_fits;
use crate::state::State;
use gfx_types::{Call, WantMemory};

/// The row of a command, which is recorded into its command buffer. When out of memory all is as it was.
pub(crate) fn record_command(state: &mut State, call: &Call<'_>) -> Result<(), WantMemory>
    requires next { IsNext (state_answers state.old) (event_of_call call.now) }
    requires command { is_command (event_of_call call.now) ≡ true }
    ensures ok { OnOk result (state_answers state.new ≡ after_event (state_answers state.old) (event_of_call call.now)) }
    ensures err { OnErr result (state_answers state.new ≡ state_answers state.old) }
{
    command_fits(call);
    state.record(command_buffer(call), call)
}

/// The command buffer of a command, 0 of what is no command.
fn command_buffer(call: &Call<'_>) -> u64
    ensures { result ≡ cb_of (event_of_call call.now) }
{
    match call {
        Call::CmdPipelineBarrier { cb, .. }
        | Call::CmdFillBuffer { cb, .. }
        | Call::CmdUpdateBuffer { cb, .. }
        | Call::CmdCopyBuffer { cb, .. }
        | Call::CmdCopyImage { cb, .. }
        | Call::CmdCopyBufferToImage { cb, .. }
        | Call::CmdCopyImageToBuffer { cb, .. }
        | Call::CmdClearColorImage { cb, .. } => *cb,
        _ => 0,
    }
}
