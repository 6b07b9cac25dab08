//! The rows of command pools and command buffers.
ghost use Rattle.std.specs.Prelude.{◌≡◌, OnOk, OnErr};
ghost use Rattle.gfx_model.specs.Events.Event.{ResetCommandPool, AllocateCommandBuffers, FreeCommandBuffers, BeginCommandBuffer, EndCommandBuffer, ResetCommandBuffer};
ghost use Rattle.gfx_tracker.specs.State.{state_answers};
ghost use Rattle.gfx_tracker.specs.Taking.{after_event, IsNext};

use crate::state::State;
use gfx_objects::Detail;
use gfx_types::WantMemory;

/// The row of ResetCommandPool.
pub(crate) fn reset_command_pool(state: &mut State, _device: u64, pool: u64)
    requires { IsNext (state_answers state.old) (ResetCommandPool _device pool) }
    ensures { state_answers state.new ≡ after_event (state_answers state.old) (ResetCommandPool _device pool) }
{
    state.reset_pool(pool);
}

/// The row of AllocateCommandBuffers. When out of memory all is as it was.
pub(crate) fn allocate_command_buffers(
    state: &mut State,
    _device: u64,
    pool: u64,
    buffers: &[u64],
) -> Result<(), WantMemory>
    requires { IsNext (state_answers state.old) (AllocateCommandBuffers _device pool buffers.now) }
    ensures ok { OnOk result (state_answers state.new ≡ after_event (state_answers state.old) (AllocateCommandBuffers _device pool buffers.now)) }
    ensures err { OnErr result (state_answers state.new ≡ state_answers state.old) }
{
    state.reserve(buffers.len() as u32, pool)?;
    'buffers: for buffer in buffers {
        state.create_owned(*buffer, pool, Detail::CommandBuffer);
    }
    Ok(())
}

/// The row of FreeCommandBuffers.
pub(crate) fn free_command_buffers(state: &mut State, _device: u64, _pool: u64, buffers: &[u64])
    requires { IsNext (state_answers state.old) (FreeCommandBuffers _device _pool buffers.now) }
    ensures { state_answers state.new ≡ after_event (state_answers state.old) (FreeCommandBuffers _device _pool buffers.now) }
{
    'buffers: for buffer in buffers {
        state.end(*buffer);
    }
}

/// The row of BeginCommandBuffer. When out of memory all is as it was.
pub(crate) fn begin_command_buffer(state: &mut State, cb: u64, flags: u32) -> Result<(), WantMemory>
    requires { IsNext (state_answers state.old) (BeginCommandBuffer cb flags) }
    ensures ok { OnOk result (state_answers state.new ≡ after_event (state_answers state.old) (BeginCommandBuffer cb flags)) }
    ensures err { OnErr result (state_answers state.new ≡ state_answers state.old) }
{
    state.begin(cb, flags)
}

/// The row of EndCommandBuffer.
pub(crate) fn end_command_buffer(state: &mut State, cb: u64)
    requires { IsNext (state_answers state.old) (EndCommandBuffer cb) }
    ensures { state_answers state.new ≡ after_event (state_answers state.old) (EndCommandBuffer cb) }
{
    state.finish(cb);
}

/// The row of ResetCommandBuffer.
pub(crate) fn reset_command_buffer(state: &mut State, cb: u64)
    requires { IsNext (state_answers state.old) (ResetCommandBuffer cb) }
    ensures { state_answers state.new ≡ after_event (state_answers state.old) (ResetCommandBuffer cb) }
{
    state.reset(cb);
}
