//! The row of queues that are fetched.
ghost use Rattle.std.specs.Prelude.{◌≡◌, OnOk, OnErr};
ghost use Rattle.gfx_model.specs.Events.Event.{GetDeviceQueue};
ghost use Rattle.gfx_tracker.specs.State.{state_answers};
ghost use Rattle.gfx_tracker.specs.Taking.{after_event, IsNext};

use crate::state::State;
use gfx_objects::Detail;
use gfx_types::WantMemory;

/// The row of GetDeviceQueue. An id that was used is that of the queue itself, since a new one would have been checked.
/// When out of memory all is as it was.
pub(crate) fn get_device_queue(state: &mut State, device: u64, queue: u64) -> Result<(), WantMemory>
    requires { IsNext (state_answers state.old) (GetDeviceQueue device queue) }
    ensures ok { OnOk result (state_answers state.new ≡ after_event (state_answers state.old) (GetDeviceQueue device queue)) }
    ensures err { OnErr result (state_answers state.new ≡ state_answers state.old) }
{
    if state.registry.objects.was_used(queue) {
        state.take();
        return Ok(());
    }
    state.create(queue, device, Detail::Queue)
}
