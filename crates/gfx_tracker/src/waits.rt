//! The rows that change nothing but that an effect was taken.
ghost use Rattle.std.specs.Prelude.{◌≡◌};
ghost use Rattle.gfx_model.specs.Events.Event.{WaitForFences, GetFenceStatus, QueueWaitIdle, DeviceWaitIdle};
ghost use Rattle.gfx_tracker.specs.State.{state_answers};
ghost use Rattle.gfx_tracker.specs.Taking.{after_event};

use crate::state::State;

/// The row of WaitForFences.
#[tactic(auto, unfolding(gfx_model::specs::Effects::effect_of))]
pub(crate) fn wait_for_fences(
    state: &mut State,
    _device: u64,
    _fences: &[u64],
    _wait_all: u32,
    _answer: u32,
)
    ensures { state_answers state.new ≡ after_event (state_answers state.old) (WaitForFences _device _fences.now _wait_all _answer) }
{
    state.take();
}

/// The row of GetFenceStatus.
#[tactic(auto, unfolding(gfx_model::specs::Effects::effect_of))]
pub(crate) fn get_fence_status(state: &mut State, _device: u64, _fence: u64, _answer: u32)
    ensures { state_answers state.new ≡ after_event (state_answers state.old) (GetFenceStatus _device _fence _answer) }
{
    state.take();
}

/// The row of QueueWaitIdle.
#[tactic(auto, unfolding(gfx_model::specs::Effects::effect_of))]
pub(crate) fn queue_wait_idle(state: &mut State, _queue: u64)
    ensures { state_answers state.new ≡ after_event (state_answers state.old) (QueueWaitIdle _queue) }
{
    state.take();
}

/// The row of DeviceWaitIdle.
#[tactic(auto, unfolding(gfx_model::specs::Effects::effect_of))]
pub(crate) fn device_wait_idle(state: &mut State, _device: u64)
    ensures { state_answers state.new ≡ after_event (state_answers state.old) (DeviceWaitIdle _device) }
{
    state.take();
}
