//! The row of fences that are reset.
ghost use Rattle.std.specs.Prelude.{◌≡◌};
ghost use Rattle.gfx_model.specs.Events.Event.{ResetFences};
ghost use Rattle.gfx_tracker.specs.State.{state_answers};
ghost use Rattle.gfx_tracker.specs.Taking.{after_event, IsNext};

use crate::each::unsignal_each;
use crate::state::State;

/// The row of ResetFences.
pub(crate) fn reset_fences(state: &mut State, _device: u64, fences: &[u64])
    requires { IsNext (state_answers state.old) (ResetFences _device fences.now) }
    ensures { state_answers state.new ≡ after_event (state_answers state.old) (ResetFences _device fences.now) }
{
    state.take();
    unsignal_each(state, fences);
}
