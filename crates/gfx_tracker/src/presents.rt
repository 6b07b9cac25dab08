//! The row of a present.
ghost use Rattle.std.specs.Prelude.{◌≡◌};
ghost use Rattle.gfx_model.specs.Events.Event.{QueuePresentKHR};
ghost use Rattle.gfx_tracker.specs.State.{state_answers};
ghost use Rattle.gfx_tracker.specs.Taking.{after_event, IsNext};

use crate::each::{give_back_each, unsignal_each};
use crate::state::State;
use gfx_types::Present;

/// The row of QueuePresentKHR: its waits take their signals, its images are given back, and a frame is shown.
pub(crate) fn queue_present(state: &mut State, _queue: u64, waits: &[u64], presents: &[Present])
    requires { IsNext (state_answers state.old) (QueuePresentKHR _queue waits.now presents.now) }
    ensures { state_answers state.new ≡ after_event (state_answers state.old) (QueuePresentKHR _queue waits.now presents.now) }
{
    state.take();
    unsignal_each(state, waits);
    give_back_each(state, presents);
    state.present();
}
