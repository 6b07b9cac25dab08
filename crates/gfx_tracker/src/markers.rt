//! The rows of the markers of the state section.
ghost use Rattle.std.specs.Prelude.{◌≡◌};
ghost use Rattle.gfx_model.specs.Events.Event.{BeginSection, EndSection};
ghost use Rattle.gfx_tracker.specs.State.{state_answers};
ghost use Rattle.gfx_tracker.specs.Taking.{after_event};

use crate::state::State;

/// The row of a begin marker.
pub(crate) fn begin_section(state: &mut State, frame: u64)
    ensures { state_answers state.new ≡ after_event (state_answers state.old) (BeginSection frame) }
{
    state.begin_section(frame);
}

/// The row of an end marker.
pub(crate) fn end_section(state: &mut State, _frame: u64)
    ensures { state_answers state.new ≡ after_event (state_answers state.old) (EndSection _frame) }
{
    state.end_section();
}
