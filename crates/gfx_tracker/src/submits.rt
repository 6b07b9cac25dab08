//! The row of a submit.
ghost use Rattle.std.specs.Prelude.{◌≡◌, fold, map, flat_map};
ghost use Rattle.std.specs.List.{AllByRecursion};
ghost use Rattle.gfx_model.specs.Events.Event.{QueueSubmit};
ghost use Rattle.gfx_model.specs.Checks.{turns_of_submit};
ghost use Rattle.gfx_model.specs.Layouts.{layouts_by};
ghost use Rattle.gfx_model.specs.After.{after};
ghost use Rattle.gfx_tracker.specs.State.{state_answers};
ghost use Rattle.gfx_tracker.specs.Taking.{after_event, IsNext};
ghost use Rattle.gfx_tracker.specs.Submitted.{own_step, HasSignals, SetLayoutsOfLive};

use crate::each::{execute_each, signal_any, signal_each, unsignal_each};
use crate::state::State;
use gfx_types::Submit;

/// The row of QueueSubmit.
pub(crate) fn queue_submit(state: &mut State, _queue: u64, submits: &[Submit], fence: u64)
    requires { IsNext (state_answers state.old) (QueueSubmit _queue submits.now fence) }
    ensures { state_answers state.new ≡ after_event (state_answers state.old) (QueueSubmit _queue submits.now fence) }
{
    state.take();
    leave_layouts(state, submits);
    execute_submits(state, submits);
    signal_any(state, fence);
}

// Sets the layouts in which the command buffers of submits leave images, one after the other.
fn leave_layouts(state: &mut State, submits: &[Submit])
    requires { AllByRecursion (λ s. AllByRecursion (SetLayoutsOfLive (state_answers state.old)) s.cbs) submits.now }
    ensures { state_answers state.new ≡ record (state_answers state.old) { layout = layouts_by (state_answers state.old).buffer (state_answers state.old).layout (flat_map (λ s. s.cbs) submits.now) } }
{
    'submits: for submit in submits {
        leave_layouts_each(state, submit.cbs.items());
    }
}

// Sets the layouts in which the command buffers of one submit leave images.
fn leave_layouts_each(state: &mut State, cbs: &[u64])
    requires { AllByRecursion (SetLayoutsOfLive (state_answers state.old)) cbs.now }
    ensures { state_answers state.new ≡ record (state_answers state.old) { layout = layouts_by (state_answers state.old).buffer (state_answers state.old).layout cbs.now } }
{
    'cbs: for cb in cbs {
        state.leave_layouts(*cb);
    }
}

// The waits take their signals, the buffers are executed, and what is named is signalled, submit by submit.
fn execute_submits(state: &mut State, submits: &[Submit])
    requires { AllByRecursion (HasSignals (state_answers state.old)) submits.now }
    ensures { state_answers state.new ≡ fold after (state_answers state.old) (map own_step (flat_map turns_of_submit submits.now)) }
{
    'submits: for submit in submits {
        execute_submit(state, submit);
    }
}

// The waits of one submit take their signals, its buffers are executed, and what it names is signalled.
fn execute_submit(state: &mut State, submit: &Submit)
    requires { HasSignals (state_answers state.old) submit.now }
    ensures { state_answers state.new ≡ fold after (state_answers state.old) (map own_step (turns_of_submit submit.now)) }
{
    unsignal_each(state, submit.waits.items());
    execute_each(state, submit.cbs.items());
    signal_each(state, submit.signals.items());
}
