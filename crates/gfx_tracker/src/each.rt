//! Steps of several items, one after another.
ghost use Rattle.std.specs.Prelude.{◌≡◌, ◌==◌, false, fold, map};
ghost use Rattle.std.specs.List.{AllByRecursion};
ghost use Rattle.gfx_model.specs.Steps.Step.{signals, unsignals, executed, gives_back};
ghost use Rattle.gfx_model.specs.Effects.{signals_any};
ghost use Rattle.gfx_model.specs.After.{after};
ghost use Rattle.gfx_tracker.specs.State.{state_answers};
ghost use Rattle.gfx_tracker.specs.Taking.{HasSignal, HasIndex};

use crate::state::State;
use gfx_types::Present;

/// Takes the signals of live fences or semaphores away.
pub(crate) fn unsignal_each(state: &mut State, ids: &[u64])
    requires { AllByRecursion (HasSignal (state_answers state.old)) ids.now }
    ensures { state_answers state.new ≡ fold after (state_answers state.old) (map unsignals ids.now) }
{
    'ids: for id in ids {
        state.unsignal(*id);
    }
}

/// Signals live fences or semaphores.
pub(crate) fn signal_each(state: &mut State, ids: &[u64])
    requires { AllByRecursion (HasSignal (state_answers state.old)) ids.now }
    ensures { state_answers state.new ≡ fold after (state_answers state.old) (map signals ids.now) }
{
    'ids: for id in ids {
        state.signal(*id);
    }
}

/// Signals a live fence or semaphore, where the id is not 0.
pub(crate) fn signal_any(state: &mut State, id: u64)
    requires { (id == 0) ≡ false → HasSignal (state_answers state.old) id }
    ensures { state_answers state.new ≡ fold after (state_answers state.old) (signals_any id) }
{
    if id != 0 {
        state.signal(id);
    }
}

/// Command buffers were executed.
pub(crate) fn execute_each(state: &mut State, cbs: &[u64])
    ensures { state_answers state.new ≡ fold after (state_answers state.old) (map executed cbs.now) }
{
    'cbs: for cb in cbs {
        state.execute(*cb);
    }
}

/// Gives images of live swapchains back.
pub(crate) fn give_back_each(state: &mut State, presents: &[Present])
    requires { AllByRecursion (HasIndex (state_answers state.old)) presents.now }
    ensures { state_answers state.new ≡ fold after (state_answers state.old) (map (λ p. gives_back p.swapchain p.index) presents.now) }
{
    'presents: for present in presents {
        state.give_back(present.swapchain, present.index);
    }
}
