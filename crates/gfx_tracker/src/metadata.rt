//! The rows of metadata: bytes of memory, images, acquired marks and signals of semaphores.
ghost use Rattle.std.specs.Prelude.{◌≡◌, ◌==◌, ◌<◌, true, if◌then◌else◌};
ghost use Rattle.gfx_types.specs.declared.names.Kind.TheVariants as kind;
ghost use Rattle.gfx_model.specs.Events.Event.{FillMemory, InitImage, SetSemaphoreState, SetSwapchainState};
ghost use Rattle.gfx_model.specs.Steps.Step.{acquires, gives_back};
ghost use Rattle.gfx_model.specs.Views.{is_live, images_in};
ghost use Rattle.gfx_model.specs.After.{after};
ghost use Rattle.gfx_tracker.specs.State.{state_answers};
ghost use Rattle.gfx_tracker.specs.Taking.{after_event, IsNext};

use crate::state::State;

/// The row of SetSemaphoreState.
pub(crate) fn set_semaphore_state(state: &mut State, semaphore: u64, signalled: u32)
    requires { IsNext (state_answers state.old) (SetSemaphoreState semaphore signalled) }
    ensures { state_answers state.new ≡ after_event (state_answers state.old) (SetSemaphoreState semaphore signalled) }
{
    if signalled == 1 {
        state.signal(semaphore);
    } else {
        state.unsignal(semaphore);
    }
}

/// The row of FillMemory, whose bytes are put by an operation.
pub(crate) fn fill_memory(state: &mut State, _memory: u64, _offset: u64, _bytes: &[u8])
    ensures { state_answers state.new ≡ after_event (state_answers state.old) (FillMemory _memory _offset _bytes.now) }
{
    state.take();
}

/// The row of InitImage: the image gets a layout. The bytes of one of a swapchain are put by an operation.
pub(crate) fn init_image(state: &mut State, image: u64, layout: u32, _bytes: &[u8])
    requires { IsNext (state_answers state.old) (InitImage image layout _bytes.now) }
    ensures { state_answers state.new ≡ after_event (state_answers state.old) (InitImage image layout _bytes.now) }
{
    state.set_layout(image, layout);
}

/// The row of SetSwapchainState: each image is acquired or given back, by its mark.
pub(crate) fn set_swapchain_state(state: &mut State, swapchain: u64, acquired: &[u32])
    requires { IsNext (state_answers state.old) (SetSwapchainState swapchain acquired.now) }
    ensures { state_answers state.new ≡ after_event (state_answers state.old) (SetSwapchainState swapchain acquired.now) }
{
    state.take();
    'marks: for index in 0..acquired.len() {
        set_mark(state, swapchain, index as u32, acquired[index]);
    }
}

// Acquires an image of a live swapchain, or gives it back.
fn set_mark(state: &mut State, swapchain: u64, index: u32, mark: u32)
    requires live { is_live (state_answers state.old) kind.Swapchain swapchain ≡ true }
    requires index { index < images_in (state_answers state.old) swapchain }
    ensures { state_answers state.new ≡ after (state_answers state.old) (if mark == 1 then acquires swapchain index else gives_back swapchain index) }
{
    if mark == 1 {
        state.acquire(swapchain, index);
    } else {
        state.give_back(swapchain, index);
    }
}
