//! The rows that end one object.
ghost use Rattle.std.specs.Prelude.{◌≡◌};
ghost use Rattle.gfx_model.specs.Events.Event.{DestroyInstance, DestroySurfaceKHR, DestroyDevice, FreeMemory, DestroyBuffer, DestroyImage, DestroyCommandPool, DestroyFence, DestroySemaphore, DestroySwapchainKHR};
ghost use Rattle.gfx_tracker.specs.State.{state_answers};
ghost use Rattle.gfx_tracker.specs.Taking.{after_event, IsNext};

use crate::state::State;

/// The row of DestroyInstance.
pub(crate) fn destroy_instance(state: &mut State, instance: u64)
    requires { IsNext (state_answers state.old) (DestroyInstance instance) }
    ensures { state_answers state.new ≡ after_event (state_answers state.old) (DestroyInstance instance) }
{
    state.end(instance);
}

/// The row of DestroySurfaceKHR.
pub(crate) fn destroy_surface(state: &mut State, _instance: u64, surface: u64)
    requires { IsNext (state_answers state.old) (DestroySurfaceKHR _instance surface) }
    ensures { state_answers state.new ≡ after_event (state_answers state.old) (DestroySurfaceKHR _instance surface) }
{
    state.end(surface);
}

/// The row of DestroyDevice.
pub(crate) fn destroy_device(state: &mut State, device: u64)
    requires { IsNext (state_answers state.old) (DestroyDevice device) }
    ensures { state_answers state.new ≡ after_event (state_answers state.old) (DestroyDevice device) }
{
    state.end(device);
}

/// The row of FreeMemory.
pub(crate) fn free_memory(state: &mut State, _device: u64, memory: u64)
    requires { IsNext (state_answers state.old) (FreeMemory _device memory) }
    ensures { state_answers state.new ≡ after_event (state_answers state.old) (FreeMemory _device memory) }
{
    state.end(memory);
}

/// The row of DestroyBuffer.
pub(crate) fn destroy_buffer(state: &mut State, _device: u64, buffer: u64)
    requires { IsNext (state_answers state.old) (DestroyBuffer _device buffer) }
    ensures { state_answers state.new ≡ after_event (state_answers state.old) (DestroyBuffer _device buffer) }
{
    state.end(buffer);
}

/// The row of DestroyImage.
pub(crate) fn destroy_image(state: &mut State, _device: u64, image: u64)
    requires { IsNext (state_answers state.old) (DestroyImage _device image) }
    ensures { state_answers state.new ≡ after_event (state_answers state.old) (DestroyImage _device image) }
{
    state.end(image);
}

/// The row of DestroyCommandPool.
pub(crate) fn destroy_command_pool(state: &mut State, _device: u64, pool: u64)
    requires { IsNext (state_answers state.old) (DestroyCommandPool _device pool) }
    ensures { state_answers state.new ≡ after_event (state_answers state.old) (DestroyCommandPool _device pool) }
{
    state.end(pool);
}

/// The row of DestroyFence.
pub(crate) fn destroy_fence(state: &mut State, _device: u64, fence: u64)
    requires { IsNext (state_answers state.old) (DestroyFence _device fence) }
    ensures { state_answers state.new ≡ after_event (state_answers state.old) (DestroyFence _device fence) }
{
    state.end(fence);
}

/// The row of DestroySemaphore.
pub(crate) fn destroy_semaphore(state: &mut State, _device: u64, semaphore: u64)
    requires { IsNext (state_answers state.old) (DestroySemaphore _device semaphore) }
    ensures { state_answers state.new ≡ after_event (state_answers state.old) (DestroySemaphore _device semaphore) }
{
    state.end(semaphore);
}

/// The row of DestroySwapchainKHR.
pub(crate) fn destroy_swapchain(state: &mut State, _device: u64, swapchain: u64)
    requires { IsNext (state_answers state.old) (DestroySwapchainKHR _device swapchain) }
    ensures { state_answers state.new ≡ after_event (state_answers state.old) (DestroySwapchainKHR _device swapchain) }
{
    state.end(swapchain);
}
