//! The rows that create one object.
ghost use Rattle.std.specs.Prelude.{◌≡◌, OnOk, OnErr};
ghost use Rattle.gfx_model.specs.Events.Event.{CreateInstance, CreateHeadlessSurfaceEXT, CreateDevice, AllocateMemory, CreateBuffer, CreateImage, CreateCommandPool, CreateSemaphore, CreateSwapchainKHR, CreateFence};
ghost use Rattle.gfx_tracker.specs.State.{state_answers};
ghost use Rattle.gfx_tracker.specs.Taking.{after_event, IsNext};

use crate::state::State;
use gfx_objects::Detail;
use gfx_types::WantMemory;

/// The row of CreateInstance. When out of memory all is as it was.
pub(crate) fn create_instance(state: &mut State, instance: u64, api: u32) -> Result<(), WantMemory>
    requires { IsNext (state_answers state.old) (CreateInstance instance api) }
    ensures ok { OnOk result (state_answers state.new ≡ after_event (state_answers state.old) (CreateInstance instance api)) }
    ensures err { OnErr result (state_answers state.new ≡ state_answers state.old) }
{
    state.create(instance, 0, Detail::Instance { api })
}

/// The row of CreateHeadlessSurfaceEXT. When out of memory all is as it was.
pub(crate) fn create_surface(
    state: &mut State,
    instance: u64,
    surface: u64,
) -> Result<(), WantMemory>
    requires { IsNext (state_answers state.old) (CreateHeadlessSurfaceEXT instance surface) }
    ensures ok { OnOk result (state_answers state.new ≡ after_event (state_answers state.old) (CreateHeadlessSurfaceEXT instance surface)) }
    ensures err { OnErr result (state_answers state.new ≡ state_answers state.old) }
{
    state.create(surface, instance, Detail::Surface)
}

/// The row of CreateDevice. When out of memory all is as it was.
pub(crate) fn create_device(state: &mut State, instance: u64, device: u64) -> Result<(), WantMemory>
    requires { IsNext (state_answers state.old) (CreateDevice instance device) }
    ensures ok { OnOk result (state_answers state.new ≡ after_event (state_answers state.old) (CreateDevice instance device)) }
    ensures err { OnErr result (state_answers state.new ≡ state_answers state.old) }
{
    state.create(device, instance, Detail::Device)
}

/// The row of AllocateMemory. When out of memory all is as it was.
pub(crate) fn allocate_memory(
    state: &mut State,
    device: u64,
    memory: u64,
    size: u64,
) -> Result<(), WantMemory>
    requires { IsNext (state_answers state.old) (AllocateMemory device memory size) }
    ensures ok { OnOk result (state_answers state.new ≡ after_event (state_answers state.old) (AllocateMemory device memory size)) }
    ensures err { OnErr result (state_answers state.new ≡ state_answers state.old) }
{
    state.create(memory, device, Detail::Memory { size, mapped: None })
}

/// The row of CreateBuffer. When out of memory all is as it was.
pub(crate) fn create_buffer(
    state: &mut State,
    device: u64,
    buffer: u64,
    size: u64,
    usage: u32,
) -> Result<(), WantMemory>
    requires { IsNext (state_answers state.old) (CreateBuffer device buffer size usage) }
    ensures ok { OnOk result (state_answers state.new ≡ after_event (state_answers state.old) (CreateBuffer device buffer size usage)) }
    ensures err { OnErr result (state_answers state.new ≡ state_answers state.old) }
{
    state.create(
        buffer,
        device,
        Detail::Buffer {
            size,
            usage,
            bound: None,
        },
    )
}

/// The row of CreateImage. When out of memory all is as it was.
pub(crate) fn create_image(
    state: &mut State,
    device: u64,
    image: u64,
    format: u32,
    width: u32,
    height: u32,
    usage: u32,
) -> Result<(), WantMemory>
    requires { IsNext (state_answers state.old) (CreateImage device image format width height usage) }
    ensures ok { OnOk result (state_answers state.new ≡ after_event (state_answers state.old) (CreateImage device image format width height usage)) }
    ensures err { OnErr result (state_answers state.new ≡ state_answers state.old) }
{
    state.create(
        image,
        device,
        Detail::Image {
            format,
            width,
            height,
            usage,
            layout: 0,
            bound: None,
            index: None,
        },
    )
}

/// The row of CreateCommandPool. When out of memory all is as it was.
pub(crate) fn create_command_pool(
    state: &mut State,
    device: u64,
    pool: u64,
    flags: u32,
) -> Result<(), WantMemory>
    requires { IsNext (state_answers state.old) (CreateCommandPool device pool flags) }
    ensures ok { OnOk result (state_answers state.new ≡ after_event (state_answers state.old) (CreateCommandPool device pool flags)) }
    ensures err { OnErr result (state_answers state.new ≡ state_answers state.old) }
{
    state.create(pool, device, Detail::Pool { flags })
}

/// The row of CreateSemaphore. When out of memory all is as it was.
pub(crate) fn create_semaphore(
    state: &mut State,
    device: u64,
    semaphore: u64,
) -> Result<(), WantMemory>
    requires { IsNext (state_answers state.old) (CreateSemaphore device semaphore) }
    ensures ok { OnOk result (state_answers state.new ≡ after_event (state_answers state.old) (CreateSemaphore device semaphore)) }
    ensures err { OnErr result (state_answers state.new ≡ state_answers state.old) }
{
    state.create(semaphore, device, Detail::Semaphore)
}

/// The row of CreateSwapchainKHR. When out of memory all is as it was.
pub(crate) fn create_swapchain(
    state: &mut State,
    device: u64,
    swapchain: u64,
    surface: u64,
    images: u32,
    format: u32,
    width: u32,
    height: u32,
    usage: u32,
) -> Result<(), WantMemory>
    requires { IsNext (state_answers state.old) (CreateSwapchainKHR device swapchain surface images format width height usage) }
    ensures ok { OnOk result (state_answers state.new ≡ after_event (state_answers state.old) (CreateSwapchainKHR device swapchain surface images format width height usage)) }
    ensures err { OnErr result (state_answers state.new ≡ state_answers state.old) }
{
    state.create(
        swapchain,
        device,
        Detail::Swapchain {
            surface,
            images,
            format,
            width,
            height,
            usage,
        },
    )
}

/// The row of CreateFence. When out of memory all is as it was.
pub(crate) fn create_fence(
    state: &mut State,
    device: u64,
    fence: u64,
    flags: u32,
) -> Result<(), WantMemory>
    requires { IsNext (state_answers state.old) (CreateFence device fence flags) }
    ensures ok { OnOk result (state_answers state.new ≡ after_event (state_answers state.old) (CreateFence device fence flags)) }
    ensures err { OnErr result (state_answers state.new ≡ state_answers state.old) }
{
    state.create(fence, device, Detail::Fence)?;
    if flags == 1 {
        state.signal(fence);
    }
    Ok(())
}
