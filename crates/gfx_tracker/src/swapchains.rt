//! The rows of swapchains: images that are fetched, and images that are acquired.
ghost use Rattle.std.specs.Prelude.{◌≡◌, OnOk, OnErr};
ghost use Rattle.gfx_model.specs.Events.Event.{GetSwapchainImagesKHR, AcquireNextImageKHR};
ghost use Rattle.gfx_model.specs.Views.{format_at, width_of, height_of, usage_in};
ghost use Rattle.gfx_objects.specs.Objects.{answers};
ghost use Rattle.gfx_tracker.specs.State.{state_answers};
ghost use Rattle.gfx_tracker.specs.Taking.{after_event, IsNext};

use crate::each::signal_any;
use crate::sought::fetched_at;
use crate::state::State;
use gfx_objects::{Detail, Objects};
use gfx_types::WantMemory;

// The format, the extent in texels and the usage of images.
struct Shape {
    format: u32,
    width: u32,
    height: u32,
    usage: u32,
}

/// The row of GetSwapchainImagesKHR: the images get their ids by index, unless they were fetched before. When out of memory
/// all is as it was.
pub(crate) fn get_swapchain_images(
    state: &mut State,
    _device: u64,
    swapchain: u64,
    images: &[u64],
) -> Result<(), WantMemory>
    requires { IsNext (state_answers state.old) (GetSwapchainImagesKHR _device swapchain images.now) }
    ensures ok { OnOk result (state_answers state.new ≡ after_event (state_answers state.old) (GetSwapchainImagesKHR _device swapchain images.now)) }
    ensures err { OnErr result (state_answers state.new ≡ state_answers state.old) }
{
    if fetched_at(&state.registry.objects, swapchain, 0).is_some() {
        state.take();
        return Ok(());
    }
    let Shape {
        format,
        width,
        height,
        usage,
    } = shape_of(&state.registry.objects, swapchain);
    state.reserve(images.len() as u32, swapchain)?;
    'images: for index in 0..images.len() {
        let detail = Detail::Image {
            format,
            width,
            height,
            usage,
            layout: 0,
            bound: None,
            index: Some(index as u32),
        };
        state.create_owned(images[index], swapchain, detail);
    }
    Ok(())
}

// What the images of a live swapchain are like; zeros for any other id.
fn shape_of(objects: &Objects, swapchain: u64) -> Shape
    ensures format { result.format ≡ format_at (answers objects.now) swapchain }
    ensures width { result.width ≡ width_of (answers objects.now) swapchain }
    ensures height { result.height ≡ height_of (answers objects.now) swapchain }
    ensures usage { result.usage ≡ usage_in (answers objects.now) swapchain }
{
    Shape {
        format: objects.format(swapchain),
        width: objects.width(swapchain),
        height: objects.height(swapchain),
        usage: objects.image_usage(swapchain),
    }
}

/// The row of AcquireNextImageKHR: an image is acquired, and what is named is signalled, where the answer is not 1.
pub(crate) fn acquire_next_image(
    state: &mut State,
    _device: u64,
    swapchain: u64,
    semaphore: u64,
    fence: u64,
    index: u32,
    answer: u32,
)
    requires { IsNext (state_answers state.old) (AcquireNextImageKHR _device swapchain semaphore fence index answer) }
    ensures { state_answers state.new ≡ after_event (state_answers state.old) (AcquireNextImageKHR _device swapchain semaphore fence index answer) }
{
    if answer == 1 {
        state.take();
    } else {
        state.acquire(swapchain, index);
        signal_any(state, semaphore);
        signal_any(state, fence);
    }
}
