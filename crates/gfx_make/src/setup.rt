//! What is before the first frame.
ghost use Rattle.std.specs.Prelude.{◌≡◌, ◌<◌, ◌++◌, IfOk, OnOk};
ghost use Rattle.gfx_model.specs.Events.{event_of};
ghost use Rattle.gfx_make.specs.Made as made;
ghost use Rattle.gfx_make.specs.Made.{blocks};

use crate::put::{ids_of, one, put_all};
use gfx_types::{Barrier, Barriers, Call, Effect, MixedRegion, MixedRegions, WantMemory};
use std::alloc::Global;

/// The layout UNDEFINED.
const UNDEFINED: u32 = 0;

/// The layout TRANSFER_DST_OPTIMAL.
const TARGET: u32 = 7;

/// The layout PRESENT_SRC_KHR.
const PRESENT: u32 = 1_000_001_002;

/// The bytes of the memory, as many as an image has.
const SIZE: u64 = 1_228_800;

/// Appends the blocks that make a device and its queue.
#[tactic(auto, using(crate::proofs::Writable::device_writable))]
fn put_device(out: &mut Vec<u8>) -> Result<(), WantMemory>
    ensures { OnOk result (out.new.items ≡ out.old.items ++ blocks made.device) }
{
    put_all(
        &[
            Effect::Call(Call::CreateInstance {
                instance: 1,
                api: 4_194_304,
            }),
            Effect::Call(Call::CreateHeadlessSurfaceEXT {
                instance: 1,
                surface: 2,
            }),
            Effect::Call(Call::CreateDevice {
                instance: 1,
                device: 3,
            }),
            Effect::Call(Call::GetDeviceQueue {
                device: 3,
                queue: 4,
            }),
        ],
        out,
    )
}

/// Appends the blocks that make a swapchain and give its images their ids.
#[tactic(auto, using(crate::proofs::Writable::images_writable))]
fn put_images(alloc: Global, out: &mut Vec<u8>) -> Result<(), WantMemory>
    ensures { OnOk result (out.new.items ≡ out.old.items ++ blocks made.images) }
{
    let images = ids_of(alloc, &[6, 7])?;
    put_all(
        &[
            Effect::Call(Call::CreateSwapchainKHR {
                device: 3,
                swapchain: 5,
                surface: 2,
                images: 2,
                format: 44,
                width: 640,
                height: 480,
                usage: 3,
            }),
            Effect::Call(Call::GetSwapchainImagesKHR {
                device: 3,
                swapchain: 5,
                images,
            }),
        ],
        out,
    )
}

/// Appends the blocks that make a buffer in mapped memory.
#[tactic(auto, using(crate::proofs::Writable::memory_writable))]
fn put_memory(out: &mut Vec<u8>) -> Result<(), WantMemory>
    ensures { OnOk result (out.new.items ≡ out.old.items ++ blocks made.memory) }
{
    put_all(
        &[
            Effect::Call(Call::AllocateMemory {
                device: 3,
                memory: 8,
                size: SIZE,
            }),
            Effect::Call(Call::MapMemory {
                device: 3,
                memory: 8,
                offset: 0,
                size: SIZE,
            }),
            Effect::Call(Call::CreateBuffer {
                device: 3,
                buffer: 9,
                size: SIZE,
                usage: 1,
            }),
            Effect::Call(Call::BindBufferMemory {
                device: 3,
                buffer: 9,
                memory: 8,
                offset: 0,
            }),
        ],
        out,
    )
}

/// Appends the blocks that make two command buffers.
#[tactic(auto, using(crate::proofs::Writable::buffers_writable))]
fn put_buffers(alloc: Global, out: &mut Vec<u8>) -> Result<(), WantMemory>
    ensures { OnOk result (out.new.items ≡ out.old.items ++ blocks made.buffers) }
{
    let buffers = ids_of(alloc, &[11, 12])?;
    put_all(
        &[
            Effect::Call(Call::CreateCommandPool {
                device: 3,
                pool: 10,
                flags: 2,
            }),
            Effect::Call(Call::AllocateCommandBuffers {
                device: 3,
                pool: 10,
                buffers,
            }),
        ],
        out,
    )
}

/// Appends the blocks that make two semaphores and a signalled fence.
#[tactic(auto, using(crate::proofs::Writable::signals_writable))]
fn put_signals(out: &mut Vec<u8>) -> Result<(), WantMemory>
    ensures { OnOk result (out.new.items ≡ out.old.items ++ blocks made.signals) }
{
    put_all(
        &[
            Effect::Call(Call::CreateSemaphore {
                device: 3,
                semaphore: 13,
            }),
            Effect::Call(Call::CreateSemaphore {
                device: 3,
                semaphore: 14,
            }),
            Effect::Call(Call::CreateFence {
                device: 3,
                fence: 15,
                flags: 1,
            }),
        ],
        out,
    )
}

/// The command that an image goes from one layout to another.
fn barrier(
    alloc: Global,
    cb: u64,
    image: u64,
    before: u32,
    after: u32,
) -> Result<Effect<'static>, WantMemory>
    ensures { IfOk result (λ effect. event_of effect ≡ made.goes cb image before after) }
{
    let barriers = one(
        alloc,
        Barrier {
            image,
            before,
            after,
        },
    )?;
    Ok(Effect::Call(Call::CmdPipelineBarrier {
        cb,
        barriers: Barriers::of(barriers),
    }))
}

/// The command that the buffer is copied into a whole image.
fn upload(alloc: Global, cb: u64, image: u64) -> Result<Effect<'static>, WantMemory>
    ensures { IfOk result (λ effect. event_of effect ≡ made.uploads cb image) }
{
    let regions = one(
        alloc,
        MixedRegion {
            offset: 0,
            row: 0,
            rows: 0,
            x: 0,
            y: 0,
            width: 640,
            height: 480,
        },
    )?;
    Ok(Effect::Call(Call::CmdCopyBufferToImage {
        cb,
        source: 9,
        target: image,
        layout: TARGET,
        regions: MixedRegions::of(regions),
    }))
}

/// Appends the blocks that record a command buffer.
fn put_recording(alloc: Global, index: u64, out: &mut Vec<u8>) -> Result<(), WantMemory>
    requires { index < 2 }
    ensures { OnOk result (out.new.items ≡ out.old.items ++ blocks (made.recording index)) }
{
    let cb = 11 + index;
    let image = 6 + index;
    let opens = barrier(alloc, cb, image, UNDEFINED, TARGET)?;
    let copies = upload(alloc, cb, image)?;
    let closes = barrier(alloc, cb, image, TARGET, PRESENT)?;
    put_all(
        &[
            Effect::Call(Call::BeginCommandBuffer { cb, flags: 0 }),
            opens,
            copies,
            closes,
            Effect::Call(Call::EndCommandBuffer { cb }),
        ],
        out,
    )
}

/// Appends the blocks that make all objects.
fn put_objects(alloc: Global, out: &mut Vec<u8>) -> Result<(), WantMemory>
    ensures { OnOk result (out.new.items ≡ out.old.items ++ blocks made.objects) }
{
    put_device(out)?;
    put_images(alloc, out)?;
    put_memory(out)?;
    put_buffers(alloc, out)?;
    put_signals(out)
}

/// Appends the blocks of the setup.
pub(crate) fn put_setup(alloc: Global, out: &mut Vec<u8>) -> Result<(), WantMemory>
    ensures { OnOk result (out.new.items ≡ out.old.items ++ blocks made.setup) }
{
    put_objects(alloc, out)?;
    put_recording(alloc, 0, out)?;
    put_recording(alloc, 1, out)
}
