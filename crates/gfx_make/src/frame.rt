//! Frames.
ghost use Rattle.std.specs.Prelude.{◌≡◌, ◌≤◌, ◌<◌, ◌∷◌, ◌++◌, [], flat_map, length, IfOk, OnOk};
ghost use Rattle.std.specs.List.{range_with_len};
ghost use Rattle.gfx_model.specs.Events.{event_of};
ghost use Rattle.gfx_make.specs.Made as made;
ghost use Rattle.gfx_make.specs.Made.{blocks};

use crate::put::{ids_of, one, put_all};
use gfx_types::{Call, Effect, Meta, Present, Presents, Submit, Submits, WantMemory};
use std::alloc::Global;

/// How many bytes a frame fills in.
const PART: u64 = 40_960;

/// How many such parts the memory has.
const PARTS: u64 = 30;

/// The bytes that a frame fills in.
fn bytes_of(alloc: Global, frame: u64) -> Result<Vec<u8>, WantMemory>
    requires { frame ≤ 1000 }
    ensures { IfOk result (λ bytes. bytes.items ≡ made.frame_bytes frame) }
{
    let mut bytes = Vec::new(alloc);
    'bytes: for j in 0..PART {
        let byte = (31 * frame + 7 * j + j / 256) % 256;
        bytes.push(byte as u8)?;
    }
    Ok(bytes)
}

/// The call that waits for the fence.
fn wait(alloc: Global) -> Result<Effect<'static>, WantMemory>
    ensures { IfOk result (λ effect. event_of effect ≡ made.waits) }
{
    let fences = ids_of(alloc, &[15])?;
    Ok(Effect::Call(Call::WaitForFences {
        device: 3,
        fences,
        wait_all: 1,
        answer: 0,
    }))
}

/// The call that resets the fence.
fn reset(alloc: Global) -> Result<Effect<'static>, WantMemory>
    ensures { IfOk result (λ effect. event_of effect ≡ made.resets) }
{
    let fences = ids_of(alloc, &[15])?;
    Ok(Effect::Call(Call::ResetFences { device: 3, fences }))
}

/// The call that submits a command buffer between the semaphores.
fn submit(alloc: Global, cb: u64) -> Result<Effect<'static>, WantMemory>
    ensures { IfOk result (λ effect. event_of effect ≡ made.submits cb) }
{
    let waits = ids_of(alloc, &[13])?;
    let cbs = ids_of(alloc, &[cb])?;
    let signals = ids_of(alloc, &[14])?;
    let submits = one(
        alloc,
        Submit {
            waits,
            cbs,
            signals,
        },
    )?;
    Ok(Effect::Call(Call::QueueSubmit {
        queue: 4,
        submits: Submits::of(submits),
        fence: 15,
    }))
}

/// The call that presents an image.
fn present(alloc: Global, index: u32) -> Result<Effect<'static>, WantMemory>
    ensures { IfOk result (λ effect. event_of effect ≡ made.shows index) }
{
    let waits = ids_of(alloc, &[14])?;
    let presents = one(
        alloc,
        Present {
            swapchain: 5,
            index,
        },
    )?;
    Ok(Effect::Call(Call::QueuePresentKHR {
        queue: 4,
        waits,
        presents: Presents::of(presents),
    }))
}

/// Appends the blocks of a frame of this image and these bytes.
fn put_blocks(
    alloc: Global,
    index: u32,
    offset: u64,
    bytes: &[u8],
    out: &mut Vec<u8>,
) -> Result<(), WantMemory>
    requires image { index < 2 }
    requires few { length bytes.now ≤ 40960 }
    ensures { OnOk result (out.new.items ≡ out.old.items ++ blocks (made.frame_with index offset bytes.now)) }
{
    let waits = wait(alloc)?;
    let resets = reset(alloc)?;
    let submits = submit(alloc, 11 + u64::from(index))?;
    let shows = present(alloc, index)?;
    put_all(
        &[
            waits,
            resets,
            Effect::Meta(Meta::FillMemory {
                memory: 8,
                offset,
                bytes,
            }),
            Effect::Call(Call::AcquireNextImageKHR {
                device: 3,
                swapchain: 5,
                semaphore: 13,
                fence: 0,
                index,
                answer: 0,
            }),
            submits,
            shows,
        ],
        out,
    )
}

/// Appends the blocks of a frame.
fn put_frame(alloc: Global, frame: u64, out: &mut Vec<u8>) -> Result<(), WantMemory>
    requires low { 1 ≤ frame }
    requires high { frame ≤ 1000 }
    ensures { OnOk result (out.new.items ≡ out.old.items ++ blocks (made.frame_events frame)) }
{
    let bytes = bytes_of(alloc, frame)?;
    let turn = frame - 1;
    put_blocks(alloc, (turn % 2) as u32, turn % PARTS * PART, &bytes, out)
}

/// Appends the blocks of so many frames.
pub(crate) fn put_frames(alloc: Global, frames: u64, out: &mut Vec<u8>) -> Result<(), WantMemory>
    requires { frames ≤ 1000 }
    ensures { OnOk result (out.new.items ≡ out.old.items ++ blocks (flat_map made.frame_events (range_with_len 1 frames))) }
{
    'frames: for done in 0..frames {
        put_frame(alloc, done + 1, out)?;
    }
    Ok(())
}
