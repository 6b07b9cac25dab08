//! Calls, each with a spelling whatever its ids.
#![tactic(auto, unfolding(gfx_model::specs::Spelling::fields_of, gfx_model::specs::Spelling::spelling, gfx_model::specs::Spelling::payload, gfx_model::specs::Spelling::type_of, gfx_model::specs::Spelling::id_of, gfx_script_model::specs::Ids::defines_of))]

ghost use Rattle.std.specs.Prelude.{◌≡◌, [], ◌∷◌, IfOk};
ghost use Rattle.gfx_model.specs.Events.{event_of, event_of_call};
ghost use Rattle.gfx_capture.specs.Entry.{event_ids};
ghost use Rattle.gfx_capture.specs.ThreadBuffer.{CanBePut};

use gfx_types::{Barriers, Call, Effect, Ids, Submit, Submits};
use std::alloc::{AllocError, Global};

/// A call that creates one object.
#[derive(Clone, Copy)]
pub enum Creation {
    Instance,
    Surface { instance: u64 },
    Device { instance: u64 },
    Queue { device: u64 },
    Pool { device: u64 },
    CommandBuffer { device: u64, pool: u64 },
    Fence { device: u64 },
}

impl Creation {
    /// The effect, with this id for the object.
    pub fn effect<'a>(self, alloc: Global, id: u64) -> Result<Effect<'a>, AllocError>
        ensures fits { IfOk result (λ effect. CanBePut 1 (event_of effect)) }
        ensures ids { IfOk result (λ effect. event_ids (event_of effect) ≡ id ∷ []) }
    {
        match self {
            Creation::Instance => Ok(Effect::Call(Call::CreateInstance {
                instance: id,
                api: 1,
            })),
            Creation::Surface { instance } => Ok(Effect::Call(Call::CreateHeadlessSurfaceEXT {
                instance,
                surface: id,
            })),
            Creation::Device { instance } => Ok(Effect::Call(Call::CreateDevice {
                instance,
                device: id,
            })),
            Creation::Queue { device } => {
                Ok(Effect::Call(Call::GetDeviceQueue { device, queue: id }))
            }
            Creation::Pool { device } => Ok(Effect::Call(Call::CreateCommandPool {
                device,
                pool: id,
                flags: 2,
            })),
            Creation::CommandBuffer { device, pool } => allocate(alloc, device, pool, id),
            Creation::Fence { device } => Ok(Effect::Call(Call::CreateFence {
                device,
                fence: id,
                flags: 0,
            })),
        }
    }
}

/// One command buffer of a pool.
fn allocate<'a>(alloc: Global, device: u64, pool: u64, cb: u64) -> Result<Effect<'a>, AllocError>
    ensures fits { IfOk result (λ effect. CanBePut 1 (event_of effect)) }
    ensures ids { IfOk result (λ effect. event_ids (event_of effect) ≡ cb ∷ []) }
{
    let buffers = Ids::of(vec![in alloc; cb]?);
    Ok(Effect::Call(Call::AllocateCommandBuffers {
        device,
        pool,
        buffers,
    }))
}

/// A call that creates nothing.
#[derive(Clone, Copy)]
pub enum Use {
    DestroyInstance { instance: u64 },
    DestroyDevice { device: u64 },
    DestroyPool { device: u64, pool: u64 },
    DestroyFence { device: u64, fence: u64 },
    Begin { cb: u64 },
    /// A barrier of no image.
    Barrier { cb: u64 },
    End { cb: u64 },
    Submit { queue: u64, cb: u64 },
}

impl Use {
    /// The effect.
    pub fn effect<'a>(self, alloc: Global) -> Result<Effect<'a>, AllocError>
        ensures fits { IfOk result (λ effect. CanBePut 1 (event_of effect)) }
        ensures ids { IfOk result (λ effect. event_ids (event_of effect) ≡ []) }
    {
        match self {
            Use::DestroyInstance { instance } => {
                Ok(Effect::Call(Call::DestroyInstance { instance }))
            }
            Use::DestroyDevice { device } => Ok(Effect::Call(Call::DestroyDevice { device })),
            Use::DestroyPool { device, pool } => {
                Ok(Effect::Call(Call::DestroyCommandPool { device, pool }))
            }
            Use::DestroyFence { device, fence } => {
                Ok(Effect::Call(Call::DestroyFence { device, fence }))
            }
            Use::Begin { cb } => Ok(Effect::Call(Call::BeginCommandBuffer { cb, flags: 0 })),
            Use::Barrier { cb } => Ok(Effect::Call(barrier(alloc, cb))),
            Use::End { cb } => Ok(Effect::Call(Call::EndCommandBuffer { cb })),
            Use::Submit { queue, cb } => submit(alloc, queue, cb),
        }
    }
}

/// A barrier of no image.
fn barrier<'a>(alloc: Global, cb: u64) -> Call<'a>
    ensures fits { CanBePut 1 (event_of_call result) }
    ensures ids { event_ids (event_of_call result) ≡ [] }
{
    let barriers = Barriers::of(Vec::new(alloc));
    Call::CmdPipelineBarrier { cb, barriers }
}

/// A submit of one command buffer.
fn submit<'a>(alloc: Global, queue: u64, cb: u64) -> Result<Effect<'a>, AllocError>
    ensures fits { IfOk result (λ effect. CanBePut 1 (event_of effect)) }
    ensures ids { IfOk result (λ effect. event_ids (event_of effect) ≡ []) }
{
    let batch = Submit {
        waits: Ids::of(Vec::new(alloc)),
        cbs: Ids::of(vec![in alloc; cb]?),
        signals: Ids::of(Vec::new(alloc)),
    };
    Ok(Effect::Call(Call::QueueSubmit {
        queue,
        submits: Submits::of(vec![in alloc; batch]?),
        fence: 0,
    }))
}
