//! The blocks that make instances, surfaces, devices, queues, fences and semaphores.
ghost use Rattle.std.specs.Prelude.{◌≡◌, ◌∷◌, []};
ghost use Rattle.gfx_model.specs.Events.Event.{CreateInstance, CreateHeadlessSurfaceEXT, CreateDevice, GetDeviceQueue, CreateFence, CreateSemaphore, SetSemaphoreState};
ghost use Rattle.gfx_model.specs.Section.{when, mark};
ghost use Rattle.gfx_state.specs.Written.{Wrote};

use crate::StateFault;
use crate::room::Room;
use crate::writer::write_effect;
use gfx_io::Sink;
use gfx_types::{Call, Effect, Meta};

/// 1 for yes, 0 for no.
pub(crate) fn mark(is: bool) -> u32
    ensures { result ≡ mark is }
{
    if is { 1 } else { 0 }
}

/// Writes an instance.
#[tactic(auto, using(gfx_section_law::proofs::Sizes::fixed_small), unfolding(gfx_model::specs::Spelling::fields_of))]
pub(crate) fn write_instance<K: Sink>(
    sink: &mut K,
    room: &mut Room,
    instance: u64,
    api: u32,
) -> Result<(), StateFault>
    ensures { Wrote (K.taken sink.old) (K.taken sink.new) (K.faults sink.old) (K.faults sink.new) (CreateInstance instance api ∷ []) result }
{
    let call = Call::CreateInstance { instance, api };
    write_effect(sink, room, &Effect::Call(call))
}

/// Writes a surface.
#[tactic(auto, using(gfx_section_law::proofs::Sizes::fixed_small), unfolding(gfx_model::specs::Spelling::fields_of))]
pub(crate) fn write_surface<K: Sink>(
    sink: &mut K,
    room: &mut Room,
    instance: u64,
    surface: u64,
) -> Result<(), StateFault>
    ensures { Wrote (K.taken sink.old) (K.taken sink.new) (K.faults sink.old) (K.faults sink.new) (CreateHeadlessSurfaceEXT instance surface ∷ []) result }
{
    let call = Call::CreateHeadlessSurfaceEXT { instance, surface };
    write_effect(sink, room, &Effect::Call(call))
}

/// Writes a device.
#[tactic(auto, using(gfx_section_law::proofs::Sizes::fixed_small), unfolding(gfx_model::specs::Spelling::fields_of))]
pub(crate) fn write_device<K: Sink>(
    sink: &mut K,
    room: &mut Room,
    instance: u64,
    device: u64,
) -> Result<(), StateFault>
    ensures { Wrote (K.taken sink.old) (K.taken sink.new) (K.faults sink.old) (K.faults sink.new) (CreateDevice instance device ∷ []) result }
{
    let call = Call::CreateDevice { instance, device };
    write_effect(sink, room, &Effect::Call(call))
}

/// Writes the queue of a device.
#[tactic(auto, using(gfx_section_law::proofs::Sizes::fixed_small), unfolding(gfx_model::specs::Spelling::fields_of))]
pub(crate) fn write_queue<K: Sink>(
    sink: &mut K,
    room: &mut Room,
    device: u64,
    queue: u64,
) -> Result<(), StateFault>
    ensures { Wrote (K.taken sink.old) (K.taken sink.new) (K.faults sink.old) (K.faults sink.new) (GetDeviceQueue device queue ∷ []) result }
{
    let call = Call::GetDeviceQueue { device, queue };
    write_effect(sink, room, &Effect::Call(call))
}

/// Writes a fence, signalled or not.
#[tactic(auto, using(gfx_section_law::proofs::Sizes::fixed_small), unfolding(gfx_model::specs::Spelling::fields_of))]
pub(crate) fn write_fence<K: Sink>(
    sink: &mut K,
    room: &mut Room,
    device: u64,
    fence: u64,
    flags: u32,
) -> Result<(), StateFault>
    ensures { Wrote (K.taken sink.old) (K.taken sink.new) (K.faults sink.old) (K.faults sink.new) (CreateFence device fence flags ∷ []) result }
{
    let call = Call::CreateFence {
        device,
        fence,
        flags,
    };
    write_effect(sink, room, &Effect::Call(call))
}

// Writes the signal of a semaphore, where it is signalled.
#[tactic(auto, using(gfx_section_law::proofs::Sizes::fixed_small), unfolding(gfx_model::specs::Spelling::fields_of))]
fn write_signal<K: Sink>(
    sink: &mut K,
    room: &mut Room,
    semaphore: u64,
    signalled: bool,
) -> Result<(), StateFault>
    ensures { Wrote (K.taken sink.old) (K.taken sink.new) (K.faults sink.old) (K.faults sink.new) (when signalled (SetSemaphoreState semaphore 1 ∷ [])) result }
{
    if signalled {
        let meta = Meta::SetSemaphoreState {
            semaphore,
            signalled: 1,
        };
        return write_effect(sink, room, &Effect::Meta(meta));
    }
    Ok(())
}

/// Writes a semaphore, and its signal where it is signalled.
#[tactic(auto, using(gfx_section_law::proofs::Sizes::fixed_small), unfolding(gfx_model::specs::Spelling::fields_of))]
pub(crate) fn write_semaphore<K: Sink>(
    sink: &mut K,
    room: &mut Room,
    device: u64,
    semaphore: u64,
    signalled: bool,
) -> Result<(), StateFault>
    ensures { Wrote (K.taken sink.old) (K.taken sink.new) (K.faults sink.old) (K.faults sink.new)
        (CreateSemaphore device semaphore ∷ when signalled (SetSemaphoreState semaphore 1 ∷ [])) result }
{
    let call = Call::CreateSemaphore { device, semaphore };
    write_effect(sink, room, &Effect::Call(call))?;
    write_signal(sink, room, semaphore, signalled)
}
