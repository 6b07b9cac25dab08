//! The blocks of a pool and its command buffers.
ghost use Rattle.std.specs.Prelude.{◌≡◌, ◌≤◌, ◌^◌, ◌∷◌, ◌++◌, [], true, length, filter, flat_map, IfOk};
ghost use Rattle.std.specs.List.{AllByRecursion};
ghost use Rattle.gfx_types.specs.declared.names.Kind.TheVariants as kind;
ghost use Rattle.gfx_model.specs.Events.Event.{CreateCommandPool, BeginCommandBuffer, EndCommandBuffer};
ghost use Rattle.gfx_model.specs.Spelling.{payload};
ghost use Rattle.gfx_model.specs.Questions.{is_kept};
ghost use Rattle.gfx_model.specs.Section as section;
ghost use Rattle.gfx_objects.specs.Objects.{answers};
ghost use Rattle.gfx_commands.specs.Recorded.{event_with, AreFields};
ghost use Rattle.gfx_commands.specs.Recordings.{buffers};
ghost use Rattle.gfx_state.specs.Ids.{children_in};
ghost use Rattle.gfx_state.specs.Pools.{CommandsFit, recorded_anew};
ghost use Rattle.gfx_state.specs.Written.{Wrote};
ghost use Rattle.gfx_model.specs.Limits.{max_live_objects, max_payload};

use crate::StateFault;
use crate::ids::{ids_of, owned_ids};
use crate::keep::Keep;
use crate::owned::Owned;
use crate::room::Room;
use crate::writer::write_effect;
use gfx_commands::{CbState, Recordings};
use gfx_io::Sink;
use gfx_objects::Objects;
use gfx_params::{ParamFault, decode};
use gfx_types::{Call, Effect, Kind};
use std::alloc::{AllocError, Global};

// Writes a recorded command.
fn write_command<K: Sink>(
    sink: &mut K,
    room: &mut Room,
    call_id: u32,
    params: &[u8],
) -> Result<(), StateFault>
    requires recorded { AreFields call_id params.now }
    requires small { length (payload 1 0 (event_with call_id params.now)) ≤ max_payload }
    ensures { Wrote (K.taken sink.old) (K.taken sink.new) (K.faults sink.old) (K.faults sink.new) (event_with call_id params.now ∷ []) result }
{
    match decode(room.alloc, 1, call_id, params) {
        Ok(call) => write_effect(sink, room, &Effect::Call(call)),
        Err(ParamFault::BadParams) => unreachable!(),
        Err(ParamFault::WantMemory) => Err(StateFault::WantMemory),
    }
}

// Writes the commands of a buffer, which is recording or executable.
fn write_commands<K: Sink>(
    sink: &mut K,
    room: &mut Room,
    recordings: &Recordings,
    cb: u64,
) -> Result<(), StateFault>
    requires kept { is_kept (buffers recordings.now cb).state ≡ true }
    requires small { AllByRecursion (λ c. length (payload 1 0 c) ≤ max_payload) (buffers recordings.now cb).commands }
    ensures { Wrote (K.taken sink.old) (K.taken sink.new) (K.faults sink.old) (K.faults sink.new) (buffers recordings.now cb).commands result }
{
    let _totals = recordings.totals();
    let mut k = 0;
    'commands: while let Some(command) = recordings.command(cb, k) {
        write_command(sink, room, command.call_id, command.params)?;
        k += 1;
    }
    Ok(())
}

// Writes that a buffer is begun.
#[tactic(auto, using(gfx_section_law::proofs::Sizes::fixed_small), unfolding(gfx_model::specs::Spelling::fields_of))]
fn write_begin<K: Sink>(
    sink: &mut K,
    room: &mut Room,
    cb: u64,
    flags: u32,
) -> Result<(), StateFault>
    ensures { Wrote (K.taken sink.old) (K.taken sink.new) (K.faults sink.old) (K.faults sink.new)
        (BeginCommandBuffer cb flags ∷ []) result }
{
    write_effect(
        sink,
        room,
        &Effect::Call(Call::BeginCommandBuffer { cb, flags }),
    )
}

// Writes that a buffer is ended.
#[tactic(auto, using(gfx_section_law::proofs::Sizes::fixed_small), unfolding(gfx_model::specs::Spelling::fields_of))]
fn write_end<K: Sink>(sink: &mut K, room: &mut Room, cb: u64) -> Result<(), StateFault>
    ensures { Wrote (K.taken sink.old) (K.taken sink.new) (K.faults sink.old) (K.faults sink.new) (EndCommandBuffer cb ∷ []) result }
{
    write_effect(sink, room, &Effect::Call(Call::EndCommandBuffer { cb }))
}

// Writes that a recording or executable buffer is begun, and its commands.
fn write_begun<K: Sink>(
    sink: &mut K,
    room: &mut Room,
    recordings: &Recordings,
    cb: u64,
) -> Result<(), StateFault>
    requires kept { is_kept (buffers recordings.now cb).state ≡ true }
    requires fit { CommandsFit (buffers recordings.now) }
    ensures { Wrote (K.taken sink.old) (K.taken sink.new) (K.faults sink.old) (K.faults sink.new)
        (BeginCommandBuffer cb (buffers recordings.now cb).flags ∷ (buffers recordings.now cb).commands) result }
{
    write_begin(sink, room, cb, recordings.flags(cb))?;
    write_commands(sink, room, recordings, cb)
}

// Writes a recording or executable buffer anew, and nothing of any other.
fn write_recording<K: Sink>(
    sink: &mut K,
    room: &mut Room,
    recordings: &Recordings,
    cb: u64,
) -> Result<(), StateFault>
    requires { CommandsFit (buffers recordings.now) }
    ensures { Wrote (K.taken sink.old) (K.taken sink.new) (K.faults sink.old) (K.faults sink.new) (recorded_anew (buffers recordings.now) cb) result }
{
    match recordings.state(cb) {
        CbState::Recording => write_begun(sink, room, recordings, cb),
        CbState::Executable => {
            write_begun(sink, room, recordings, cb)?;
            write_end(sink, room, cb)
        }
        CbState::Initial => Ok(()),
        CbState::Invalid => Ok(()),
    }
}

// Writes the buffers of a pool that are recording or executable.
fn write_recordings<K: Sink>(
    sink: &mut K,
    room: &mut Room,
    recordings: &Recordings,
    cbs: &[u64],
) -> Result<(), StateFault>
    requires { CommandsFit (buffers recordings.now) }
    ensures { Wrote (K.taken sink.old) (K.taken sink.new) (K.faults sink.old) (K.faults sink.new)
        (flat_map (recorded_anew (buffers recordings.now)) cbs.now) result }
{
    'buffers: for cb in cbs {
        write_recording(sink, room, recordings, *cb)?;
    }
    Ok(())
}

// Writes the allocation of a pool's buffers, where it has some.
fn write_allocation<K: Sink>(
    sink: &mut K,
    room: &mut Room,
    device: u64,
    pool: u64,
    cbs: &[u64],
) -> Result<(), StateFault>
    requires { length cbs.now ≤ max_live_objects }
    ensures { Wrote (K.taken sink.old) (K.taken sink.new) (K.faults sink.old) (K.faults sink.new) (section.allocate_event device pool cbs.now) result }
{
    match cbs {
        [] => Ok(()),
        [_, ..] => {
            let call = Call::AllocateCommandBuffers {
                device,
                pool,
                buffers: ids_of(room.alloc, cbs)?,
            };
            write_effect(sink, room, &Effect::Call(call))
        }
    }
}

// The kept buffers of a pool, rising.
fn kept_buffers<P: Keep>(
    alloc: Global,
    objects: &Objects,
    keep: &P,
    pool: u64,
) -> Result<Vec<u64>, AllocError>
    ensures ids { IfOk result (λ ids. ids.items ≡ filter (P.kept keep.now).id (children_in (answers objects.now) kind.CommandBuffer pool)) }
    ensures few { IfOk result (λ ids. length ids.items ≤ max_live_objects) }
{
    let mut cbs = owned_ids(alloc, objects, Kind::CommandBuffer, pool)?;
    cbs.retain(|cb| keep.keeps(*cb));
    Ok(cbs)
}

/// Writes what is recorded in the kept buffers of a pool.
pub(crate) fn write_recorded<P: Keep, K: Sink>(
    sink: &mut K,
    room: &mut Room,
    objects: &Objects,
    recordings: &Recordings,
    keep: &P,
    pool: u64,
) -> Result<(), StateFault>
    requires { CommandsFit (buffers recordings.now) }
    ensures { let cbs = filter (P.kept keep.now).id (children_in (answers objects.now) kind.CommandBuffer pool) in
        Wrote (K.taken sink.old) (K.taken sink.new) (K.faults sink.old) (K.faults sink.new)
        (flat_map (recorded_anew (buffers recordings.now)) cbs) result }
{
    let cbs = kept_buffers(room.alloc, objects, keep, pool)?;
    write_recordings(sink, room, recordings, &cbs)
}

// Writes what follows the creation of a pool: its kept buffers, and what is recorded in them.
fn write_buffers<P: Keep, K: Sink>(
    sink: &mut K,
    room: &mut Room,
    objects: &Objects,
    recordings: &Recordings,
    keep: &P,
    owned: Owned,
) -> Result<(), StateFault>
    requires { CommandsFit (buffers recordings.now) }
    ensures { let cbs = filter (P.kept keep.now).id (children_in (answers objects.now) kind.CommandBuffer owned.id) in
        Wrote (K.taken sink.old) (K.taken sink.new) (K.faults sink.old) (K.faults sink.new)
        (section.allocate_event owned.parent owned.id cbs ++ flat_map (recorded_anew (buffers recordings.now)) cbs) result }
{
    let cbs = kept_buffers(room.alloc, objects, keep, owned.id)?;
    write_allocation(sink, room, owned.parent, owned.id, &cbs)?;
    write_recordings(sink, room, recordings, &cbs)
}

/// Writes a pool with its kept buffers and what is recorded in them.
#[tactic(auto, using(gfx_section_law::proofs::Sizes::fixed_small), unfolding(gfx_model::specs::Spelling::fields_of))]
pub(crate) fn write_pool<P: Keep, K: Sink>(
    sink: &mut K,
    room: &mut Room,
    objects: &Objects,
    recordings: &Recordings,
    keep: &P,
    owned: Owned,
    flags: u32,
) -> Result<(), StateFault>
    requires { CommandsFit (buffers recordings.now) }
    ensures { let cbs = filter (P.kept keep.now).id (children_in (answers objects.now) kind.CommandBuffer owned.id) in
        Wrote (K.taken sink.old) (K.taken sink.new) (K.faults sink.old) (K.faults sink.new)
        (CreateCommandPool owned.parent owned.id flags ∷ section.allocate_event owned.parent owned.id cbs
        ++ flat_map (recorded_anew (buffers recordings.now)) cbs) result }
{
    let call = Call::CreateCommandPool {
        device: owned.parent,
        pool: owned.id,
        flags,
    };
    write_effect(sink, room, &Effect::Call(call))?;
    write_buffers(sink, room, objects, recordings, keep, owned)
}
