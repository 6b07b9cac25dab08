//! The operations of an effect: what it does to bytes and layouts.
//!
//! Barriers set no bytes and are often most of what command buffers hold, so a replay takes operations without
//! layouts.
ghost use Rattle.std.specs.Prelude.{◌≡◌, ℕ, ◌++◌, [], flat_map, length, take, OnOk, OnErr};
ghost use Rattle.std.specs.List.{AllByRecursion};
ghost use Rattle.gfx_model.specs.Events.{event_of, event_of_call, event_of_meta};
ghost use Rattle.gfx_model.specs.Questions.{passes};
ghost use Rattle.gfx_model.specs.Checks.{turns_of};
ghost use Rattle.gfx_model.specs.Checks.Turn.{execute};
ghost use Rattle.gfx_model.specs.Covers.{is_fetched};
ghost use Rattle.gfx_laws.specs.Lawful.{IsLawful};
ghost use Rattle.gfx_objects.specs.Object.{detail_of};
ghost use Rattle.gfx_objects.specs.Objects.{answers};
ghost use Rattle.gfx_ops.specs.Operations.{listed};
ghost use Rattle.gfx_tracker.specs.State.{state_answers};
ghost use Rattle.gfx_tracker.specs.Taking.{IsNext};
ghost use Rattle.gfx_tracker.specs.Submitted.{IsExecutable};
ghost use Rattle.gfx_tracker.specs.Operations.{ops_of, ops_of_turn, init_ops};

use crate::state::State;
use gfx_objects::{Detail, Objects};
use gfx_types::{Call, Effect, Meta, Op, OpList, Place, Submit, WantMemory};

/// Appends the operations of an effect that breaks no check, with the layouts that they set or without. When out of memory
/// the list is as it was.
pub(crate) fn append_ops(
    state: &State,
    effect: &Effect<'_>,
    with_layouts: bool,
    ops: &mut OpList,
) -> Result<(), WantMemory>
    requires { IsNext (state_answers state.now) (event_of effect.now) }
    ensures ok { OnOk result (ops.new ≡ ops.old ++ listed with_layouts (ops_of (state_answers state.now) (event_of effect.now))) }
    ensures err { OnErr result (ops.new ≡ ops.old) }
{
    match effect {
        Effect::Call(call) => append_call(state, call, with_layouts, ops),
        Effect::Meta(meta) => append_meta(state, meta, with_layouts, ops),
        Effect::Marker { .. } => Ok(()),
    }
}

// Appends the operations of a call: those of a submit, and else none. When out of memory the list is as it was.
#[tactic(auto, using(crate::proofs::Appended::nothing_more), unfolding(crate::specs::Operations::ops_of))]
fn append_call(
    state: &State,
    call: &Call<'_>,
    with_layouts: bool,
    ops: &mut OpList,
) -> Result<(), WantMemory>
    requires { IsNext (state_answers state.now) (event_of_call call.now) }
    ensures ok { OnOk result (ops.new ≡ ops.old ++ listed with_layouts (ops_of (state_answers state.now) (event_of_call call.now))) }
    ensures err { OnErr result (ops.new ≡ ops.old) }
{
    match call {
        Call::QueueSubmit { submits, .. } => {
            append_submits(state, submits.items(), with_layouts, ops)
        }
        _ => Ok(()),
    }
}

// Appends the operations of a metadata with bytes. When out of memory the list is as it was.
#[tactic(auto, using(crate::proofs::Appended::nothing_more), unfolding(crate::specs::Operations::ops_of))]
fn append_meta(
    state: &State,
    meta: &Meta<'_>,
    with_layouts: bool,
    ops: &mut OpList,
) -> Result<(), WantMemory>
    ensures ok { OnOk result (ops.new ≡ ops.old ++ listed with_layouts (ops_of (state_answers state.now) (event_of_meta meta.now))) }
    ensures err { OnErr result (ops.new ≡ ops.old) }
{
    match meta {
        Meta::FillMemory { memory, offset, .. } => ops.push(Op::PutGiven {
            place: Place::Memory(*memory),
            offset: *offset,
        }),
        Meta::InitImage { image, layout, .. } => {
            append_init(&state.registry.objects, *image, *layout, with_layouts, ops)
        }
        _ => Ok(()),
    }
}

// Appends what the command buffers of submits do, in order. When out of memory the list is as it was.
fn append_submits(
    state: &State,
    submits: &[Submit],
    with_layouts: bool,
    ops: &mut OpList,
) -> Result<(), WantMemory>
    requires lawful { ∥ IsLawful (state_answers state.now) [] ∥₁ }
    requires executable { AllByRecursion (λ s. AllByRecursion (IsExecutable (state_answers state.now)) s.cbs) submits.now }
    ensures ok { (fence : ℕ) → OnOk result (ops.new ≡ ops.old ++ listed with_layouts (flat_map (ops_of_turn (state_answers state.now)) (turns_of submits.now fence))) }
    ensures err { OnErr result (ops.new ≡ ops.old) }
{
    let length = ops.items().len();
    if let Err(WantMemory) = expand_submits(state, submits, with_layouts, ops) {
        ops.cut(length);
        return Err(WantMemory);
    }
    Ok(())
}

// Appends the operations of submits. When out of memory some of them may follow what was in the list.
fn expand_submits(
    state: &State,
    submits: &[Submit],
    with_layouts: bool,
    ops: &mut OpList,
) -> Result<(), WantMemory>
    requires lawful { ∥ IsLawful (state_answers state.now) [] ∥₁ }
    requires executable { AllByRecursion (λ s. AllByRecursion (IsExecutable (state_answers state.now)) s.cbs) submits.now }
    ensures ok { OnOk result (ops.new ≡ ops.old ++ flat_map (λ s. flat_map (λ cb. listed with_layouts (ops_of_turn (state_answers state.now) (execute cb))) s.cbs) submits.now) }
    ensures err { OnErr result (take (length ops.old) ops.new ≡ ops.old) }
{
    'submits: for submit in submits {
        expand_each(state, submit.cbs.items(), with_layouts, ops)?;
    }
    Ok(())
}

// Appends the operations of the command buffers of one submit. When out of memory some of them may follow.
fn expand_each(
    state: &State,
    cbs: &[u64],
    with_layouts: bool,
    ops: &mut OpList,
) -> Result<(), WantMemory>
    requires lawful { ∥ IsLawful (state_answers state.now) [] ∥₁ }
    requires executable { AllByRecursion (IsExecutable (state_answers state.now)) cbs.now }
    ensures ok { OnOk result (ops.new ≡ ops.old ++ flat_map (λ cb. listed with_layouts (ops_of_turn (state_answers state.now) (execute cb))) cbs.now) }
    ensures err { OnErr result (take (length ops.old) ops.new ≡ ops.old) }
{
    'cbs: for cb in cbs {
        expand(state, *cb, with_layouts, ops)?;
    }
    Ok(())
}

// Appends what the commands of a buffer do. When out of memory the list is as it was.
fn expand(state: &State, cb: u64, with_layouts: bool, ops: &mut OpList) -> Result<(), WantMemory>
    requires lawful { ∥ IsLawful (state_answers state.now) [] ∥₁ }
    requires executable { IsExecutable (state_answers state.now) cb }
    ensures ok { OnOk result (ops.new ≡ ops.old ++ listed with_layouts (ops_of_turn (state_answers state.now) (execute cb))) }
    ensures err { OnErr result (ops.new ≡ ops.old) }
{
    let objects = &state.registry.objects;
    if with_layouts {
        state.recordings.expand(cb, objects, ops)
    } else {
        state.recordings.expand_bytes(cb, objects, ops)
    }
}

// Appends what an InitImage does. When out of memory the list is as it was.
fn append_init(
    objects: &Objects,
    image: u64,
    layout: u32,
    with_layouts: bool,
    ops: &mut OpList,
) -> Result<(), WantMemory>
    ensures ok { OnOk result (ops.new ≡ ops.old ++ listed with_layouts (init_ops (answers objects.now) image layout)) }
    ensures err { OnErr result (ops.new ≡ ops.old) }
{
    let length = ops.items().len();
    if with_layouts {
        ops.push(Op::SetLayout { image, layout })?;
    }
    if !is_of_swapchain(objects, image) {
        return Ok(());
    }
    let put = Op::PutGiven {
        place: Place::Image(image),
        offset: 0,
    };
    if let Err(WantMemory) = ops.push(put) {
        ops.cut(length);
        return Err(WantMemory);
    }
    Ok(())
}

// Whether a live image is one of a swapchain.
fn is_of_swapchain(objects: &Objects, image: u64) -> bool
    ensures { result ≡ passes (λ o. is_fetched o.detail) ((answers objects.now).live image) }
{
    match objects.get(image) {
        Some(object) => is_indexed(&object.detail),
        None => false,
    }
}

// Whether these are the parameters of an image of a swapchain.
fn is_indexed(detail: &Detail) -> bool
    ensures { result ≡ is_fetched (detail_of detail.now) }
{
    match detail {
        Detail::Image { index, .. } => index.is_some(),
        _ => false,
    }
}
