//! The tracker: what follows the effects of a capture, and which effect may follow.
//!
//! `expand` appends operations and changes nothing, and `take` changes the state and makes no operation, so a submit
//! without memory for its last operation leaves both as they were. Who has asked `fault_of` goes on with `take`, and
//! no check is made twice.
ghost use Rattle.std.specs.Prelude.{◌≡◌, ℕ, ◌++◌, [], None, filter, length, OnOk, OnErr, IfOk};
ghost use Rattle.gfx_model.specs.Events.{event_of};
ghost use Rattle.gfx_model.specs.Table.{checks_of};
ghost use Rattle.gfx_model.specs.Checks.{first_broken};
ghost use Rattle.gfx_model.specs.Views.{view_of, image_at, images_in};
ghost use Rattle.gfx_laws.specs.Lawful.{IsLawful};
ghost use Rattle.gfx_objects.specs.Objects as objects;
ghost use Rattle.gfx_ops.specs.Operations.{changes_bytes};
ghost use Rattle.gfx_commands.specs.Recordings.{buffers};
ghost use Rattle.gfx_swap.specs.Signals.{is_signalled};
ghost use Rattle.gfx_swap.specs.Acquired.{is_acquired, marks_of};
ghost use Rattle.gfx_tracker.specs.State.{state_answers};
ghost use Rattle.gfx_tracker.specs.Taking.{after_event};
ghost use Rattle.gfx_tracker.specs.Operations.{ops_of};
ghost use Rattle.gfx_tracker.specs.Outcome.{outcome_of, rule_in};

use crate::expansion::append_ops;
use crate::outcome::{ApplyFault, Outcome, outcome_of};
use crate::rows::take_effect;
use crate::state::State;
use gfx_commands::Recordings;
use gfx_objects::Objects;
use gfx_rules::Answers;
use gfx_swap::{Swaps, Sync};
use gfx_types::{Effect, Fault, OpList, WantMemory};
use std::alloc::Global;

/// What follows the effects of a capture. Its answers are as after some history without a fault.
#[derive(Drop)]
pub struct Tracker {
    state: State,
    ghost lawful: { ∥ IsLawful (state_answers state) [] ∥₁ },
}

#[tactic(auto, unfolding(crate::specs::Tracker::answers))]
impl Tracker {
    ghost use Rattle.gfx_tracker.specs.Tracker.{answers, SameObjects};

    /// Stands for the capture without effects.
    pub fn new(alloc: Global) -> Self
        ensures { answers result ≡ view_of [] }
    {
        Tracker {
            state: State::new(alloc),
        }
    }

    /// The fault of the first check that the effect breaks, where it breaks one. It never runs out of memory: of a submit it takes some
    /// where there is some, and is slower where there is none.
    pub fn fault_of(&self, effect: &Effect<'_>) -> Option<Fault>
        ensures { result ≡ first_broken (answers self.now) (checks_of (event_of effect.now)) }
    {
        self.state.fault_of(effect)
    }

    /// Appends the operations of an effect that breaks no check: what it does to bytes and layouts. When out of memory the
    /// list is as it was.
    pub fn expand(&self, effect: &Effect<'_>, ops: &mut OpList) -> Result<(), WantMemory>
        requires { first_broken (answers self.now) (checks_of (event_of effect.now)) ≡ None }
        ensures ok { OnOk result (ops.new ≡ ops.old ++ ops_of (answers self.now) (event_of effect.now)) }
        ensures err { OnErr result (ops.new ≡ ops.old) }
    {
        append_ops(&self.state, effect, true, ops)
    }

    /// Appends the operations of an effect that breaks no check, those that change bytes alone. When out of memory the list is
    /// as it was.
    pub fn expand_bytes(&self, effect: &Effect<'_>, ops: &mut OpList) -> Result<(), WantMemory>
        requires { first_broken (answers self.now) (checks_of (event_of effect.now)) ≡ None }
        ensures ok { OnOk result (ops.new ≡ ops.old ++ filter changes_bytes (ops_of (answers self.now) (event_of effect.now))) }
        ensures err { OnErr result (ops.new ≡ ops.old) }
    {
        append_ops(&self.state, effect, false, ops)
    }

    /// Takes an effect that breaks no check. When out of memory the tracker is as it was.
    pub fn take(&mut self, effect: &Effect<'_>) -> Result<Outcome, WantMemory>
        requires { first_broken (answers self.old) (checks_of (event_of effect.now)) ≡ None }
        ensures ok { OnOk result (answers self.new ≡ after_event (answers self.old) (event_of effect.now)) }
        ensures shown { IfOk result (λ o. o ≡ outcome_of (event_of effect.now)) }
        ensures err { OnErr result (answers self.new ≡ answers self.old) }
    {
        take_effect(&mut self.state, effect)?;
        Ok(outcome_of(effect))
    }

    /// Takes an effect and appends its operations. After a rule fault, which comes exactly where `fault_of` tells one,
    /// and when out of memory the tracker and the list are as they were.
    pub fn apply(&mut self, effect: &Effect<'_>, ops: &mut OpList) -> Result<Outcome, ApplyFault>
        ensures rule { rule_in result ≡ first_broken (answers self.old) (checks_of (event_of effect.now)) }
        ensures ok { OnOk result (answers self.new ≡ after_event (answers self.old) (event_of effect.now)) }
        ensures ops { OnOk result (ops.new ≡ ops.old ++ ops_of (answers self.old) (event_of effect.now)) }
        ensures shown { IfOk result (λ o. o ≡ outcome_of (event_of effect.now)) }
        ensures err { OnErr result (answers self.new ≡ answers self.old) }
        ensures none { OnErr result (ops.new ≡ ops.old) }
    {
        if let Some(fault) = self.fault_of(effect) {
            return Err(ApplyFault::Rule(fault));
        }
        let length = ops.items().len();
        self.expand(effect, ops)?;
        match self.take(effect) {
            Ok(outcome) => Ok(outcome),
            Err(WantMemory) => {
                ops.cut(length);
                Err(ApplyFault::WantMemory)
            }
        }
    }

    /// The live objects, and which ids were ever used.
    pub fn objects(&self) -> &Objects
        ensures { SameObjects (objects.answers result.now) (answers self.now) }
    {
        &self.state.registry.objects
    }

    /// The image of a swapchain at an index, where it was fetched.
    pub fn image_at(&self, swapchain: u64, index: u32) -> Option<u64>
        ensures { result ≡ image_at (answers self.now) swapchain index }
    {
        self.state.fetched_at(swapchain, index as usize)
    }

    /// What is recorded in each command buffer.
    pub fn recordings(&self) -> &Recordings
        ensures { buffers result.now ≡ (answers self.now).buffer }
    {
        &self.state.recordings
    }

    /// Which fences and semaphores are signalled.
    pub fn sync(&self) -> &Sync
        ensures { is_signalled result.now ≡ (answers self.now).signalled }
    {
        &self.state.registry.signals
    }

    /// Which images of swapchains are acquired, and how many each swapchain has.
    pub fn swaps(&self) -> &Swaps
        ensures acquired { is_acquired result.now ≡ (answers self.now).acquired }
        ensures images { (swapchain : ℕ) → length (marks_of result.now swapchain) ≡ images_in (answers self.now) swapchain }
    {
        &self.state.registry.images
    }

    /// The number of the next frame.
    pub fn next_frame(&self) -> u64
        ensures { result ≡ (answers self.now).next_frame }
    {
        self.state.next_frame
    }
}
