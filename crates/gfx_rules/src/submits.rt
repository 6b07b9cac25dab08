//! Checks of each submit of a call.

ghost use Rattle.std.specs.Prelude.{◌≡◌, ◌==◌, ◌∷◌, [], if◌then◌else◌, flat_map};
ghost use Rattle.gfx_types.specs.declared.names.Kind.TheVariants as kind;
ghost use Rattle.gfx_types.specs.declared.names.Fault.TheVariants.{CommandState};
ghost use Rattle.gfx_model.specs.Table as table;
ghost use Rattle.gfx_model.specs.Checks as words;
ghost use Rattle.gfx_rules.specs.Turns.{AreFew};

use crate::answers::Answers;
use crate::broken::first_broken;
use crate::checks::{Check, first, unless};
use crate::distinct::are_submitted_once;
use crate::lists::near_each;
use crate::turns::turns_fault;
use gfx_types::limits::{MAX_SEMAPHORES, MAX_SUBMIT_BUFFERS};
use gfx_types::{Fault, Kind, Submit, Submits};

/// 28 if a submit has too many waits, command buffers or signals.
fn lengths_fault<A: Answers>(answers: &A, submit: &Submit) -> Option<Fault>
    ensures { result ≡ words.first_broken (A.view answers.now) (table.submit_lengths submit.now) }
{
    let waits = submit.waits.items().len();
    let cbs = submit.cbs.items().len();
    let signals = submit.signals.items().len();
    first_broken(
        answers,
        &[
            Check::Must(Fault::BadValue, 0 <= waits),
            Check::Must(Fault::LimitReached, waits <= MAX_SEMAPHORES),
            Check::Must(Fault::BadValue, 0 <= cbs),
            Check::Must(Fault::LimitReached, cbs <= MAX_SUBMIT_BUFFERS),
            Check::Must(Fault::BadValue, 0 <= signals),
            Check::Must(Fault::LimitReached, signals <= MAX_SEMAPHORES),
        ],
    )
}

/// The fault of the first submit with too long a list.
pub fn lengths_each<A: Answers>(answers: &A, submits: &[Submit]) -> Option<Fault>
    ensures { result ≡ words.first_broken (A.view answers.now) (flat_map table.submit_lengths submits.now) }
{
    'submits: for submit in submits {
        if let Some(fault) = lengths_fault(answers, submit) {
            return Some(fault);
        }
    }
    None
}

/// The fault of the first id of a submit that is not live, or belongs to another device than the queue, list by list.
fn near_fault<A: Answers>(answers: &A, queue: u64, submit: &Submit) -> Option<Fault>
    ensures { result ≡ words.first_broken (A.view answers.now) (table.submit_near queue submit.now) }
{
    let waits = near_each(answers, Kind::Semaphore, queue, submit.waits.items());
    let cbs = near_each(answers, Kind::CommandBuffer, queue, submit.cbs.items());
    let signals = near_each(answers, Kind::Semaphore, queue, submit.signals.items());
    first(first(waits, cbs), signals)
}

/// The fault of the first submit that names an object which is not live, or of another device.
pub fn near_submits<A: Answers>(answers: &A, queue: u64, submits: &[Submit]) -> Option<Fault>
    ensures { result ≡ words.first_broken (A.view answers.now) (flat_map (table.submit_near queue) submits.now) }
{
    'submits: for submit in submits {
        if let Some(fault) = near_fault(answers, queue, submit) {
            return Some(fault);
        }
    }
    None
}

/// A fence, where it is not 0, has to be a live one of the queue's device.
pub fn near_fence<A: Answers>(answers: &A, queue: u64, fence: u64) -> Option<Fault>
    ensures { result ≡ words.first_broken (A.view answers.now) (if fence == 0 then [] else words.Check.live kind.Fence fence ∷ words.Check.near fence queue ∷ []) }
{
    if fence == 0 {
        None
    } else {
        first_broken(
            answers,
            &[Check::Live(Kind::Fence, fence), Check::Near(fence, queue)],
        )
    }
}

/// 21 unless each command buffer occurs once, and then the fault of the first turn that has one.
pub fn order_fault<A: Answers>(answers: &A, submits: &Submits, fence: u64) -> Option<Fault>
    requires { AreFew submits.now }
    ensures { result ≡ words.first_broken (A.view answers.now) (words.Check.must CommandState (words.is_distinct (flat_map (λ s. s.cbs) submits.now))
        ∷ words.Check.in_turn (words.turns_of submits.now fence) ∷ []) }
{
    let once = unless(are_submitted_once(submits.items()), Fault::CommandState);
    first(once, turns_fault(answers, submits, fence))
}
