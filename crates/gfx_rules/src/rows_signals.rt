//! The rows of calls on fences that tell of signals.

ghost use Rattle.std.specs.Prelude.{◌≡◌, ◌==◌, ◌&&◌, ◌++◌, ◌∷◌, [], nat_le, if◌then◌else◌, map};
ghost use Rattle.gfx_types.specs.declared.names.Kind.TheVariants as kind;
ghost use Rattle.gfx_model.specs.Table as table;
ghost use Rattle.gfx_model.specs.Events.Event.{ResetFences, WaitForFences, GetFenceStatus};
ghost use Rattle.gfx_model.specs.Table.{row_of};
ghost use Rattle.gfx_model.specs.Checks as words;
ghost use Rattle.gfx_model.specs.Limits.{max_list_length};

use crate::answers::Answers;
use crate::broken::first_broken;
use crate::checks::{Check, first};
use crate::lists::{live_each, of_each};
use crate::values::{both, is_either};
use gfx_types::limits::MAX_LIST_LENGTH;
use gfx_types::{Fault, Kind};

/// The prefix of calls on fences of a device.
fn fences_fault<A: Answers>(answers: &A, device: u64, fences: &[u64]) -> Option<Fault>
    ensures { result ≡ words.first_broken (A.view answers.now) (words.Check.live kind.Device device ∷ table.between 1 max_list_length fences.now
        ++ (map (words.Check.live kind.Fence) fences.now ++ map (λ f. words.Check.of f device) fences.now)) }
{
    let front = first_broken(
        answers,
        &[
            Check::Live(Kind::Device, device),
            Check::Must(Fault::BadValue, 1 <= fences.len()),
            Check::Must(Fault::LimitReached, fences.len() <= MAX_LIST_LENGTH),
        ],
    );
    match front {
        Some(fault) => Some(fault),
        None => {
            let live = live_each(answers, Kind::Fence, fences);
            first(live, of_each(answers, device, fences))
        }
    }
}

/// The fault of ResetFences.
#[tactic(auto, unfolding(gfx_model::specs::Table::row_of))]
pub fn reset_fences<A: Answers>(answers: &A, device: u64, fences: &[u64]) -> Option<Fault>
    ensures { result ≡ words.first_broken (A.view answers.now) (row_of (ResetFences device fences.now)) }
{
    fences_fault(answers, device, fences)
}

/// Whether the answer of a wait is right.
fn told_fault<A: Answers>(answers: &A, fences: &[u64], wait_all: u32, answer: u32) -> Option<Fault>
    ensures { result ≡ words.first_broken (A.view answers.now) (table.value (nat_le wait_all 1 && words.is_among answer (0 ∷ 2 ∷ []))
        ∷ (if wait_all == 1 then words.Check.tells_all (answer == 0) fences.now else words.Check.tells_some (answer == 0) fences.now) ∷ []) }
{
    let fine = both(wait_all <= 1, is_either(answer, 0, 2));
    if wait_all == 1 {
        let told = Check::TellsAll(answer == 0, fences);
        first_broken(answers, &[Check::Must(Fault::BadValue, fine), told])
    } else {
        let told = Check::TellsSome(answer == 0, fences);
        first_broken(answers, &[Check::Must(Fault::BadValue, fine), told])
    }
}

/// The fault of WaitForFences.
pub fn wait_for_fences<A: Answers>(
    answers: &A,
    device: u64,
    fences: &[u64],
    wait_all: u32,
    answer: u32,
) -> Option<Fault>
    ensures { result ≡ words.first_broken (A.view answers.now) (row_of (WaitForFences device fences.now wait_all answer)) }
{
    let front = fences_fault(answers, device, fences);
    first(front, told_fault(answers, fences, wait_all, answer))
}

/// The fault of GetFenceStatus.
#[tactic(auto, unfolding(gfx_model::specs::Table::row_of))]
pub fn get_fence_status<A: Answers>(
    answers: &A,
    device: u64,
    fence: u64,
    answer: u32,
) -> Option<Fault>
    ensures { result ≡ words.first_broken (A.view answers.now) (row_of (GetFenceStatus device fence answer)) }
{
    first_broken(
        answers,
        &[
            Check::Live(Kind::Device, device),
            Check::Live(Kind::Fence, fence),
            Check::Of(fence, device),
            Check::Must(Fault::BadValue, answer <= 1),
            Check::TellsAll(answer == 0, &[fence]),
        ],
    )
}
