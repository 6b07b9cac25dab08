//! The rows of calls on queues.

ghost use Rattle.std.specs.Prelude.{◌≡◌, ◌++◌, ◌∷◌, [], nat_le, map, flat_map};
ghost use Rattle.gfx_types.specs.declared.names.Kind.TheVariants as kind;
ghost use Rattle.gfx_model.specs.Table as table;
ghost use Rattle.gfx_model.specs.Events.Event.{QueueSubmit, QueueWaitIdle, DeviceWaitIdle, QueuePresentKHR};
ghost use Rattle.gfx_model.specs.Table.{row_of};
ghost use Rattle.gfx_model.specs.Checks as words;
ghost use Rattle.gfx_model.specs.Limits.{max_submits, max_semaphores, max_presents};

use crate::answers::Answers;
use crate::broken::first_broken;
use crate::checks::{Check, first};
use crate::distinct::are_presented_once;
use crate::lists::near_each;
use crate::presents::{
    acquired_each, indices_in, presentable_each, swapchains_live, swapchains_near,
};
use crate::submits::{lengths_each, near_fence, near_submits, order_fault};
use crate::turns::waits_fault;
use gfx_types::limits::{MAX_PRESENTS, MAX_SEMAPHORES, MAX_SUBMITS};
use gfx_types::{Fault, Kind, Present, Submit, Submits};

/// The prefix of QueueSubmit: how many of each there are.
fn submit_front<A: Answers>(answers: &A, queue: u64, submits: &[Submit]) -> Option<Fault>
    ensures { result ≡ words.first_broken (A.view answers.now) (words.Check.live kind.Queue queue ∷ table.between 0 max_submits submits.now
        ++ flat_map table.submit_lengths submits.now) }
{
    let front = first_broken(
        answers,
        &[
            Check::Live(Kind::Queue, queue),
            Check::Must(Fault::BadValue, 0 <= submits.len()),
            Check::Must(Fault::LimitReached, submits.len() <= MAX_SUBMITS),
        ],
    );
    match front {
        Some(fault) => Some(fault),
        None => lengths_each(answers, submits),
    }
}

/// The fault of QueueSubmit.
pub fn queue_submit<A: Answers>(
    answers: &A,
    queue: u64,
    submits: &Submits,
    fence: u64,
) -> Option<Fault>
    ensures { result ≡ words.first_broken (A.view answers.now) (row_of (QueueSubmit queue submits.now fence)) }
{
    let items = submits.items();
    match submit_front(answers, queue, items) {
        Some(fault) => Some(fault),
        None => {
            let objects = near_submits(answers, queue, items);
            let named = first(objects, near_fence(answers, queue, fence));
            first(named, order_fault(answers, submits, fence))
        }
    }
}

/// The fault of QueueWaitIdle.
#[tactic(auto, unfolding(gfx_model::specs::Table::row_of))]
pub fn queue_wait_idle<A: Answers>(answers: &A, queue: u64) -> Option<Fault>
    ensures { result ≡ words.first_broken (A.view answers.now) (row_of (QueueWaitIdle queue)) }
{
    first_broken(answers, &[Check::Live(Kind::Queue, queue)])
}

/// The fault of DeviceWaitIdle.
#[tactic(auto, unfolding(gfx_model::specs::Table::row_of))]
pub fn device_wait_idle<A: Answers>(answers: &A, device: u64) -> Option<Fault>
    ensures { result ≡ words.first_broken (A.view answers.now) (row_of (DeviceWaitIdle device)) }
{
    first_broken(answers, &[Check::Live(Kind::Device, device)])
}

/// The prefix of QueuePresentKHR: its waits, and how many presents there are.
fn present_front<A: Answers>(answers: &A, queue: u64, waits: &[u64], count: usize) -> Option<Fault>
    ensures { result ≡ words.first_broken (A.view answers.now) (words.Check.live kind.Queue queue ∷ table.between 0 max_semaphores waits.now
        ++ table.near_each kind.Semaphore queue waits.now ++ table.value (nat_le 1 count) ∷ table.limit (nat_le count max_presents) ∷ []) }
{
    let front = first_broken(
        answers,
        &[
            Check::Live(Kind::Queue, queue),
            Check::Must(Fault::BadValue, 0 <= waits.len()),
            Check::Must(Fault::LimitReached, waits.len() <= MAX_SEMAPHORES),
        ],
    );
    let counted = first_broken(
        answers,
        &[
            Check::Must(Fault::BadValue, 1 <= count),
            Check::Must(Fault::LimitReached, count <= MAX_PRESENTS),
        ],
    );
    first(
        first(front, near_each(answers, Kind::Semaphore, queue, waits)),
        counted,
    )
}

/// The swapchains of presents: live ones of the queue's device, each once.
fn swapchains_fault<A: Answers>(answers: &A, queue: u64, presents: &[Present]) -> Option<Fault>
    ensures { let swapchains = map (λ p. p.swapchain) presents.now in result ≡ words.first_broken (A.view answers.now)
        (table.near_each kind.Swapchain queue swapchains ++ table.value (words.is_distinct swapchains) ∷ []) }
{
    let live = swapchains_live(answers, presents);
    let near = first(live, swapchains_near(answers, queue, presents));
    let once = Check::Must(Fault::BadValue, are_presented_once(presents));
    first(near, first_broken(answers, &[once]))
}

/// The waits of a present, and room for its frame.
fn frame_fault<A: Answers>(answers: &A, waits: &[u64]) -> Option<Fault>
    ensures { result ≡ words.first_broken (A.view answers.now) (words.Check.in_turn (map words.Turn.wait waits.now) ∷ words.Check.frame_room ∷ []) }
{
    let waited = waits_fault(answers, &[], waits);
    first(waited, first_broken(answers, &[Check::FrameRoom]))
}

/// The fault of QueuePresentKHR.
pub fn queue_present<A: Answers>(
    answers: &A,
    queue: u64,
    waits: &[u64],
    presents: &[Present],
) -> Option<Fault>
    ensures { result ≡ words.first_broken (A.view answers.now) (row_of (QueuePresentKHR queue waits.now presents.now)) }
{
    match present_front(answers, queue, waits, presents.len()) {
        Some(fault) => Some(fault),
        None => {
            let swapchains = swapchains_fault(answers, queue, presents);
            let indices = first(swapchains, indices_in(answers, presents));
            let acquired = first(indices, acquired_each(answers, presents));
            let images = first(acquired, presentable_each(answers, presents));
            first(images, frame_fault(answers, waits))
        }
    }
}
