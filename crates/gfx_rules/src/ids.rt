//! Ids of objects that a call makes, and ids that are in a list of a call.

ghost use Rattle.std.specs.Prelude.{◌≡◌, ◌<◌, true, false, List, ℕ, []};
ghost use Rattle.gfx_model.specs.Views as views;
ghost use Rattle.gfx_model.specs.Checks as words;

use crate::answers::Answers;
use crate::apart::stand_apart;
use crate::checks::{first, unless};
use gfx_types::Fault;
use gfx_types::limits::MAX_LIVE_OBJECTS;

/// Whether an id is in a list.
pub fn is_among(ids: &[u64], id: u64) -> bool
    ensures { result ≡ words.is_among id ids.now }
{
    ids.iter().any(|x| *x == id)
}

/// Whether an id is in a list all of whose numbers lie between two. Where it is known that it doesn't, no number is
/// looked at.
pub fn is_among_between(ids: &[u64], is_apart: bool, least: u64, greatest: u64, id: u64) -> bool
    requires apart { is_apart ≡ true → words.is_among id ids.now ≡ false }
    requires above { (x : ℕ) → greatest < x → words.is_among x ids.now ≡ false }
    requires below { (x : ℕ) → x < least → words.is_among x ids.now ≡ false }
    ensures { result ≡ words.is_among id ids.now }
{
    if is_apart || greatest < id || id < least {
        false
    } else {
        is_among(ids, id)
    }
}

/// 15 if the id is 0; 12 if it was used before.
pub fn new_fault<A: Answers>(answers: &A, id: u64) -> Option<Fault>
    ensures { result ≡ words.new_fault (A.view answers.now) [] id }
{
    new_fault_behind(answers, id, false)
}

/// 15 if the id is 0; 12 if it was used before, or is earlier in the call.
fn new_fault_behind<A: Answers>(answers: &A, id: u64, is_earlier: bool) -> Option<Fault>
    ensures { (earlier : List ℕ) → is_earlier ≡ words.is_among id earlier → result ≡ words.new_fault (A.view answers.now) earlier id }
{
    if id == 0 {
        return Some(Fault::BadValue);
    }
    unless(!answers.was_used(id) && !is_earlier, Fault::IdTaken)
}

/// 28 if so many more objects would be too many.
pub fn room_fault<A: Answers>(answers: &A, more: u64) -> Option<Fault>
    ensures { result ≡ words.room_fault (A.view answers.now) more }
{
    unless(
        u128::from(answers.object_count()) + u128::from(more) <= u128::from(MAX_LIVE_OBJECTS),
        Fault::LimitReached,
    )
}

/// 27 unless it is the queue of the device; where there is none, the id has to be new, with room for an object.
pub fn queue_fault<A: Answers>(answers: &A, device: u64, queue: u64) -> Option<Fault>
    ensures { let v = A.view answers.now in result ≡ words.queue_fault v queue (views.queue_of v device) }
{
    match answers.queue_of(device) {
        Some(its) => unless(its == queue, Fault::ResultDiffers),
        None => first(new_fault(answers, queue), room_fault(answers, 1)),
    }
}

/// The fault of the first id that is not new. It takes n log n for ids in any order that occur once.
pub fn new_faults<A: Answers>(answers: &A, ids: &[u64]) -> Option<Fault>
    ensures { result ≡ words.new_faults (A.view answers.now) [] ids.now }
{
    let apart = stand_apart(ids);
    let mut least = u64::MAX;
    let mut greatest = 0;
    'ids: for (at, id) in ids.iter().enumerate() {
        let is_earlier = is_among_between(&ids[..at], apart, least, greatest, *id);
        if let Some(fault) = new_fault_behind(answers, *id, is_earlier) {
            return Some(fault);
        }
        least = least.min(*id);
        greatest = greatest.max(*id);
    }
    None
}

/// Whether the images of a swapchain that were fetched are these.
pub fn are_fetched<A: Answers>(answers: &A, swapchain: u64, images: &[u64]) -> bool
    ensures { result ≡ words.same_list (views.fetched (A.view answers.now) swapchain) images.now }
{
    'images: for (at, image) in images.iter().enumerate() {
        match answers.fetched_at(swapchain, at) {
            None => return false,
            Some(fetched) => {
                if fetched != *image {
                    return false;
                }
            }
        }
    }
    answers.fetched_at(swapchain, images.len()).is_none()
}

/// 27 unless these are the fetched images of a swapchain; where none are, there have to be as many as it has, all new,
/// with room for them.
pub fn images_fault<A: Answers>(answers: &A, swapchain: u64, images: &[u64]) -> Option<Fault>
    ensures { let v = A.view answers.now in result ≡ words.images_fault v (views.images_in v swapchain) (views.fetched v swapchain) images.now }
{
    if answers.fetched_at(swapchain, 0).is_some() {
        return unless(
            are_fetched(answers, swapchain, images),
            Fault::ResultDiffers,
        );
    }
    if images.len() as u64 != u64::from(answers.images_in(swapchain)) {
        return Some(Fault::ResultDiffers);
    }
    first(
        new_faults(answers, images),
        room_fault(answers, images.len() as u64),
    )
}
