//! Checks of each id of a list that may be long.

ghost use Rattle.std.specs.Prelude.{◌≡◌, ◌∷◌, [], nat_le, not, map};
ghost use Rattle.gfx_types.specs.declared.names.Kind.TheVariants as kind;
ghost use Rattle.gfx_types.specs.declared.names.Fault.TheVariants.{NotLive};
ghost use Rattle.gfx_model.specs.Table as table;
ghost use Rattle.gfx_model.specs.Checks as words;
ghost use Rattle.gfx_model.specs.Views as views;

use crate::answers::Answers;
use crate::apart::stand_apart;
use crate::broken::{broken, first_broken};
use crate::checks::{Check, first, unless};
use crate::ids::is_among_between;
use gfx_types::{Fault, Kind};

/// The fault of the first id that is not live.
pub fn live_each<A: Answers>(answers: &A, kind: Kind, ids: &[u64]) -> Option<Fault>
    ensures { result ≡ words.first_broken (A.view answers.now) (map (words.Check.live kind) ids.now) }
{
    'ids: for id in ids {
        if let Some(fault) = broken(answers, Check::Live(kind, *id)) {
            return Some(fault);
        }
    }
    None
}

/// The fault of the first id whose parent is another.
pub fn of_each<A: Answers>(answers: &A, parent: u64, ids: &[u64]) -> Option<Fault>
    ensures { result ≡ words.first_broken (A.view answers.now) (map (λ x. words.Check.of x parent) ids.now) }
{
    'ids: for id in ids {
        if let Some(fault) = broken(answers, Check::Of(*id, parent)) {
            return Some(fault);
        }
    }
    None
}

/// 13 if an id belongs to another device than this object, whose device is known.
#[tactic(auto, unfolding(gfx_model::specs::Checks::broken))]
pub fn near_fault<A: Answers>(answers: &A, other: u64, device: u64, id: u64) -> Option<Fault>
    requires { device ≡ views.device_of (A.view answers.now) other }
    ensures { result ≡ words.broken (A.view answers.now) (words.Check.near id other) }
{
    unless(answers.device_of(id) == device, Fault::WrongParent)
}

/// The fault of the first id that belongs to another device than this object.
fn near_all<A: Answers>(answers: &A, other: u64, ids: &[u64]) -> Option<Fault>
    ensures { result ≡ words.first_broken (A.view answers.now) (map (λ y. words.Check.near y other) ids.now) }
{
    let device = answers.device_of(other);
    'ids: for id in ids {
        if let Some(fault) = near_fault(answers, other, device, *id) {
            return Some(fault);
        }
    }
    None
}

/// The fault of the first id that is not live, and then of the first that belongs to another device than this object.
pub fn near_each<A: Answers>(answers: &A, kind: Kind, other: u64, ids: &[u64]) -> Option<Fault>
    ensures { result ≡ words.first_broken (A.view answers.now) (table.near_each kind other ids.now) }
{
    let live = live_each(answers, kind, ids);
    first(live, near_all(answers, other, ids))
}

/// 11 unless it is a live command buffer that is nowhere earlier.
fn once_fault<A: Answers>(answers: &A, id: u64, is_earlier: bool) -> Option<Fault>
    ensures { result ≡ words.first_broken (A.view answers.now) (words.Check.live kind.CommandBuffer id ∷ words.Check.must NotLive (not is_earlier) ∷ []) }
{
    first_broken(
        answers,
        &[
            Check::Live(Kind::CommandBuffer, id),
            Check::Must(Fault::NotLive, !is_earlier),
        ],
    )
}

/// The fault of the first id that is no live command buffer, or occurs twice. It takes n log n for ids in any order that occur once.
pub fn live_once<A: Answers>(answers: &A, ids: &[u64]) -> Option<Fault>
    ensures { result ≡ words.first_broken (A.view answers.now) (table.live_once kind.CommandBuffer [] ids.now) }
{
    let apart = stand_apart(ids);
    let mut least = u64::MAX;
    let mut greatest = 0;
    'ids: for (at, id) in ids.iter().enumerate() {
        let is_earlier = is_among_between(&ids[..at], apart, least, greatest, *id);
        if let Some(fault) = once_fault(answers, *id, is_earlier) {
            return Some(fault);
        }
        least = least.min(*id);
        greatest = greatest.max(*id);
    }
    None
}

/// The fault of the first number that is no mark: 0 or 1.
pub fn marks_each<A: Answers>(answers: &A, marks: &[u32]) -> Option<Fault>
    ensures { result ≡ words.first_broken (A.view answers.now) (map (λ a. table.value (nat_le a 1)) marks.now) }
{
    'marks: for mark in marks {
        if let Some(fault) = broken(answers, Check::Must(Fault::BadValue, *mark <= 1)) {
            return Some(fault);
        }
    }
    None
}
