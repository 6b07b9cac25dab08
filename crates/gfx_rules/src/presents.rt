//! Checks of each image that a call presents.

ghost use Rattle.std.specs.Prelude.{◌≡◌, map};
ghost use Rattle.gfx_types.specs.declared.names.Kind.TheVariants as kind;
ghost use Rattle.gfx_model.specs.Checks as words;

use crate::answers::Answers;
use crate::broken::broken;
use crate::checks::Check;
use gfx_types::{Fault, Kind, Present};

/// The fault of the first present whose swapchain is not live.
pub fn swapchains_live<A: Answers>(answers: &A, items: &[Present]) -> Option<Fault>
    ensures { result ≡ words.first_broken (A.view answers.now) (map (words.Check.live kind.Swapchain) (map (λ p. p.swapchain) items.now)) }
{
    'items: for item in items {
        if let Some(fault) = broken(answers, Check::Live(Kind::Swapchain, item.swapchain)) {
            return Some(fault);
        }
    }
    None
}

/// The fault of the first present whose swapchain is of another device.
pub fn swapchains_near<A: Answers>(answers: &A, queue: u64, items: &[Present]) -> Option<Fault>
    ensures { result ≡ words.first_broken (A.view answers.now) (map (λ y. words.Check.near y queue) (map (λ p. p.swapchain) items.now)) }
{
    'items: for item in items {
        if let Some(fault) = broken(answers, Check::Near(item.swapchain, queue)) {
            return Some(fault);
        }
    }
    None
}

/// The fault of the first present whose swapchain has no such image.
pub fn indices_in<A: Answers>(answers: &A, items: &[Present]) -> Option<Fault>
    ensures { result ≡ words.first_broken (A.view answers.now) (map (λ p. words.Check.index_in p.swapchain p.index) items.now) }
{
    'items: for item in items {
        if let Some(fault) = broken(answers, Check::IndexIn(item.swapchain, item.index)) {
            return Some(fault);
        }
    }
    None
}

/// The fault of the first present whose image is not acquired.
pub fn acquired_each<A: Answers>(answers: &A, items: &[Present]) -> Option<Fault>
    ensures { result ≡ words.first_broken (A.view answers.now) (map (λ p. words.Check.is_acquired p.swapchain p.index) items.now) }
{
    'items: for item in items {
        if let Some(fault) = broken(answers, Check::IsAcquired(item.swapchain, item.index)) {
            return Some(fault);
        }
    }
    None
}

/// The fault of the first present whose image has not the layout of presents.
pub fn presentable_each<A: Answers>(answers: &A, items: &[Present]) -> Option<Fault>
    ensures { result ≡ words.first_broken (A.view answers.now) (map (λ p. words.Check.presentable p.swapchain p.index) items.now) }
{
    'items: for item in items {
        if let Some(fault) = broken(answers, Check::Presentable(item.swapchain, item.index)) {
            return Some(fault);
        }
    }
    None
}
