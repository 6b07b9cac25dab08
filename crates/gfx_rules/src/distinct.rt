//! Whether numbers of a call occur once.

ghost use Rattle.std.specs.Prelude.{◌≡◌, ◌&&◌, ◌++◌, map, flat_map};
ghost use Rattle.gfx_model.specs.Checks as words;

use crate::ids::is_among;
use gfx_types::{Present, Submit};

/// Whether a submit has this command buffer.
#[tactic(auto, using(crate::proofs::Once::among_append))]
fn is_submitted(submits: &[Submit], id: u64) -> bool
    ensures { result ≡ words.is_among id (flat_map (λ s. s.cbs) submits.now) }
{
    match submits {
        [] => false,
        [submit, rest @ ..] => is_among(submit.cbs.items(), id) || is_submitted(rest, id),
    }
}

/// Whether these ids occur once, also among the command buffers of later submits.
#[tactic(auto, using(crate::proofs::Once::among_append))]
fn are_once(ids: &[u64], later: &[Submit]) -> bool
    ensures { (result && words.is_distinct (flat_map (λ s. s.cbs) later.now)) ≡ words.is_distinct (ids.now ++ flat_map (λ s. s.cbs) later.now) }
{
    match ids {
        [] => true,
        [id, rest @ ..] => {
            let again = is_among(rest, *id) || is_submitted(later, *id);
            !again && are_once(rest, later)
        }
    }
}

/// Whether each command buffer of these submits occurs once.
pub fn are_submitted_once(submits: &[Submit]) -> bool
    ensures { result ≡ words.is_distinct (flat_map (λ s. s.cbs) submits.now) }
{
    match submits {
        [] => true,
        [submit, rest @ ..] => are_once(submit.cbs.items(), rest) && are_submitted_once(rest),
    }
}

/// Whether a present has this swapchain.
fn is_presented(presents: &[Present], id: u64) -> bool
    ensures { result ≡ words.is_among id (map (λ p. p.swapchain) presents.now) }
{
    presents.iter().map(|p| p.swapchain).any(|x| x == id)
}

/// Whether each swapchain of these presents occurs once.
pub fn are_presented_once(presents: &[Present]) -> bool
    ensures { result ≡ words.is_distinct (map (λ p. p.swapchain) presents.now) }
{
    match presents {
        [] => true,
        [present, rest @ ..] => {
            !is_presented(rest, present.swapchain) && are_presented_once(rest)
        }
    }
}
