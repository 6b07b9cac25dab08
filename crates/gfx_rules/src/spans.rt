//! Ranges that may reach to the end.

ghost use Rattle.std.specs.Prelude.{◌≡◌};
ghost use Rattle.gfx_model.specs.Table as table;
ghost use Rattle.gfx_model.specs.Checks as words;

use crate::answers::Answers;
use crate::checks::unless;
use crate::values::sum;
use gfx_types::Fault;

/// 16 unless the range lies in a memory or a buffer; a size of 2 ^ 64 - 1 reaches to the end.
#[tactic(auto, unfolding(gfx_model::specs::Checks::broken))]
pub fn span<A: Answers>(answers: &A, id: u64, offset: u64, size: u64) -> Option<Fault>
    ensures { result ≡ words.first_broken (A.view answers.now) (table.span id offset size) }
{
    let whole = answers.size_of(id);
    if offset >= whole {
        return Some(Fault::OutOfRange);
    }
    if size == u64::MAX {
        return None;
    }
    unless(sum(offset, size) <= u128::from(whole), Fault::OutOfRange)
}
