//! Which check of its row an effect breaks first.

ghost use Rattle.std.specs.Prelude.{◌≡◌};
ghost use Rattle.gfx_model.specs.Events.{event_of};
ghost use Rattle.gfx_model.specs.Table.{row_of, checks_of};
ghost use Rattle.gfx_model.specs.Checks as words;

use crate::answers::Answers;
use crate::calls::{call_fault, meta_fault};
use crate::places::place_fault;
use crate::rows_metadata::{begin_section, end_section};
use gfx_types::{Effect, Fault};

/// The fault of an effect's row.
fn row_fault<A: Answers>(answers: &A, effect: &Effect<'_>) -> Option<Fault>
    ensures { result ≡ words.first_broken (A.view answers.now) (row_of (event_of effect.now)) }
{
    match effect {
        Effect::Call(call) => call_fault(answers, call),
        Effect::Meta(meta) => meta_fault(answers, meta),
        Effect::Marker { begin, frame } => {
            if *begin {
                begin_section(answers, *frame)
            } else {
                end_section(answers, *frame)
            }
        }
    }
}

/// The fault of the first check that an effect breaks, None where it breaks none. Takes no memory of its own; the answers may
/// take some for a table, where the layouts of a submit are checked.
pub fn fault_of<A: Answers>(answers: &A, effect: &Effect<'_>) -> Option<Fault>
    ensures { result ≡ words.first_broken (A.view answers.now) (checks_of (event_of effect.now)) }
{
    match place_fault(answers, effect) {
        Some(fault) => Some(fault),
        None => row_fault(answers, effect),
    }
}
