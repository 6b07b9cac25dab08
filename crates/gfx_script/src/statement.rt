//! Statements: calls and writes.
ghost use Rattle.std.specs.Prelude.{◌≡◌, map};
ghost use Rattle.gfx_model.specs.Events.{event_of};
ghost use Rattle.gfx_text.specs.Gives.{Gives};
ghost use Rattle.gfx_script.specs.Resolved.{statement_by};
ghost use Rattle.gfx_text_grammar.specs.StatementReading.{apart_of};

use crate::words::is_word;
use gfx_text::{Left, ReadId, TextFault, read_call, read_meta};
use gfx_types::Effect;
use std::alloc::Global;

/// The tokens left of =, where there is one, and those right of it.
pub(crate) fn apart<'s, 't>(tokens: &'s [&'t [u8]]) -> (&'s [&'t [u8]], &'s [&'t [u8]])
    ensures { (map (λ t. t.now) result.0.now, map (λ t. t.now) result.1.now) ≡ apart_of (map (λ t. t.now) tokens.now) }
{
    match tokens {
        [_, equals, ..] if is_word(equals, b"=") => (&tokens[..1], &tokens[2..]),
        _ => (&[], tokens),
    }
}

/// The call or write of these tokens, with the ids that its names are read as.
#[tactic(auto, unfolding(crate::specs::Resolved::statement_by))]
pub(crate) fn read_statement<'r, I: ReadId>(
    alloc: Global,
    ids: &I,
    minor: u32,
    tokens: &[&[u8]],
    room: &'r mut Vec<u8>,
) -> Result<Effect<'r>, TextFault>
    ensures { Gives result event_of (statement_by (I.style ids.now) minor (map (λ t. t.now) tokens.now)) }
{
    let (made, behind) = apart(tokens);
    let [word, fields @ ..] = behind else {
        return Err(TextFault::Bad);
    };
    let left = Left { made, fields };
    if is_word(word, b"write") {
        return match read_meta(alloc, ids, b"FillMemory", left, room) {
            Ok(meta) => Ok(Effect::Meta(meta)),
            Err(fault) => Err(fault),
        };
    }
    let Some(name) = word.strip_prefix(b"vk") else {
        return Err(TextFault::Bad);
    };
    match read_call(alloc, ids, minor, name, left, room) {
        Ok(call) => Ok(Effect::Call(call)),
        Err(fault) => Err(fault),
    }
}
