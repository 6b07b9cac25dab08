//! The tokens of a line.
ghost use Rattle.std.specs.Prelude.{◌≡◌, ◌<◌, ◌≤◌, [], ◌∷◌, length, map, IfOk, MatchOption};
ghost use Rattle.gfx_text_grammar.specs.Splits.{tokens_of};

use crate::words::cut;
use std::alloc::{AllocError, Global};

/// More tokens than these no line of a listing has: a header's name, its version and its options.
pub(crate) const MAX_TOKENS: usize = 18;

/// The tokens of a line, with one space between each two. None where there are more than a line of a listing has.
pub(crate) fn tokens<'t>(alloc: Global, line: &'t [u8]) -> Result<Option<Vec<&'t [u8]>>, AllocError>
    ensures { IfOk result (λ tokens. MatchOption tokens (MAX_TOKENS < length (tokens_of line.now))
        (λ tokens. (map (λ t. t.now) tokens.items ≡ tokens_of line.now) × (length tokens.items ≤ MAX_TOKENS))) }
{
    let mut tokens = Vec::with_capacity(alloc, MAX_TOKENS)?;
    let mut rest = line;
    'tokens: for _ in 0..MAX_TOKENS {
        let (token, behind) = first_token(rest);
        tokens.push(token)?;
        match behind {
            Some(behind) => rest = behind,
            None => return Ok(Some(tokens)),
        }
    }
    Ok(None)
}

/// The first token of a line, and what follows its space, where there is one.
fn first_token(line: &[u8]) -> (&[u8], Option<&[u8]>)
    ensures { MatchOption result.1 (tokens_of line.now ≡ result.0.now ∷ [])
        (λ behind. tokens_of line.now ≡ result.0.now ∷ tokens_of behind.now) }
{
    match cut(b' ', line) {
        Some((token, behind)) => (token, Some(behind)),
        None => (line, None),
    }
}
