//! The tokens of a line.
ghost use Rattle.std.specs.Prelude.{◌≡◌, ◌==◌, not, [], map, IfOk, MatchOption};
ghost use Rattle.std.specs.List.{position};
ghost use Rattle.gfx_script_model.specs.Statements.{tokens_of};
ghost use Rattle.gfx_script.specs.Cuts.{IsFirstToken};

use std::alloc::{AllocError, Global};

/// What is between the spaces of a line, in order.
pub(crate) fn tokens<'t>(alloc: Global, line: &'t [u8]) -> Result<Vec<&'t [u8]>, AllocError>
    ensures { IfOk result (λ tokens. map (λ t. t.now) tokens.items ≡ tokens_of line.now) }
{
    let mut tokens = Vec::new(alloc);
    let mut rest = line;
    'tokens: while let Some((token, behind)) = first_token(rest) {
        tokens.push(token)?;
        rest = behind;
    }
    Ok(tokens)
}

// The first token, and what follows it.
fn first_token(line: &[u8]) -> Option<(&[u8], &[u8])>
    ensures { MatchOption result (tokens_of line.now ≡ []) (λ cut. IsFirstToken line.now cut.0.now cut.1.now) }
{
    let Some(start) = word_start(line) else {
        return None;
    };
    let (_, text) = line.split_at(start);
    match space(text) {
        Some(end) => {
            let (token, _) = text.split_at(end);
            let (_, behind) = text.split_at(end + 1);
            Some((token, behind))
        }
        None => Some((text, &[])),
    }
}

// Where the first byte is that is no space.
fn word_start(line: &[u8]) -> Option<usize>
    ensures { result ≡ position (λ c. not (c == 32)) line.now }
{
    line.iter().position(|byte| *byte != b' ')
}

// Where the first space is.
fn space(line: &[u8]) -> Option<usize>
    ensures { result ≡ position (λ c. c == 32) line.now }
{
    line.iter().position(|byte| *byte == b' ')
}
