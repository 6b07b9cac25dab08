//! Parts of a text: what is at its front, and numbers in decimal.
ghost use Rattle.std.specs.Prelude.{◌≡◌, ◌==◌, ◌^◌, ◌++◌, ◌∷◌, true, position, MatchOption};
ghost use Rattle.gfx_model.specs.Checks.{same_list};
ghost use Rattle.gfx_text_grammar.specs.FieldReading.{without_front};
ghost use Rattle.gfx_text_grammar.specs.Splits.{is_without};
ghost use Rattle.gfx_text_grammar.specs.Words.{number_in};
ghost use Rattle.gfx_listing.specs.Lines.{number_after};

use gfx_text::number_of;

/// Whether the token is this word.
pub(crate) fn is_word(token: &[u8], word: &[u8]) -> bool
    ensures { result ≡ same_list token.now word.now }
{
    token == word
}

/// What is before the first such byte of a text, and behind it. None where there is no such byte.
pub(crate) fn cut(byte: u8, text: &[u8]) -> Option<(&[u8], &[u8])>
    ensures { MatchOption result (is_without byte text.now ≡ true)
        (λ parts. (is_without byte parts.0.now ≡ true) × (text.now ≡ parts.0.now ++ byte ∷ parts.1.now)) }
{
    match place_of(byte, text) {
        Some(place) => {
            let (front, _) = text.split_at(place);
            let (_, behind) = text.split_at(place + 1);
            Some((front, behind))
        }
        None => None,
    }
}

/// Where the first such byte is.
fn place_of(byte: u8, text: &[u8]) -> Option<usize>
    ensures { result ≡ position (λ c. c == byte) text.now }
{
    text.iter().position(|c| *c == byte)
}

/// The text after this prefix.
pub(crate) fn without_front<'t>(front: &[u8], text: &'t [u8]) -> Option<&'t [u8]>
    ensures { MatchOption result (without_front front.now text.now ≡ None) (λ rest. without_front front.now text.now ≡ Some rest.now) }
{
    text.strip_prefix(front)
}

/// The number in decimal that follows this prefix.
pub(crate) fn number_behind(front: &[u8], text: &[u8]) -> Option<u64>
    ensures { result ≡ number_after (2 ^ 64) front.now text.now }
{
    match without_front(front, text) {
        Some(word) => number_of(word),
        None => None,
    }
}

/// The number below 2^32 in decimal that follows this prefix.
pub(crate) fn short_behind(front: &[u8], text: &[u8]) -> Option<u32>
    ensures { result ≡ number_after (2 ^ 32) front.now text.now }
{
    match without_front(front, text) {
        Some(word) => short_number_of(word),
        None => None,
    }
}

/// The number below 2^32 that a word is in decimal.
pub(crate) fn short_number_of(word: &[u8]) -> Option<u32>
    ensures { result ≡ number_in (2 ^ 32) word.now }
{
    match number_of(word) {
        Some(number) if number < 1 << 32 => Some(number as u32),
        _ => None,
    }
}
