//! The forms of lines that are no statements.
ghost use Rattle.std.specs.Prelude.{◌≡◌, if◌then◌else◌, [], ◌∷◌, ◌<◌, Some, map, option_map, IfSome};
ghost use Rattle.gfx_script_model.specs.Statements.{is_skipped};
ghost use Rattle.gfx_script_model.specs.Statements.Form.{skips};
ghost use Rattle.gfx_text_grammar.specs.Parsing.{plain_form, two_words};
ghost use Rattle.gfx_text_grammar.specs.Words.{number_in};
ghost use Rattle.gfx_script.specs.Plain.{form_of_plain, digit_value, thread_in, one_digit, two_digits};

use crate::words::is_word;

/// The form of a line that is no statement.
#[derive(Clone, Copy)]
pub(crate) enum Plain {
    Skips,
    SetsVersion,
    BeginsPhase,
    BeginsThread(u32),
}

impl Plain {
    /// The form of these tokens. None where they have none of these forms.
    pub(crate) fn of(tokens: &[&[u8]]) -> Option<Self>
        ensures { option_map form_of_plain result ≡ (let texts = map (λ t. t.now) tokens.now in if is_skipped texts then Some skips else plain_form texts) }
    {
        match tokens {
            [] => Some(Plain::Skips),
            [first, ..] if is_comment(first) => Some(Plain::Skips),
            [word] if is_word(word, b"phase") => Some(Plain::BeginsPhase),
            [word, value] => Plain::of_two(word, value),
            _ => None,
        }
    }

    // The form of two words.
    fn of_two(word: &[u8], value: &[u8]) -> Option<Self>
        ensures { option_map form_of_plain result ≡ two_words word.now value.now }
    {
        if is_word(word, b"version") {
            if is_word(value, b"2") {
                Some(Plain::SetsVersion)
            } else {
                None
            }
        } else if is_word(word, b"thread") {
            let thread = thread_of(value)?;
            Some(Plain::BeginsThread(thread))
        } else {
            None
        }
    }
}

// Whether a line is skipped that begins with this token.
fn is_comment(token: &[u8]) -> bool
    ensures { result ≡ is_skipped (token.now ∷ []) }
{
    match token {
        [first, ..] => *first == b'#',
        [] => false,
    }
}

// The thread of a word: 0 to 63, without a leading zero.
fn thread_of(word: &[u8]) -> Option<u32>
    ensures { result ≡ number_in 64 word.now }
{
    match word {
        [ones] => of_one_digit(*ones),
        [tens, ones] => of_two_digits(*tens, *ones),
        _ => None,
    }
}

// The thread of one digit.
fn of_one_digit(ones: u8) -> Option<u32>
    ensures { result ≡ one_digit ones }
{
    match digit(ones) {
        Some(ones) => thread_in(ones),
        None => None,
    }
}

// The thread of two digits, the first of which is not 0.
fn of_two_digits(tens: u8, ones: u8) -> Option<u32>
    ensures { result ≡ two_digits tens ones }
{
    if tens == b'0' {
        return None;
    }
    match (digit(tens), digit(ones)) {
        (Some(tens), Some(ones)) => thread_in(10 * tens + ones),
        _ => None,
    }
}

// The number, where it is one of a thread.
fn thread_in(number: u32) -> Option<u32>
    ensures { result ≡ thread_in number }
{
    if number < 64 { Some(number) } else { None }
}

// The value of a decimal digit.
fn digit(byte: u8) -> Option<u32>
    ensures digit { result ≡ digit_value byte }
    ensures small { IfSome result (λ n. n < 10) }
{
    if b'0' <= byte && byte <= b'9' {
        Some(u32::from(byte - b'0'))
    } else {
        None
    }
}
