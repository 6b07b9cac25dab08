// Words of a text: where one ends, and the number or the bytes that it is.
ghost use Rattle.std.specs.Prelude.{◌≡◌, ◌*◌, ◌<◌, ◌^◌, true, false, length, Some, None, IfOk, MatchOption, not, position};
ghost use Rattle.std.specs.List.{position_or_len};
ghost use Rattle.gfx_script_model.specs.Names.{is_letter_or_digit};
ghost use Rattle.gfx_text_grammar.specs.Words.{word_of, after_word, number_in, is_plain, raw_in, bytes_of, byte_of, hex_value};
ghost use Rattle.gfx_text_grammar.specs.Reading.{behind};
ghost use Rattle.gfx_text_grammar.specs.FieldReading.{without_front};
ghost use Rattle.gfx_text.specs.Digits.{with_digit};
ghost use Rattle.gfx_text.specs.Gives.{Reads};

use std::alloc::{AllocError, Global};

/// The word at the start of a text, as long as can be, and the text behind it.
pub(crate) fn cut_word(text: &[u8]) -> (&[u8], &[u8])
    ensures word { result.0.now ≡ word_of text.now }
    ensures rest { result.1.now ≡ after_word text.now }
{
    text.split_at(word_length(text))
}

/// How many letters, digits and _ are at the start.
fn word_length(text: &[u8]) -> usize
    ensures { result ≡ position_or_len (λ c. not (is_letter_or_digit c)) text.now }
{
    match word_end(text) {
        Some(end) => end,
        None => text.len(),
    }
}

/// The place of the first byte that no word has.
fn word_end(text: &[u8]) -> Option<usize>
    ensures { result ≡ position (λ c. not (is_letter_or_digit c)) text.now }
{
    text.iter().position(|c| !is_letter_or_digit(*c))
}

fn is_letter_or_digit(c: u8) -> bool
    ensures { result ≡ is_letter_or_digit c }
{
    c == b'_' || (97 <= c && c <= 122) || (48 <= c && c <= 57)
}

/// The text behind this byte, None where another is at the start.
pub(crate) fn behind(byte: u8, text: &[u8]) -> Option<&[u8]>
    ensures { MatchOption result (behind byte text.now ≡ None) (λ rest. behind byte text.now ≡ Some rest.now) }
{
    match text.split_first() {
        Some((first, rest)) if *first == byte => Some(rest),
        _ => None,
    }
}

/// The text after this prefix, None where another is there.
pub(crate) fn without_front<'t>(front: &[u8], text: &'t [u8]) -> Option<&'t [u8]>
    ensures { MatchOption result (without_front front.now text.now ≡ None) (λ rest. without_front front.now text.now ≡ Some rest.now) }
{
    text.strip_prefix(front)
}

/// The number that a word is in decimal, without a leading zero. None where it is none below 2^64.
pub fn number_of(word: &[u8]) -> Option<u64>
    ensures { result ≡ number_in (2 ^ 64) word.now }
{
    if !is_plain(word) {
        return None;
    }
    let mut number: u64 = 0;
    'digits: for digit in word {
        number = with_digit(number, *digit)?;
    }
    Some(number)
}

/// The number below 2^32 that a word is in decimal, without a leading zero.
pub(crate) fn short_number_of(word: &[u8]) -> Option<u32>
    ensures { result ≡ number_in (2 ^ 32) word.now }
{
    match number_of(word) {
        Some(number) if number < 1 << 32 => Some(number as u32),
        _ => None,
    }
}

/// Whether a digit is first, and no zero but a zero alone.
fn is_plain(word: &[u8]) -> bool
    ensures { result ≡ is_plain word.now }
{
    match word.split_first() {
        None => false,
        Some((first, rest)) => *first != b'0' || rest.is_empty(),
    }
}

/// The number with a digit more, None where the byte is none or the number is too large.
fn with_digit(number: u64, digit: u8) -> Option<u64>
    ensures { result ≡ with_digit number digit }
{
    if digit < b'0' || digit > b'9' {
        return None;
    }
    number.checked_mul(10)?.checked_add(u64::from(digit - b'0'))
}

/// The bytes of a word of hexadecimal digits in lower case, two for each byte. None where it is no such word.
pub(crate) fn bytes_of(alloc: Global, word: &[u8]) -> Result<Option<Vec<u8>>, AllocError>
    ensures { IfOk result (λ bytes. Reads bytes (λ b. b.items) (raw_in word.now)) }
{
    if word.len() % 2 != 0 {
        return Ok(None);
    }
    let mut bytes = vec![in alloc; 0; word.len() / 2]?;
    if read_pairs(word, &mut bytes) {
        Ok(Some(bytes))
    } else {
        Ok(None)
    }
}

/// Puts the byte of each two digits into its place, and says whether all of them are digits. It asks so of the greatest value at the
/// end and takes no branch on a digit, so that the compiler reads many pairs at once.
fn read_pairs(word: &[u8], bytes: &mut [u8]) -> bool
    requires { length word.now ≡ 2 * length bytes.old }
    ensures whole { result ≡ true → bytes_of word.now ≡ Some bytes.new }
    ensures broken { result ≡ false → bytes_of word.now ≡ None }
{
    let mut most: u8 = 0;
    'pairs: for i in 0..bytes.len() {
        let (high, low) = (digit_value(word[2 * i]), digit_value(word[2 * i + 1]));
        bytes[i] = high.wrapping_mul(16).wrapping_add(low);
        most = most.max(high).max(low);
    }
    most < 16
}

/// The byte of two hexadecimal digits in lower case. None where one of them is no such digit.
pub fn byte_of(high: u8, low: u8) -> Option<u8>
    ensures { result ≡ byte_of high low }
{
    let (high, low) = (digit_value(high), digit_value(low));
    if high > 15 || low > 15 {
        return None;
    }
    Some(16 * high + low)
}

// What a byte that is no hexadecimal digit has for its value.
const NO_DIGIT: u8 = 255;

/// The value of a hexadecimal digit in lower case. It is a number and no Option, since which digit comes next can't be guessed: so no
/// branch is taken on it.
fn digit_value(digit: u8) -> u8
    ensures { MatchOption (hex_value digit) (result ≡ 255) (λ value. (result ≡ value) × (value < 16)) }
{
    if digit >= b'0' && digit <= b'9' {
        digit - b'0'
    } else if digit >= b'a' && digit <= b'f' {
        digit - 87
    } else {
        NO_DIGIT
    }
}
