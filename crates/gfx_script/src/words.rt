//! Words of a line, and the names that it defines.
ghost use Rattle.std.specs.Prelude.{◌≡◌, ◌==◌, map, IfOk, IsTrue};
ghost use Rattle.std.specs.List.{list_all, slice_split};
ghost use Rattle.gfx_model.specs.Checks.{same_list};
ghost use Rattle.gfx_script_model.specs.Names as model;
ghost use Rattle.gfx_script.specs.Answers.{DefinesAll};

use crate::kind::ScriptKind;
use crate::line_fault::LineFault;
use crate::names::Names;
use gfx_types::Ids;
use std::alloc::{AllocError, Global};

/// Whether the token is this word.
pub(crate) fn is_word(token: &[u8], word: &[u8]) -> bool
    ensures { result ≡ same_list token.now word.now }
{
    token == word
}

/// Whether the word is a name: a letter, and up to 31 letters and digits.
pub(crate) fn is_name(word: &[u8]) -> bool
    ensures { result ≡ model.is_name word.now }
{
    match word {
        [first, rest @ ..] => {
            is_letter(*first) && are_letters_or_digits(rest) && rest.len() <= 31
        }
        [] => false,
    }
}

// Whether all bytes are letters or digits.
fn are_letters_or_digits(bytes: &[u8]) -> bool
    ensures { result ≡ list_all model.is_letter_or_digit bytes.now }
{
    bytes.iter().all(|byte| is_letter_or_digit(*byte))
}

// a to z or _
fn is_letter(byte: u8) -> bool
    ensures { result ≡ model.is_letter byte }
{
    byte == b'_' || b'a' <= byte && byte <= b'z'
}

// a to z, 0 to 9 or _
fn is_letter_or_digit(byte: u8) -> bool
    ensures { result ≡ model.is_letter_or_digit byte }
{
    is_letter(byte) || b'0' <= byte && byte <= b'9'
}

/// The parts of a token between its commas.
pub(crate) fn parts<'t>(alloc: Global, token: &'t [u8]) -> Result<Vec<&'t [u8]>, AllocError>
    ensures { IfOk result (λ parts. map (λ t. t.now) parts.items ≡ slice_split (λ c. c == 44) token.now) }
{
    token.split(|byte| *byte == b',').collect(alloc)
}

/// Defines names in this phase by this thread, and tells their numbers; NameTaken where one is defined already, or occurs
/// twice. After a fault the first of them are defined.
pub(crate) fn define_all<'t>(
    alloc: Global,
    names: &mut Names<'t>,
    words: &[&'t [u8]],
    phase: usize,
    thread: u32,
) -> Result<Ids, LineFault>
    requires { IsTrue (list_all model.is_name (map (λ t. t.now) words.now)) }
    ensures { DefinesAll phase thread names.old (map (λ t. t.now) words.now) result names.new }
{
    let mut numbers = Vec::new(alloc);
    'words: for word in words {
        match names.define(word, phase, thread)? {
            Some(number) => numbers.push(number)?,
            None => return Err(LineFault::Refused(ScriptKind::NameTaken)),
        }
    }
    Ok(Ids::of(numbers))
}
