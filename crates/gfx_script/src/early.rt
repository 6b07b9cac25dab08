//! The faults that come before a line's form is looked at.
ghost use Rattle.std.specs.Prelude.{◌≡◌, map, option_map};
ghost use Rattle.std.specs.List.{list_all};
ghost use Rattle.gfx_script_model.specs.Scripts as script;
ghost use Rattle.gfx_script.specs.Kinds.{kind_of};
ghost use Rattle.gfx_script.specs.Early.{text_fault};

use crate::kind::ScriptKind;
use crate::words::is_word;
use gfx_types::limits::{MAX_LINE, MAX_LINES, MAX_SCRIPT};

/// The fault of a line that its bytes have, or its place: its number, and where it ends in the text with its line feed.
pub(crate) fn early_fault(number: u32, through: usize, line: &[u8]) -> Option<ScriptKind>
    ensures { option_map kind_of result ≡ text_fault number through line.now }
{
    if !are_printable(line) {
        Some(ScriptKind::BadByte)
    } else if line.len() > MAX_LINE {
        Some(ScriptKind::LineTooLong)
    } else if number > MAX_LINES || through > MAX_SCRIPT {
        Some(ScriptKind::TooMany)
    } else {
        None
    }
}

// Whether all bytes are printable.
fn are_printable(line: &[u8]) -> bool
    ensures { result ≡ list_all script.is_printable line.now }
{
    line.iter().all(|byte| is_printable(*byte))
}

// Whether the byte is printable.
fn is_printable(byte: u8) -> bool
    ensures { result ≡ script.is_printable byte }
{
    b' ' <= byte && byte <= b'~'
}

/// Whether the line of these tokens begins a phase.
pub(crate) fn is_phase(tokens: &[&[u8]]) -> bool
    ensures { result ≡ script.is_phase (map (λ t. t.now) tokens.now) }
{
    match tokens {
        [word] => is_word(word, b"phase"),
        _ => false,
    }
}
