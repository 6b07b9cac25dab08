//! The text of a script, read from a source.
ghost use Rattle.std.specs.Prelude.{◌≡◌, ◌≤◌, ◌+◌, Err, IfOk, IfErr, length};
ghost use Rattle.std.specs.Io.KnownBytes.{Consumes, IsAtEnd};
ghost use Rattle.gfx_io.specs.Causes.{Rose};
ghost use Rattle.gfx_decode.specs.Reading.{ReadsSome};
ghost use Rattle.gfx_model.specs.Limits.{max_script};
ghost use Rattle.gfx_recording.specs.Faults.{IsUnread, IsUncut};

use crate::RecordingFault;
use gfx_decode::{DecodeFault, read_piece};
use gfx_io::Source;
use gfx_types::limits::MAX_SCRIPT;
use std::alloc::Global;

/// How many bytes are read at a time.
const PIECE: usize = 1 << 16;

/// All bytes of the source, or one more than a script may have where there are so many.
pub(crate) fn read_text<S: Source>(alloc: Global, source: &mut S) -> Result<Vec<u8>, RecordingFault>
    ensures text { IfOk result (λ text. Consumes (S.left source.old) (S.left source.new) text.items) }
    ensures few { IfOk result (λ text. length text.items ≤ max_script + 1) }
    ensures ended { IfOk result (λ text. length text.items ≤ max_script → IsAtEnd (S.left source.new)) }
    ensures reads { ReadsSome (S.left source.old) (S.left source.new) }
    ensures why { IfErr result IsUnread }
    ensures read_fault { result ≡ Err RecordingFault.ReadFault → Rose (S.faults source.old) (S.faults source.new) }
    ensures later { S.faults source.old ≤ S.faults source.new }
{
    let mut text = Vec::new(alloc);
    'pieces: while text.len() <= MAX_SCRIPT {
        let most = PIECE.min(MAX_SCRIPT + 1 - text.len());
        match read_piece(source, most, &mut text) {
            Ok(count) if count < most => return Ok(text),
            Ok(_) => {}
            Err(fault) => return Err(unread(fault)),
        }
    }
    Ok(text)
}

/// Why a piece of a text was not read.
fn unread(fault: DecodeFault) -> RecordingFault
    requires { IsUncut fault }
    ensures why { IsUnread result }
    ensures read_fault { result ≡ RecordingFault.ReadFault → fault ≡ DecodeFault.ReadFault }
{
    match fault {
        DecodeFault::ReadFault => RecordingFault::ReadFault,
        DecodeFault::WantMemory => RecordingFault::WantMemory,
        DecodeFault::Bad { .. } => unreachable!(),
    }
}
