//! Bytes of a source, behind others.
ghost use Rattle.std.specs.Prelude.{◌≡◌, ◌≤◌, ◌+◌, ◌^◌, ℕ, List, [], ◌++◌, length, vec_len, IfOk, IfErr, OnErr, Err};
ghost use Rattle.std.specs.Io.KnownBytes.{Consumes, IsAtEnd};
ghost use Rattle.gfx_io.specs.Causes.{Rose};
ghost use Rattle.gfx_list.specs.Lines.{IsUngiven};

use crate::UnlistFault;
use gfx_io::Source;

/// How many bytes are read at a time at most.
const PIECE: usize = 1 << 16;

/// Reads some of the next bytes onto the end of the buffer, none only where the input ends. After a failed read the buffer
/// is as it was.
pub(crate) fn read_some<S: Source>(
    source: &mut S,
    buffer: &mut Vec<u8>,
) -> Result<usize, UnlistFault>
    requires { vec_len buffer.old ≤ 2 ^ 30 }
    ensures some { IfOk result (λ count. (piece : List ℕ) × (length piece ≡ count) × (buffer.new.items ≡ buffer.old.items ++ piece)
        × Consumes (S.left source.old) (S.left source.new) piece) }
    ensures ended { IfOk result (λ count. count ≡ 0 → IsAtEnd (S.left source.new)) }
    ensures few { IfOk result (λ count. count ≤ 2 ^ 16) }
    ensures none { OnErr result (Consumes (S.left source.old) (S.left source.new) []) }
    ensures why { IfErr result IsUngiven }
    ensures kept { result ≡ Err UnlistFault.ReadFault → buffer.new.items ≡ buffer.old.items }
    ensures later { S.faults source.old ≤ S.faults source.new }
    ensures cause { result ≡ Err UnlistFault.ReadFault → Rose (S.faults source.old) (S.faults source.new) }
{
    let front = buffer.len();
    buffer.resize(front + PIECE, 0)?;
    match source.read(&mut buffer[front..]) {
        Ok(count) => {
            buffer.truncate(front + count);
            Ok(count)
        }
        Err(_) => {
            buffer.truncate(front);
            Err(UnlistFault::ReadFault)
        }
    }
}
