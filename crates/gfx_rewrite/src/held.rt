//! Bytes that are held back until there are many of them.
//!
//! Pieces of 2^16 bytes are written at multiples of a page of the file, which is a third faster than elsewhere. A
//! longer block is written from where it is.
ghost use Rattle.std.specs.Prelude.{◌≡◌, ◌<◌, ◌≤◌, ◌+◌, ◌^◌, ◌%◌, [], ◌++◌, length, drop, vec_len, Err, IfErr, OnOk, OnErr};
ghost use Rattle.std.specs.Io.KnownBytes.{Appends};
ghost use Rattle.gfx_io.specs.Causes.{HasCause, Rose};
ghost use Rattle.gfx_io.specs.Pieces.{AppendsPart};
ghost use Rattle.gfx_player.specs.Faults.{IsUnwritten};
ghost use Rattle.gfx_rewrite.specs.Held.{Held, HeldPart};

use gfx_io::{Failed, Sink, write_whole};
use gfx_player::PlayFault;

/// So many bytes are written at a time, and fewer are held back. A file whose pieces begin where its pages do is written fastest.
const PIECE: usize = 1 << 16;

/// Takes bytes, and writes what is held in whole pieces. Those of them that make whole pieces are written from where they lie.
pub fn put<K: Sink>(held: &mut Vec<u8>, bytes: &[u8], sink: &mut K) -> Result<(), PlayFault>
    requires { length held.old.items < 2 ^ 16 }
    ensures ok { OnOk result (Held (K.taken sink.old) (K.taken sink.new) held.new.items (held.old.items ++ bytes.now)) }
    ensures few { OnOk result (length held.new.items < 2 ^ 16) }
    ensures pieces { OnOk result (length held.new.items ≡ (length held.old.items + length bytes.now) % 2 ^ 16) }
    ensures err { OnErr result (HeldPart (K.taken sink.old) (K.taken sink.new) held.new.items (held.old.items ++ bytes.now)) }
    ensures why { IfErr result IsUnwritten }
    ensures cause { result ≡ Err PlayFault.SinkFault → Rose (K.faults sink.old) (K.faults sink.new) }
    ensures later { K.faults sink.old ≤ K.faults sink.new }
{
    let free = PIECE - held.len();
    if bytes.len() < free {
        held.extend_from_slice(bytes)?;
        return Ok(());
    }
    held.extend_from_slice(&bytes[..free])?;
    write_held(held, sink)?;
    put_whole(held, &bytes[free..], sink)
}

/// Takes bytes where nothing is held: writes whole pieces of them, and holds the rest.
fn put_whole<K: Sink>(held: &mut Vec<u8>, bytes: &[u8], sink: &mut K) -> Result<(), PlayFault>
    requires { held.old.items ≡ [] }
    ensures ok { OnOk result (Held (K.taken sink.old) (K.taken sink.new) held.new.items bytes.now) }
    ensures few { OnOk result (length held.new.items < 2 ^ 16) }
    ensures pieces { OnOk result (length held.new.items ≡ length bytes.now % 2 ^ 16) }
    ensures err { OnErr result (HeldPart (K.taken sink.old) (K.taken sink.new) held.new.items bytes.now) }
    ensures why { IfErr result IsUnwritten }
    ensures cause { result ≡ Err PlayFault.SinkFault → Rose (K.faults sink.old) (K.faults sink.new) }
    ensures later { K.faults sink.old ≤ K.faults sink.new }
{
    let whole = whole_pieces(bytes.len());
    write_whole(sink, &bytes[..whole])?;
    held.extend_from_slice(&bytes[whole..])?;
    Ok(())
}

/// Writes what is held in whole pieces, and drops them. After a failed write nothing is held.
pub fn write_many<K: Sink>(held: &mut Vec<u8>, sink: &mut K) -> Result<(), Failed>
    ensures some { OnOk result (Held (K.taken sink.old) (K.taken sink.new) held.new.items held.old.items) }
    ensures few { length held.new.items < 2 ^ 16 }
    ensures pieces { OnOk result (length held.new.items ≡ length held.old.items % 2 ^ 16) }
    ensures failed { OnErr result (AppendsPart (K.taken sink.old) (K.taken sink.new) held.old.items) }
    ensures none { OnErr result (held.new.items ≡ []) }
    ensures cause { HasCause (K.faults sink.old) (K.faults sink.new) result }
{
    let whole = whole_pieces(held.len());
    match write_whole(sink, &held[..whole]) {
        Ok(()) => {
            remove_front(held, whole);
            Ok(())
        }
        Err(failed) => {
            held.clear();
            Err(failed)
        }
    }
}

/// Writes all that is held, and drops it, also where the write failed.
pub fn write_held<K: Sink>(held: &mut Vec<u8>, sink: &mut K) -> Result<(), Failed>
    ensures bytes { OnOk result (Appends (K.taken sink.old) (K.taken sink.new) held.old.items) }
    ensures failed { OnErr result (AppendsPart (K.taken sink.old) (K.taken sink.new) held.old.items) }
    ensures none { held.new.items ≡ [] }
    ensures cause { HasCause (K.faults sink.old) (K.faults sink.new) result }
{
    let written = write_whole(sink, held);
    held.clear();
    written
}

/// How many of so many bytes make whole pieces.
fn whole_pieces(count: usize) -> usize
    ensures within { result ≤ count }
    ensures few { count < result + 2 ^ 16 }
    ensures rest { count ≡ result + count % 2 ^ 16 }
{
    count - count % PIECE
}

/// Drops so many bytes at the start.
pub fn remove_front(buffer: &mut Vec<u8>, count: usize)
    requires { count ≤ vec_len buffer.old }
    ensures { buffer.new.items ≡ drop count buffer.old.items }
{
    // what is long comes in many pieces, and must not be moved for each
    if count == 0 {
        return;
    }
    let length = buffer.len();
    buffer.copy_within(count..length, 0);
    buffer.truncate(length - count);
}
