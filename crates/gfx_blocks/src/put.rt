// Writing of a capture file.
ghost use Rattle.std.specs.Prelude.{◌≡◌, ◌⊎◌, ◌++◌, length, take, OnOk, OnErr};
ghost use Rattle.std.specs.Int.{to_le_bytes, w32, w64};
ghost use Rattle.gfx_model.specs.Events.{event_of};
ghost use Rattle.gfx_model.specs.Spelling.{HasSpelling, header, encoding, payload, type_of};
ghost use Rattle.gfx_grammar.specs.Framing.{CanBeWritten};

use crate::framing::MARKER;
use crate::header::{MAGIC, MAJOR};
use gfx_io::{set_u32, set_u64};
use gfx_params::{call_id, encode, encode_meta, meta_id};
use gfx_types::{Effect, WantMemory};

/// The type of a metadata.
const META: u32 = 3;

/// The type of a call.
const CALL: u32 = 4;

/// Appends the header of a file of this minor version, without options. `out` is unchanged when out of memory.
pub fn put_header(minor: u32, out: &mut Vec<u8>) -> Result<(), WantMemory>
    ensures ok { OnOk result (out.new.items ≡ out.old.items ++ header minor) }
    ensures err { OnErr result (out.new.items ≡ out.old.items) }
{
    let mut bytes = [0; 16];
    set_u32(&mut bytes, 0, MAGIC);
    set_u32(&mut bytes, 4, MAJOR);
    set_u32(&mut bytes, 8, minor);
    put(&bytes, out)
}

/// Appends the block of an effect in a file of this minor version. `out` is unchanged when out of memory.
pub fn put_block(
    minor: u32,
    thread: u64,
    effect: &Effect<'_>,
    out: &mut Vec<u8>,
) -> Result<(), WantMemory>
    requires version { (minor ≡ 1) ⊎ (minor ≡ 2) }
    requires fits { CanBeWritten minor thread (event_of effect.now) }
    ensures ok { OnOk result (out.new.items ≡ out.old.items ++ encoding minor thread (event_of effect.now)) }
    ensures err { OnErr result (out.new.items ≡ out.old.items) }
{
    let start = out.len();
    if let Err(fault) = put_unsized(minor, thread, effect, out) {
        out.truncate(start);
        return Err(fault);
    }
    let size = (out.len() - start - 12) as u64;
    set_u64(out, start, size);
    Ok(())
}

/// Appends the block of an effect with 0 for its size. When out of memory some of it may follow the old bytes.
fn put_unsized(
    minor: u32,
    thread: u64,
    effect: &Effect<'_>,
    out: &mut Vec<u8>,
) -> Result<(), WantMemory>
    requires version { (minor ≡ 1) ⊎ (minor ≡ 2) }
    requires fits { HasSpelling minor (event_of effect.now) }
    ensures ok { OnOk result (out.new.items ≡ out.old.items ++ to_le_bytes w64 0
        ++ to_le_bytes w32 (type_of (event_of effect.now)) ++ payload minor thread (event_of effect.now)) }
    ensures err { OnErr result (take (length out.old.items) out.new.items ≡ out.old.items) }
{
    match effect {
        Effect::Call(call) => {
            put_front(CALL, call_id(call), thread, out)?;
            encode(minor, call, out)
        }
        Effect::Meta(meta) => {
            put_front(META, meta_id(meta), thread, out)?;
            encode_meta(meta, out)
        }
        Effect::Marker { begin, frame } => {
            let kind = if *begin { 1 } else { 2 };
            put_front(MARKER, kind, *frame, out)
        }
    }
}

/// Appends 0 for a size, a block's type, its id, and its thread or frame.
fn put_front(kind: u32, id: u32, number: u64, out: &mut Vec<u8>) -> Result<(), WantMemory>
    ensures ok { OnOk result (out.new.items ≡ out.old.items ++ to_le_bytes w64 0
        ++ to_le_bytes w32 kind ++ to_le_bytes w32 id ++ to_le_bytes w64 number) }
    ensures err { OnErr result (out.new.items ≡ out.old.items) }
{
    let mut bytes = [0; 24];
    set_u32(&mut bytes, 8, kind);
    set_u32(&mut bytes, 12, id);
    set_u64(&mut bytes, 16, number);
    put(&bytes, out)
}

/// Appends the bytes. `out` is unchanged when out of memory.
fn put(bytes: &[u8], out: &mut Vec<u8>) -> Result<(), WantMemory>
    ensures ok { OnOk result (out.new.items ≡ out.old.items ++ bytes.now) }
    ensures err { OnErr result (out.new.items ≡ out.old.items) }
{
    Ok(out.extend_from_slice(bytes)?)
}
