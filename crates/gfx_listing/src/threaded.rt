//! Lines of calls and metadata, read.
ghost use Rattle.std.specs.Prelude.{◌≡◌, ◌⊎◌, ◌++◌, ℕ, length, take, map, OnOk, OnErr};
ghost use Rattle.std.specs.Int.{to_le_bytes, w32, w64};
ghost use Rattle.gfx_model.specs.Events.{event_of_call, event_of_meta};
ghost use Rattle.gfx_model.specs.Spelling.{HasSpelling};
ghost use Rattle.gfx_text_grammar.specs.Lines.{event_block};
ghost use Rattle.gfx_text_grammar.specs.Lines as lines;
ghost use Rattle.gfx_listing.specs.Answers.{AppendsPart};
ghost use Rattle.gfx_listing.specs.Lines.{named_block};

use crate::fault::LineFault;
use crate::framing::{begin_block, end_block};
use crate::words::{number_behind, without_front};
use gfx_io::{WantMemory, put_u32, put_u64};
use gfx_params::{call_id, encode, encode_meta, meta_id};
use gfx_text::{Left, Numbered, read_call, read_meta};
use gfx_types::{Call, Meta};

const META: u32 = 3;

const CALL: u32 = 4;

/// Appends the block of a line with these tokens: its thread, a call or a metadata, and fields.
pub(crate) fn read_threaded(
    minor: u32,
    tokens: &[&[u8]],
    out: &mut Vec<u8>,
) -> Result<(), LineFault>
    requires { (minor ≡ 1) ⊎ (minor ≡ 2) }
    ensures { AppendsPart result (lines.read_threaded minor (map (λ t. t.now) tokens.now)) out.old.items out.new.items }
{
    let [thread, name, fields @ ..] = tokens else {
        return Err(LineFault::BadLine);
    };
    let Some(thread) = number_behind(b"thread=", thread) else {
        return Err(LineFault::BadLine);
    };
    read_named(minor, thread, name, fields, out)
}

/// Appends the block of a call or a metadata of this name under a thread.
fn read_named(
    minor: u32,
    thread: u64,
    name: &[u8],
    fields: &[&[u8]],
    out: &mut Vec<u8>,
) -> Result<(), LineFault>
    requires { (minor ≡ 1) ⊎ (minor ≡ 2) }
    ensures { AppendsPart result (lines.read_named minor thread name.now (map (λ t. t.now) fields.now)) out.old.items out.new.items }
{
    match without_front(b"vk", name) {
        Some(call) => append_call(minor, thread, call, fields, out),
        None => append_meta(minor, thread, name, fields, out),
    }
}

/// Appends the block of the call of this name.
fn append_call(
    minor: u32,
    thread: u64,
    name: &[u8],
    fields: &[&[u8]],
    out: &mut Vec<u8>,
) -> Result<(), LineFault>
    requires { (minor ≡ 1) ⊎ (minor ≡ 2) }
    ensures { AppendsPart result (named_block minor 4 thread name.now (map (λ t. t.now) fields.now)) out.old.items out.new.items }
{
    let alloc = *out.allocator();
    let mut room = Vec::new(alloc);
    let left = Left { made: &[], fields };
    let call = read_call(alloc, &Numbered, minor, name, left, &mut room)?;
    put_call(minor, thread, &call, out)
}

/// Appends the block of the metadata of this name.
fn append_meta(
    minor: u32,
    thread: u64,
    name: &[u8],
    fields: &[&[u8]],
    out: &mut Vec<u8>,
) -> Result<(), LineFault>
    ensures { AppendsPart result (named_block minor 3 thread name.now (map (λ t. t.now) fields.now)) out.old.items out.new.items }
{
    let alloc = *out.allocator();
    let mut room = Vec::new(alloc);
    let left = Left { made: &[], fields };
    let meta = read_meta(alloc, &Numbered, name, left, &mut room)?;
    put_meta(thread, &meta, out)
}

/// Appends the block of a call. BadLine where its payload is larger than one may be.
fn put_call(minor: u32, thread: u64, call: &Call<'_>, out: &mut Vec<u8>) -> Result<(), LineFault>
    requires version { (minor ≡ 1) ⊎ (minor ≡ 2) }
    requires fits { HasSpelling minor (event_of_call call.now) }
    ensures { AppendsPart result (event_block minor 4 thread (event_of_call call.now)) out.old.items out.new.items }
{
    let start = out.len();
    begin_effect(CALL, call_id(call), thread, out)?;
    encode(minor, call, out)?;
    end_block(start, out)
}

/// Appends the block of a metadata. BadLine where its payload is larger than one may be.
fn put_meta(thread: u64, meta: &Meta<'_>, out: &mut Vec<u8>) -> Result<(), LineFault>
    requires { HasSpelling 1 (event_of_meta meta.now) }
    ensures { (m : ℕ) → AppendsPart result (event_block m 3 thread (event_of_meta meta.now)) out.old.items out.new.items }
{
    let start = out.len();
    begin_effect(META, meta_id(meta), thread, out)?;
    encode_meta(meta, out)?;
    end_block(start, out)
}

/// Appends 0 for the size of a payload, a block's type, its id and its thread.
fn begin_effect(kind: u32, id: u32, thread: u64, out: &mut Vec<u8>) -> Result<(), WantMemory>
    ensures ok { OnOk result (out.new.items ≡ out.old.items ++ to_le_bytes w64 0
        ++ to_le_bytes w32 kind ++ to_le_bytes w32 id ++ to_le_bytes w64 thread) }
    ensures err { OnErr result (take (length out.old.items) out.new.items ≡ out.old.items) }
{
    begin_block(kind, out)?;
    put_u32(out, id)?;
    put_u64(out, thread)
}
