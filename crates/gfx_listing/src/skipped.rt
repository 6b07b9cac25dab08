//! The line of a block that is skipped, written and read.
ghost use Rattle.std.specs.Prelude.{◌≡◌, ◌+◌, ◌++◌, [], ◌∷◌, List, ℕ, length, take, map, OnOk, OnErr};
ghost use Rattle.std.specs.Int.{to_le_bytes, w32, w64};
ghost use Rattle.gfx_model.specs.Blocks.{size_field, type_field, payload_field};
ghost use Rattle.gfx_feature_model.specs.Listing as listing;
ghost use Rattle.gfx_text_grammar.specs.Lines as lines;
ghost use Rattle.gfx_listing.specs.Answers.{AppendsPart};
ghost use Rattle.gfx_listing.specs.Lines.{skipped_block};

use crate::fault::LineFault;
use crate::framing::{begin_block, end_block};
use crate::hex::append_bytes;
use crate::number::u32_at;
use crate::words::{is_word, without_front};
use gfx_io::put_u32;
use gfx_text_writer::put_bytes;
use gfx_types::WantMemory;
use std::alloc::AllocError;

const TYPE: usize = 8;

const HEAD: usize = 12;

const MESSAGE: u32 = 3;

/// Appends the line of a block that is skipped, without its line feed. When out of memory `out` is as it was.
#[tactic(auto, using(crate::proofs::Lines::whole_payload))]
pub(crate) fn put_skipped(bytes: &[u8], out: &mut Vec<u8>) -> Result<(), WantMemory>
    requires { length bytes.now ≡ 12 + size_field bytes.now }
    ensures ok { OnOk result (out.new.items ≡ out.old.items ++ listing.skipped_text (type_field bytes.now) (payload_field bytes.now)) }
    ensures err { OnErr result (out.new.items ≡ out.old.items) }
{
    let front = out.len();
    match write_skipped(u32_at(bytes, TYPE), &bytes[HEAD..], out) {
        Ok(()) => Ok(()),
        Err(AllocError) => {
            out.truncate(front);
            Err(WantMemory)
        }
    }
}

/// Appends the line of a block by its type and its payload. When out of memory some of the line may follow the old text.
fn write_skipped(kind: u32, payload: &[u8], out: &mut Vec<u8>) -> Result<(), AllocError>
    ensures ok { OnOk result (out.new.items ≡ out.old.items ++ listing.skipped_text kind payload.now) }
    ensures err { OnErr result (take (length out.old.items) out.new.items ≡ out.old.items) }
{
    out.extend_from_slice(skipped_name(kind).as_bytes())?;
    out.extend_from_slice(b" bytes=")?;
    put_bytes(skipped_bytes(kind, payload), out)
}

fn skipped_name(kind: u32) -> &'static str
    ensures { result.now ≡ listing.skipped_name kind }
{
    match kind {
        1 => "frame",
        5 => "annotation",
        _ => "message",
    }
}

/// The bytes of a block: those of a message follow its id.
fn skipped_bytes(kind: u32, payload: &[u8]) -> &[u8]
    ensures { result.now ≡ listing.skipped_bytes kind payload.now }
{
    if kind != MESSAGE {
        return payload;
    }
    match payload.get(4..) {
        Some(behind) => behind,
        None => &[],
    }
}

/// The type of a skipped block by its name.
pub(crate) fn skipped_kind(name: &[u8]) -> Option<u32>
    ensures { result ≡ lines.skipped_kind name.now }
{
    if is_word(name, b"frame") {
        Some(1)
    } else if is_word(name, b"annotation") {
        Some(5)
    } else if is_word(name, b"message") {
        Some(MESSAGE)
    } else {
        None
    }
}

/// Appends the block of this type with these tokens behind its name.
pub(crate) fn read_skipped(kind: u32, fields: &[&[u8]], out: &mut Vec<u8>) -> Result<(), LineFault>
    ensures { (name : List ℕ) → lines.skipped_kind name ≡ Some kind
        → AppendsPart result (lines.read_skipped (name ∷ map (λ t. t.now) fields.now)) out.old.items out.new.items }
{
    let [field] = fields else {
        return Err(LineFault::BadLine);
    };
    match without_front(b"bytes=", field) {
        Some(digits) => append_skipped(kind, digits, out),
        None => Err(LineFault::BadLine),
    }
}

/// Appends the block of this type with the bytes of these digits.
fn append_skipped(kind: u32, digits: &[u8], out: &mut Vec<u8>) -> Result<(), LineFault>
    ensures { AppendsPart result (skipped_block kind digits.now) out.old.items out.new.items }
{
    let start = out.len();
    begin_skipped(kind, out)?;
    append_bytes(digits, out)?;
    end_block(start, out)
}

/// Appends 0 for the size of a payload, the type of a skipped block, and the id of a message.
fn begin_skipped(kind: u32, out: &mut Vec<u8>) -> Result<(), gfx_io::WantMemory>
    ensures ok { OnOk result (out.new.items ≡ out.old.items ++ to_le_bytes w64 0 ++ to_le_bytes w32 kind ++ lines.skipped_payload kind []) }
    ensures err { OnErr result (take (length out.old.items) out.new.items ≡ out.old.items) }
{
    begin_block(kind, out)?;
    if kind != MESSAGE {
        return Ok(());
    }
    put_u32(out, 1)
}
