//! The line of a block, written and read.
ghost use Rattle.std.specs.Prelude.{◌≡◌, ◌⊎◌, ◌++◌, map, OnOk, OnErr, IfErr};
ghost use Rattle.gfx_grammar.specs.Framing.{IsBlock, Part};
ghost use Rattle.gfx_blocks.specs.Payloads.{content_of};
ghost use Rattle.gfx_feature_model.specs.Listing.{block_text};
ghost use Rattle.gfx_text_grammar.specs.Lines as lines;
ghost use Rattle.gfx_listing.specs.Answers.{AppendsPart};
ghost use Rattle.gfx_listing.specs.Lines.{part_of_tokens};

use crate::effects::put_effect;
use crate::fault::LineFault;
use crate::markers::{begins_section, read_marker};
use crate::skipped::{put_skipped, read_skipped, skipped_kind};
use crate::threaded::read_threaded;
use crate::tokens::tokens;
use gfx_decode::Raw;
use gfx_types::{Block, WantMemory};

/// Appends the line of a block of a file in this minor version, without its line feed. When out of memory `out` is as
/// it was.
pub fn put_line(minor: u32, raw: &Raw<'_>, out: &mut Vec<u8>) -> Result<(), WantMemory>
    requires { IsBlock minor raw.now.bytes.now (content_of raw.now.block) }
    ensures ok { OnOk result (out.new.items ≡ out.old.items ++ block_text minor raw.now.bytes.now (content_of raw.now.block)) }
    ensures err { OnErr result (out.new.items ≡ out.old.items) }
{
    match &raw.block {
        Block::Effect { thread, effect } => put_effect(minor, *thread, effect, out),
        Block::Skip => put_skipped(raw.bytes, out),
    }
}

/// Appends the block that has this line, without its line feed, in a file of this minor version. BadLine where none has
/// it. After a fault `out` is as it was.
pub fn read_line(minor: u32, line: &[u8], out: &mut Vec<u8>) -> Result<(), LineFault>
    requires { (minor ≡ 1) ⊎ (minor ≡ 2) }
    ensures ok { OnOk result ((part : Part) × (lines.read_line minor line.now ≡ Some part) × (out.new.items ≡ out.old.items ++ part.bytes)) }
    ensures bad { IfErr result (λ fault. fault ≡ LineFault.BadLine → lines.read_line minor line.now ≡ None) }
    ensures err { OnErr result (out.new.items ≡ out.old.items) }
{
    let start = out.len();
    match append_block(minor, line, out) {
        Ok(()) => Ok(()),
        Err(fault) => {
            out.truncate(start);
            Err(fault)
        }
    }
}

/// Appends the block of a line. After a fault a part of the block may follow the old bytes.
fn append_block(minor: u32, line: &[u8], out: &mut Vec<u8>) -> Result<(), LineFault>
    requires { (minor ≡ 1) ⊎ (minor ≡ 2) }
    ensures { AppendsPart result (lines.read_line minor line.now) out.old.items out.new.items }
{
    let Some(tokens) = tokens(*out.allocator(), line)? else {
        return Err(LineFault::BadLine);
    };
    read_tokens(minor, &tokens, out)
}

/// Appends the block of a line with these tokens.
fn read_tokens(minor: u32, tokens: &[&[u8]], out: &mut Vec<u8>) -> Result<(), LineFault>
    requires { (minor ≡ 1) ⊎ (minor ≡ 2) }
    ensures { AppendsPart result (part_of_tokens minor (map (λ t. t.now) tokens.now)) out.old.items out.new.items }
{
    let [name, fields @ ..] = tokens else {
        return Err(LineFault::BadLine);
    };
    if let Some(kind) = skipped_kind(name) {
        return read_skipped(kind, fields, out);
    }
    match begins_section(name) {
        Some(begin) => read_marker(minor, begin, fields, out),
        None => read_threaded(minor, tokens, out),
    }
}
