//! A file written anew, block by block.
ghost use Rattle.std.specs.Prelude.{◌≡◌, ◌<◌, ◌≤◌, ◌⊎◌, ◌^◌, [], ◌++◌, length, Err, IfErr, OnOk, OnErr};
ghost use Rattle.gfx_io.specs.Causes.{Rose};
ghost use Rattle.gfx_io.specs.Told.{IfTold};
ghost use Rattle.gfx_grammar.specs.Framing.{IsBlock};
ghost use Rattle.gfx_blocks.specs.Payloads.{content_of};
ghost use Rattle.gfx_decode.specs.Decoding.{item_of};
ghost use Rattle.gfx_player.specs.Faults.{IsUnwritten};
ghost use Rattle.gfx_rewrite.specs.Held.{Held, HeldPart};
ghost use Rattle.gfx_rewrite.specs.Rewrites.{Answers, AnswersBy, AsksForNone};
ghost use Rattle.gfx_rewrite.specs.Texts.{rewritten};

use crate::held::{put, write_held, write_many};
use crate::rewriter::{Rewriter, Written};
use gfx_decode::{Decoder, MOST_HEADER, Raw};
use gfx_io::{Sink, Source};
use gfx_player::PlayFault;
use std::alloc::Global;

/// Writes the text of a file: that of its header, and that of each block once it was read. It looks at the format alone and not at
/// the rules. The texts before a bad block were written, and nothing where the header is bad.
pub fn rewrite<W: Rewriter, S: Source, K: Sink>(
    alloc: Global,
    way: &W,
    source: &mut S,
    sink: &mut K,
) -> Result<(), PlayFault>
    ensures told { IfTold (S.left source.old) (S.left source.new) (Answers (rewritten (W.texts way.now)) (K.taken sink.old) (K.taken sink.new) result) }
    ensures misses { IfErr result AsksForNone }
    ensures read_fault { result ≡ Err PlayFault.ReadFault → Rose (S.faults source.old) (S.faults source.new) }
    ensures sink_fault { result ≡ Err PlayFault.SinkFault → Rose (K.faults sink.old) (K.faults sink.new) }
    ensures later { (S.faults source.old ≤ S.faults source.new) × (K.faults sink.old ≤ K.faults sink.new) }
{
    let mut held = Vec::new(alloc);
    let end = rewrite_held(alloc, way, source, &mut held, sink);
    write_held(&mut held, sink)?;
    end
}

/// Writes a file anew, and holds back the end that makes no whole piece.
fn rewrite_held<W: Rewriter, S: Source, K: Sink>(
    alloc: Global,
    way: &W,
    source: &mut S,
    held: &mut Vec<u8>,
    sink: &mut K,
) -> Result<(), PlayFault>
    requires { held.old.items ≡ [] }
    ensures told { IfTold (S.left source.old) (S.left source.new)
        (AnswersBy (rewritten (W.texts way.now)) (Held (K.taken sink.old) (K.taken sink.new) held.new.items) (HeldPart (K.taken sink.old) (K.taken sink.new) held.new.items) result) }
    ensures misses { IfErr result AsksForNone }
    ensures read_fault { result ≡ Err PlayFault.ReadFault → Rose (S.faults source.old) (S.faults source.new) }
    ensures sink_fault { result ≡ Err PlayFault.SinkFault → Rose (K.faults sink.old) (K.faults sink.new) }
    ensures later { (S.faults source.old ≤ S.faults source.new) × (K.faults sink.old ≤ K.faults sink.new) }
{
    let mut decoder = Decoder::new(alloc);
    let mut front = [0; MOST_HEADER];
    let header = decoder.header_into(source, &mut front)?;
    way.put_header(header, &front, held)?;
    write_many(held, sink)?;
    let mut buffer = Vec::new(alloc);
    'reading: while let Some(raw) = decoder.next(source, &mut buffer)? {
        put_block(way, header.minor, raw, held, sink)?;
    }
    Ok(())
}

/// Takes the text of a block, and drops the block.
fn put_block<W: Rewriter, K: Sink>(
    way: &W,
    minor: u32,
    raw: Raw<'_>,
    held: &mut Vec<u8>,
    sink: &mut K,
) -> Result<(), PlayFault>
    requires few { length held.old.items < 2 ^ 16 }
    requires version { (minor ≡ 1) ⊎ (minor ≡ 2) }
    requires block { IsBlock minor raw.bytes.now (content_of raw.block) }
    ensures ok { OnOk result (Held (K.taken sink.old) (K.taken sink.new) held.new.items (held.old.items ++ (W.texts way.now).of_block minor (item_of raw.entry))) }
    ensures few { OnOk result (length held.new.items < 2 ^ 16) }
    ensures err { OnErr result (HeldPart (K.taken sink.old) (K.taken sink.new) held.new.items (held.old.items ++ (W.texts way.now).of_block minor (item_of raw.entry))) }
    ensures why { IfErr result IsUnwritten }
    ensures cause { result ≡ Err PlayFault.SinkFault → Rose (K.faults sink.old) (K.faults sink.new) }
    ensures later { K.faults sink.old ≤ K.faults sink.new }
{
    put_lent(way, minor, &raw, held, sink)
}

/// Takes the text of a block.
fn put_lent<W: Rewriter, K: Sink>(
    way: &W,
    minor: u32,
    raw: &Raw<'_>,
    held: &mut Vec<u8>,
    sink: &mut K,
) -> Result<(), PlayFault>
    requires few { length held.old.items < 2 ^ 16 }
    requires version { (minor ≡ 1) ⊎ (minor ≡ 2) }
    requires block { IsBlock minor raw.now.bytes.now (content_of raw.now.block) }
    ensures ok { OnOk result (Held (K.taken sink.old) (K.taken sink.new) held.new.items (held.old.items ++ (W.texts way.now).of_block minor (item_of raw.now))) }
    ensures few { OnOk result (length held.new.items < 2 ^ 16) }
    ensures err { OnErr result (HeldPart (K.taken sink.old) (K.taken sink.new) held.new.items (held.old.items ++ (W.texts way.now).of_block minor (item_of raw.now))) }
    ensures why { IfErr result IsUnwritten }
    ensures cause { result ≡ Err PlayFault.SinkFault → Rose (K.faults sink.old) (K.faults sink.new) }
    ensures later { K.faults sink.old ≤ K.faults sink.new }
{
    match way.put_block(minor, raw, held)? {
        Written::Same => put(held, raw.bytes, sink),
        Written::Anew => {
            write_many(held, sink)?;
            Ok(())
        }
    }
}
