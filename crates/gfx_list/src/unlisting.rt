//! The file of a listing, line by line.
ghost use Rattle.std.specs.Prelude.{◌≡◌, ◌≢◌, ◌<◌, ◌≤◌, [], length, Err, IfOk, OnErr};
ghost use Rattle.gfx_io.specs.Causes.{Rose};
ghost use Rattle.gfx_io.specs.Told.{IfTold};
ghost use Rattle.gfx_rewrite.specs.Held.{Held, HeldPart};
ghost use Rattle.gfx_list.specs.Parts.{IsHeaderOf, Opens};
ghost use Rattle.gfx_list.specs.Unlists.{Unlists, UnlistsBy, read_ahead};

use crate::UnlistFault;
use crate::lines::Lines;
use crate::parts::{first_place, take_block, take_header};
use gfx_io::{Sink, Source};
use gfx_rewrite::{write_held, write_many};
use std::alloc::Global;

/// Writes the file of a listing: the bytes of its header, and of each block once its line was read. What the lines before a bad one
/// list was written.
pub fn unlist<S: Source, K: Sink>(
    alloc: Global,
    source: &mut S,
    sink: &mut K,
) -> Result<(), UnlistFault>
    ensures told { IfTold (S.left source.old) (S.left source.new) (Unlists (K.taken sink.old) (K.taken sink.new) result) }
    ensures read_fault { result ≡ Err UnlistFault.ReadFault → Rose (S.faults source.old) (S.faults source.new) }
    ensures sink_fault { result ≡ Err UnlistFault.SinkFault → Rose (K.faults sink.old) (K.faults sink.new) }
    ensures later { (S.faults source.old ≤ S.faults source.new) × (K.faults sink.old ≤ K.faults sink.new) }
{
    let mut bytes = Vec::new(alloc);
    let end = unlist_held(alloc, source, &mut bytes, sink);
    write_held(&mut bytes, sink)?;
    end
}

/// Writes the file of a listing, and holds back the last bytes, which make no whole piece.
fn unlist_held<S: Source, K: Sink>(
    alloc: Global,
    source: &mut S,
    bytes: &mut Vec<u8>,
    sink: &mut K,
) -> Result<(), UnlistFault>
    requires { bytes.old.items ≡ [] }
    ensures told { IfTold (S.left source.old) (S.left source.new)
        (UnlistsBy (Held (K.taken sink.old) (K.taken sink.new) bytes.new.items) (HeldPart (K.taken sink.old) (K.taken sink.new) bytes.new.items) result) }
    ensures read_fault { result ≡ Err UnlistFault.ReadFault → Rose (S.faults source.old) (S.faults source.new) }
    ensures sink_fault { result ≡ Err UnlistFault.SinkFault → Rose (K.faults sink.old) (K.faults sink.new) }
    ensures later { (S.faults source.old ≤ S.faults source.new) × (K.faults sink.old ≤ K.faults sink.new) }
{
    let mut lines = Lines::new(alloc);
    let minor = read_first(&mut lines, source, bytes)?;
    let mut at = first_place(bytes);
    'reading: while let Some(end) = lines.find_line(source, at.number + 1)? {
        at = take_block(minor, at, lines.line(end), bytes)?;
        lines.pass(end);
        write_many(bytes, sink)?;
    }
    Ok(())
}

/// Reads the first line, and leaves the bytes of its header: the minor version.
fn read_first<S: Source>(
    lines: &mut Lines,
    source: &mut S,
    bytes: &mut Vec<u8>,
) -> Result<u32, UnlistFault>
    requires { (lines.old ≡ []) × (bytes.old.items ≡ []) }
    ensures told { IfTold (S.left source.old) (S.left source.new) (Opens bytes.new.items lines.new result) }
    ensures header { IfOk result (λ minor. IsHeaderOf minor bytes.new.items) }
    ensures few { IfOk result (λ _. length lines.new < read_ahead) }
    ensures unchanged { OnErr result (bytes.new.items ≡ []) }
    ensures read_fault { result ≡ Err UnlistFault.ReadFault → Rose (S.faults source.old) (S.faults source.new) }
    ensures sink_fault { result ≢ Err UnlistFault.SinkFault }
    ensures later { S.faults source.old ≤ S.faults source.new }
{
    let Some(end) = lines.find_line(source, 1)? else {
        return Err(UnlistFault::BadListing { line: 1 });
    };
    let minor = take_header(lines.line(end), bytes)?;
    lines.pass(end);
    Ok(minor)
}
