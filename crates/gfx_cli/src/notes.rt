// The line in the notes on how a run ended.
ghost use Rattle.std.specs.Prelude.{◌≡◌, ◌⊎◌, ◌≤◌, IfOk, string_bytes};
ghost use Rattle.std.specs.Io.KnownBytes.{Appends};
ghost use Rattle.gfx_io.specs.Causes.{Rose};
ghost use Rattle.gfx_io.specs.Pieces.{AppendsPart};
ghost use Rattle.gfx_cli.specs.Stop.{line_of, status_of};
ghost use Rattle.gfx_model.specs.Text.{bad_line};
ghost use Rattle.gfx_cli.specs.Text.{bad_listing_line, no_such_frame_line};

use crate::{Status, Stop};
use gfx_io::{Failed, Sink, write_whole};
use gfx_types::Fault;
use std::alloc::{AllocError, Global};

const READ_FAULT: &str = "read fault\n";

/// Writes the line of a stop, and answers its status, or that no memory was found for the line, or that the write failed.
pub(crate) fn tell<N: Sink>(alloc: Global, stop: Stop, notes: &mut N) -> Status
    ensures ends { ((result ≡ status_of stop) × Appends (N.taken notes.old) (N.taken notes.new) (line_of stop))
        ⊎ (((result ≡ Status.WantMemory) × (notes.new ≡ notes.old))
        ⊎ ((result ≡ Status.WriteFault) × Rose (N.faults notes.old) (N.faults notes.new))) }
    ensures front { AppendsPart (N.taken notes.old) (N.taken notes.new) (line_of stop) }
    ensures no_memory { result ≡ Status.WantMemory → notes.new ≡ notes.old }
    ensures silent { stop ≡ Stop.WantMemory → result ≡ Status.WantMemory }
    ensures later { N.faults notes.old ≤ N.faults notes.new }
{
    match stop {
        Stop::BadFile {
            fault,
            block,
            offset,
        } => match bad_block(alloc, fault, block, offset) {
            Ok(line) => note(notes, line.as_str(), Status::BadFile),
            Err(AllocError) => Status::WantMemory,
        },
        Stop::NoSuchFrame { first, last } => match no_such_frame(alloc, first, last) {
            Ok(line) => note(notes, line.as_str(), Status::NoSuchFrame),
            Err(AllocError) => Status::WantMemory,
        },
        Stop::BadListing { line } => match bad_listing(alloc, line) {
            Ok(text) => note(notes, text.as_str(), Status::BadListing),
            Err(AllocError) => Status::WantMemory,
        },
        Stop::ReadFault => note(notes, READ_FAULT, Status::ReadFault),
        Stop::WriteFault => Status::WriteFault,
        Stop::WantMemory => Status::WantMemory,
    }
}

/// Writes a line to the notes, and answers the status, or that the write failed.
pub(crate) fn note<N: Sink>(notes: &mut N, line: &str, status: Status) -> Status
    ensures ends { ((result ≡ status) × Appends (N.taken notes.old) (N.taken notes.new) line.now)
        ⊎ ((result ≡ Status.WriteFault) × Rose (N.faults notes.old) (N.faults notes.new)) }
    ensures front { AppendsPart (N.taken notes.old) (N.taken notes.new) line.now }
    ensures later { N.faults notes.old ≤ N.faults notes.new }
{
    match write_whole(notes, line.as_bytes()) {
        Ok(()) => status,
        Err(Failed) => Status::WriteFault,
    }
}

/// The line that names a bad block.
fn bad_block(alloc: Global, fault: Fault, block: u64, offset: u64) -> Result<String, AllocError>
    ensures { IfOk result (λ line. string_bytes line ≡ bad_line fault block offset) }
{
    let number = fault.number();
    let name = fault.name();
    format!(in alloc; "bad block {block} at {offset}: {number} {name}\n")
}

/// The line that names the frames of a file.
#[tactic(auto, unfolding(crate::specs::Text::no_such_frame_line))]
fn no_such_frame(alloc: Global, first: u64, last: u64) -> Result<String, AllocError>
    ensures { IfOk result (λ line. string_bytes line ≡ no_such_frame_line first last) }
{
    format!(in alloc; "no such frame: the file has {first} to {last}\n")
}

/// The line that names the first bad line of a text.
#[tactic(auto, unfolding(crate::specs::Text::bad_listing_line))]
fn bad_listing(alloc: Global, number: u64) -> Result<String, AllocError>
    ensures { IfOk result (λ line. string_bytes line ≡ bad_listing_line number) }
{
    format!(in alloc; "bad listing line {number}\n")
}
