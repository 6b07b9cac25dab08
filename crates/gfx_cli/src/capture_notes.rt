// The line in the notes on how a recording ended.
ghost use Rattle.std.specs.Prelude.{◌≡◌, ◌⊎◌, ◌≤◌, IfOk, string_bytes};
ghost use Rattle.std.specs.Io.KnownBytes.{Appends};
ghost use Rattle.gfx_io.specs.Causes.{Rose};
ghost use Rattle.gfx_io.specs.Pieces.{AppendsPart};
ghost use Rattle.gfx_cli.specs.Captures.{line_of, status_of};
ghost use Rattle.gfx_cli.specs.Text.{bad_script_line, refused_line, log_full_line};

use crate::notes::{note, tell};
use crate::{Status, Stop};
use gfx_io::Sink;
use gfx_recording::RecordingFault;
use gfx_script::ScriptKind;
use gfx_types::Fault;
use std::alloc::{AllocError, Global};

/// Writes the line of a fault, and answers its status, or that no memory was found for the line, or that the write failed.
pub(crate) fn tell_capture<N: Sink>(alloc: Global, fault: RecordingFault, notes: &mut N) -> Status
    ensures ends { ((result ≡ status_of fault) × Appends (N.taken notes.old) (N.taken notes.new) (line_of fault))
        ⊎ (((result ≡ Status.WantMemory) × (notes.new ≡ notes.old))
        ⊎ ((result ≡ Status.WriteFault) × Rose (N.faults notes.old) (N.faults notes.new))) }
    ensures front { AppendsPart (N.taken notes.old) (N.taken notes.new) (line_of fault) }
    ensures no_memory { result ≡ Status.WantMemory → notes.new ≡ notes.old }
    ensures silent { fault ≡ RecordingFault.WantMemory → result ≡ Status.WantMemory }
    ensures later { N.faults notes.old ≤ N.faults notes.new }
{
    match fault {
        RecordingFault::BadScript { line, kind } => match bad_script(alloc, line, kind) {
            Ok(text) => note(notes, text.as_str(), Status::BadScript),
            Err(AllocError) => Status::WantMemory,
        },
        RecordingFault::CallRefused { line, fault, at } => match refused(alloc, line, fault, at) {
            Ok(text) => note(notes, text.as_str(), Status::CallRefused),
            Err(AllocError) => Status::WantMemory,
        },
        RecordingFault::LogFull { length, wanted } => match log_full(alloc, length, wanted) {
            Ok(text) => note(notes, text.as_str(), Status::LogFull),
            Err(AllocError) => Status::WantMemory,
        },
        RecordingFault::NoSuchFrame { first, last } => {
            tell(alloc, Stop::NoSuchFrame { first, last }, notes)
        }
        RecordingFault::ReadFault => tell(alloc, Stop::ReadFault, notes),
        RecordingFault::SinkFault => tell(alloc, Stop::WriteFault, notes),
        RecordingFault::WantMemory => tell(alloc, Stop::WantMemory, notes),
    }
}

/// The line that names the first fault of a text.
#[tactic(auto, unfolding(crate::specs::Text::bad_script_line))]
fn bad_script(alloc: Global, line: u32, kind: ScriptKind) -> Result<String, AllocError>
    ensures { IfOk result (λ text. string_bytes text ≡ bad_script_line line kind) }
{
    let name = kind.name();
    format!(in alloc; "bad script line {line}: {name}\n")
}

/// The line that names the call that was refused.
#[tactic(auto, unfolding(crate::specs::Text::refused_line))]
fn refused(alloc: Global, line: u32, fault: Fault, at: u64) -> Result<String, AllocError>
    ensures { IfOk result (λ text. string_bytes text ≡ refused_line line fault at) }
{
    let number = fault.number();
    let name = fault.name();
    format!(in alloc; "refused line {line}: {number} {name} after {at} blocks\n")
}

/// The line on a block for which there is no room.
#[tactic(auto, unfolding(crate::specs::Text::log_full_line))]
fn log_full(alloc: Global, length: u64, wanted: u64) -> Result<String, AllocError>
    ensures { IfOk result (λ text. string_bytes text ≡ log_full_line length wanted) }
{
    format!(in alloc; "log full: {length} and {wanted}\n")
}
