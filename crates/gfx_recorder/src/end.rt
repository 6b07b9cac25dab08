//! How a worker ended.
ghost use Rattle.std.specs.Prelude.{◌≡◌, map};
ghost use Rattle.gfx_script.specs.Line.{line_of};
ghost use Rattle.gfx_recorder.specs.Ends.{done_of, end_by, end_of, number_at, is_all, is_memory};

use gfx_capture::AppendFault;
use gfx_script::Line;
use gfx_types::Fault;

/// How a worker came to the end of its lines, or why it stopped before.
#[derive(Clone, Copy)]
pub(crate) enum End {
    All,
    /// The line with this number has the fault at this length of the log.
    Refused { line: u32, fault: Fault, at: u64 },
    LogFull { length: u64, wanted: u64 },
    WantMemory,
}

impl End {
    /// Whether the worker came to the end of its lines.
    pub(crate) fn is_all(&self) -> bool
        ensures { result ≡ is_all self.now }
    {
        match self {
            End::All => true,
            End::Refused { .. } | End::LogFull { .. } | End::WantMemory => false,
        }
    }

    /// Whether the worker found no memory.
    pub(crate) fn is_memory(&self) -> bool
        ensures { result ≡ is_memory self.now }
    {
        match self {
            End::WantMemory => true,
            End::All | End::Refused { .. } | End::LogFull { .. } => false,
        }
    }
}

/// How many lines were appended before the fault.
pub(crate) fn done_before(fault: &AppendFault) -> u32
    ensures { result ≡ done_of fault.now }
{
    match fault {
        AppendFault::Refused { done, .. } => *done,
        AppendFault::LogFull { done, .. } => *done,
        AppendFault::WantMemory { done } => *done,
    }
}

/// How a worker ends that ran the lines with this answer, up to the one at this place.
pub(crate) fn end_by(lines: &[Line], place: usize, answer: &Result<(), AppendFault>) -> End
    ensures { result ≡ end_by (number_at (map line_of lines.now) place) answer.now }
{
    match answer {
        Ok(()) => End::All,
        Err(fault) => end_at(line_number(lines, place), fault),
    }
}

// How a worker ends that has this fault at the line with this number.
fn end_at(line: u32, fault: &AppendFault) -> End
    ensures { result ≡ end_of line fault.now }
{
    match fault {
        AppendFault::Refused { fault, at, .. } => End::Refused {
            line,
            fault: *fault,
            at: *at,
        },
        AppendFault::LogFull { length, wanted, .. } => End::LogFull {
            length: *length,
            wanted: *wanted,
        },
        AppendFault::WantMemory { .. } => End::WantMemory,
    }
}

// The number of the line at this place, and 0 where there is none.
#[tactic(auto, using(crate::proofs::Threads::number_there, crate::proofs::Threads::number_past))]
fn line_number(lines: &[Line], place: usize) -> u32
    ensures { result ≡ number_at (map line_of lines.now) place }
{
    if place < lines.len() {
        lines[place].number
    } else {
        0
    }
}
