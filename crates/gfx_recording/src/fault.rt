//! Faults of recordings.
use gfx_script::ScriptKind;
use gfx_types::Fault;
use thiserror::Error;

/// Why a recording ends before its aim.
#[derive(Clone, Copy, Debug, PartialEq, Eq, Error)]
pub enum RecordingFault {
    /// The first line of the text with a fault, and its first fault.
    #[error("bad script line {line}: {kind}")]
    BadScript { line: u32, kind: ScriptKind },
    /// The call of a line has this fault after so many blocks of the log.
    #[error("refused line {line}: {fault:?} after {at} blocks")]
    CallRefused { line: u32, fault: Fault, at: u64 },
    /// The first blocks of the log have `length` bytes with the header, and no room for the `wanted` bytes of the next one.
    #[error("log full: {length} and {wanted}")]
    LogFull { length: u64, wanted: u64 },
    /// A frame that is asked for isn't there. The log has the frames from `first` to `last`, none where `last` is below.
    #[error("the log has frames {first} to {last}")]
    NoSuchFrame { first: u64, last: u64 },
    #[error("read fault")]
    ReadFault,
    #[error("write fault")]
    SinkFault,
    #[error("out of memory")]
    WantMemory,
}
