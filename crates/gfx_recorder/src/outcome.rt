//! What a run of a script gives.
use gfx_capture::Log;
use gfx_types::Fault;

/// How a run of a script ended.
#[derive(Drop)]
pub enum Outcome {
    /// Every call was accepted.
    Done {
        log: Log,
    },
    /// The line with this number has the fault after the first `at` blocks of the log.
    Refused {
        line: u32,
        fault: Fault,
        at: u64,
        log: Log,
    },
    /// The first blocks of the log have `length` bytes with the header, and no room for the `wanted` bytes of the next one.
    LogFull {
        length: u64,
        wanted: u64,
        log: Log,
    },
    /// No memory was found.
    WantMemory,
}
