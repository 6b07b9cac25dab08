//! How appending ends, and its number in C.
ghost use Rattle.std.specs.Prelude.{◌≡◌};
ghost use Rattle.gfx_log_c.specs.Codes.{code_of, answer_of};

use gfx_capture::{AppendFault, Receipt};
use gfx_types::Fault;

/// How appending ends.
#[derive(Clone, Copy, Debug, PartialEq, Eq)]
pub enum Answer {
    /// The log grew by the event.
    Accepted,
    /// The bytes spell no fields, or are too many.
    BadFields,
    /// The first rule that the event breaks.
    Refused(Fault),
    /// With its block the log would pass 2^28 bytes.
    Full,
    /// Out of memory.
    WantMemory,
}

impl Answer {
    /// Its number in C.
    pub fn code(self) -> u32
        ensures { result ≡ code_of self }
    {
        match self {
            Answer::Accepted => 0,
            Answer::BadFields => 8,
            Answer::Refused(fault) => fault.number(),
            Answer::Full => 29,
            Answer::WantMemory => 30,
        }
    }

    /// Of what a log answers to one effect.
    pub(crate) fn of(answered: Result<Receipt, AppendFault>) -> Answer
        ensures { result ≡ answer_of answered }
    {
        match answered {
            Ok(_) => Answer::Accepted,
            Err(AppendFault::Refused { fault, .. }) => Answer::Refused(fault),
            Err(AppendFault::LogFull { .. }) => Answer::Full,
            Err(AppendFault::WantMemory { .. }) => Answer::WantMemory,
        }
    }
}
