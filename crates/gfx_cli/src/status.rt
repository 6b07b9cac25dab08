// How a run of the program ends.
ghost use Rattle.std.specs.Prelude.{◌≡◌};
ghost use Rattle.gfx_cli.specs.Status.{status_code};

/// How a run of the program ends.
#[derive(Clone, Copy, Debug, PartialEq, Eq)]
pub enum Status {
    Done,
    WantMemory,
    Usage,
    BadFile,
    NoSuchFrame,
    ReadFault,
    WriteFault,
    BadScript,
    CallRefused,
    LogFull,
    BadListing = 11,
}

impl Status {
    /// The number with which the process ends.
    pub fn code(self) -> u8
        ensures { result ≡ status_code self }
    {
        self as u8
    }
}
