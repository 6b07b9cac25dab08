//! The log of a recording is a capture file that means its history.
#![tactic(auto)]

ghost use Rattle.gfx_log_law.specs.Logs.{LogsAreFiles};

/// A log of a valid history, whose blocks can be written and which is no longer than a log may be, ends cleanly as a file and shows
/// the frames of the history.
pub fn logs_are_files()
    ensures { LogsAreFiles }
{}
