//! The capture file that is made to try the program.
#![tactic(auto)]

ghost use Rattle.gfx_make.specs.Laws.{MadeHasRange, MadeIsCounted, MadeIsJudged, MadeIsMeant, MadeIsRead, MadeIsTrimmed, MadeIsValid, MadeShows};

mod file;
mod frame;
mod put;
mod setup;

pub use file::make_file;

/// No event of the capture has a fault.
pub fn made_is_valid()
    ensures { MadeIsValid }
{}

/// Each frame shows the memory as it is then.
pub fn made_shows()
    ensures { MadeShows }
{}

/// The blocks of its file are those of its events, and the file ends cleanly.
pub fn made_is_read()
    ensures { MadeIsRead }
{}

/// These blocks are 25, and 6 for each frame.
pub fn made_is_counted()
    ensures { MadeIsCounted }
{}

/// They are judged without a fault.
pub fn made_is_judged()
    ensures { MadeIsJudged }
{}

/// The file means the frames of the capture.
pub fn made_is_meant()
    ensures { MadeIsMeant }
{}

/// Each range of its frames is inside the file.
pub fn made_has_range()
    ensures { MadeHasRange }
{}

/// The trimmed file of such a range means just its frames.
pub fn made_is_trimmed()
    ensures { MadeIsTrimmed }
{}
