//! An event has the fault that an id is taken only where an earlier event created one of its own ids.
#![tactic(auto)]

ghost use Rattle.gfx_taken_law.specs.Taken.{CreatesAlike, TakenIsInLog};

/// An event creates the same ids in every minor version.
pub fn creates_alike()
    ensures { CreatesAlike }
{}

/// Where an event creates ids that differ, and one is taken after a log, an entry of the log created that id.
pub fn taken_is_in_log()
    ensures { TakenIsInLog }
{}
