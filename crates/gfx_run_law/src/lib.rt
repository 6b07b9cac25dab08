//! What the pieces of a log say of the script whose threads made it.
#![tactic(auto)]

ghost use Rattle.gfx_run_law.specs.Halted.{WholeMatches, SafeGoesOn};

/// A log in which all lines of all phases stand matches the script.
pub fn whole_matches()
    ensures { WholeMatches }
{}

/// No thread of a safe script is stopped in a valid log.
pub fn safe_goes_on()
    ensures { SafeGoesOn }
{}
