//! What is known of a script that a text parses to.
#![tactic(auto)]

ghost use Rattle.gfx_script_law.specs.Playable.{LongerTablesAgree, ParsedIsPlayable};
ghost use Rattle.gfx_script_law.specs.Presents.{AsManyCalls};

/// What a text parses to is playable: its threads and names are in order, and its lines have blocks.
pub fn parsed_is_playable()
    ensures { ParsedIsPlayable }
{}

/// Phases that are whole stay so under a longer table of ids.
pub fn longer_tables_agree()
    ensures { LongerTablesAgree }
{}

/// A log that matches a script has as many calls of a kind as the script has lines.
pub fn as_many_calls()
    ensures { AsManyCalls }
{}
