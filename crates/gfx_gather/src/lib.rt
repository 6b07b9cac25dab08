//! Scripts whose threads gather their writes.
#![tactic(auto)]

ghost use Rattle.gfx_gather.specs.Laws.{ShownHasPresents, ShownIsPlayable};

mod gathering;
mod part;
mod shown;

pub use shown::shown_script;

/// A script that can be run can be run with the writes of its threads gathered.
pub fn shown_is_playable()
    ensures { ShownIsPlayable }
{}

/// A script has as many presents with the writes of its threads gathered.
pub fn shown_has_presents()
    ensures { ShownHasPresents }
{}
