//! A script as it is run.
ghost use Rattle.std.specs.Prelude.{◌≡◌, IfOk, IsTrue};
ghost use Rattle.gfx_script.specs.Kept.{is_version};
ghost use Rattle.gfx_script.specs.Line.{phases_of};
ghost use Rattle.gfx_gather.specs.Shown.{shown_phases};

use crate::gathering::gather;
use gfx_script::Script;
use gfx_types::WantMemory;
use std::alloc::Global;

/// The script as it is run: with the writes of its threads gathered where that is asked for.
pub fn shown_script(alloc: Global, gathers: bool, script: Script) -> Result<Script, WantMemory>
    requires { IsTrue (is_version script.minor) }
    ensures minor { IfOk result (λ shown. shown.minor ≡ script.minor) }
    ensures phases { IfOk result (λ shown. phases_of shown.phases ≡ shown_phases gathers (phases_of script.phases)) }
{
    if gathers {
        gather(alloc, &script)
    } else {
        Ok(script)
    }
}
