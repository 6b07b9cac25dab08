//! The script of a text.
ghost use Rattle.std.specs.Prelude.{◌≡◌, ◌≤◌, length, IfOk, IfErr};
ghost use Rattle.gfx_model.specs.Limits.{max_script};
ghost use Rattle.gfx_script.specs.Line.{phases_of};
ghost use Rattle.gfx_script_law.specs.Playable.{IsPlayable};
ghost use Rattle.gfx_gather.specs.Shown.{shown_phases};
ghost use Rattle.gfx_recording.specs.Records.{IsScriptOf};

use crate::RecordingFault;
use gfx_gather::shown_script;
use gfx_script::{Script, ScriptFault, parse};
use std::alloc::Global;

/// The script that the text is, which is then no longer than a script may be.
pub(crate) fn read_script(alloc: Global, text: &[u8]) -> Result<Script, RecordingFault>
    ensures script { IsScriptOf text.now result }
    ensures small { IfOk result (λ _. length text.now ≤ max_script) }
{
    match parse(alloc, text) {
        Ok(script) => Ok(script),
        Err(ScriptFault::Bad { line, kind }) => Err(RecordingFault::BadScript { line, kind }),
        Err(ScriptFault::WantMemory) => Err(RecordingFault::WantMemory),
    }
}

/// The script as it is run: with the writes of its threads gathered where that is asked for.
pub(crate) fn run_as(alloc: Global, gathers: bool, script: Script) -> Result<Script, RecordingFault>
    requires { IsPlayable script.minor (phases_of script.phases) }
    ensures minor { IfOk result (λ shown. shown.minor ≡ script.minor) }
    ensures phases { IfOk result (λ shown. phases_of shown.phases ≡ shown_phases gathers (phases_of script.phases)) }
    ensures playable { IfOk result (λ shown. IsPlayable shown.minor (phases_of shown.phases)) }
    ensures why { IfErr result (λ why. why ≡ RecordingFault.WantMemory) }
{
    match shown_script(alloc, gathers, script) {
        Ok(shown) => Ok(shown),
        Err(_) => Err(RecordingFault::WantMemory),
    }
}
