//! The phases of a script.
ghost use Rattle.std.specs.Prelude.{◌≡◌, map, take, IfOk, IsTrue};
ghost use Rattle.gfx_script_model.specs.Scripts as script;
ghost use Rattle.gfx_script.specs.Kept.{is_version};
ghost use Rattle.gfx_script.specs.Line.{part_of, phase_of, phases_of};
ghost use Rattle.gfx_shadow.specs.Gathered.{gathered_part, gathered_phases};

use crate::part::gather_part;
use gfx_script::{Parts, Phase, Phases, Script};
use gfx_types::WantMemory;
use std::alloc::Global;

/// The script with the writes of each thread gathered, phase by phase: they are held, and stand as fills before the thread's next
/// line that submits, or unmaps or frees memory, and at the end of its lines.
pub(crate) fn gather(alloc: Global, script: &Script) -> Result<Script, WantMemory>
    requires { IsTrue (is_version script.now.minor) }
    ensures minor { IfOk result (λ gathered. gathered.minor ≡ script.now.minor) }
    ensures phases { IfOk result (λ gathered. phases_of gathered.phases ≡ gathered_phases (phases_of script.now.phases)) }
{
    let minor = script.minor;
    let mut phases = Vec::new(alloc);
    'phases: for phase in script.phases.items() {
        let gathered = gather_phase(alloc, minor, phase)?;
        phases.push(gathered)?;
    }
    Ok(Script {
        minor,
        phases: Phases::of(phases),
    })
}

/// The threads of a phase.
fn gather_phase(alloc: Global, minor: u32, phase: &Phase) -> Result<Phase, WantMemory>
    requires { IsTrue (is_version minor) }
    ensures { IfOk result (λ gathered. phase_of gathered ≡ map gathered_part (phase_of phase.now)) }
{
    let mut parts = Vec::new(alloc);
    'parts: for part in phase.threads.items() {
        let gathered = gather_part(alloc, minor, part)?;
        parts.push(gathered)?;
    }
    Ok(Phase {
        threads: Parts::of(parts),
    })
}
