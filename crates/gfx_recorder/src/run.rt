//! All phases of a script.
ghost use Rattle.std.specs.Prelude.{◌≡◌, ◌<◌, [], length, IfOk, MatchBool};
ghost use Rattle.std.specs.List.{list_all};
ghost use Rattle.gfx_script.specs.Line.{phases_of};
ghost use Rattle.gfx_seats.specs.Desk.{desk_id};
ghost use Rattle.gfx_script_law.specs.Playable.{IsPlayable};
ghost use Rattle.gfx_run_law.specs.Pieces.{ArePhases};
ghost use Rattle.gfx_recorder.specs.Ends.{is_all};
ghost use Rattle.gfx_recorder.specs.Progress.{Reached, Halfway};

use crate::drawing::draw_parts;
use crate::names::are_wide;
use crate::phase::{meet_all, run_phase};
use crate::worker::Worker;
use gfx_capture::Capture;
use gfx_io::Gate;
use gfx_script::Phase;
use std::alloc::{AllocError, Global};
use std::sync::Wait;
use std::thread::Threads;

/// Runs the phases one after another, up to one in which a call is not accepted. True where there was none.
pub(crate) fn run_phases<R: Threads + Wait + Sync, G: Gate + Sync>(
    rt: &R,
    alloc: Global,
    capture: &Capture,
    gate: &G,
    minor: u32,
    phases: &[Phase],
    workers: &mut [Worker],
    table: &mut Vec<u64>,
) -> Result<bool, AllocError>
    requires some { 0 < length workers.old }
    requires playable { IsPlayable minor (phases_of phases.now) }
    requires phases { ArePhases (length workers.old) (phases_of phases.now) }
    requires begins { Reached minor (desk_id capture.now.desk) (length workers.old) [] table.old.items workers.old }
    ensures { IfOk result (λ all. MatchBool all
        (Reached minor (desk_id capture.now.desk) (length workers.old) (phases_of phases.now) table.new.items workers.new)
        (Halfway minor (desk_id capture.now.desk) (length workers.old) (phases_of phases.now) table.new.items workers.new)) }
{
    'phases: for phase in phases {
        draw_parts(capture, phase.threads.items(), workers, table)?;
        are_wide(table);
        run_phase(rt, alloc, capture, gate, table, phase, workers);
        if !all_done(workers) {
            return Ok(false);
        }
        meet_all(capture, workers);
    }
    Ok(true)
}

// Whether all workers came to the end of their lines.
fn all_done(workers: &[Worker]) -> bool
    ensures { result ≡ list_all (λ w. is_all w.end) workers.now }
{
    workers.iter().all(|worker| worker.end.is_all())
}
