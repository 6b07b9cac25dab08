//! The run of a script.
ghost use Rattle.std.specs.Prelude.{◌≡◌, ◌<◌, length, map, IfOk, MatchBool};
ghost use Rattle.gfx_script_model.specs.Runs.{Safe};
ghost use Rattle.gfx_script.specs.Line.{phases_of};
ghost use Rattle.gfx_seats.specs.Desk.{desk_id};
ghost use Rattle.gfx_capture.specs.Entry.{IsVersion};
ghost use Rattle.gfx_run_law.specs.Pieces.{ArePhases};
ghost use Rattle.gfx_script_law.specs.Playable.{IsPlayable};
ghost use Rattle.gfx_recorder.specs.Begun.{new_worker};
ghost use Rattle.gfx_recorder.specs.Outcomes.{IsOutcome, IsDone};
ghost use Rattle.gfx_recorder.specs.Progress.{Reached, Halfway, AreNew};

use crate::end::End;
use crate::finish::close;
use crate::lines::thread_count;
use crate::outcome::Outcome;
use crate::run::run_phases;
use crate::worker::Worker;
use gfx_capture::{Capture, Pass, ThreadBuffer};
use gfx_io::Gate;
use gfx_script::Script;
use std::alloc::{AllocError, Global};
use std::snapshot::Snapshot;
use std::sync::Wait;
use std::thread::Threads;

/// Runs a script: each thread of a phase at once with the others, one phase after another. The gate is told of each line.
pub fn record_script<R: Threads + Wait + Sync, G: Gate + Sync>(
    rt: &R,
    alloc: Global,
    gate: &G,
    script: &Script,
) -> Outcome
    requires { IsPlayable script.now.minor (phases_of script.now.phases) }
    ensures outcome { IsOutcome script.now.minor (phases_of script.now.phases) result }
    ensures complete { Safe script.now.minor (phases_of script.now.phases) → IsDone result }
{
    let phases = script.phases.items();
    let threads = thread_count(phases);
    let Ok((capture, passes)) = Capture::new(alloc, script.minor, threads) else {
        return Outcome::WantMemory;
    };
    let Ok(workers) = workers_of(alloc, script.minor, passes) else {
        return Outcome::WantMemory;
    };
    match run_workers(rt, alloc, &capture, gate, script, workers) {
        Ok((all, workers, table)) => close(
            alloc,
            capture,
            script.minor,
            Snapshot::of(&table),
            phases,
            all,
            workers,
        ),
        Err(_) => Outcome::WantMemory,
    }
}

fn workers_of(alloc: Global, minor: u32, passes: Vec<Pass>) -> Result<Vec<Worker>, AllocError>
    requires { IsVersion minor }
    ensures { IfOk result (λ workers. workers.items ≡ map (new_worker minor) passes.items) }
{
    let new = |pass| -> Worker
        requires { IsVersion minor }
        ensures { result ≡ new_worker minor pass }
    { worker_of(alloc, minor, pass) };
    passes.into_iter().map(new).collect(alloc)
}

// The worker of a pass, which has done nothing.
fn worker_of(alloc: Global, minor: u32, pass: Pass) -> Worker
    requires { IsVersion minor }
    ensures { result ≡ new_worker minor pass }
{
    Worker {
        pass,
        buffer: ThreadBuffer::new(alloc, minor),
        done: 0,
        end: End::All,
        put: 0,
        answered: 0,
    }
}

// Runs all phases. True where all calls were accepted; and the workers then, and the ids of the names.
fn run_workers<R: Threads + Wait + Sync, G: Gate + Sync>(
    rt: &R,
    alloc: Global,
    capture: &Capture,
    gate: &G,
    script: &Script,
    workers: Vec<Worker>,
) -> Result<(bool, Vec<Worker>, Vec<u64>), AllocError>
    requires some { 0 < length workers.items }
    requires playable { IsPlayable script.now.minor (phases_of script.now.phases) }
    requires phases { ArePhases (length workers.items) (phases_of script.now.phases) }
    requires new { AreNew script.now.minor (desk_id capture.now.desk) workers.items }
    ensures { IfOk result (λ ran. MatchBool ran.0
        (Reached script.now.minor (desk_id capture.now.desk) (length workers.items) (phases_of script.now.phases) ran.2.items ran.1.items)
        (Halfway script.now.minor (desk_id capture.now.desk) (length workers.items) (phases_of script.now.phases) ran.2.items ran.1.items)) }
{
    let mut workers = workers;
    // name 0 stands for no object
    let mut table = vec![in alloc; 0]?;
    let all = run_phases(
        rt,
        alloc,
        capture,
        gate,
        script.minor,
        script.phases.items(),
        workers.as_mut_slice(),
        &mut table,
    )?;
    Ok((all, workers, table))
}
