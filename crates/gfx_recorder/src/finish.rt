//! Closing the log, and what the run gives.
ghost use Rattle.std.specs.Prelude.{◌≡◌, ◌<◌, true, length, map, IfOk, MatchBool};
ghost use Rattle.std.specs.List.{list_any};
ghost use Rattle.gfx_model.specs.History.{is_valid};
ghost use Rattle.gfx_script_model.specs.Runs.{history};
ghost use Rattle.gfx_script.specs.Line.{phases_of};
ghost use Rattle.gfx_seats.specs.Desk.{desk_id, seats_of};
ghost use Rattle.gfx_run_law.specs.Pieces.{ArePhases};
ghost use Rattle.gfx_recorder.specs.declared.outcome.Outcome.TheVariants.{WantMemory};
ghost use Rattle.gfx_recorder.specs.Ends.{is_all, is_memory};
ghost use Rattle.gfx_recorder.specs.Outcomes.{IsOutcome, IsFirstEnd, outcome_of};
ghost use Rattle.gfx_recorder.specs.Progress.{Reached, Halfway};

use crate::end::End;
use crate::outcome::Outcome;
use crate::worker::Worker;
use gfx_capture::{Capture, Log, Pass};
use gfx_script::Phase;
use std::alloc::{AllocError, Global};
use std::snapshot::Snapshot;

/// Closes the log. A lack of memory of any worker comes before what was answered to the others.
pub(crate) fn close(
    alloc: Global,
    capture: Capture,
    minor: u32,
    table: Snapshot<Vec<u64>>,
    phases: &[Phase],
    all: bool,
    workers: Vec<Worker>,
) -> Outcome
    requires some { 0 < length workers.items }
    requires seats { length workers.items ≡ seats_of capture.desk }
    requires phases { ArePhases (length workers.items) (phases_of phases.now) }
    requires ran { MatchBool all
        (Reached minor (desk_id capture.desk) (length workers.items) (phases_of phases.now) table.value.items workers.items)
        (Halfway minor (desk_id capture.desk) (length workers.items) (phases_of phases.now) table.value.items workers.items) }
    ensures outcome { IsOutcome minor (phases_of phases.now) result }
    ensures memory { list_any (λ w. is_memory w.end) workers.items ≡ true → result ≡ WantMemory }
{
    if any_memory(&workers) {
        return Outcome::WantMemory;
    }
    let end = end_of(all, &workers);
    let Ok(passes) = passes_of(alloc, workers) else {
        return Outcome::WantMemory;
    };
    let log = capture.close(passes);
    is_sound(&log);
    outcome(end, log)
}

// Whether a worker found no memory.
fn any_memory(workers: &[Worker]) -> bool
    ensures { result ≡ list_any (λ w. is_memory w.end) workers.now }
{
    workers.iter().any(|worker| worker.end.is_memory())
}

// All where all calls were accepted, or the end of the first worker whose call was not.
fn end_of(all: bool, workers: &[Worker]) -> End
    ensures { MatchBool all (is_all result ≡ true) (IsFirstEnd workers.now result) }
{
    if all { End::All } else { first_end(workers) }
}

// How the first worker ended that did not come to the end of its lines.
fn first_end(workers: &[Worker]) -> End
    ensures { IsFirstEnd workers.now result }
{
    'workers: for worker in workers {
        if !worker.end.is_all() {
            return worker.end;
        }
    }
    End::All
}

// A log has a valid history.
fn is_sound(log: &Log)
    ensures { is_valid (history log.now.entries) ≡ true }
{
    log.blocks();
}

fn passes_of(alloc: Global, workers: Vec<Worker>) -> Result<Vec<Pass>, AllocError>
    ensures { IfOk result (λ passes. passes.items ≡ map (λ w. w.pass) workers.items) }
{
    workers.into_iter().map(|worker| worker.pass).collect(alloc)
}

fn outcome(end: End, log: Log) -> Outcome
    ensures { result ≡ outcome_of end log }
{
    match end {
        End::All => Outcome::Done { log },
        End::Refused { line, fault, at } => Outcome::Refused {
            line,
            fault,
            at,
            log,
        },
        End::LogFull { length, wanted } => Outcome::LogFull {
            length,
            wanted,
            log,
        },
        End::WantMemory => Outcome::WantMemory,
    }
}
