//! A phase: its workers at once, and then what they saw, told to all.
ghost use Rattle.std.specs.Prelude.{◌≡◌, ℕ, ◌<◌, length, All, slice_index_or};
ghost use Rattle.gfx_script_model.specs.Runs.{lines_in};
ghost use Rattle.gfx_script.specs.Line.{phase_of};
ghost use Rattle.gfx_seats.specs.Desk.{desk_id};
ghost use Rattle.gfx_seats.specs.Seat.{desk_of};
ghost use Rattle.gfx_recorder.specs.Ids.{id_in};
ghost use Rattle.gfx_recorder.specs.Work.{hand_of, CanRun, Ran};
ghost use Rattle.gfx_recorder.specs.Workers.{Swept, Met};

use crate::worker::Worker;
use gfx_capture::Capture;
use gfx_io::Gate;
use gfx_script::Phase;
use std::alloc::Global;
use std::sync::Wait;
use std::thread;
use std::thread::Threads;

/// Runs the lines of a phase, each worker on a thread of its own.
pub(crate) fn run_phase<R: Threads + Wait + Sync, G: Gate + Sync>(
    rt: &R,
    alloc: Global,
    capture: &Capture,
    gate: &G,
    table: &[u64],
    phase: &Phase,
    workers: &mut [Worker],
)
    requires some { 0 < length workers.old }
    requires able { All (λ w. CanRun (desk_id capture.now.desk) (id_in table.now) (lines_in (hand_of w).thread (phase_of phase.now)) w) workers.old }
    ensures { (i : ℕ) (d : _) → i < length workers.old → Ran (id_in table.now) (lines_in (hand_of (slice_index_or workers.old i d)).thread (phase_of phase.now)) (slice_index_or workers.old i d) (slice_index_or workers.new i d) }
{
    let threads = workers.len();
    thread::for_each_mut(
        rt,
        workers,
        threads,
        &|_, worker| -> ()
            requires { CanRun (desk_id capture.now.desk) (id_in table.now) (lines_in (hand_of worker.old).thread (phase_of phase.now)) worker.old }
            ensures { Ran (id_in table.entry.now) (lines_in (hand_of worker.old).thread (phase_of phase.entry.now)) worker.old worker.new }
        { worker.run(rt, alloc, capture, gate, table, phase) },
    );
}

// The first worker meets each of the others.
fn sweep(capture: &Capture, first: &mut Worker, others: &mut [Worker])
    requires first_desk { desk_of first.old.pass ≡ desk_id capture.now.desk }
    requires desk { All (λ w. desk_of w.pass ≡ desk_id capture.now.desk) others.old }
    ensures { Swept (length others.old) first.old others.old first.new others.new }
{
    'workers: for worker in others.iter_mut() {
        capture.meet(&mut first.pass, &mut worker.pass);
    }
}

/// All workers have seen the longest of their histories from then on.
pub(crate) fn meet_all(capture: &Capture, workers: &mut [Worker])
    requires { All (λ w. desk_of w.pass ≡ desk_id capture.now.desk) workers.old }
    ensures { Met workers.old workers.new }
{
    let Some((first, others)) = workers.split_first_mut() else {
        return;
    };
    sweep(capture, first, others);
    sweep(capture, first, others);
}
