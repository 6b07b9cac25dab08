//! Ids for the names of a phase, drawn by the passes of the threads that define them.
ghost use Rattle.std.specs.Prelude.{◌≡◌, ◌+◌, ◌<◌, ◌≤◌, ◌^◌, length, map, All, OnOk};
ghost use Rattle.std.specs.List.{AllByRecursion};
ghost use Rattle.gfx_script.specs.Line.{line_of, part_of};
ghost use Rattle.gfx_seats.specs.Desk.{desk_id};
ghost use Rattle.gfx_seats.specs.Seat.{hand, desk_of};
ghost use Rattle.gfx_run_law.specs.Pieces.{AreApart};
ghost use Rattle.gfx_script_law.specs.Playable.{AreNumbered, names_of, phase_lines};
ghost use Rattle.gfx_recorder.specs.Work.{hand_of};
ghost use Rattle.gfx_recorder.specs.Drawn.{Drew, OneDrew, AllDrew};

use crate::worker::Worker;
use gfx_capture::{Capture, Pass};
use gfx_script::{Line, Part};
use std::alloc::AllocError;

/// Each worker draws an id for each name that its lines of the phase define. The table has them in the order of the names.
pub(crate) fn draw_parts(
    capture: &Capture,
    parts: &[Part],
    workers: &mut [Worker],
    table: &mut Vec<u64>,
) -> Result<(), AllocError>
    requires desk { All (λ w. desk_of w.pass ≡ desk_id capture.now.desk) workers.old }
    requires apart { AreApart (map part_of parts.now) }
    requires threads { AllByRecursion (λ p. p.thread < length workers.old) (map part_of parts.now) }
    requires numbered { AreNumbered (length table.old.items) (phase_lines (map part_of parts.now)) }
    requires drawn { All (λ w. length (hand_of w).drawn < length table.old.items) workers.old }
    requires few { length table.old.items + length (names_of (phase_lines (map part_of parts.now))) ≤ 2 ^ 32 }
    ensures drew { OnOk result (AllDrew (map part_of parts.now) workers.old table.old.items workers.new table.new.items) }
    ensures drawn { OnOk result (All (λ w. length (hand_of w).drawn < length table.new.items) workers.new) }
{
    'parts: for part in parts {
        draw_part(capture, part, workers, table)?;
    }
    Ok(())
}

// One worker draws for a part.
fn draw_part(
    capture: &Capture,
    part: &Part,
    workers: &mut [Worker],
    table: &mut Vec<u64>,
) -> Result<(), AllocError>
    requires desk { All (λ w. desk_of w.pass ≡ desk_id capture.now.desk) workers.old }
    requires there { part.now.thread < length workers.old }
    requires few { All (λ w. length (hand_of w).drawn + length (names_of (map line_of part.now.lines)) ≤ 2 ^ 32) workers.old }
    ensures { OnOk result (OneDrew part.now.thread (length (names_of (map line_of part.now.lines))) workers.old table.old.items workers.new table.new.items) }
{
    let worker = &mut workers[part.thread as usize];
    draw_lines(capture, part.lines.items(), &mut worker.pass, table)
}

// The pass draws for the names that the lines define.
fn draw_lines(
    capture: &Capture,
    lines: &[Line],
    pass: &mut Pass,
    table: &mut Vec<u64>,
) -> Result<(), AllocError>
    requires desk { desk_of pass.old ≡ desk_id capture.now.desk }
    requires few { length (hand pass.old).drawn + length (names_of (map line_of lines.now)) ≤ 2 ^ 32 }
    ensures desk { desk_of pass.new ≡ desk_of pass.old }
    ensures drew { OnOk result (Drew (length (names_of (map line_of lines.now))) (hand pass.old) table.old.items (hand pass.new) table.new.items) }
{
    'lines: for line in lines {
        draw_ids(capture, line.defines.items().len(), pass, table)?;
    }
    Ok(())
}

// The pass draws so many ids.
fn draw_ids(
    capture: &Capture,
    count: usize,
    pass: &mut Pass,
    table: &mut Vec<u64>,
) -> Result<(), AllocError>
    requires desk { desk_of pass.old ≡ desk_id capture.now.desk }
    requires few { length (hand pass.old).drawn + count ≤ 2 ^ 32 }
    ensures desk { desk_of pass.new ≡ desk_of pass.old }
    ensures drew { OnOk result (Drew count (hand pass.old) table.old.items (hand pass.new) table.new.items) }
{
    'ids: for _ in 0..count {
        table.push(capture.draw(pass))?;
    }
    Ok(())
}
