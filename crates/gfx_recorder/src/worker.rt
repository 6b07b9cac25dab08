//! A worker runs the lines of one thread in a phase.
//!
//! Recorded commands change nothing that another thread asks about, so they are held and appended together; every
//! other call is appended at once.
ghost use Rattle.std.specs.Prelude.{◌≡◌, ◌+◌, ◌<◌, ◌^◌, [], ◌∷◌, length, map, false, IfErr, OnOk};
ghost use Rattle.gfx_model.specs.Events.{event_of};
ghost use Rattle.gfx_script_model.specs.Runs.{lines_in};
ghost use Rattle.gfx_script.specs.Line.{line_of, phase_of};
ghost use Rattle.gfx_seats.specs.Desk.{desk_id};
ghost use Rattle.gfx_seats.specs.Entries.{AreAmong};
ghost use Rattle.gfx_capture.specs.Entry.{event_ids};
ghost use Rattle.gfx_capture.specs.ThreadBuffer.{CanBePut, max_events};
ghost use Rattle.gfx_recorder.specs.Ids.{id_in, call_in, calls_in};
ghost use Rattle.gfx_recorder.specs.Work.{hand_of, IsReady, Puts, Stops, CanRun, Ran};

use crate::end::{End, done_before, end_by};
use crate::lines::lines_of;
use crate::names::{ids_of, is_recorded};
use gfx_capture::{AppendFault, Capture, Pass, ThreadBuffer};
use gfx_io::Gate;
use gfx_script::{Line, Phase};
use gfx_types::Effect;
use std::alloc::Global;
use std::sync::Wait;

/// How many calls are appended together at most.
const MAX_HELD: u32 = 256;

/// From how many bytes on the calls that are held are appended.
const MANY_BYTES: u64 = 1 << 20;

/// Runs the lines of one thread. It holds calls that are recorded into a command buffer, and appends them together.
#[derive(Drop)]
pub(crate) struct Worker {
    pub pass: Pass,
    pub buffer: ThreadBuffer,
    /// How many lines of the phase are in the log.
    pub done: usize,
    pub end: End,
    /// How many lines of the run were put, and how many were answered.
    pub put: u64,
    pub answered: u64,
}

impl Worker {
    /// Runs the lines of its thread in a phase.
    pub(crate) fn run<R: Wait, G: Gate>(
        &mut self,
        rt: &R,
        alloc: Global,
        capture: &Capture,
        gate: &G,
        table: &[u64],
        phase: &Phase,
    )
        requires { CanRun (desk_id capture.now.desk) (id_in table.now) (lines_in (hand_of self.old).thread (phase_of phase.now)) self.old }
        ensures { Ran (id_in table.now) (lines_in (hand_of self.old).thread (phase_of phase.now)) self.old self.new }
    {
        let lines = lines_of(phase, self.pass.thread());
        self.done = 0;
        let answer = self.run_lines(rt, alloc, capture, gate, table, lines);
        self.end = end_by(lines, self.done, &answer);
        self.buffer.clear();
    }

    // Puts the calls of the lines in order, up to the first that is not accepted.
    fn run_lines<R: Wait, G: Gate>(
        &mut self,
        rt: &R,
        alloc: Global,
        capture: &Capture,
        gate: &G,
        table: &[u64],
        lines: &[Line],
    ) -> Result<(), AppendFault>
        requires ready { CanRun (desk_id capture.now.desk) (id_in table.now) (map line_of lines.now) self.old }
        requires start { self.old.done ≡ 0 }
        ensures ok { OnOk result (Puts self.old (calls_in table.now lines.now) self.new) }
        ensures empty { OnOk result (self.new.buffer.events ≡ []) }
        ensures err { IfErr result (λ fault. Stops self.old (calls_in table.now lines.now) fault self.new) }
    {
        'lines: for line in lines {
            if let Err(fault) = self.run_line(rt, alloc, capture, gate, table, lines, line) {
                return Err(fault);
            }
        }
        self.append(rt, capture, gate, lines)
    }

    // Puts the call of the line.
    fn run_line<R: Wait, G: Gate>(
        &mut self,
        rt: &R,
        alloc: Global,
        capture: &Capture,
        gate: &G,
        table: &[u64],
        lines: &[Line],
        line: &Line,
    ) -> Result<(), AppendFault>
        requires ready { IsReady (desk_id capture.now.desk) self.old }
        requires room { length self.old.buffer.events < max_events }
        requires few { self.old.done + length self.old.buffer.events + 1 < 2 ^ 64 }
        requires drew { AreAmong (event_ids (call_in table.now line.now)) (hand_of self.old).drawn }
        requires block { CanBePut (hand_of self.old).kind (call_in table.now line.now) }
        ensures ok { OnOk result (Puts self.old (call_in table.now line.now ∷ []) self.new) }
        ensures room { OnOk result (length self.new.buffer.events < max_events) }
        ensures err { IfErr result (λ fault. Stops self.old (call_in table.now line.now ∷ []) fault self.new) }
    {
        let Ok(used) = ids_of(alloc, table, line.uses.items()) else {
            return Err(AppendFault::WantMemory { done: 0 });
        };
        let Ok(defined) = ids_of(alloc, table, line.defines.items()) else {
            return Err(AppendFault::WantMemory { done: 0 });
        };
        match line.effect(alloc, &used, &defined) {
            Ok(effect) => self.run_effect(rt, capture, gate, lines, line, &effect),
            Err(_) => Err(AppendFault::WantMemory { done: 0 }),
        }
    }

    // Puts a call. What is held is appended before a call that is not recorded, and once it is much.
    fn run_effect<R: Wait, G: Gate>(
        &mut self,
        rt: &R,
        capture: &Capture,
        gate: &G,
        lines: &[Line],
        line: &Line,
        effect: &Effect<'_>,
    ) -> Result<(), AppendFault>
        requires ready { IsReady (desk_id capture.now.desk) self.old }
        requires room { length self.old.buffer.events < max_events }
        requires few { self.old.done + length self.old.buffer.events + 1 < 2 ^ 64 }
        requires drew { AreAmong (event_ids (event_of effect.now)) (hand_of self.old).drawn }
        requires block { CanBePut (hand_of self.old).kind (event_of effect.now) }
        ensures ok { OnOk result (Puts self.old (event_of effect.now ∷ []) self.new) }
        ensures room { OnOk result (length self.new.buffer.events < max_events) }
        ensures err { IfErr result (λ fault. Stops self.old (event_of effect.now ∷ []) fault self.new) }
    {
        let alone = !is_recorded(effect);
        if let Err(fault) = self.append_if(alone, rt, capture, gate, lines) {
            return Err(fault);
        }
        self.put = tell_put(gate, self.pass.thread(), self.put, line);
        if self.buffer.put(effect).is_err() {
            return Err(AppendFault::WantMemory { done: 0 });
        }
        let due = alone || self.holds_much();
        self.append_if(due, rt, capture, gate, lines)
    }

    // Whether it holds as much as is appended together.
    fn holds_much(&self) -> bool
        ensures { result ≡ false → length self.now.buffer.events < max_events }
    {
        self.buffer.len() >= MAX_HELD || self.buffer.bytes() >= MANY_BYTES
    }

    // Appends what is held, if that is due.
    fn append_if<R: Wait, G: Gate>(
        &mut self,
        due: bool,
        rt: &R,
        capture: &Capture,
        gate: &G,
        lines: &[Line],
    ) -> Result<(), AppendFault>
        requires ready { IsReady (desk_id capture.now.desk) self.old }
        requires room { due ≡ false → length self.old.buffer.events < max_events }
        requires few { self.old.done + length self.old.buffer.events < 2 ^ 64 }
        ensures ok { OnOk result (Puts self.old [] self.new) }
        ensures room { OnOk result (length self.new.buffer.events < max_events) }
        ensures err { IfErr result (λ fault. Stops self.old [] fault self.new) }
    {
        if due {
            self.append(rt, capture, gate, lines)
        } else {
            Ok(())
        }
    }

    // Appends what is held, and tells the gate of each line of the text.
    fn append<R: Wait, G: Gate>(
        &mut self,
        rt: &R,
        capture: &Capture,
        gate: &G,
        lines: &[Line],
    ) -> Result<(), AppendFault>
        requires ready { IsReady (desk_id capture.now.desk) self.old }
        requires few { self.old.done + length self.old.buffer.events < 2 ^ 64 }
        ensures ok { OnOk result (Puts self.old [] self.new) }
        ensures empty { OnOk result (self.new.buffer.events ≡ []) }
        ensures err { IfErr result (λ fault. Stops self.old [] fault self.new) }
    {
        let held = self.buffer.len();
        if held == 0 {
            return Ok(());
        }
        let answer = capture.batch(rt, &mut self.pass, &self.buffer);
        self.answered = tell_answered(
            gate,
            self.pass.thread(),
            self.answered,
            lines_from(lines, self.done, held),
        );
        match answer {
            Ok(_) => {
                self.done += held as usize;
                self.buffer.clear();
                Ok(())
            }
            Err(fault) => {
                self.done += done_before(&fault) as usize;
                Err(fault)
            }
        }
    }
}

// Tells the gate of the lines that are held back before this one, and that this one is put, where it is one of the text;
// and how many were put then.
fn tell_put<G: Gate>(gate: &G, thread: u32, put: u64, line: &Line) -> u64 {
    let mut number = put;
    for _ in 0..line.held {
        number = number.saturating_add(1);
        gate.before(thread, number);
        gate.after(thread, number);
    }
    if !line.is_fill {
        number = number.saturating_add(1);
        gate.before(thread, number);
    }
    number
}

// Tells the gate that these lines were answered, but for fills, and how many were answered then.
fn tell_answered<G: Gate>(gate: &G, thread: u32, answered: u64, lines: &[Line]) -> u64 {
    let mut number = answered;
    for line in lines {
        number = number.saturating_add(line.held as u64);
        if !line.is_fill {
            number = number.saturating_add(1);
            gate.after(thread, number);
        }
    }
    number
}

// So many lines from this place on.
fn lines_from(lines: &[Line], place: usize, count: u32) -> &[Line] {
    let rest = lines.get(place..).unwrap_or(&[]);
    rest.get(..count as usize).unwrap_or(rest)
}
