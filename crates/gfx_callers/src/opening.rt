//! How threads come to a capture, and how it is closed.
ghost use Rattle.std.specs.Prelude.{◌≡◌, ◌≤◌, All, IfOk, length};
ghost use Rattle.gfx_seats.specs.declared.stage.Stage.TheVariants.{Idle};
ghost use Rattle.gfx_seats.specs.Seat.{hand, desk_of};
ghost use Rattle.gfx_seats.specs.Desk.{desk_id, seats_of};
ghost use Rattle.gfx_callers.specs.Caller.{CallsAt, IsReady};

use crate::caller::Caller;
use gfx_capture::{Capture, Log, Pass};
use gfx_types::WantMemory;
use std::alloc::{AllocError, Global};

/// An empty capture of minor version 1, and so many threads at it, the last one first.
pub fn open(alloc: Global, threads: u32) -> Result<(Capture, Vec<Caller>), WantMemory>
    requires { (1 ≤ threads) × (threads ≤ 64) }
    ensures count { IfOk result (λ t. (seats_of t.0.desk ≡ threads) × (length t.1.items ≡ threads)) }
    ensures capture { IfOk result (λ t. All (λ c. CallsAt c t.0) t.1.items) }
{
    let (capture, passes) = Capture::new(alloc, 1, threads)?;
    match callers_of(alloc, &capture, passes) {
        Ok(callers) => Ok((capture, callers)),
        Err(_) => Err(WantMemory),
    }
}

fn callers_of(
    alloc: Global,
    capture: &Capture,
    passes: Vec<Pass>,
) -> Result<Vec<Caller>, AllocError>
    requires capture { All (λ p. desk_of p ≡ desk_id capture.now.desk) passes.items }
    requires ready { All (λ p. IsReady (hand p)) passes.items }
    ensures count { IfOk result (λ v. length v.items ≡ length passes.items) }
    ensures capture { IfOk result (λ v. All (λ c. CallsAt c capture.now) v.items) }
{
    let mut passes = passes;
    let mut callers = Vec::new(alloc);
    while let Some(pass) = passes.pop() {
        callers.push(Caller::new(alloc, pass))?;
    }
    Ok(callers)
}

/// The log, once all threads are done.
pub fn close(alloc: Global, capture: Capture, callers: Vec<Caller>) -> Result<Log, AllocError>
    requires capture { All (λ c. CallsAt c capture) callers.items }
    requires all { length callers.items ≡ seats_of capture.desk }
{
    let passes = passes_of(alloc, &capture, callers)?;
    Ok(capture.close(passes))
}

fn passes_of(
    alloc: Global,
    capture: &Capture,
    callers: Vec<Caller>,
) -> Result<Vec<Pass>, AllocError>
    requires { All (λ c. CallsAt c capture.now) callers.items }
    ensures count { IfOk result (λ v. length v.items ≡ length callers.items) }
    ensures capture { IfOk result (λ v. All (λ p. desk_of p ≡ desk_id capture.now.desk) v.items) }
    ensures idle { IfOk result (λ v. All (λ p. (hand p).stage ≡ Idle) v.items) }
{
    let mut callers = callers;
    let mut passes = Vec::new(alloc);
    while let Some(caller) = callers.pop() {
        passes.push(caller.into_pass())?;
    }
    Ok(passes)
}
