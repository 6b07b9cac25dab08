//! Threads that call all at once.
ghost use Rattle.std.specs.Prelude.{◌≡◌, ◌<◌, All, length};
ghost use Rattle.gfx_seats.specs.Seat.{desk_of};
ghost use Rattle.gfx_callers.specs.Caller.{CallsAt};

use crate::caller::Caller;
use crate::effects::{Creation, Use};
use crate::objects::Objects;
use gfx_capture::{AppendFault, Capture};
use std::alloc::Global;
use std::sync::Wait;
use std::thread;
use std::thread::Threads;

/// What each thread does with objects of its own.
#[derive(Clone, Copy)]
pub enum Plan {
    /// It records so many batches of so many barriers.
    Barriers { batches: u32, each: u32 },
    /// It creates and destroys so many fences.
    Fences { count: u32 },
}

/// Lets barriers wait until so many more do, or there is no room, and says how many more do.
pub fn put_barriers(
    caller: &mut Caller,
    alloc: Global,
    cb: u64,
    most: u32,
) -> Result<u32, AppendFault>
    ensures { caller.new.pass ≡ caller.old.pass }
{
    let Ok(barrier) = Use::Barrier { cb }.effect(alloc) else {
        return Err(AppendFault::WantMemory { done: 0 });
    };
    for done in 0..most {
        if caller.put(&barrier).is_err() {
            return Ok(done);
        }
    }
    Ok(most)
}

fn record_barriers<R: Wait>(
    rt: &R,
    alloc: Global,
    capture: &Capture,
    caller: &mut Caller,
    batches: u32,
    each: u32,
) -> Result<(), AppendFault>
    requires { CallsAt caller.old capture.now }
    ensures { CallsAt caller.new capture.now }
{
    let Objects { cb, .. } = Objects::create(rt, alloc, capture, caller)?;
    caller.make(rt, alloc, capture, Use::Begin { cb })?;
    for _ in 0..batches {
        put_barriers(caller, alloc, cb, each)?;
        caller.send(rt, capture)?;
    }
    Ok(())
}

fn make_fences<R: Wait>(
    rt: &R,
    alloc: Global,
    capture: &Capture,
    caller: &mut Caller,
    count: u32,
) -> Result<(), AppendFault>
    requires { CallsAt caller.old capture.now }
    ensures { CallsAt caller.new capture.now }
{
    let Objects { device, .. } = Objects::create(rt, alloc, capture, caller)?;
    for _ in 0..count {
        let (fence, _) = caller.create(rt, alloc, capture, Creation::Fence { device })?;
        caller.make(rt, alloc, capture, Use::DestroyFence { device, fence })?;
    }
    Ok(())
}

/// Does what the plan says in one thread, up to the first call that isn't accepted.
fn run<R: Wait>(rt: &R, alloc: Global, capture: &Capture, caller: &mut Caller, plan: Plan)
    requires { CallsAt caller.old capture.now }
    ensures { CallsAt caller.new capture.now }
{
    let _ = match plan {
        Plan::Barriers { batches, each } => {
            record_barriers(rt, alloc, capture, caller, batches, each)
        }
        Plan::Fences { count } => make_fences(rt, alloc, capture, caller, count),
    };
}

/// Does what the plan says in a thread for each caller, all at once.
pub fn run_all<R: Threads + Wait + Sync>(
    rt: &R,
    alloc: Global,
    capture: &Capture,
    callers: &mut [Caller],
    plan: Plan,
)
    requires some { 0 < length callers.old }
    requires capture { All (λ c. CallsAt c capture.now) callers.old }
    ensures capture { All (λ c. CallsAt c capture.now) callers.new }
    ensures count { length callers.new ≡ length callers.old }
{
    let threads = callers.len();
    thread::for_each_mut(
        rt,
        callers,
        threads,
        &|_, caller| -> ()
            requires { CallsAt caller.old capture.now }
            ensures { desk_of caller.new.pass ≡ desk_of caller.old.pass }
        { run(rt, alloc, capture, caller, plan) },
    );
}
