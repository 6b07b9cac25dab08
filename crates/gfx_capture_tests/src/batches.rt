//! Commands that are recorded in batches.
ghost use Rattle.std.specs.Prelude.{◌≡◌, ◌<◌, ◌≤◌, All, length};
ghost use Rattle.gfx_callers.specs.Caller.{CallsAt};

use crate::blocks::{behind_header, split_block};
use gfx_callers::{Caller, Objects, Plan, Use, close, open, put_barriers, run_all};
use gfx_capture::{AppendFault, Capture, Log, Receipt};
use gfx_types::Fault;
use std::alloc::Global;
use std::process::Abort;
use std::sync::Wait;
use std::test::Fail;

/// So many barriers, of which as many fit into a batch, and what appending these answers.
fn send_barriers<R: Abort + Wait>(
    rt: &R,
    alloc: Global,
    capture: &Capture,
    caller: &mut Caller,
    cb: u64,
    most: u32,
) -> Result<Receipt, AppendFault>
    requires { CallsAt caller.old capture.now }
    ensures { CallsAt caller.new capture.now }
{
    put_barriers(caller, alloc, cb, most).expect(rt, "memory");
    caller.send(rt, capture)
}

/// Three hundred barriers, and then a batch whose second command names a buffer that isn't there.
fn record<R: Abort + Wait>(rt: &R, alloc: Global, capture: &Capture, caller: &mut Caller)
    requires { CallsAt caller.old capture.now }
    ensures { CallsAt caller.new capture.now }
{
    let objects = Objects::create(rt, alloc, capture, caller);
    let cb = objects.expect(rt, "objects").cb;
    let begun = caller.make(rt, alloc, capture, Use::Begin { cb });
    assert_eq!(rt; begun, Ok(Receipt { from: 5, count: 1 }));
    let first = send_barriers(rt, alloc, capture, caller, cb, 300);
    assert_eq!(rt;
        first,
        Ok(Receipt {
            from: 6,
            count: 256
        })
    );
    let second = send_barriers(rt, alloc, capture, caller, cb, 44);
    assert_eq!(rt;
        second,
        Ok(Receipt {
            from: 262,
            count: 44
        })
    );
    put_barriers(caller, alloc, cb, 1).expect(rt, "memory");
    put_barriers(caller, alloc, 99, 1).expect(rt, "memory");
    let refused = AppendFault::Refused {
        fault: Fault::NotLive,
        at: 307,
        done: 1,
    };
    assert_eq!(rt;
        send_barriers(rt, alloc, capture, caller, cb, 1),
        Err(refused)
    );
    let nothing = Receipt {
        from: 307,
        count: 0,
    };
    assert_eq!(rt; caller.send(rt, capture), Ok(nothing), "nothing waits");
}

/// One thread records.
fn record_alone<R: Abort + Wait>(rt: &R, alloc: Global, capture: &Capture, callers: &mut [Caller])
    requires some { 0 < length callers.old }
    requires capture { All (λ c. CallsAt c capture.now) callers.old }
    ensures capture { All (λ c. CallsAt c capture.now) callers.new }
    ensures count { length callers.new ≡ length callers.old }
{
    record(rt, alloc, capture, &mut callers[0]);
}

/// An instance, a device, a queue, a pool, a command buffer and its begin, and then barriers.
fn assert_length<R: Abort>(rt: &R, log: &Log) {
    assert_eq!(rt; log.blocks(), 307);
    assert_eq!(rt;
        log.bytes().len(),
        16 + 36 + 40 + 40 + 44 + 52 + 36 + 301 * 36
    );
}

// A capture and a log are owned where there is one way out, since letting go of them takes long to prove.
#[test]
fn barriers_stand_in_batches(rt: HostRuntime) -> Result<(), Fail> {
    let alloc = rt.alloc();
    let (capture, mut callers) = open(alloc, 1)?;
    record_alone(&rt, alloc, &capture, callers.as_mut_slice());
    let log = close(alloc, capture, callers)?;
    assert_length(&rt, &log);
    Ok(())
}

/// The id of a barrier.
const BARRIER: u32 = 26;

/// The barriers of each batch are side by side: no other block comes between.
fn assert_whole<R: Abort>(rt: &R, file: &[u8], each: u64)
    requires { 1 ≤ each }
{
    let mut rest = behind_header(rt, file);
    let mut barriers = 0u64;
    let mut thread = 0u64;
    for _ in 0..file.len() {
        let Some((stood, behind)) = split_block(rt, rest) else {
            break;
        };
        if stood.id != BARRIER || stood.thread != thread {
            assert_eq!(rt; barriers % each, 0, "thread {thread}");
            barriers = 0;
        }
        if stood.id == BARRIER {
            barriers = barriers.wrapping_add(1);
        }
        thread = stood.thread;
        rest = behind;
    }
    assert_eq!(rt; barriers % each, 0, "thread {thread}");
}

/// Eight threads made six calls each, and then fifty batches of a hundred barriers.
fn assert_batches<R: Abort>(rt: &R, log: &Log) {
    assert_eq!(rt; log.blocks(), 8 * (6 + 50 * 100));
    assert_whole(rt, log.bytes(), 100);
}

#[test]
fn batches_of_eight_threads_stand_whole(rt: HostRuntime) -> Result<(), Fail> {
    let alloc = rt.alloc();
    let (capture, mut callers) = open(alloc, 8)?;
    let plan = Plan::Barriers {
        batches: 50,
        each: 100,
    };
    run_all(&rt, alloc, &capture, callers.as_mut_slice(), plan);
    let log = close(alloc, capture, callers)?;
    assert_batches(&rt, &log);
    Ok(())
}
