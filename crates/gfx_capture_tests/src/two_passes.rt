//! Two passes on one thread, worked out by hand.
ghost use Rattle.std.specs.Prelude.{◌≡◌, All, length};
ghost use Rattle.gfx_callers.specs.Caller.{CallsAt};

use gfx_callers::{Caller, Creation, Use, close, open};
use gfx_capture::{AppendFault, Capture, Log, Receipt};
use gfx_types::Fault;
use std::alloc::Global;
use std::process::Abort;
use std::sync::Wait;
use std::test::Fail;

/// The first pass creates an instance and the second ends it, so a surface of it is refused.
fn act<R: Abort + Wait>(
    rt: &R,
    alloc: Global,
    capture: &Capture,
    first: &mut Caller,
    second: &mut Caller,
)
    requires first { CallsAt first.old capture.now }
    requires second { CallsAt second.old capture.now }
    ensures first { CallsAt first.new capture.now }
    ensures second { CallsAt second.new capture.now }
{
    let made = first.create(rt, alloc, capture, Creation::Instance);
    assert_eq!(rt; made, Ok((1, Receipt { from: 0, count: 1 })));
    assert_eq!(rt; second.written(capture), 1);

    let ended = second.make(rt, alloc, capture, Use::DestroyInstance { instance: 1 });
    assert_eq!(rt; ended, Ok(Receipt { from: 1, count: 1 }));

    let late = first.create(rt, alloc, capture, Creation::Surface { instance: 1 });
    let refused = AppendFault::Refused {
        fault: Fault::NotLive,
        at: 2,
        done: 0,
    };
    assert_eq!(rt; late, Err(refused));

    first.meet(capture, second);
    assert_eq!(rt; first.written(capture), 2);
}

/// Both passes act.
fn act_both<R: Abort + Wait>(rt: &R, alloc: Global, capture: &Capture, callers: &mut [Caller])
    requires both { length callers.old ≡ 2 }
    requires capture { All (λ c. CallsAt c capture.now) callers.old }
    ensures capture { All (λ c. CallsAt c capture.now) callers.new }
    ensures count { length callers.new ≡ length callers.old }
{
    let (last, first) = callers.split_at_mut(1);
    let (second, first) = (&mut last[0], &mut first[0]);
    assert_eq!(rt; (first.thread(), second.thread()), (0, 1));
    act(rt, alloc, capture, first, second);
}

/// Both blocks are under their threads.
fn assert_both<R: Abort>(rt: &R, log: &Log) {
    assert_eq!(rt; log.blocks(), 2);
    let bytes = log.bytes();
    assert_eq!(rt; bytes.len(), 84);
    let threads = (bytes.get(32), bytes.get(68));
    assert_eq!(rt; threads, (Some(&0), Some(&1)), "the threads of both blocks");
}

#[test]
fn two_passes_share_one_history(rt: HostRuntime) -> Result<(), Fail> {
    let alloc = rt.alloc();
    let (capture, mut callers) = open(alloc, 2)?;
    act_both(&rt, alloc, &capture, callers.as_mut_slice());
    let log = close(alloc, capture, callers)?;
    assert_both(&rt, &log);
    Ok(())
}
