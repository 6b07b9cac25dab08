//! Eight threads that create, record, submit and destroy objects of their own, all at once.
ghost use Rattle.std.specs.Prelude.{◌≡◌, ◌<◌, All, length};
ghost use Rattle.gfx_seats.specs.Seat.{desk_of};
ghost use Rattle.gfx_callers.specs.Caller.{CallsAt};

use crate::blocks::{behind_header, split_block};
use gfx_callers::{Caller, Creation, Objects, Use, close, open};
use gfx_capture::{AppendFault, Capture, Log};
use gfx_io::{MemSink, MemSource};
use gfx_play::show_frames;
use gfx_player::Asked;
use gfx_types::Fault;
use std::alloc::{AllocError, Global};
use std::process::Abort;
use std::sync::Wait;
use std::test::Fail;
use std::thread;
use std::thread::Threads;

const THREADS: u32 = 8;

/// How often a thread makes the eight calls of a round. With the calls before and after these are 2,000 calls.
const ROUNDS: usize = 249;

/// The ids of the calls that a thread makes before its rounds, of those in a round that are accepted, and of those after.
const BEFORE: [u32; 5] = [1, 5, 7, 18, 21];

const ROUND: [u32; 6] = [23, 26, 24, 41, 34, 35];

const AFTER: [u32; 3] = [19, 6, 2];

/// A call, and the fault for which it is refused.
type Step = (Use, Option<Fault>);

/// Makes the calls one after another, and gives the number of the block behind those that are before the last answer.
fn make_all<R: Abort + Wait>(
    rt: &R,
    alloc: Global,
    capture: &Capture,
    caller: &mut Caller,
    steps: &[Step],
    seen: u64,
) -> u64
    requires { CallsAt caller.old capture.now }
    ensures { CallsAt caller.new capture.now }
{
    let mut seen = seen;
    for &(call, fault) in steps {
        let answer = caller.make(rt, alloc, capture, call);
        let place = match answer {
            Ok(receipt) => {
                assert_eq!(rt; (receipt.count, fault), (1, None));
                receipt.from
            }
            Err(
                AppendFault::Refused {
                    fault: told,
                    at,
                    done,
                },
            ) => {
                assert_eq!(rt; (Some(told), done), (fault, 0));
                at
            }
            Err(_) => panic!(rt; "no room or no memory"),
        };
        assert!(rt; seen <= place, "the answers to a thread are in order");
        seen = place;
    }
    seen
}

/// Eight calls, of which two are refused.
fn play_round<R: Abort + Wait>(
    rt: &R,
    alloc: Global,
    capture: &Capture,
    caller: &mut Caller,
    objects: Objects,
    seen: u64,
) -> u64
    requires { CallsAt caller.old capture.now }
    ensures { CallsAt caller.new capture.now }
{
    let Objects {
        device,
        queue,
        cb,
        ..
    } = objects;
    let commands = [
        (Use::Begin { cb }, None),
        (Use::Barrier { cb }, None),
        (Use::End { cb }, None),
        (Use::End { cb }, Some(Fault::CommandState)),
        (Use::Submit { queue, cb }, None),
    ];
    let seen = make_all(rt, alloc, capture, caller, &commands, seen);
    let made = caller.create(rt, alloc, capture, Creation::Fence { device });
    let (fence, _) = made.expect(rt, "a fence");
    let gone = Use::DestroyFence { device, fence };
    let ends = [(gone, None), (gone, Some(Fault::NotLive))];
    make_all(rt, alloc, capture, caller, &ends, seen)
}

fn play<R: Abort + Wait>(rt: &R, alloc: Global, capture: &Capture, caller: &mut Caller)
    requires { CallsAt caller.old capture.now }
    ensures { CallsAt caller.new capture.now }
{
    let objects = Objects::create(rt, alloc, capture, caller).expect(rt, "objects");
    let mut seen = 0;
    for _ in 0..ROUNDS {
        seen = play_round(rt, alloc, capture, caller, objects, seen);
    }
    let Objects {
        instance,
        device,
        pool,
        ..
    } = objects;
    let ends = [
        (Use::DestroyPool { device, pool }, None),
        (Use::DestroyDevice { device }, None),
        (Use::DestroyInstance { instance }, None),
    ];
    make_all(rt, alloc, capture, caller, &ends, seen);
}

fn play_all<R: Threads + Wait + Sync + Abort>(
    rt: &R,
    alloc: Global,
    capture: &Capture,
    callers: &mut [Caller],
)
    requires some { 0 < length callers.old }
    requires capture { All (λ c. CallsAt c capture.now) callers.old }
    ensures capture { All (λ c. CallsAt c capture.now) callers.new }
    ensures count { length callers.new ≡ length callers.old }
{
    let threads = callers.len();
    thread::for_each_mut(
        rt,
        callers,
        threads,
        &|_, caller| -> ()
            requires { CallsAt caller.old capture.now }
            ensures { desk_of caller.new.pass ≡ desk_of caller.old.pass }
        { play(rt, alloc, capture, caller) },
    );
}

/// The ids of the calls of a thread that are accepted, in order.
fn accepted(alloc: Global) -> Result<Vec<u32>, AllocError> {
    let mut ids = Vec::from_slice(alloc, &BEFORE)?;
    for _ in 0..ROUNDS {
        ids.extend_from_slice(&ROUND)?;
    }
    ids.extend_from_slice(&AFTER)?;
    Ok(ids)
}

/// The blocks of each thread are its accepted calls in their order, all of them.
fn assert_in_order<R: Abort>(rt: &R, alloc: Global, file: &[u8]) -> Result<(), AllocError> {
    let ids = accepted(alloc)?;
    let mut places = vec![in alloc; 0usize; THREADS as usize]?;
    let mut rest = behind_header(rt, file);
    for _ in 0..file.len() {
        let Some((stood, behind)) = split_block(rt, rest) else {
            break;
        };
        let thread = stood.thread as usize;
        let place = places.get_mut(thread).expect(rt, "a thread of the capture");
        assert_eq!(rt;
            Some(&stood.id),
            ids.get(*place),
            "thread {thread} at {place}"
        );
        *place = place.wrapping_add(1);
        rest = behind;
    }
    assert!(rt;
        places.iter().all(|&place| place == ids.len()),
        "no call is missing"
    );
    Ok(())
}

/// What a file shows when it is replayed to its clean end.
fn replayed(alloc: Global, file: &[u8]) -> Result<Vec<u8>, Fail> {
    let bytes = Vec::from_slice(alloc, file)?;
    let mut source = MemSource::new(bytes, 4096, Vec::new(alloc));
    let mut sink = MemSink::new(alloc, 4096, Vec::new(alloc));
    show_frames(alloc, Asked::All, false, &mut source, &mut sink)?;
    Ok(sink.into_bytes())
}

/// No call is missing in the log, and it shows no frame.
fn assert_log<R: Abort>(rt: &R, alloc: Global, log: &Log) -> Result<(), Fail> {
    assert_in_order(rt, alloc, log.bytes())?;
    let shown = replayed(alloc, log.bytes())?;
    assert_eq!(rt; shown.as_slice(), b"frames 0\n".as_slice());
    Ok(())
}

#[test]
fn eight_threads_call_at_one_capture(rt: HostRuntime) -> Result<(), Fail> {
    let alloc = rt.alloc();
    let (capture, mut callers) = open(alloc, THREADS)?;
    play_all(&rt, alloc, &capture, callers.as_mut_slice());
    let log = close(alloc, capture, callers)?;
    assert_log(&rt, alloc, &log)
}
