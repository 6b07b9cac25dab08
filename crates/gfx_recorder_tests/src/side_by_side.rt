//! What a gate sees of a recording: threads of a phase run at once, and commands are appended several at a time.

use crate::recording::{record, run};
use gfx_io::Gate;
use gfx_samples::scripts::{BARRIER, BEGIN, OBJECTS, joined};
use std::hint::spin_loop;
use std::sync::atomic::{AtomicU64, Ordering};
use std::test::Fail;

/// Two threads with two lines each, none of which names what the other thread makes.
const TWO_THREADS: &[u8] = b"\
phase
thread 0
one = vkCreateInstance api=4194304
surf = vkCreateHeadlessSurfaceEXT instance=one
thread 1
other = vkCreateInstance api=4194304
more = vkCreateHeadlessSurfaceEXT instance=other
";

/// Five calls, and three writes that are gathered into two fills before the last call.
const HELD_WRITES: &[u8] = b"\
phase
thread 0
inst = vkCreateInstance api=4194304
dev = vkCreateDevice instance=inst
mem = vkAllocateMemory device=dev size=64
vkMapMemory device=dev memory=mem offset=0 size=64
write memory=mem offset=0 bytes=61
write memory=mem offset=1 bytes=62
write memory=mem offset=9 bytes=63
vkUnmapMemory device=dev memory=mem
";

/// How often a thread looks whether the other came.
const TURNS: u64 = 1 << 28;

/// Each of two threads holds its second line until the first line of the other was answered.
#[derive(Drop)]
struct Crossing {
    answered: AtomicU64,
    other_answered: AtomicU64,
    missed: AtomicU64,
}

impl Gate for Crossing {
    fn before(&self, thread: u32, line: u64) {
        if line != 2 {
            return;
        }
        let awaited = if thread == 0 {
            &self.other_answered
        } else {
            &self.answered
        };
        for _ in 0..TURNS {
            if awaited.load(Ordering::SeqCst) > 0 {
                return;
            }
            spin_loop();
        }
        self.missed.fetch_add(1, Ordering::SeqCst);
    }

    fn after(&self, thread: u32, line: u64) {
        if thread == 0 {
            self.answered.store(line, Ordering::SeqCst);
        } else {
            self.other_answered.store(line, Ordering::SeqCst);
        }
    }
}

/// How many lines of one thread were put and not answered, at most, and how many were answered, each in order.
#[derive(Drop)]
struct Waiting {
    put: AtomicU64,
    answered: AtomicU64,
    most: AtomicU64,
    out_of_order: AtomicU64,
}

impl Waiting {
    fn new() -> Self {
        Waiting {
            put: AtomicU64::new(0),
            answered: AtomicU64::new(0),
            most: AtomicU64::new(0),
            out_of_order: AtomicU64::new(0),
        }
    }
}

impl Gate for Waiting {
    fn before(&self, _: u32, line: u64) {
        if self.put.fetch_add(1, Ordering::SeqCst).wrapping_add(1) != line {
            self.out_of_order.fetch_add(1, Ordering::SeqCst);
        }
        let waiting = line.wrapping_sub(self.answered.load(Ordering::SeqCst));
        self.most.fetch_max(waiting, Ordering::SeqCst);
    }

    fn after(&self, _: u32, line: u64) {
        if self.answered.fetch_add(1, Ordering::SeqCst).wrapping_add(1) != line {
            self.out_of_order.fetch_add(1, Ordering::SeqCst);
        }
    }
}

#[test]
fn threads_of_a_phase_run_at_once(rt: HostRuntime) -> Result<(), Fail> {
    let gate = Crossing {
        answered: AtomicU64::new(0),
        other_answered: AtomicU64::new(0),
        missed: AtomicU64::new(0),
    };
    let left = record(&rt, rt.alloc(), &gate, TWO_THREADS)?;
    assert_eq!(rt; left.refused, None);
    assert_eq!(rt; gate.missed.load(Ordering::SeqCst), 0);
    assert_eq!(rt; gate.answered.load(Ordering::SeqCst), 2);
    assert_eq!(rt; gate.other_answered.load(Ordering::SeqCst), 2);
    Ok(())
}

#[test]
fn commands_are_appended_256_at_a_time(rt: HostRuntime) -> Result<(), Fail> {
    let mut text = joined(rt.alloc(), &[OBJECTS, BEGIN])?;
    for _ in 0..600 {
        text.extend_from_slice(BARRIER)?;
    }
    text.extend_from_slice(b"vkEndCommandBuffer cb=cb\n")?;
    let gate = Waiting::new();
    let left = record(&rt, rt.alloc(), &gate, text.as_slice())?;
    assert_eq!(rt; left.refused, None);
    assert_eq!(rt; gate.out_of_order.load(Ordering::SeqCst), 0);
    assert_eq!(rt; gate.most.load(Ordering::SeqCst), 256);
    // twelve lines of objects, three up to the begin, the commands and the end
    assert_eq!(rt; gate.answered.load(Ordering::SeqCst), 616);
    Ok(())
}

#[test]
fn held_lines_are_told_and_fills_are_not(rt: HostRuntime) -> Result<(), Fail> {
    let gate = Waiting::new();
    let left = run(&rt, rt.alloc(), &gate, true, HELD_WRITES)?;
    assert_eq!(rt; left.refused, None);
    assert_eq!(rt; gate.out_of_order.load(Ordering::SeqCst), 0);
    assert_eq!(rt; gate.put.load(Ordering::SeqCst), 8);
    assert_eq!(rt; gate.answered.load(Ordering::SeqCst), 8);
    Ok(())
}
