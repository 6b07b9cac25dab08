//! What the gate that `run` is given sees of a recording.

use gfx_io::Gate;
use gfx_outside::Outside;
use std::hint::spin_loop;
use std::sync::atomic::{AtomicU64, Ordering};
use std::test::Fail;

/// Two threads with one call each.
const TWO_THREADS: &[u8] = b"\
phase
thread 0
one = vkCreateInstance api=4194304
thread 1
other = vkCreateInstance api=4194304
";

/// How often a thread looks whether the other came.
const TURNS: u64 = 1 << 28;

/// Holds the line of each thread until both are inside `before`, which one thread that takes lines in turn can't meet.
#[derive(Drop)]
struct Meeting {
    inside: AtomicU64,
    missed: AtomicU64,
    answered: AtomicU64,
}

impl Gate for Meeting {
    fn before(&self, _: u32, _: u64) {
        self.inside.fetch_add(1, Ordering::SeqCst);
        for _ in 0..TURNS {
            if self.inside.load(Ordering::SeqCst) > 1 {
                return;
            }
            spin_loop();
        }
        self.missed.fetch_add(1, Ordering::SeqCst);
    }

    fn after(&self, _: u32, _: u64) {
        self.answered.fetch_add(1, Ordering::SeqCst);
    }
}

#[test]
fn threads_meet_inside_the_gate_of_run(rt: HostRuntime) -> Result<(), Fail> {
    let gate = Meeting {
        inside: AtomicU64::new(0),
        missed: AtomicU64::new(0),
        answered: AtomicU64::new(0),
    };
    let ended = Outside::of(&["capture"], TWO_THREADS).gated(&rt, rt.alloc(), &gate)?;
    assert_eq!(rt; (ended.status, ended.text.len()), (0, 88));
    assert_eq!(rt; gate.missed.load(Ordering::SeqCst), 0);
    assert_eq!(rt; gate.inside.load(Ordering::SeqCst), 2);
    assert_eq!(rt; gate.answered.load(Ordering::SeqCst), 2);
    Ok(())
}
