//! Eight threads at one desk: what the journal has of them once they gave their seats back.
ghost use Rattle.std.specs.Prelude.{◌≤◌};

use crate::{Entry, Event, Journal, Plan, batch_size, open, run_all};
use std::alloc::{AllocError, Global};
use std::process::Abort;
use std::sync::Wait;
use std::test::Fail;
use std::thread::Threads;

const THREADS: u32 = 8;

const ENTRIES: u32 = 10_000;

/// The journal of so many threads that each did what the plan says.
fn journal_of<R: Threads + Wait + Sync + Abort>(rt: &R, alloc: Global, plan: Plan) -> Journal
    requires { 1 ≤ plan.largest }
{
    let Ok((desk, seats)) = open(alloc, THREADS) else {
        panic!(rt; "no memory")
    };
    let seats = run_all(rt, alloc, &desk, seats, plan);
    desk.close(seats).expect(rt, "no seat has a turn")
}

/// Each thread made all its entries in the order of its ids, and each id from 1 on was created once.
fn assert_shares<R: Abort>(rt: &R, alloc: Global, entries: &[Entry]) -> Result<(), AllocError> {
    let mut latest = vec![in alloc; 0u64; THREADS as usize]?;
    let mut counts = vec![in alloc; 0u32; THREADS as usize]?;
    let mut created = vec![in alloc; false; (THREADS * ENTRIES) as usize + 1]?;
    for entry in entries {
        let Event::Make(id) = entry.event else {
            panic!(rt; "nothing ends")
        };
        let thread = entry.thread as usize;
        let latest = latest.get_mut(thread).expect(rt, "a thread of the desk");
        assert!(rt; *latest < id, "the entries of a thread are in order");
        *latest = id;
        let count = counts.get_mut(thread).expect(rt, "a thread of the desk");
        *count = count.wrapping_add(1);
        let created = created.get_mut(id as usize).expect(rt, "no id is left out");
        assert!(rt; !*created, "each id is created once");
        *created = true;
    }
    assert!(rt; counts.iter().all(|&count| count == ENTRIES));
    Ok(())
}

/// The entries of a batch follow one another: no other thread comes between.
fn assert_batches<R: Abort>(
    rt: &R,
    alloc: Global,
    entries: &[Entry],
    plan: Plan,
) -> Result<(), AllocError>
    requires { 1 ≤ plan.largest }
{
    let mut steps = vec![in alloc; 0u32; THREADS as usize]?;
    let mut lefts = vec![in alloc; plan.entries; THREADS as usize]?;
    let mut rest = entries;
    for _ in 0..entries.len() {
        let Some(first) = rest.first() else {
            break;
        };
        let thread = first.thread;
        let step = steps
            .get_mut(thread as usize)
            .expect(rt, "a thread of the desk");
        let left = lefts
            .get_mut(thread as usize)
            .expect(rt, "a thread of the desk");
        assert!(rt; *left > 0, "no thread makes more than its entries");
        let size = batch_size(plan, *step, *left);
        *step = step.wrapping_add(1);
        *left -= size;
        let (batch, more) = rest
            .split_at_checked(size as usize)
            .expect(rt, "a whole batch");
        assert!(rt; batch.iter().all(|entry| entry.thread == thread));
        rest = more;
    }
    assert!(rt; rest.is_empty());
    Ok(())
}

#[test]
fn eight_threads_make_one_history(rt: HostRuntime) -> Result<(), Fail> {
    let alloc = rt.alloc();
    let plan = Plan {
        entries: ENTRIES,
        largest: 1,
    };
    let journal = journal_of(&rt, alloc, plan);
    assert_shares(&rt, alloc, journal.entries())?;
    Ok(())
}

#[test]
fn batches_of_eight_threads_stand_whole(rt: HostRuntime) -> Result<(), Fail> {
    let alloc = rt.alloc();
    let plan = Plan {
        entries: ENTRIES,
        largest: 256,
    };
    let journal = journal_of(&rt, alloc, plan);
    assert_shares(&rt, alloc, journal.entries())?;
    assert_batches(&rt, alloc, journal.entries(), plan)?;
    Ok(())
}
