//! Two seats on one thread, worked out by hand.
ghost use Rattle.std.specs.Prelude.{◌≡◌, OnOk};
ghost use Rattle.gfx_seats.specs.Hand.{fresh};
ghost use Rattle.gfx_seats.specs.Seat.{hand, desk_of};
ghost use Rattle.gfx_seats.specs.Desk.{desk_id};
ghost use Rattle.gfx_seats_tests.specs.Journal.{named_ids};

use crate::workers::{append_batch, draw_batch};
use crate::{Batch, Entry, Event, Journal, Receipt, Refused};
use gfx_seats::{Desk, Seat};
use std::alloc::{AllocError, Global};
use std::process::Abort;
use std::sync::Wait;
use std::test::Fail;

/// Puts the end of an id behind what is in the batch.
fn end_too(batch: &mut Batch, id: u64) -> Result<(), AllocError>
    ensures { OnOk result (named_ids batch.new.events.items ≡ named_ids batch.old.events.items) }
{
    let Batch { events } = batch;
    events.push(Event::End(id))?;
    Ok(())
}

/// Whether the batch has one event, which makes this id.
fn makes(batch: &Batch, id: u64) -> bool {
    batch.events.as_slice() == [Event::Make(id)].as_slice()
}

fn act<R: Abort + Wait>(
    rt: &R,
    alloc: Global,
    desk: &Desk<Journal>,
    first: &mut Seat<Journal>,
    second: &mut Seat<Journal>,
) -> Result<(), Fail>
    requires first { (desk_of first.old ≡ desk_id desk.now) × (hand first.old ≡ fresh 1 0) }
    requires second { (desk_of second.old ≡ desk_id desk.now) × (hand second.old ≡ fresh 1 1) }
    ensures first { desk_of first.new ≡ desk_id desk.now }
    ensures second { desk_of second.new ≡ desk_id desk.now }
{
    let mut batch = Batch {
        events: Vec::new(alloc),
    };
    draw_batch(desk, first, &mut batch, 1)?;
    assert!(rt; makes(&batch, 1));
    let made = append_batch(rt, desk, first, &batch);
    assert_eq!(rt; made, Ok(Receipt { from: 0, count: 1 }));
    assert_eq!(rt; desk.written(second), 1);

    draw_batch(desk, second, &mut batch, 0)?;
    end_too(&mut batch, 1)?;
    let ended = append_batch(rt, desk, second, &batch);
    assert_eq!(rt; ended, Ok(Receipt { from: 1, count: 1 }));

    draw_batch(desk, first, &mut batch, 1)?;
    assert!(rt; makes(&batch, 2));
    end_too(&mut batch, 1)?;
    let late = append_batch(rt, desk, first, &batch);
    assert_eq!(rt; late, Err(Refused::NotLive { at: 3, done: 1 }));

    desk.meet(second, first);
    assert_eq!(rt; desk.written(second), 3);
    draw_batch(desk, second, &mut batch, 1)?;
    assert!(rt; makes(&batch, 3));
    Ok(())
}

#[test]
fn two_seats_share_one_history(rt: HostRuntime) -> Result<(), Fail> {
    let alloc = rt.alloc();
    let Ok((desk, mut seats)) = Desk::new(alloc, 2, Journal::new(alloc)) else {
        panic!(rt; "no memory")
    };
    let mut second = seats.pop().expect(&rt, "two seats");
    let mut first = seats.pop().expect(&rt, "one seat");
    assert_eq!(rt; (first.thread(), second.thread()), (0, 1));
    act(&rt, alloc, &desk, &mut first, &mut second)?;
    seats.push(first)?;
    seats.push(second)?;
    let journal = desk.close(seats).expect(&rt, "no seat has a turn");
    let entries = [
        Entry {
            thread: 0,
            event: Event::Make(1),
        },
        Entry {
            thread: 1,
            event: Event::End(1),
        },
        Entry {
            thread: 0,
            event: Event::Make(2),
        },
    ];
    assert_eq!(rt; journal.entries(), entries.as_slice());
    Ok(())
}
