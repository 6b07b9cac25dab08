//! Threads that draw ids and append events that make them.
ghost use Rattle.std.specs.Prelude.{◌≡◌, ℕ, ◌+◌, ◌^◌, ◌<◌, ◌≤◌, All, IfOk, OnOk, length};
ghost use Rattle.gfx_seats.specs.declared.stage.Stage.TheVariants.{Idle};
ghost use Rattle.gfx_seats.specs.Entries.{AreAmong};
ghost use Rattle.gfx_seats.specs.Seat.{hand, desk_of};
ghost use Rattle.gfx_seats.specs.Desk.{desk_id, seats_of};
ghost use Rattle.gfx_seats_tests.specs.Journal.{named_ids};
ghost use Rattle.gfx_seats_tests.specs.Workers.{DrewMore, IsReady};

use crate::journal::{Batch, Event, Journal, Receipt, Refused};
use gfx_seats::{Desk, Seat, WantMemory};
use std::alloc::{AllocError, Global};
use std::sync::Wait;
use std::thread;
use std::thread::Threads;

/// How many entries each thread makes, and of how many at most in one turn.
#[derive(Clone, Copy)]
pub struct Plan {
    pub entries: u32,
    pub largest: u32,
}

/// A desk with an empty journal, and its seats.
pub fn open(alloc: Global, threads: u32) -> Result<(Desk<Journal>, Vec<Seat<Journal>>), WantMemory>
    requires { (1 ≤ threads) × (threads ≤ 64) }
    ensures count { IfOk result (λ t. (seats_of t.0 ≡ threads) × (length t.1.items ≡ threads)) }
    ensures desk { IfOk result (λ t. All (λ s. desk_of s ≡ desk_id t.0) t.1.items) }
    ensures ready { IfOk result (λ t. All (λ s. IsReady (hand s)) t.1.items) }
{
    let (desk, seats) = Desk::new(alloc, threads, Journal::new(alloc))?;
    Ok((desk, seats))
}

/// How many entries a thread makes in this turn, from 1 on, where so many are left.
pub fn batch_size(plan: Plan, step: u32, left: u32) -> u32
    requires { (1 ≤ plan.largest) × (1 ≤ left) }
    ensures { (1 ≤ result) × (result ≤ left) }
{
    (1 + step.wrapping_mul(75) % plan.largest).min(left)
}

/// Draws ids, and fills the batch with events that make them.
pub(crate) fn draw_batch(
    desk: &Desk<Journal>,
    seat: &mut Seat<Journal>,
    batch: &mut Batch,
    size: u32,
) -> Result<(), AllocError>
    requires desk { desk_of seat.old ≡ desk_id desk.now }
    requires few { length (hand seat.old).drawn + size ≤ 2 ^ 32 }
    ensures desk { desk_of seat.new ≡ desk_of seat.old }
    ensures drew { DrewMore (hand seat.old) size (hand seat.new) }
    ensures named { OnOk result (AreAmong (named_ids batch.new.events.items) (hand seat.new).drawn) }
{
    let Batch { events } = batch;
    events.clear();
    for _ in 0..size {
        let id = desk.draw(seat);
        events.push(Event::Make(id))?;
    }
    Ok(())
}

/// Appends the batch in a turn of its own.
pub(crate) fn append_batch<R: Wait>(
    rt: &R,
    desk: &Desk<Journal>,
    seat: &mut Seat<Journal>,
    batch: &Batch,
) -> Result<Receipt, Refused>
    requires desk { desk_of seat.old ≡ desk_id desk.now }
    requires ready { ((hand seat.old).stage ≡ Idle) × ((hand seat.old).kind ≡ 1) }
    requires named { AreAmong (named_ids batch.now.events.items) (hand seat.old).drawn }
    ensures desk { desk_of seat.new ≡ desk_of seat.old }
    ensures kept { ((hand seat.new).stage ≡ Idle) × ((hand seat.new).kind ≡ 1) × ((hand seat.new).drawn ≡ (hand seat.old).drawn) }
{
    let mut turn = desk.turn(rt, seat);
    let answer = turn.append(desk, seat, batch);
    turn.leave(desk, seat);
    answer
}

/// Makes the plan's entries in one thread. It stops where there is no memory.
fn run<R: Wait>(rt: &R, alloc: Global, desk: &Desk<Journal>, seat: &mut Seat<Journal>, plan: Plan)
    requires desk { desk_of seat.old ≡ desk_id desk.now }
    requires ready { IsReady (hand seat.old) }
    requires plan { 1 ≤ plan.largest }
    ensures desk { desk_of seat.new ≡ desk_of seat.old }
{
    let mut batch = Batch {
        events: Vec::new(alloc),
    };
    let mut left = plan.entries;
    for step in 0..plan.entries {
        if left == 0 {
            return;
        }
        let size = batch_size(plan, step, left);
        if draw_batch(desk, seat, &mut batch, size).is_err() {
            return;
        }
        if append_batch(rt, desk, seat, &batch).is_err() {
            return;
        }
        left -= size;
    }
}

fn run_each<R: Threads + Wait + Sync>(
    rt: &R,
    alloc: Global,
    desk: &Desk<Journal>,
    seats: &mut [Seat<Journal>],
    plan: Plan,
)
    requires some { 0 < length seats.old }
    requires desk { All (λ s. desk_of s ≡ desk_id desk.now) seats.old }
    requires ready { All (λ s. IsReady (hand s)) seats.old }
    requires plan { 1 ≤ plan.largest }
    ensures { All (λ s. desk_of s ≡ desk_id desk.now) seats.new }
{
    let threads = seats.len();
    thread::for_each_mut(
        rt,
        seats,
        threads,
        &|_, seat| -> ()
            requires { (desk_of seat.old ≡ desk_id desk.now) × IsReady (hand seat.old) × (1 ≤ plan.largest) }
            ensures { desk_of seat.new ≡ desk_of seat.old }
        { run(rt, alloc, desk, seat, plan) },
    );
}

/// Makes the plan's entries at each seat, all at once, in a thread for each.
pub fn run_all<R: Threads + Wait + Sync>(
    rt: &R,
    alloc: Global,
    desk: &Desk<Journal>,
    seats: Vec<Seat<Journal>>,
    plan: Plan,
) -> Vec<Seat<Journal>>
    requires some { 0 < length seats.items }
    requires desk { All (λ s. desk_of s ≡ desk_id desk.now) seats.items }
    requires ready { All (λ s. IsReady (hand s)) seats.items }
    requires plan { 1 ≤ plan.largest }
    ensures desk { All (λ s. desk_of s ≡ desk_id desk.now) result.items }
    ensures count { length result.items ≡ length seats.items }
{
    let mut seats = seats;
    run_each(rt, alloc, desk, seats.as_mut_slice(), plan);
    seats
}
