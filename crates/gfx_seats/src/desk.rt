ghost use Rattle.std.specs.Prelude.{◌≡◌, ◌+◌, ◌^◌, ◌<◌, ◌≤◌, ◌⊎◌, ◌↔◌, [], length, map, All, IfOk, IfSome, IsNone, IsTrue};
ghost use Rattle.std.specs.List.{list_any};
ghost use mathlib.Core.List.{IsPrefix};
ghost use Rattle.gfx_seats.specs.declared.stage.Stage.TheVariants.{Idle};
ghost use Rattle.gfx_seats.specs.Entries.{times};
ghost use Rattle.gfx_seats.specs.Hand.{fresh_from, with_id, with_known, at_turn, after_meeting};
ghost use Rattle.gfx_seats.specs.Seat.{hand, desk_of};

use crate::closing::{any_turn, gather};
use crate::error::WantMemory;
use crate::grows::Grows;
use crate::meeting::tell;
use crate::opening::{deal, lay_out};
use crate::rule::DeskRule;
use crate::seat::Seat;
use crate::start::Start;
use crate::steps::{Draw, ReadLength};
use crate::turn::Turn;
use crate::turns::wait_for_turn;
use crate::view::View;
use crate::words::{LENGTH, NEXT_ID};
use atomic_table::Table;
use std::alloc::Global;
use std::marker::PhantomData;
use std::snapshot::Snapshot;
use std::sync::Wait;

/// Where threads meet: each steps with a seat of its own, through a shared reference to the desk.
#[derive(Drop)]
pub struct Desk<V: Grows> {
    pub(crate) table: Table<Option<V>, View<V::Entry>, Start<V>, DeskRule, Global>,
    ghost sized: { (table.shared.table_id.words ≡ 4) × (table.shared.table_id.slots ≡ 1) },
    ghost seated: { 1 ≤ table.shared.key.seats },
}

impl<V: Grows + Drop> Desk<V> {
    ghost use Rattle.gfx_seats.specs.Desk.{desk_id, seats_of, Closes};

    /// A desk with this value, and its seats, whose threads are the numbers from 0 on.
    pub fn new(alloc: Global, seats: u32, value: V) -> Result<(Desk<V>, Vec<Seat<V>>), WantMemory>
        requires count { (1 ≤ seats) × (seats ≤ 64) }
        requires empty { V.entries value ≡ [] }
        ensures count { IfOk result (λ t. (seats_of t.0 ≡ seats) × (length t.1.items ≡ seats)) }
        ensures desk { IfOk result (λ t. All (λ s. desk_of s ≡ desk_id t.0) t.1.items) }
        ensures seats { IfOk result (λ t. map hand t.1.items ≡ fresh_from (V.kind value) 0 seats) }
    {
        let about = Start {
            seats,
            value: Snapshot::of(&value),
        };
        let (table, token) = lay_out(alloc, value, &about)?;
        let all = deal(alloc, &table.shared, token, seats)?;
        Ok((Desk { table }, all))
    }

    /// The value, once all seats are given back. None where one of them has a turn.
    pub fn close(self, seats: Vec<Seat<V>>) -> Option<V>
        requires desk { All (λ s. desk_of s ≡ desk_id self) seats.items }
        requires all { length seats.items ≡ seats_of self }
        ensures none { IsNone result ↔ IsTrue (list_any (λ s. s.has_turn) seats.items) }
        ensures closed { IfSome result (λ v. Closes V.entries V.thread_of V.kind (map hand seats.items) v) }
    {
        if any_turn(&seats) {
            return None;
        }
        let Self { table } = self;
        let token = gather(&table.shared, seats);
        let mut closed = table.close_with(token);
        let value = closed.take(0);
        closed.free();
        value
    }
}

impl<V: Grows> Desk<V> {
    ghost use Rattle.gfx_seats.specs.Desk.{desk_id};

    /// The next id: another one for each call at this desk, by whatever seat. It takes no memory and never waits.
    pub fn draw(&self, seat: &mut Seat<V>) -> u64
        requires desk { desk_of seat.old ≡ desk_id self.now }
        requires few { length (hand seat.old).drawn < 2 ^ 32 }
        ensures desk { desk_of seat.new ≡ desk_of seat.old }
        ensures positive { 1 ≤ result }
        ensures new_id { times result (hand seat.old).drawn ≡ 0 }
        ensures seat { hand seat.new ≡ with_id (hand seat.old) result }
    {
        self.table
            .shared
            .fetch_add::<Draw<V>>(&mut seat.token, NEXT_ID, 1)
    }

    /// How many entries the history has at least. It takes no memory and never waits.
    pub fn written(&self, seat: &mut Seat<V>) -> u64
        requires desk { desk_of seat.old ≡ desk_id self.now }
        ensures desk { desk_of seat.new ≡ desk_of seat.old }
        ensures known { (hand seat.old).known ≤ result }
        ensures seen { length (hand seat.old).seen ≤ result }
        ensures seat { hand seat.new ≡ with_known (hand seat.old) result }
    {
        self.table
            .shared
            .load::<ReadLength<V>>(&mut seat.token, LENGTH)
    }

    /// Waits for the turn. From then on, until it leaves, the seat has seen the whole history.
    pub fn turn<R: Wait>(&self, rt: &R, seat: &mut Seat<V>) -> Turn<V>
        requires desk { desk_of seat.old ≡ desk_id self.now }
        requires idle { (hand seat.old).stage ≡ Idle }
        ensures desk { desk_of seat.new ≡ desk_of seat.old }
        ensures seat { hand seat.new ≡ at_turn (hand seat.old) (hand seat.new).seen }
        ensures before { IsPrefix (hand seat.old).seen (hand seat.new).seen }
        ensures known { (hand seat.old).known ≤ (hand seat.new).known }
    {
        wait_for_turn(rt, &self.table.shared, &mut seat.token);
        seat.has_turn = true;
        Turn { of: PhantomData }
    }

    /// From then on both seats have seen the longer of their two histories. It takes no memory and never waits.
    pub fn meet(&self, one: &mut Seat<V>, other: &mut Seat<V>)
        requires one_desk { desk_of one.old ≡ desk_id self.now }
        requires other_desk { desk_of other.old ≡ desk_id self.now }
        ensures one_desk { desk_of one.new ≡ desk_of one.old }
        ensures other_desk { desk_of other.new ≡ desk_of other.old }
        ensures one { hand one.new ≡ after_meeting (hand one.old) (hand other.old) (hand one.new).seen }
        ensures other { hand other.new ≡ after_meeting (hand other.old) (hand one.old) (hand one.new).seen }
        ensures one_before { IsPrefix (hand one.old).seen (hand one.new).seen }
        ensures other_before { IsPrefix (hand other.old).seen (hand one.new).seen }
        ensures longer { ((hand one.new).seen ≡ (hand one.old).seen) ⊎ ((hand one.new).seen ≡ (hand other.old).seen) }
    {
        tell(&self.table.shared, &mut one.token, &mut other.token);
        tell(&self.table.shared, &mut other.token, &mut one.token);
    }
}
