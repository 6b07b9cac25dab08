ghost use Rattle.std.specs.Prelude.{◌≡◌};
ghost use Rattle.gfx_seats.specs.declared.stage.Stage.TheVariants.{Idle, HasTurn};
ghost use Rattle.gfx_seats.specs.Entries.{AreAmong};
ghost use Rattle.gfx_seats.specs.Hand.{with_stage, Appended};
ghost use Rattle.gfx_seats.specs.Seat.{hand, desk_of};
ghost use Rattle.gfx_seats.specs.Desk.{desk_id};

use crate::desk::Desk;
use crate::grows::Grows;
use crate::seat::Seat;
use crate::turns::{grow_in_slot, leave_turn};
use std::marker::PhantomData;

/// The turn at a desk. It can't be dropped, and ends by `leave`.
pub struct Turn<V: Grows> {
    pub(crate) of: PhantomData<V>,
}

impl<V: Grows + Drop> Turn<V> {
    /// Lets the value grow in the name of the seat's thread, and answers what `grow` answers.
    pub fn append(
        &mut self,
        desk: &Desk<V>,
        seat: &mut Seat<V>,
        work: &V::Work,
    ) -> Result<V::Done, V::Refusal>
        requires desk { desk_of seat.old ≡ desk_id desk.now }
        requires turn { (hand seat.old).stage ≡ HasTurn }
        requires kind { V.work_kind work.now ≡ (hand seat.old).kind }
        requires drew { AreAmong (V.named work.now) (hand seat.old).drawn }
        ensures desk { desk_of seat.new ≡ desk_of seat.old }
        ensures appended { Appended V.thread_of V.ids_of (hand seat.old) (V.named work.now) (hand seat.new) }
        ensures grown { V.grown (hand seat.old).seen (hand seat.old).thread work.now result (hand seat.new).seen }
    {
        grow_in_slot(&desk.table.shared, &mut seat.token, seat.thread, work)
    }
}

impl<V: Grows> Turn<V> {
    /// Ends the turn. It takes no memory and never waits.
    pub fn leave(self, desk: &Desk<V>, seat: &mut Seat<V>)
        requires desk { desk_of seat.old ≡ desk_id desk.now }
        requires turn { (hand seat.old).stage ≡ HasTurn }
        ensures desk { desk_of seat.new ≡ desk_of seat.old }
        ensures seat { hand seat.new ≡ with_stage (hand seat.old) Idle }
    {
        let Turn { of: _ } = self;
        leave_turn(&desk.table.shared, &mut seat.token);
        seat.has_turn = false;
    }
}
