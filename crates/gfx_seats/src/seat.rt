ghost use Rattle.std.specs.Prelude.{◌≡◌, ◌≤◌, [], length};
ghost use Rattle.gfx_seats.specs.Stage.{stage_of};
ghost use Rattle.gfx_seats.specs.Hand.{HasAllOwn, CreatesAlone};
ghost use Rattle.gfx_seats.specs.Steps.{HoldsSlot};

use crate::grows::Grows;
use crate::words::Token;

/// A place at a desk, for one thread at a time. It has the turn, or waits for nothing.
#[derive(Drop)]
pub struct Seat<V: Grows> {
    pub(crate) token: Token<V>,
    pub(crate) thread: u32,
    pub(crate) has_turn: bool,
    ghost thread_is: { thread ≡ token.me.0.hand.thread },
    ghost stage_is: { token.me.0.hand.stage ≡ stage_of has_turn },
    ghost bare: { (token.me.0.others ≡ []) × (token.me.0.notes ≡ []) },
    ghost holds: { HoldsSlot V.entries V.kind token.me },
    ghost knows: { length token.me.0.hand.seen ≤ token.me.0.hand.known },
    ghost own: { HasAllOwn V.thread_of token.me.0.hand },
    ghost alone: { CreatesAlone V.ids_of token.me.0.hand },
}

impl<V: Grows> Seat<V> {
    ghost use Rattle.gfx_seats.specs.Seat.{hand};

    /// The number of the seat's thread, from 0 on.
    pub fn thread(&self) -> u32
        ensures { result ≡ (hand self.now).thread }
    {
        self.thread
    }
}
