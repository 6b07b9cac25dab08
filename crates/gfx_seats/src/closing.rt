//! How seats are gathered again.
ghost use Rattle.std.specs.Prelude.{◌≡◌, ◌<◌, [], ◌∷◌, length, map, All, false};
ghost use Rattle.std.specs.List.{list_any};
ghost use Rattle.gfx_seats.specs.declared.stage.Stage.TheVariants.{Idle};
ghost use Rattle.gfx_seats.specs.Seat.{hand, desk_of};

use crate::grows::Grows;
use crate::seat::Seat;
use crate::steps::Gather;
use crate::words::{Board, Token};

fn token_of<V: Grows>(seat: Seat<V>) -> Token<V>
    requires { seat.has_turn ≡ false }
    ensures same { result ≡ seat.token }
    ensures idle { result.me.0.hand.stage ≡ Idle }
    ensures bare { (result.me.1 ≡ []) × (result.me.0.others ≡ []) }
{
    let Seat {
        token,
        thread: _,
        has_turn: _,
    } = seat;
    token
}

/// Whether one of the seats has a turn.
pub(crate) fn any_turn<V: Grows>(seats: &[Seat<V>]) -> bool
    ensures { result ≡ list_any (λ s. s.has_turn) seats.now }
{
    seats.iter().any(|seat| seat.has_turn)
}

/// Joins all seats into one token.
pub(crate) fn gather<V: Grows + Drop>(board: &Board<V>, seats: Vec<Seat<V>>) -> Token<V>
    requires board { board.now.table_id.words ≡ 4 }
    requires desk { All (λ s. desk_of s ≡ board.now.table_id) seats.items }
    requires idle { All (λ s. s.has_turn ≡ false) seats.items }
    requires some { 0 < length seats.items }
    ensures board { result.table_id ≡ board.now.table_id }
    ensures hands { (result.me.0.hand ∷ result.me.0.others) ≡ map hand seats.items }
    ensures idle { All (λ h. h.stage ≡ Idle) (result.me.0.hand ∷ result.me.0.others) }
{
    let mut seats = seats;
    let Some(last) = seats.pop() else {
        unreachable!()
    };
    let mut token = token_of(last);
    while let Some(seat) = seats.pop() {
        board.join_seat::<Gather>(&mut token, token_of(seat));
    }
    token
}
