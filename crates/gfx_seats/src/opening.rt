//! How a desk is laid out, and its seats are dealt.
ghost use Rattle.std.specs.Prelude.{◌≡◌, ℕ, ◌-◌, ◌≤◌, [], ◌∷◌, length, map, All, IfOk, Some};
ghost use Rattle.gfx_seats.specs.Hand.{fresh, fresh_from};
ghost use Rattle.gfx_seats.specs.View.{opening_view};
ghost use Rattle.gfx_seats.specs.Seat.{hand, desk_of};

use crate::error::WantMemory;
use crate::grows::Grows;
use crate::rule::DeskRule;
use crate::seat::Seat;
use crate::start::Start;
use crate::steps::Deal;
use crate::view::View;
use crate::words::{Board, Token};
use atomic_table::Table;
use std::alloc::{AllocError, Global};

fn one_slot<V: Drop>(alloc: Global, value: V) -> Result<Vec<Option<V>>, AllocError>
    ensures { IfOk result (λ v. v.items ≡ Some value ∷ []) }
{
    let mut slots = Vec::new(alloc);
    slots.push(Some(value))?;
    Ok(slots)
}

/// The table of a desk with this value, and its first token, which has the threads of all seats.
pub(crate) fn lay_out<V: Grows + Drop>(
    alloc: Global,
    value: V,
    about: &Start<V>,
) -> Result<
    (
        Table<Option<V>, View<V::Entry>, Start<V>, DeskRule, Global>,
        Token<V>,
    ),
    WantMemory,
>
    requires about { (about.now.value.value ≡ value) × (1 ≤ about.now.seats) × (about.now.seats ≤ 64) }
    requires empty { V.entries value ≡ [] }
    ensures table { IfOk result (λ t. (t.0.shared.table_id.words ≡ 4) × (t.0.shared.table_id.slots ≡ 1) × (t.0.shared.key ≡ about.now)) }
    ensures token { IfOk result (λ t. (t.1.table_id ≡ t.0.shared.table_id) × (t.1.me ≡ (opening_view (V.kind value) about.now.seats, []))) }
{
    let slots = one_slot(alloc, value)?;
    match Table::new(alloc, &[1, 0, 0, 0], slots, about) {
        Ok(laid) => Ok(laid),
        Err(_) => Err(WantMemory),
    }
}

fn seat_of<V: Grows>(token: Token<V>, thread: u32) -> Seat<V>
    requires { (kind : ℕ) × (token.me ≡ (record { hand = fresh kind thread; others = []; notes = [] }, [])) }
    ensures { result.token ≡ token }
{
    Seat {
        token,
        thread,
        has_turn: false,
    }
}

/// Cuts the first token into one for each thread.
pub(crate) fn deal<V: Grows + Drop>(
    alloc: Global,
    board: &Board<V>,
    token: Token<V>,
    seats: u32,
) -> Result<Vec<Seat<V>>, AllocError>
    requires board { (token.table_id ≡ board.now.table_id) × (board.now.table_id.words ≡ 4) }
    requires count { 1 ≤ seats }
    requires opening { token.me ≡ (opening_view (V.kind board.now.key.value.value) seats, []) }
    ensures count { IfOk result (λ v. length v.items ≡ seats) }
    ensures desk { IfOk result (λ v. All (λ s. desk_of s ≡ board.now.table_id) v.items) }
    ensures seats { IfOk result (λ v. map hand v.items ≡ fresh_from (V.kind board.now.key.value.value) 0 seats) }
{
    let mut token = token;
    let mut all = Vec::new(alloc);
    for thread in 0..seats - 1 {
        let own = board.split_seat::<Deal>(&mut token);
        all.push(seat_of(own, thread))?;
    }
    all.push(seat_of(token, seats - 1))?;
    Ok(all)
}
