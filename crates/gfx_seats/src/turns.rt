//! The steps of a turn, taken with a token.
//!
//! A thread first looks whether no ticket is out, and takes one only then; after 64 looks it takes one in any case.
//! Tickets alone hand the turn to the thread that waits longest, which on a busy machine is mostly one that isn't
//! running.
ghost use Rattle.std.specs.Prelude.{◌≡◌, ℕ, ◌%◌, ◌^◌, [], ◌∷◌, Some};
ghost use Rattle.gfx_seats.specs.declared.stage.Stage.TheVariants.{Idle, Waits, HasTurn};
ghost use Rattle.gfx_seats.specs.Entries.{AreAmong};
ghost use Rattle.gfx_seats.specs.Hand.{with_stage, grown_hand, Appended, HasAllOwn, CreatesAlone};
ghost use Rattle.gfx_seats.specs.View.{with_hand};
ghost use Rattle.gfx_seats.specs.Steps.{with_me, Served};

use crate::grows::Grows;
use crate::steps::{Count, Leave, Look, TakeTicket, TryTicket};
use crate::words::{Board, LENGTH, NEXT_TICKET, SERVING, SLOT, Token};
use crossbeam_utils::Backoff;
use std::sync::Wait;

/// How often a thread looks for a free turn before it queues.
const LOOKS: u32 = 64;

/// Takes a ticket: where no other is out, and after some looks in any case, behind those that are.
fn take_ticket<V: Grows>(board: &Board<V>, token: &mut Token<V>) -> u64
    requires board { (token.old.table_id ≡ board.now.table_id) × (board.now.table_id.words ≡ 4) }
    requires idle { token.old.me.0.hand.stage ≡ Idle }
    ensures board { token.new.table_id ≡ token.old.table_id }
    ensures ticket { (k : ℕ) × (result ≡ k % 2 ^ 64) × (token.new.me ≡ with_me token.old.me (with_stage token.old.me.0.hand (Waits k))) }
{
    let backoff = Backoff::new();
    for _ in 0..LOOKS {
        let next = board.peek(SERVING);
        if board.peek(NEXT_TICKET) == next {
            let found = board.compare_exchange::<TryTicket<V>>(
                token,
                NEXT_TICKET,
                next,
                next.wrapping_add(1),
            );
            if found == next {
                return next;
            }
        }
        backoff.snooze();
    }
    board.fetch_add::<TakeTicket<V>>(token, NEXT_TICKET, 1)
}

/// Takes a ticket, and looks until it is served.
pub(crate) fn wait_for_turn<V: Grows, R: Wait>(rt: &R, board: &Board<V>, token: &mut Token<V>)
    requires board { (token.old.table_id ≡ board.now.table_id) × (board.now.table_id.words ≡ 4) × (board.now.table_id.slots ≡ 1) }
    requires idle { (token.old.me.0.hand.stage ≡ Idle) × (token.old.me.1 ≡ []) × (token.old.me.0.others ≡ []) }
    ensures board { token.new.table_id ≡ token.old.table_id }
    ensures served { Served V.entries V.thread_of V.ids_of V.kind token.old.me token.new.me }
{
    let ticket = take_ticket(board, token);
    let backoff = Backoff::new();
    for _ in rt.forever() {
        let serving = board.load::<Look<V>>(token, SERVING);
        if serving == ticket {
            return;
        }
        backoff.snooze();
    }
    unreachable!()
}

/// Takes the value out of the slot, lets it grow, puts it back, and counts what was added.
pub(crate) fn grow_in_slot<V: Grows + Drop>(
    board: &Board<V>,
    token: &mut Token<V>,
    thread: u32,
    work: &V::Work,
) -> Result<V::Done, V::Refusal>
    requires board { (token.old.table_id ≡ board.now.table_id) × (board.now.table_id.words ≡ 4) × (board.now.table_id.slots ≡ 1) }
    requires turn { (token.old.me.0.hand.stage ≡ HasTurn) × (token.old.me.0.others ≡ []) × (thread ≡ token.old.me.0.hand.thread) }
    requires value { (v : V) × (token.old.me.1 ≡ (0, Some v) ∷ []) × (V.entries v ≡ token.old.me.0.hand.seen) × (V.kind v ≡ token.old.me.0.hand.kind) }
    requires own { HasAllOwn V.thread_of token.old.me.0.hand }
    requires kind { V.work_kind work.now ≡ token.old.me.0.hand.kind }
    requires drew { AreAmong (V.named work.now) token.old.me.0.hand.drawn }
    ensures board { token.new.table_id ≡ token.old.table_id }
    ensures value { (v : V) × (token.new.me ≡ (with_hand token.old.me.0 (grown_hand V.thread_of token.old.me.0.hand (V.entries v)), (0, Some v) ∷ [])) × (V.kind v ≡ token.old.me.0.hand.kind) }
    ensures appended { Appended V.thread_of V.ids_of token.old.me.0.hand (V.named work.now) token.new.me.0.hand }
    ensures grown { V.grown token.old.me.0.hand.seen thread work.now result token.new.me.0.hand.seen }
    ensures alone { CreatesAlone V.ids_of token.new.me.0.hand }
{
    let Some(mut value) = board.exchange(token, SLOT, None) else {
        unreachable!()
    };
    let before = value.length();
    let answer = value.grow(thread, work);
    let after = value.length();
    drop(board.exchange(token, SLOT, Some(value)));
    board.fetch_add::<Count<V>>(token, LENGTH, after - before);
    answer
}

/// Gives the slot back, and the turn to the next ticket.
pub(crate) fn leave_turn<V: Grows>(board: &Board<V>, token: &mut Token<V>)
    requires board { (token.old.table_id ≡ board.now.table_id) × (board.now.table_id.words ≡ 4) × (board.now.table_id.slots ≡ 1) }
    requires turn { token.old.me.0.hand.stage ≡ HasTurn }
    requires value { (v : V) × (token.old.me.1 ≡ (0, Some v) ∷ []) × (V.entries v ≡ token.old.me.0.hand.seen) × (V.kind v ≡ token.old.me.0.hand.kind) }
    ensures board { token.new.table_id ≡ token.old.table_id }
    ensures left { token.new.me ≡ (with_hand token.old.me.0 (with_stage token.old.me.0.hand Idle), []) }
{
    board.fetch_add::<Leave<V>>(token, SERVING, 1);
}
