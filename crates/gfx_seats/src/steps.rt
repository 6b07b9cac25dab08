//! The kinds of step, each by what it tells.
use crate::grows::Grows;
use crate::view::View;
use atomic_table::{Join, Play, Split};
use std::marker::PhantomData;

/// A thread draws the next id.
pub(crate) struct Draw<V> {
    of: PhantomData<V>,
}

impl<V: Grows> Play<Option<V>, View<V::Entry>> for Draw<V> {
    ghost use Rattle.gfx_seats.specs.Steps.{drew};

    ghost then = { drew V.entries V.thread_of V.ids_of V.kind };
}

/// A thread reads how long the history is.
pub(crate) struct ReadLength<V> {
    of: PhantomData<V>,
}

impl<V: Grows> Play<Option<V>, View<V::Entry>> for ReadLength<V> {
    ghost use Rattle.gfx_seats.specs.Steps.{read_length};

    ghost then = { read_length V.entries V.thread_of V.ids_of V.kind };
}

/// A thread takes the next ticket.
pub(crate) struct TakeTicket<V> {
    of: PhantomData<V>,
}

impl<V: Grows> Play<Option<V>, View<V::Entry>> for TakeTicket<V> {
    ghost use Rattle.gfx_seats.specs.Steps.{took_ticket};

    ghost then = { took_ticket V.entries V.thread_of V.ids_of V.kind };
}

/// A thread takes the next ticket if that is the one which it expects.
pub(crate) struct TryTicket<V> {
    of: PhantomData<V>,
}

impl<V: Grows> Play<Option<V>, View<V::Entry>> for TryTicket<V> {
    ghost use Rattle.gfx_seats.specs.Steps.{tried_ticket};

    ghost then = { tried_ticket V.entries V.thread_of V.ids_of V.kind };
}

/// A thread looks which ticket is served, and takes the slot where it is its own.
pub(crate) struct Look<V> {
    of: PhantomData<V>,
}

impl<V: Grows> Play<Option<V>, View<V::Entry>> for Look<V> {
    ghost use Rattle.gfx_seats.specs.Steps.{looked};

    ghost then = { looked V.entries V.thread_of V.ids_of V.kind };
}

/// The thread that has the turn counts what it added.
pub(crate) struct Count<V> {
    of: PhantomData<V>,
}

impl<V: Grows> Play<Option<V>, View<V::Entry>> for Count<V> {
    ghost use Rattle.gfx_seats.specs.Steps.{counted};

    ghost then = { counted V.entries V.thread_of V.ids_of V.kind };
}

/// The thread that has the turn gives the slot back, and the turn to the next ticket.
pub(crate) struct Leave<V> {
    of: PhantomData<V>,
}

impl<V: Grows> Play<Option<V>, View<V::Entry>> for Leave<V> {
    ghost use Rattle.gfx_seats.specs.Steps.{left_turn};

    ghost then = { left_turn V.entries V.thread_of V.ids_of V.kind };
}

/// A thread learns what the note says that it took in.
pub(crate) struct Learn<V> {
    of: PhantomData<V>,
}

impl<V: Grows> Play<Option<V>, View<V::Entry>> for Learn<V> {
    ghost use Rattle.gfx_seats.specs.Steps.{learnt};

    ghost then = { learnt V.entries V.thread_of V.ids_of V.kind };
}

/// A note is made of what a thread has seen.
pub(crate) struct MakeNote;

impl<E> Split<View<E>> for MakeNote {
    ghost use Rattle.gfx_seats.specs.View.{note_view};

    ghost left = { λ v. v };

    ghost right = { λ v. note_view v.hand };
}

/// The first of the further threads gets a token of its own.
pub(crate) struct Deal;

impl<E> Split<View<E>> for Deal {
    ghost use Rattle.gfx_seats.specs.View.{staying, parting};

    ghost left = { staying };

    ghost right = { parting };
}

/// A token takes in a note.
pub(crate) struct TakeNote;

impl<E> Join<View<E>> for TakeNote {
    ghost use Rattle.gfx_seats.specs.View.{noted, spent_view};

    ghost both = { noted };

    ghost spent = { spent_view };
}

/// A token takes in another with its threads.
pub(crate) struct Gather;

impl<E> Join<View<E>> for Gather {
    ghost use Rattle.gfx_seats.specs.View.{gathered, spent_view};

    ghost both = { gathered };

    ghost spent = { spent_view };
}
