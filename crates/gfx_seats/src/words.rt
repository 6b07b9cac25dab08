//! The words and the slot of a desk, and the types through which they are reached.
use crate::grows::Grows;
use crate::rule::DeskRule;
use crate::start::Start;
use crate::view::View;
use atomic_table::{Seat, Shared};

/// The number of the word with the next id.
pub(crate) const NEXT_ID: usize = 0;

/// The number of the word with the next ticket, modulo 2^64.
pub(crate) const NEXT_TICKET: usize = 1;

/// The number of the word with the ticket that is served, modulo 2^64.
pub(crate) const SERVING: usize = 2;

/// The number of the word with the length of the history, in entries.
pub(crate) const LENGTH: usize = 3;

/// The number of the slot in which the value lies.
pub(crate) const SLOT: usize = 0;

/// The shared part of the table: all threads have a reference to it.
pub(crate) type Board<V> = Shared<Option<V>, View<<V as Grows>::Entry>, Start<V>, DeskRule>;

/// What a thread takes steps with.
pub(crate) type Token<V> = Seat<Option<V>, View<<V as Grows>::Entry>>;
