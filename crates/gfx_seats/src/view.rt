use crate::hand::Hand;
use crate::note::Note;
use std::collections::LinkedList;

/// What one token knows. No value of it is made: proofs alone speak of it.
pub struct View<E> {
    pub hand: Hand<E>,
    /// Further threads: those whose seats are still to be made, and those whose seats were given back.
    pub others: LinkedList<Hand<E>>,
    pub notes: LinkedList<Note<E>>,
}
