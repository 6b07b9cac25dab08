use crate::stage::Stage;
use std::collections::LinkedList;

/// What one thread did and saw. No value of it is made: proofs alone speak of it.
pub struct Hand<E> {
    pub stage: Stage,
    /// The kind of the value.
    pub kind: u64,
    pub thread: u64,
    /// The history as far as it has seen it.
    pub seen: LinkedList<E>,
    /// A length that the history has at least.
    pub known: u64,
    /// The entries that it made, in order.
    pub mine: LinkedList<E>,
    /// The ids that it drew, in order.
    pub drawn: LinkedList<u64>,
}
