use std::collections::LinkedList;

/// What another thread had seen when the note was made. No value of it is made: proofs alone speak of it.
pub struct Note<E> {
    pub kind: u64,
    pub seen: LinkedList<E>,
    pub known: u64,
}
