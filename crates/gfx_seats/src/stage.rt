/// Where a thread is with its turn. No value of it is made: proofs alone speak of it.
pub enum Stage {
    /// There is no thread.
    Absent,
    Idle,
    /// It took this ticket. Tickets are counted without end.
    Waits(u64),
    HasTurn,
}
