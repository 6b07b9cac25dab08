// What is before and behind each line of a recording.

/// Is told of each line of a script, before it is put and after it was answered. Threads call it side by side, and it may hold them.
pub trait Gate {
    /// This thread is about to put the line of this number, from 1 on.
    fn before(&self, thread: u32, line: u64);

    /// The line was answered.
    fn after(&self, thread: u32, line: u64);
}

/// A gate that lets each line pass.
#[derive(Clone, Copy, Debug)]
pub struct NoGate;

impl Gate for NoGate {
    fn before(&self, _: u32, _: u64) {}

    fn after(&self, _: u32, _: u64) {}
}
