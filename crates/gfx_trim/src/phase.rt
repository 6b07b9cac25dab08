//! Phases of a cut.

/// How far a cut is.
#[derive(Clone, Copy, Debug, PartialEq, Eq)]
pub enum Phase {
    /// The range does not begin yet.
    Before,
    /// It begins here, and its blocks are kept until one of them has an effect.
    Waiting,
    /// It has an effect, and each of its blocks is taken as it comes.
    Writing,
}
