//! Ids that are given out in order.

/// Ids that are left for the fields of a call: those that it names, and those that it makes.
#[derive(Clone, Copy)]
pub(crate) struct Supply<'i> {
    pub named: &'i [u64],
    pub made: &'i [u64],
}
