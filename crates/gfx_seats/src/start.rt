use std::snapshot::Snapshot;

/// What a desk is made with.
#[derive(Drop)]
pub struct Start<V> {
    pub seats: u32,
    pub value: Snapshot<V>,
}
