//! Slots: what is to become of keys that were read through a batch.

use crate::write::Write;

/// What is to become of a key that was read through a batch.
#[derive(Drop)]
pub enum Slot<V> {
    /// It stays as it is.
    Keep,
    /// It gets this value.
    Put(V),
    /// It goes.
    Delete,
}

/// What is to become of staged keys, a slot for each in their order, and other writes after these.
#[derive(Drop)]
pub struct Resolution<K, V> {
    pub slots: Vec<Slot<V>>,
    pub others: Vec<Write<K, V>>,
}
