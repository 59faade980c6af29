//! What a batch is to make of keys: writes, and slots of keys that were read.

use qm_base::{Location, Slot, Write};
use qm_operations::Update;

/// A key that was read, and what the batch's base list has of it: its live update with its location, or none if it is
/// not live there. It says so of that list alone, whatever list a database has meanwhile.
#[derive(Drop)]
pub struct Read<F, U: Update> {
    pub key: U::Key,
    pub found: Option<(Location<F>, U)>,
}

/// What a batch is to make of its base list: recorded writes, then a slot for each key that was read, then other writes. The
/// last of a key counts.
#[derive(Drop)]
pub struct Wanted<'a, F, U: Update> {
    /// The recorded writes.
    pub writes: &'a [Write<U::Key, U::Value>],
    /// The keys that were read.
    pub reads: &'a [Read<F, U>],
    /// What is to become of these, one slot for each.
    pub slots: &'a [Slot<U::Value>],
    /// The other writes.
    pub others: &'a [Write<U::Key, U::Value>],
}
