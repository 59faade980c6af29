//! What a call that takes a database or a store by value gives back if it refuses.

use qm_base::Error;

/// What a call that takes the database by value gives back if it refuses: the database as it was, or its store,
/// which can be opened again.
#[derive(Drop)]
pub enum Given<X, C> {
    Database(X),
    Store(C),
}

/// A refusal of a call that takes the database or the store by value.
#[derive(Drop)]
pub struct Refusal<X, C> {
    pub given: Given<X, C>,
    pub error: Error,
}
