//! Operations and live updates as they are told to whoever asks for them.

/// An operation, listed: with keys and values of its own and no word of how it is spelled.
#[derive(Drop)]
pub enum Listed<K, V> {
    /// Key, value and, in an ordered database, the next key.
    Update(K, V, Option<K>),
    Delete(K),
    /// Metadata and floor.
    Commit(Option<V>, u64),
}

/// A live update of an ordered database, with where it stands.
#[derive(Drop)]
pub struct Span<K, V> {
    pub location: u64,
    pub key: K,
    pub value: V,
    pub next: K,
}
