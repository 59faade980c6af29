//! How a list is opened.

use std::num::NonZeroUsize;

/// How a list is opened.
#[derive(Drop)]
pub struct Config<T, W> {
    /// Makes the index keys.
    pub translator: T,
    /// How many keys a rebuild keeps at most, to tell those with the same index key apart.
    pub init_cache: NonZeroUsize,
    /// With how many workers the index is rebuilt; the plain ones take `()`, for one.
    pub init_concurrency: W,
}
