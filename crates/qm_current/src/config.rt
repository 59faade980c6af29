//! How a current database is opened.

use std::num::NonZeroUsize;

/// How the list that a store keeps is opened as a current database.
#[derive(Drop)]
pub struct Config<T, W> {
    /// Makes the index keys.
    pub translator: T,
    /// How many keys a rebuild keeps at most, to tell those with the same index key apart.
    pub init_cache: NonZeroUsize,
    /// With how many workers the index is rebuilt; the plain ones take `()`, for one.
    pub init_concurrency: W,
    /// The name of the metadata that counts the pruned chunks.
    pub metadata: &'static str,
    /// The number of the instance: batches of another one are refused as stale when they are merkleized.
    pub instance: u64,
}

impl<T, W> From<Config<T, W>> for qm_any::Config<T, W> {
    ghost use Rattle.std.specs.Prelude.{◌≡◌};

    ghost from_gives = { λ given config. (config.translator ≡ given.translator) × (config.init_cache ≡ given.init_cache) };

    fn from(given: Config<T, W>) -> Self {
        qm_any::Config {
            translator: given.translator,
            init_cache: given.init_cache,
            init_concurrency: given.init_concurrency,
        }
    }
}
