//! Unordered current databases whose keys and values are of any length.

ghost use Rattle.std.specs.Prelude.{◌≡◌, IfErr};
ghost use Rattle.qm_current.specs.Opening.{IsUnopened, Opens, lies};

use crate::any::unordered::variable::Update;
use crate::current::VariableConfig;
use qm_any::db::LaidOut;
use qm_base::{Digest, Hasher, Key, Location, VariableValue};
use qm_bits::Chunks;
use qm_chunks::Graftable;
use qm_index::unordered::Index;
use qm_index::{Factory, Translator, Unordered};
use qm_merkle::Family;
use qm_operations::VariableEncoding;
use qm_store::{Refusal, Store};
use std::alloc::Global;

/// The database, over chunks of activity bits of this length.
pub type Db<F, C, K, V, H, T, N> = super::db::Db<
    F,
    C,
    K,
    VariableEncoding<V>,
    Index<T, Location<F>>,
    H,
    N,
>;

// The any database inside.
type AnyDb<F, C, K, V, H, T, N> = qm_any::db::Db<F, C, Index<T, Location<F>>, H, Update<K, V>, N>;

/// Opens the longest list of at most `max_size` operations that ends with a commit the store still has, as `qm_current::init` does: an
/// empty store becomes a fresh database.
pub fn init<
    F: Graftable,
    C: Store + Drop,
    K: Key,
    V: VariableValue,
    H: Hasher + Drop,
    T: Translator,
    N: Chunks,
>(
    alloc: Global,
    store: C,
    hasher: H,
    config: VariableConfig<T, ()>,
    max_size: Option<u64>,
) -> Result<Db<F, C, K, V, H, T, N>, Refusal<Db<F, C, K, V, H, T, N>, C>>
    ensures keys { ⟦<AnyDb<F, C, K, V, H, T, N> as LaidOut>⟧.layout.index_key ≡ T.index_key }
    ensures opens { Opens C.Store ⟦<AnyDb<F, C, K, V, H, T, N> as LaidOut>⟧.layout H.Digest.SIZE config.metadata.now max_size config.instance store result }
    ensures causes { IfErr result (λ r. IsUnopened
        (lies ⟦<AnyDb<F, C, K, V, H, T, N> as LaidOut>⟧.layout.hashing.form F.shape H.Digest.SIZE N.LEN config.metadata.now) N.LEN max_size (C.start store)
        (C.end store) r.error) }
{
    qm_current::init(alloc, store, hasher, config, max_size)
}
