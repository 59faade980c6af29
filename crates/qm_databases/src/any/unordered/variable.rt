//! Unordered any databases whose keys and values are of any length.

ghost use Rattle.std.specs.Prelude.{◌≡◌, None, IfErr};
ghost use Rattle.qm_any.specs.Opening.{OpensUpTo};
ghost use Rattle.qm_open.specs.Unopened.{IsUnopened};

use crate::any::{VariableConfig, unordered};
use qm_any::db::LaidOut;
use qm_base::{Digest, Hasher, Key, Location, VariableValue};
use qm_bits::Chunk64;
use qm_index::unordered::Index;
use qm_index::{Factory, Translator, Unordered};
use qm_merkle::Family;
use qm_operations::VariableEncoding;
use qm_store::{Refusal, Store};
use std::alloc::Global;

/// An update.
pub type Update<K, V> = unordered::Update<K, VariableEncoding<V>>;

/// An operation.
pub type Operation<F, K, V> = unordered::Operation<F, K, VariableEncoding<V>>;

/// The database.
pub type Db<F, C, K, V, H, T> = qm_any::db::Db<
    F,
    C,
    Index<T, Location<F>>,
    H,
    Update<K, V>,
    Chunk64,
>;

/// Opens the longest list of at most `max_size` operations that ends with a commit the store still has, as `qm_any::init` does: an
/// empty store becomes a fresh database.
pub fn init<F: Family, C: Store + Drop, K: Key, V: VariableValue, H: Hasher + Drop, T: Translator>(
    alloc: Global,
    store: C,
    hasher: H,
    config: VariableConfig<T, ()>,
    max_size: Option<u64>,
) -> Result<Db<F, C, K, V, H, T>, Refusal<Db<F, C, K, V, H, T>, C>>
    ensures keys { ⟦<Db<F, C, K, V, H, T> as LaidOut>⟧.layout.index_key ≡ T.index_key }
    ensures opens { OpensUpTo C.Store ⟦<Db<F, C, K, V, H, T> as LaidOut>⟧.layout H.Digest.SIZE None max_size store result }
    ensures causes { IfErr result (λ r. IsUnopened ⟦<Db<F, C, K, V, H, T> as LaidOut>⟧.layout.hashing.form None max_size
        (C.start store) (C.end store) r.error) }
{
    qm_any::init(alloc, store, hasher, config, max_size)
}
