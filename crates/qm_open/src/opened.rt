//! What an opening makes of a store: a log that ends where the selected list does, and what that list has beside it.

ghost use Rattle.std.specs.Prelude.{option_map, ◌≡◌, ◌<◌, ◌≤◌, ◌*◌, List, is_none, false, IfSome, IfOk, IfErr, OnOk};
ghost use Rattle.std.specs.List.{list_any};
ghost use Rattle.qm_model.specs.Live as lives;
ghost use Rattle.qm_model.specs.Operations.{Operation};
ghost use Rattle.qm_model.specs.Schemes.{any_scheme};
ghost use Rattle.qm_model.specs.Taken.{HasList};
ghost use Rattle.qm_build.specs.Reads.{items_within};
ghost use Rattle.qm_open.specs.Opened.{HasLongHead, IsMadeOf, IsOpened, IsUnread};

use crate::config::Config;
use crate::fresh::store_of;
use crate::parts::{Held, rebuilt};
use crate::select::Selected;
use qm_base::{Digest, Hasher, Location};
use qm_bits::{Chunks, Prunable};
use qm_index::Factory;
use qm_merkle::Family;
use qm_operations::Update;
use qm_store::{AuthLog, Given, Refusal, Store};
use std::alloc::Global;

/// A log, and what its list has beside it: where its keys are live, how many these are, which locations are active, its
/// root, and its last metadata.
#[derive(Drop)]
pub struct Opened<N: Chunks, F: Family, C: Store, I, H: Hasher, U: Update> {
    pub log: AuthLog<F, C, H>,
    pub index: I,
    pub live: u64,
    pub activity: Prunable<N>,
    pub root: H::Digest,
    pub metadata: Option<U::Value>,
}

/// The log of a store that ends with the selected commit, whatever the store has after it, and what its list has beside it.
/// Its activity bits begin with `chunks` pruned chunks, which lie below the floor. It reads each item from the store's start on
/// once, for its leaf, and each from the floor on once more. A refusal gives back the store, which was not changed.
pub(crate) fn open_at<
    N: Chunks,
    F: Family,
    C: Store,
    I: Factory<Value = Location<F>> + Drop,
    H: Hasher + Drop,
    U: Update,
    X: Drop,
>(
    alloc: Global,
    store: C,
    hasher: H,
    config: Config<I::Translator, ()>,
    selected: Selected,
    chunks: usize,
) -> Result<Opened<N, F, C, I, H, U>, Refusal<X, C>>
    requires start { C.start store ≤ selected.floor }
    requires pruned { chunks * (8 * N.LEN) ≤ selected.floor }
    requires floor { selected.floor < selected.size }
    requires end { selected.size ≤ C.end store }
    ensures stands { IfSome (C.told store) (λ s. (list : List Operation)
        → HasList (any_scheme H.hash F.shape H.Digest.SIZE U.form) s selected.size list
        → selected.floor ≡ lives.floor list
        → IfOk result (λ o. IsOpened C.Store F.shape H.Digest.bytes H.hash U.form I.index_key N.LEN
        o.log (I.entries o.index) o.live o.activity (H.Digest.bytes o.root)
        (option_map U.Value.bytes o.metadata) list)) }
    ensures made { IfOk result (λ o.
        IsMadeOf C.Store N.LEN store selected.size chunks o.log o.live o.activity) }
    ensures read { IfSome (C.told store) (λ s. OnOk result
        (HasLongHead C.Store F.shape H.Digest.SIZE store s
        × (list_any is_none (items_within U.form s selected.floor selected.size) ≡ false))) }
    ensures refused { IfErr result (IsUnread C.Store F.shape H.Digest.SIZE U.form store selected) }
{
    let Config {
        translator,
        init_cache,
        init_concurrency: _,
    } = config;
    match AuthLog::open(alloc, store, hasher, selected.size) {
        Ok(log) => {
            let mut log = log;
            let mut index = I::new(alloc, translator);
            match rebuilt::<N, F, C, I, H, U>(
                alloc,
                &mut index,
                &mut log,
                chunks,
                selected.floor,
                init_cache,
            ) {
                Ok(
                    Held {
                        live,
                        activity,
                        root,
                        metadata,
                    },
                ) => Ok(Opened {
                    log,
                    index,
                    live,
                    activity,
                    root,
                    metadata,
                }),
                Err(error) => Err(Refusal {
                    given: Given::Store(log.close()),
                    error,
                }),
            }
        }
        Err(refusal) => Err(Refusal {
            given: Given::Store(store_of(refusal.given)),
            error: refusal.error,
        }),
    }
}
