//! How the list that a store keeps is opened.

ghost use Rattle.std.specs.Prelude.{◌≡◌, ◌==◌, ◌⊎◌, ◌≤◌, ◌<◌, ◌*◌, ◌^◌, suc, nat_lt, true, false, List, IfSome, IfOk, IfErr, IsErrOf, OnOk, length, map};
ghost use Rattle.std.specs.Option.{option_map_or};
ghost use Rattle.qm_model.specs.Causes.{IsCause};
ghost use Rattle.qm_model.specs.Grafted as grafts;
ghost use Rattle.qm_model.specs.Opening.{opened_list};
ghost use Rattle.qm_model.specs.Operations.{Operation};
ghost use Rattle.qm_model.specs.Own.{Log, taken_up};
ghost use Rattle.qm_model.specs.Policies.{Policy};
ghost use Rattle.qm_model.specs.Schemes.{engine_of};
ghost use Rattle.qm_model.specs.StoreModel.{end_of};
ghost use Rattle.qm_model.specs.Taken.{selected_size};
ghost use Rattle.qm_model.specs.Trees as trees;
ghost use Rattle.qm_model.specs.Walk.{Rules};
ghost use Rattle.qm_offer.specs.Crashing.{IsSafe};
ghost use Rattle.qm_store.specs.Given.{store_after, store_given};
ghost use Rattle.qm_store.specs.Log.{IsKept};
ghost use Rattle.qm_store.specs.Refusals.{IsDue};
ghost use Rattle.qm_graft.specs.Grafting.{grafting};
ghost use Rattle.qm_roots.specs.Canonical.{IsCanonical, MayGo};
ghost use Rattle.qm_any.specs.Applying as applying;
ghost use Rattle.qm_any.specs.Databases as anys;
ghost use Rattle.qm_current.specs.Applying.{store_in};
ghost use Rattle.qm_current.specs.Offered.{scheme_of};
ghost use Rattle.qm_current.specs.Opening.{Counts, Opens, IsUncounted, IsUnfit, IsUnopened, is_early, lies, refusal_up_to};

use crate::config::Config;
use crate::db::Db;
use qm_any::db::LaidOut;
use qm_any::{db as any, init_with};
use qm_base::{Corrupt, Digest, Error, Hasher, JournalError, Location, MerkleError};
use qm_bits::Chunks;
use qm_chunks::Graftable;
use qm_graft::grafted::height;
use qm_index::Factory;
use qm_merkle::Family;
use qm_operations::Update;
use qm_pinned::Pinned;
use qm_roots::Canonical;
use qm_roots::canonical::Found;
use qm_store::{Given, Refusal, Store};
use std::alloc::Global;

/// Opens the longest list of at most `max_size` operations that ends with a commit the store still has, as `init` of `qm_any` does,
/// with as many chunks of its activity bits pruned as the store's metadata of the name in `config` counts. An empty store without
/// such metadata becomes a fresh database. Anything after that list is cut off, and what remains is made stable.
///
/// Metadata is read first, then what `init` of `qm_any` reads; then the grafted tree is made over the bits that are kept, and the
/// canonical root. A refusal gives back the store, as it was, unless memory or the store failed after all checks held: then it may
/// have lost what it had after the list, or got a first part of the fresh one, or be as after an opening.
pub fn init<
    F: Graftable,
    C: Store + Drop,
    I: Factory<Value = Location<F>> + Drop,
    H: Hasher + Drop,
    U: Update,
    N: Chunks,
>(
    alloc: Global,
    store: C,
    hasher: H,
    config: Config<I::Translator, ()>,
    max_size: Option<u64>,
) -> Result<Db<F, C, I, H, U, N>, Refusal<Db<F, C, I, H, U, N>, C>>
    ensures keys { ⟦<any::Db<F, C, I, H, U, N> as LaidOut>⟧.layout.index_key
        ≡ I.made_from I.Translator.index_key }
    ensures opens { Opens C.Store ⟦<any::Db<F, C, I, H, U, N> as LaidOut>⟧.layout H.Digest.SIZE
        config.metadata.now max_size config.instance store result }
    ensures causes { IfErr result (λ r. IsUnopened
        (lies U.form F.shape H.Digest.SIZE N.LEN config.metadata.now) N.LEN max_size (C.start store)
        (C.end store) r.error) }
    ensures crashes { (rules : Rules Policy) (log : Log)
        → let m = scheme_of H.Digest.SIZE ⟦<any::Db<F, C, I, H, U, N> as LaidOut>⟧.layout
        config.metadata.now in
        IfSome (C.told store) (λ s. IsSafe C.Store (engine_of m rules) log
        (taken_up (opened_list (selected_size m max_size s) log.list) log) store
        (store_after store_in result)) }
{
    // What is stable of it are items that it has.
    store.bounds();
    let mut store = store;
    match counted::<F, C, H::Digest, U, N>(alloc, &mut store, config.metadata, max_size) {
        Ok(pinned) => open_counted(alloc, store, hasher, config, max_size, pinned),
        Err(error) => Err(Refusal {
            given: Given::Store(store),
            error,
        }),
    }
}

// What metadata of this name counts of a store that is opened up to a bound. A bound of 0 is refused before anything is read.
fn counted<F: Family, C: Store, D: Digest, U: Update, N: Chunks>(
    alloc: Global,
    store: &mut C,
    name: &str,
    max_size: Option<u64>,
) -> Result<Pinned<D>, Error>
    ensures within { IfOk result (λ p. p.chunks * 2 ^ grafting N.LEN ≤ 2 ^ 62) }
    ensures whole { IfOk result (λ p.
        length p.pins.items ≡ length (trees.peaks F.shape p.chunks)) }
    ensures counts { IfSome (C.told store.old) (λ s. IfOk result (λ p.
        Counts (lies U.form F.shape D.SIZE N.LEN name.now) name.now s p.chunks
        (map D.bytes p.pins.items))) }
    ensures refused { IfSome (C.told store.old) (λ s. IfErr result (λ e. IsDue e
        (refusal_up_to (lies U.form F.shape D.SIZE N.LEN name.now) max_size s))) }
    ensures causes { IfErr result
        (IsUncounted (lies U.form F.shape D.SIZE N.LEN name.now) max_size) }
    ensures kept { IsKept C.Store store.old store.new }
    ensures cause { IsCause (C.faults store.old) (C.faults store.new)
        (IsErrOf result (Error.Journal JournalError.Store)) }
{
    if is_zero(max_size) {
        return Err(Error::InvalidInitializationBound);
    }
    let entries = store.meta(name)?;
    qm_pinned::read::<F, D>(alloc, height::<N>(), &entries)
}

// Whether the bound is 0.
fn is_zero(bound: Option<u64>) -> bool
    ensures { result ≡ option_map_or (λ n. n == 0) bound false }
{
    match bound {
        Some(bound) => bound == 0,
        None => false,
    }
}

// The database of a store whose metadata counts these pruned chunks.
fn open_counted<
    F: Graftable,
    C: Store + Drop,
    I: Factory<Value = Location<F>> + Drop,
    H: Hasher + Drop,
    U: Update,
    N: Chunks,
>(
    alloc: Global,
    store: C,
    hasher: H,
    config: Config<I::Translator, ()>,
    max_size: Option<u64>,
    pinned: Pinned<H::Digest>,
) -> Result<Db<F, C, I, H, U, N>, Refusal<Db<F, C, I, H, U, N>, C>>
    requires stable { IfSome (C.told store) (λ s. s.stable ≤ end_of s) }
    requires within { pinned.chunks * 2 ^ grafting N.LEN ≤ 2 ^ 62 }
    requires whole { length pinned.pins.items ≡ length (trees.peaks F.shape pinned.chunks) }
    requires counts { IfSome (C.told store) (λ s.
        Counts (lies U.form F.shape H.Digest.SIZE N.LEN config.metadata.now) config.metadata.now s
        pinned.chunks (map H.Digest.bytes pinned.pins.items)) }
    ensures keys { ⟦<any::Db<F, C, I, H, U, N> as LaidOut>⟧.layout.index_key
        ≡ I.made_from I.Translator.index_key }
    ensures opens { Opens C.Store ⟦<any::Db<F, C, I, H, U, N> as LaidOut>⟧.layout H.Digest.SIZE
        config.metadata.now max_size config.instance store result }
    ensures causes { IfErr result (λ r. IsUnopened
        (lies U.form F.shape H.Digest.SIZE N.LEN config.metadata.now) N.LEN max_size (C.start store)
        (C.end store) r.error) }
{
    let pruned = pinned.pruned::<F>(height::<N>());
    let (name, instance) = (config.metadata, config.instance);
    match init_with(alloc, store, hasher, config.into(), max_size, Some(pruned)) {
        Ok(any) => joined(alloc, any, pinned.pins, pruned.1, name, instance),
        Err(Refusal { given, error }) => Err(Refusal {
            given: Given::Store(store_back(given)),
            error,
        }),
    }
}

// The store that an opening gives back.
fn store_back<
    F: Graftable,
    C: Store,
    I: qm_index::Unordered<Value = Location<F>> + Drop,
    H: Hasher + Drop,
    U: Update,
    N: Chunks,
>(given: Given<any::Db<F, C, I, H, U, N>, C>) -> C
    ensures { result ≡ store_given applying.store_in given }
{
    match given {
        Given::Database(any) => any.close(),
        Given::Store(store) => store,
    }
}

// The database over an any one that was opened, from the digests of the grafted tree's peaks over its pruned chunks, which wait for a
// list of this size, if they wait for one. If it is refused its store is given back.
fn joined<
    F: Graftable,
    C: Store,
    I: qm_index::Unordered<Value = Location<F>> + Drop,
    H: Hasher + Drop,
    U: Update,
    N: Chunks,
>(
    alloc: Global,
    any: any::Db<F, C, I, H, U, N>,
    pins: Vec<H::Digest>,
    threshold: Option<u64>,
    name: &'static str,
    instance: u64,
) -> Result<Db<F, C, I, H, U, N>, Refusal<Db<F, C, I, H, U, N>, C>>
    requires whole { length pins.items
        ≡ length (trees.peaks F.shape any.activity.pruned) }
    requires threshold { threshold
        ≡ grafts.pair_absorption_threshold F.shape (grafting N.LEN) any.activity.pruned }
    ensures made { IfOk result (λ db.
        (db.any ≡ any) × (db.instance ≡ instance) × (db.name ≡ name.now)) }
    ensures canonical { (list : List Operation)
        → anys.IsDatabase C.Store ⟦<any::Db<F, C, I, H, U, N> as LaidOut>⟧.layout any list
        → map H.Digest.bytes pins.items
        ≡ grafts.grafted_pins H.hash F.shape (grafting N.LEN) U.form list any.activity.pruned
        → IfOk result (λ db.
        IsCanonical H.Digest.bytes H.hash F.shape N.LEN U.form db.canonical list) }
    ensures refused { IfErr result (λ r. (r.given ≡ Given.Store any.log.store)
        × ((r.error ≡ Error.Memory) ⊎ IsUnfit r.error N.LEN threshold (C.start any.log.store)
        (C.end any.log.store) any.activity.pruned)) }
{
    match fits(&any, threshold) {
        Ok(()) => {
            let mut any = any;
            match grafted(alloc, &mut any, pins) {
                Ok(canonical) => Ok(Db {
                    any,
                    canonical,
                    instance,
                    name,
                }),
                Err(_) => Err(Refusal {
                    given: Given::Store(any.close()),
                    error: Error::Memory,
                }),
            }
        }
        Err(error) => Err(Refusal {
            given: Given::Store(any.close()),
            error,
        }),
    }
}

// Whether a grafted tree can be made over a database that was opened: its store starts in the chunk after the pruned ones or before, and
// its list is as long as these wait for. The opening looked at both, so no store that tells its items is refused here; but what the
// opening says of both it says of these stores alone.
fn fits<
    F: Graftable,
    C: Store,
    I: qm_index::Unordered<Value = Location<F>>,
    H: Hasher,
    U: Update,
    N: Chunks,
>(any: &any::Db<F, C, I, H, U, N>, threshold: Option<u64>) -> Result<(), Error>
    requires threshold { threshold
        ≡ grafts.pair_absorption_threshold F.shape (grafting N.LEN) any.now.activity.pruned }
    ensures over { OnOk result
        (any.now.log.tree.start < suc any.now.activity.pruned * (8 * N.LEN)) }
    ensures may_go { OnOk result
        (MayGo F.shape (grafting N.LEN) any.now.activity.pruned any.now.commitment.size) }
    ensures refused { IfErr result (λ e. IsUnfit e N.LEN threshold
        (C.start any.now.log.store) (C.end any.now.log.store) any.now.activity.pruned) }
{
    let (start, size) = any.bounds();
    let pruned = any.bitmap().pruned_chunks() as u64;
    if pruned < start.get() >> height::<N>() {
        return Err(Error::DataCorrupted(Corrupt::PrunedPastBits));
    }
    if is_short(threshold, size.get()) {
        return Err(Error::HistoricalFloorPruned(size.get()));
    }
    Ok(())
}

// Whether a list of this size is below a threshold.
fn is_short(threshold: Option<u64>, size: u64) -> bool
    ensures { result ≡ is_early threshold size }
{
    match threshold {
        Some(least) => size < least,
        None => false,
    }
}

// The grafted tree of a database's list, and its canonical root. Want of memory is the only error.
fn grafted<
    F: Graftable,
    C: Store,
    I: qm_index::Unordered<Value = Location<F>>,
    H: Hasher,
    U: Update,
    N: Chunks,
>(
    alloc: Global,
    any: &mut any::Db<F, C, I, H, U, N>,
    pins: Vec<H::Digest>,
) -> Result<Canonical<F, N, H::Digest>, MerkleError>
    requires over { any.old.log.tree.start < suc any.old.activity.pruned * (8 * N.LEN) }
    requires may_go { MayGo F.shape (grafting N.LEN) any.old.activity.pruned
        any.old.commitment.size }
    requires whole { length pins.items
        ≡ length (trees.peaks F.shape any.old.activity.pruned) }
    ensures numbers { IfOk result (λ c. (c.tree.start ≡ any.old.activity.pruned)
        × (c.size ≡ any.old.commitment.size)) }
    ensures canonical { (list : List Operation)
        → anys.IsDatabase C.Store ⟦<any::Db<F, C, I, H, U, N> as LaidOut>⟧.layout any.old list
        → map H.Digest.bytes pins.items
        ≡ grafts.grafted_pins H.hash F.shape (grafting N.LEN) U.form list any.old.activity.pruned
        → IfOk result (λ c. IsCanonical H.Digest.bytes H.hash F.shape N.LEN U.form c list) }
    ensures same { any.new ≡ any.old }
{
    // their clauses say that there are as many bits as leaves, and what the tree stands for
    any.bounds();
    any.tree();
    let root = any.root();
    let floor = any.inactivity_floor_loc();
    let (hasher, operations, bits) = any.split();
    let found = Found {
        ops_root: &root,
        operations,
        bits,
        floor,
    };
    Canonical::open(alloc, hasher, &found, pins)
}
