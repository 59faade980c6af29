//! How the list that a store keeps is opened.

ghost use Rattle.std.specs.Prelude.{option_map, ◌≡◌, ◌⊎◌, ◌<◌, ◌≤◌, ◌-◌, ◌*◌, ◌^◌, min, List, None, Some, IfSome, IfOk, IfErr};
ghost use Rattle.qm_model.specs.Causes.{IsCause};
ghost use Rattle.qm_model.specs.Grafted.{pair_absorption_threshold};
ghost use Rattle.qm_model.specs.Live as lives;
ghost use Rattle.qm_model.specs.Opening.{opened_list};
ghost use Rattle.qm_model.specs.Operations.{Operation};
ghost use Rattle.qm_model.specs.Own.{Log, taken_up};
ghost use Rattle.qm_model.specs.Policies.{Policy};
ghost use Rattle.qm_model.specs.Schemes.{engine_of};
ghost use Rattle.qm_model.specs.Step.{IsGood};
ghost use Rattle.qm_model.specs.StoreModel.{end_of, rewound, ReadsAs, RewindLeaves, Becomes, Leaves};
ghost use Rattle.qm_bits.specs.Bitmaps.{bit_count};
ghost use Rattle.qm_step.specs.Kinds.{HasRing};
ghost use Rattle.qm_model.specs.Taken.{selected_size};
ghost use Rattle.qm_model.specs.Walk.{Rules};
ghost use Rattle.qm_store.specs.Given.{store_after, store_given};
ghost use Rattle.qm_offer.specs.Crashing.{IsSafe};
ghost use Rattle.qm_open.specs.Opened.{IsOpened};
ghost use Rattle.qm_open.specs.Selecting.{bits_of, floor_told, selected_view};
ghost use Rattle.qm_open.specs.Unopened.{IsUnfinished, IsUnopened};
ghost use Rattle.qm_any.specs.Applying.{store_in};
ghost use Rattle.qm_any.specs.Offered.{scheme_of};
ghost use Rattle.qm_any.specs.Opening.{height_of, pruned_view, OpensAt, OpensUpTo};

use crate::db::{Db, LaidOut};
use crate::fresh::begin;
use qm_base::{Commitment, Digest, Error, Hasher, JournalError, Location};
use qm_bits::Chunks;
use qm_index::Factory;
use qm_merkle::Family;
use qm_open::{Config, Opened, Pruned, Selected, open_checked, select_commit, store_of};
use qm_operations::Update;
use qm_store::{Given, Refusal, Store};
use std::alloc::{AllocError, Global};
use std::rc::Rc;

// The metadata, to be shared with batches.
fn shared<V: Drop>(alloc: Global, metadata: Option<V>) -> Result<Option<Rc<V>>, AllocError>
    ensures { IfOk result (λ m. option_map (λ r. r.value) m ≡ metadata) }
{
    match metadata {
        Some(metadata) => Ok(Some(Rc::new(alloc, metadata)?)),
        None => Ok(None),
    }
}

// The database of what was opened. What its store has after its list goes.
fn settled<
    F: Family,
    C: Store,
    I: qm_index::Unordered<Value = Location<F>> + Drop,
    H: Hasher + Drop,
    U: Update,
    N: Chunks,
>(
    alloc: Global,
    opened: Opened<N, F, C, I, H, U>,
    selected: Selected,
) -> Result<Db<F, C, I, H, U, N>, Refusal<Db<F, C, I, H, U, N>, C>>
    requires start { C.start opened.log.store ≤ selected.floor }
    requires size { opened.log.tree.leaves ≡ selected.size }
    requires bits { bit_count N.LEN opened.activity ≡ selected.size }
    requires live { opened.live ≤ selected.size }
    requires stable { IfSome (C.told opened.log.store) (λ s. s.stable ≤ end_of s) }
    ensures stands { (list : List Operation)
        → IsOpened C.Store F.shape H.Digest.bytes H.hash U.form I.index_key N.LEN opened.log
        (I.entries opened.index) opened.live opened.activity (H.Digest.bytes opened.root)
        (option_map U.Value.bytes opened.metadata) list → IsGood list → HasRing U.form list
        → selected.floor ≡ lives.floor list
        → IfSome (C.told opened.log.store) (λ _.
        IfOk result (λ db. ⟦<Db<F, C, I, H, U, N> as LaidOut>⟧.stands db list)) }
    ensures became { IfOk result (λ db.
        Becomes (C.told opened.log.store) (C.told db.log.store) (rewound selected.size)) }
    ensures left { IfErr result (λ r.
        Leaves (C.told opened.log.store) (C.told (store_given (λ db. db.log.store) r.given))
        (λ s. ReadsAs (min s.stable selected.size) (RewindLeaves selected.size s))) }
    ensures activity { IfOk result (λ db. db.activity ≡ opened.activity) }
    ensures start { IfOk result (λ db. C.start db.log.store ≡ C.start opened.log.store) }
    ensures later { IfOk result (λ db. C.faults opened.log.store ≤ C.faults db.log.store) }
    ensures back { IfErr result (λ r.
        (s : C) × (r.given ≡ Given.Store s) × (C.start s ≡ C.start opened.log.store)
        × IsCause (C.faults opened.log.store) (C.faults s)
        (r.error ≡ Error.Journal JournalError.Store)) }
    ensures never { IfErr result (λ r.
        (r.error ≡ Error.Memory) ⊎ (r.error ≡ Error.Journal JournalError.Store)) }
{
    let Opened {
        log,
        index,
        live,
        activity,
        root,
        metadata,
    } = opened;
    let Ok(metadata) = shared(alloc, metadata) else {
        return Err(Refusal {
            given: Given::Store(log.close()),
            error: Error::Memory,
        });
    };
    let commitment = Commitment {
        size: selected.size,
        root,
    };
    let floor = Location::new(selected.floor);
    match log.settle() {
        Ok(log) => Ok(Db::of_parts(index, activity, log, commitment, floor, live, metadata)),
        Err(refusal) => Err(Refusal {
            given: Given::Store(store_of(refusal.given)),
            error: refusal.error,
        }),
    }
}

// The database of the list that ends with the selected commit, of whose bits the first `chunks` chunks are pruned.
fn open_list<
    F: Family,
    C: Store + Drop,
    I: Factory<Value = Location<F>> + Drop,
    H: Hasher + Drop,
    U: Update,
    N: Chunks,
>(
    alloc: Global,
    store: C,
    hasher: H,
    config: Config<I::Translator, ()>,
    selected: Selected,
    chunks: usize,
) -> Result<Db<F, C, I, H, U, N>, Refusal<Db<F, C, I, H, U, N>, C>>
    requires start { C.start store ≤ selected.floor }
    requires pruned { chunks * (8 * N.LEN) ≤ selected.floor }
    requires floor { selected.floor < selected.size }
    requires end { selected.size ≤ C.end store }
    requires stable { IfSome (C.told store) (λ s. s.stable ≤ end_of s) }
    requires told { IfSome (C.told store) (λ s.
        floor_told U.form s (selected.size - 1) ≡ Some selected.floor) }
    ensures opens { OpensAt C.Store ⟦<Db<F, C, I, H, U, N> as LaidOut>⟧.layout H.Digest.SIZE
        (Some (selected_view selected)) chunks store result }
    ensures causes { IfErr result (λ r. IsUnfinished U.form (Some (selected_view selected)) r.error) }
{
    let opened = open_checked(alloc, store, hasher, config, selected, chunks)?;
    settled(alloc, opened, selected)?.commit()
}

// The height of the nodes over a chunk: it has a bit for each of 2^height locations.
fn chunk_height<N: Chunks>() -> u32
    ensures { result ≡ height_of N.LEN }
{
    N::span().ilog2()
}

// The pruned chunks of activity bits, as an opening looks at them.
fn pruned_bits<N: Chunks>(pruned: Option<(u64, Option<u64>)>) -> Option<Pruned>
    ensures { result ≡ option_map (pruned_view N.LEN) pruned }
{
    match pruned {
        Some((chunks, threshold)) => Some(Pruned {
            chunks,
            height: chunk_height::<N>(),
            threshold,
        }),
        None => None,
    }
}

// How many pruned chunks the bits of a list with this floor begin with: the number that is told, or else all below the floor.
fn chunks_below<N: Chunks>(floor: u64, pruned: Option<(u64, Option<u64>)>) -> usize
    requires { bits_of (option_map (pruned_view N.LEN) pruned) ≤ floor }
    ensures below { result * (8 * N.LEN) ≤ floor }
    ensures told { IfSome pruned (λ p. result ≡ p.0) }
{
    match pruned {
        Some((chunks, _)) => chunks as usize,
        None => (floor / N::span()) as usize,
    }
}

/// Opens the longest list of at most `max_size` operations that ends with a commit the store still has. An empty store becomes
/// a fresh database, with a commit of its own. Anything after that list is cut off, and what remains is made stable.
///
/// It reads the items after the selected commit and that one, then each item from the store's start on, and each from the list's
/// floor on once more; of an ordered list a third time, for its links. At most `init_cache` keys are kept to tell those with the
/// same index key apart; for the links each live key is kept, with the one that it names. A refusal gives back the store, as it
/// was, unless memory or the store failed after all checks held: then it may have lost what it had after the list, or got a
/// first part of the fresh one.
pub fn init<
    F: Family,
    C: Store + Drop,
    I: Factory<Value = Location<F>> + Drop,
    H: Hasher + Drop,
    U: Update,
    N: Chunks,
>(
    alloc: Global,
    store: C,
    hasher: H,
    config: Config<I::Translator, ()>,
    max_size: Option<u64>,
) -> Result<Db<F, C, I, H, U, N>, Refusal<Db<F, C, I, H, U, N>, C>>
    ensures keys { ⟦<Db<F, C, I, H, U, N> as LaidOut>⟧.layout.index_key
        ≡ I.made_from I.Translator.index_key }
    ensures opens { OpensUpTo C.Store ⟦<Db<F, C, I, H, U, N> as LaidOut>⟧.layout H.Digest.SIZE None
        max_size store result }
    ensures causes { IfErr result (λ r.
        IsUnopened U.form None max_size (C.start store) (C.end store) r.error) }
    ensures crashes { (rules : Rules Policy) (log : Log)
        → let m = scheme_of H.Digest.SIZE ⟦<Db<F, C, I, H, U, N> as LaidOut>⟧.layout.hashing in
        IfSome (C.told store) (λ s. IsSafe C.Store (engine_of m rules) log
        (taken_up (opened_list (selected_size m max_size s) log.list) log) store
        (store_after store_in result)) }
{
    init_with(alloc, store, hasher, config, max_size, None)
}

/// Opens the list that a store keeps as `init` does, for a database of which chunks of activity bits may be pruned. `pruned` is
/// the number of pruned chunks and, if the family delays merges, the list size from which that many may be pruned, if that is
/// more than their own. With it the checks of a current database are made that come after its metadata, and the bits begin with
/// that many pruned chunks. Without it the checks are those of a database that has no chunks, and the chunks below the floor are
/// pruned.
pub fn init_with<
    F: Family,
    C: Store + Drop,
    I: Factory<Value = Location<F>> + Drop,
    H: Hasher + Drop,
    U: Update,
    N: Chunks,
>(
    alloc: Global,
    store: C,
    hasher: H,
    config: Config<I::Translator, ()>,
    max_size: Option<u64>,
    pruned: Option<(u64, Option<u64>)>,
) -> Result<Db<F, C, I, H, U, N>, Refusal<Db<F, C, I, H, U, N>, C>>
    requires few { IfSome pruned (λ p. p.0 * (8 * N.LEN) ≤ 2 ^ 62) }
    requires threshold { IfSome pruned (λ p.
        p.1 ≡ pair_absorption_threshold F.shape (height_of N.LEN) p.0) }
    ensures keys { ⟦<Db<F, C, I, H, U, N> as LaidOut>⟧.layout.index_key
        ≡ I.made_from I.Translator.index_key }
    ensures opens { OpensUpTo C.Store ⟦<Db<F, C, I, H, U, N> as LaidOut>⟧.layout H.Digest.SIZE
        (option_map (pruned_view N.LEN) pruned) max_size store result }
    ensures causes { IfErr result (λ r. IsUnopened U.form (option_map (pruned_view N.LEN) pruned)
        max_size (C.start store) (C.end store) r.error) }
{
    // What is stable of it are items that it has.
    store.bounds();
    let mut store = store;
    match select_commit::<F, C, U>(alloc, &mut store, max_size, pruned_bits::<N>(pruned)) {
        Ok(Some(selected)) => {
            let chunks = chunks_below::<N>(selected.floor, pruned);
            open_list(alloc, store, hasher, config, selected, chunks)
        }
        Ok(None) => begin(alloc, store, hasher, config.translator),
        Err(error) => Err(Refusal {
            given: Given::Store(store),
            error,
        }),
    }
}
