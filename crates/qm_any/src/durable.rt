//! What makes a database outlive a crash, and what ends it: commits and syncs, metadata, pruning, and its end.

ghost use Rattle.std.specs.Prelude.{◌≡◌, ◌⊎◌, ◌≤◌, ◌<◌, ℕ, List, IfOk, IfErr, IfSome, OnOk};
ghost use Rattle.qm_model.specs.Live as lives;
ghost use Rattle.qm_model.specs.Operations.{Operation};
ghost use Rattle.qm_model.specs.Own.{Log, no_log};
ghost use Rattle.qm_model.specs.Policies.{Policy};
ghost use Rattle.qm_model.specs.Schemes.{engine_of};
ghost use Rattle.qm_model.specs.StoreModel.{end_of, settled, with_metadata, IsImage, IsOldOrNew, ReadsAs};
ghost use Rattle.qm_model.specs.Walk.{Rules};
ghost use Rattle.qm_store.specs.Given.{store_after, store_given};
ghost use Rattle.qm_store.specs.Log.{HasLeft};
ghost use Rattle.qm_offer.specs.Crashing.{IsSafe};
ghost use Rattle.qm_any.specs.Applying.{store_in};
ghost use Rattle.qm_any.specs.Lasting.{bits_from, boundary_of, over_log, HasLasted, HasLeftPruned, HasLeftDestroyed, HasLeftStable, HasPruned, HasPrunedLog, IsDestroyed, IsGivenUp};
ghost use Rattle.qm_any.specs.Offered.{scheme_of};

use crate::db::{Db, LaidOut, State};
use qm_base::{Error, Hasher, Location};
use qm_bits::Chunks;
use qm_merkle::Family;
use qm_open::store_of;
use qm_operations::Update;
use qm_store::{AuthLog, Given, LogRefusal, MetaEntry, Refusal, Store};
use std::alloc::Global;

impl<
    F: Family,
    C: Store,
    I: qm_index::Unordered<Value = Location<F>> + Drop,
    H: Hasher + Drop,
    U: Update,
    N: Chunks,
> Db<F, C, I, H, U, N> {
    /// Makes the operations stable: from then on a crash leaves them all. It takes one call of the store and no memory. A
    /// refusal gives back the store.
    pub fn commit(self) -> Result<Self, Refusal<Self, C>>
        ensures stands { (list : List Operation) → ⟦<Self as LaidOut>⟧.stands self list
            → IfOk result (λ db. ⟦<Self as LaidOut>⟧.stands db list) }
        ensures committed { IfOk result
            (HasLasted C.Store ⟦<Self as LaidOut>⟧.layout.hashing settled self) }
        ensures refused { IfErr result (IsGivenUp C.Store (HasLeftStable C.Store) self.log.store) }
        ensures crashes { (rules : Rules Policy) (log : Log) → IsSafe C.Store
            (engine_of (scheme_of H.Digest.SIZE ⟦<Self as LaidOut>⟧.layout.hashing) rules) log log
            self.log.store (store_after store_in result) }
    {
        let (log, state) = self.into_parts();
        over(state, log.commit())
    }

    /// Makes all that the store holds stable. It takes one call of the store and no memory. A refusal gives back the store.
    pub fn sync(self) -> Result<Self, Refusal<Self, C>>
        ensures stands { (list : List Operation) → ⟦<Self as LaidOut>⟧.stands self list
            → IfOk result (λ db. ⟦<Self as LaidOut>⟧.stands db list) }
        ensures synced { IfOk result
            (HasLasted C.Store ⟦<Self as LaidOut>⟧.layout.hashing settled self) }
        ensures refused { IfErr result (IsGivenUp C.Store (HasLeftStable C.Store) self.log.store) }
        ensures crashes { (rules : Rules Policy) (log : Log) → IsSafe C.Store
            (engine_of (scheme_of H.Digest.SIZE ⟦<Self as LaidOut>⟧.layout.hashing) rules) log log
            self.log.store (store_after store_in result) }
    {
        let (log, state) = self.into_parts();
        over(state, log.sync())
    }

    /// Replaces the metadata that the store has under a name. A refusal gives back the store.
    pub fn put_meta(self, name: &str, entries: &[MetaEntry]) -> Result<Self, Refusal<Self, C>>
        ensures stands { (list : List Operation) → ⟦<Self as LaidOut>⟧.stands self list
            → IfOk result (λ db. ⟦<Self as LaidOut>⟧.stands db list) }
        ensures put { IfOk result (HasLasted C.Store ⟦<Self as LaidOut>⟧.layout.hashing
            (with_metadata name.now entries.now) self) }
        ensures refused { IfErr result (IsGivenUp C.Store (HasLeft C.Store (λ s.
            ReadsAs s.stable (IsOldOrNew (with_metadata name.now entries.now) s))) self.log.store) }
    {
        let (log, state) = self.into_parts();
        over(state, log.put_meta(name, entries))
    }

    /// Takes the operations before a location away from the store, which keeps the digests of the peaks there, and makes all
    /// others stable first: roots, reads and later batches stay what they were. A store that starts there or after it is not
    /// pruned. The database comes back as it was if the location is past its boundary; every other refusal gives back the
    /// store.
    pub fn prune(self, alloc: Global, loc: Location<F>) -> Result<Self, Refusal<Self, C>>
        ensures stands { (list : List Operation) → ⟦<Self as LaidOut>⟧.stands self list
            → IfOk result (λ db. ⟦<Self as LaidOut>⟧.stands db list) }
        ensures pruned { IfOk result
            (HasPruned C.Store ⟦<Self as LaidOut>⟧.layout settled loc self) }
        ensures boundary { (list : List Operation) → ⟦<Self as LaidOut>⟧.stands self list
            → boundary_of self ≡ lives.floor list }
        ensures fits { OnOk result (loc ≤ boundary_of self) }
        ensures beyond { IfErr result (λ r. boundary_of self < loc
            → (r.given ≡ Given.Database self)
            × (r.error ≡ Error.PruneBeyondMinRequired loc (boundary_of self))) }
        ensures refused { IfErr result (λ r. loc ≤ boundary_of self
            → IsGivenUp C.Store (λ old new. HasLeftStable C.Store old new
            ⊎ HasLeftPruned C.Store ⟦<Self as LaidOut>⟧.layout.hashing settled loc self.log new)
            self.log.store r) }
        ensures crashes { (rules : Rules Policy) (log : Log)
            → ⟦<Self as LaidOut>⟧.stands self log.list → IsSafe C.Store
            (engine_of (scheme_of H.Digest.SIZE ⟦<Self as LaidOut>⟧.layout.hashing) rules) log log
            self.log.store (store_after store_in result) }
    {
        // The log is kept from where its store is.
        let (_, size) = self.bounds();
        let boundary = self.sync_boundary().get().min(size.get());
        if loc.get() > boundary {
            let error = Error::PruneBeyondMinRequired(loc.get(), boundary);
            return Err(Refusal {
                given: Given::Database(self),
                error,
            });
        }
        self.commit()?.cut(alloc, loc.get())
    }

    // The database without what stands before a location, if all is stable.
    fn cut(self, alloc: Global, to: u64) -> Result<Self, Refusal<Self, C>>
        requires size { to ≤ self.commitment.size }
        requires stable { IfSome (C.told self.log.store) (λ s. s.stable ≡ end_of s) }
        ensures stands { (list : List Operation) → to ≤ lives.floor list
            → ⟦<Self as LaidOut>⟧.stands self list
            → IfOk result (λ db. ⟦<Self as LaidOut>⟧.stands db list) }
        ensures pruned { IfOk result
            (HasPruned C.Store ⟦<Self as LaidOut>⟧.layout (λ s. s) to self) }
        ensures refused { IfErr result (IsGivenUp C.Store (λ _.
            HasLeftPruned C.Store ⟦<Self as LaidOut>⟧.layout.hashing (λ s. s) to self.log)
            self.log.store) }
    {
        self.prune_bits(to).prune_log(alloc, to)
    }

    /// The database without the bits of the chunks that end at a location or before it; all else of it stays. It takes no
    /// memory.
    pub fn prune_bits(self, to: u64) -> Self
        requires size { to ≤ self.commitment.size }
        ensures stands { (list : List Operation) → to ≤ lives.floor list
            → ⟦<Self as LaidOut>⟧.stands self list
            → ⟦<Self as LaidOut>⟧.stands result list }
        ensures pruned { result ≡ record self { activity = bits_from N.LEN to self.activity } }
    {
        let (log, mut state) = self.into_parts();
        state.activity.prune_to_bit(to);
        state.over(log)
    }

    /// The database whose store has nothing before a location but the digests of the peaks there, if all of it is stable:
    /// the bits stay, and a store that starts there or after it is not pruned. A refusal gives back the store.
    pub fn prune_log(self, alloc: Global, to: u64) -> Result<Self, Refusal<Self, C>>
        requires size { to ≤ self.commitment.size }
        requires stable { IfSome (C.told self.log.store) (λ s. s.stable ≡ end_of s) }
        ensures stands { (list : List Operation) → to ≤ lives.floor list
            → ⟦<Self as LaidOut>⟧.stands self list
            → IfOk result (λ db. ⟦<Self as LaidOut>⟧.stands db list) }
        ensures pruned { IfOk result
            (HasPrunedLog C.Store ⟦<Self as LaidOut>⟧.layout.hashing to self) }
        ensures refused { IfErr result (IsGivenUp C.Store (λ _.
            HasLeftPruned C.Store ⟦<Self as LaidOut>⟧.layout.hashing (λ s. s) to self.log)
            self.log.store) }
    {
        let (log, state) = self.into_parts();
        let (start, _) = log.bounds();
        if to <= start {
            return Ok(state.over(log));
        }
        over(state, log.prune(alloc, to))
    }

    /// Empties the store: a database that is opened on it then is fresh. A refusal gives back the store.
    pub fn destroy(self) -> Result<C, Refusal<Self, C>>
        ensures destroyed { IfOk result (IsDestroyed C.Store self.log.store) }
        ensures refused { IfErr result
            (IsGivenUp C.Store (HasLeftDestroyed C.Store) self.log.store) }
        ensures crashes { IfOk result (λ left. (rules : Rules Policy) (log : Log) → IsSafe C.Store
            (engine_of (scheme_of H.Digest.SIZE ⟦<Self as LaidOut>⟧.layout.hashing) rules) log no_log
            self.log.store left) }
        ensures crashes_failing { IfErr result (λ r. (rules : Rules Policy) (log : Log)
            → IsSafe C.Store
            (engine_of (scheme_of H.Digest.SIZE ⟦<Self as LaidOut>⟧.layout.hashing) rules) log no_log
            self.log.store (store_given store_in r.given)) }
    {
        let mut store = self.close();
        match store.destroy() {
            Ok(()) => Ok(store),
            Err(error) => Err(Refusal {
                given: Given::Store(store),
                error: Error::from(error),
            }),
        }
    }
}

// The database over the log that a call left, or the store if the call was refused.
fn over<
    F: Family,
    C: Store,
    I: qm_index::Unordered<Value = Location<F>> + Drop,
    H: Hasher + Drop,
    U: Update,
    N: Chunks,
>(
    state: State<F, I, H::Digest, U, N>,
    done: Result<AuthLog<F, C, H>, LogRefusal<AuthLog<F, C, H>, C>>,
) -> Result<Db<F, C, I, H, U, N>, Refusal<Db<F, C, I, H, U, N>, C>>
    requires { IfOk done (λ log.
        (state.commitment.size ≡ log.tree.leaves) × (C.end log.store ≡ log.tree.leaves)) }
    ensures { result ≡ over_log state done }
{
    match done {
        Ok(log) => Ok(state.over(log)),
        Err(refusal) => Err(Refusal {
            given: Given::Store(store_of(refusal.given)),
            error: refusal.error,
        }),
    }
}
