//! The traits by which code is generic over databases.

ghost use Rattle.std.specs.Prelude.{◌≡◌, ◌<◌, ◌≤◌, ◌+◌, ◌++◌, ◌∷◌, ℕ, true, [], List, None, length, map, max, take, drop, option_map, IfOk, IfErr, OnOk};
ghost use Rattle.std.specs.Int.NonZero.{non_zero_u64_get};
ghost use Rattle.qm_model.specs.Batches.{Chain, begun_on};
ghost use Rattle.qm_model.specs.Live.{floor, last_metadata, value_of};
ghost use Rattle.qm_model.specs.Operations.{Bytes, Operation};
ghost use Rattle.qm_model.specs.Proofs as proofs;
ghost use Rattle.qm_model.specs.Refusals.{proof_count, proof_refusal};
ghost use Rattle.qm_model.specs.StoreModel.{settled};
ghost use Rattle.qm_model.specs.Writes.{Write};
ghost use Rattle.qm_proofs.specs.Proofs.{proof_view};
ghost use Rattle.qm_store.specs.Log.{HasBecome};
ghost use Rattle.qm_store.specs.Refusals.{IsDue, refusal_of};
ghost use Rattle.qm_any.specs.Lasting.{IsDestroyed, IsGivenUp, HasLeftDestroyed, HasLeftStable};
ghost use Rattle.qm_databases.specs.Words.{Applies, AtBatch, Makes, Means, ReadsOnly, tip_of};

use qm_base::{ByteString, Digest, Error, Location};
use qm_chain::Policy;
use qm_merkle::Family;
use qm_proofs::Proof;
use qm_store::{Given, Refusal, Store};
use std::alloc::{AllocError, Global};
use std::num::NonZeroU64;

/// A batch whose list is made.
pub trait MerkleizedBatch: Drop + Sized {
    type Digest: Digest;

    /// The bytes of its root.
    ghost root_of: { Self → Bytes };

    /// The root of the list that it makes.
    fn root(&self) -> Self::Digest
        ensures { Self.Digest.bytes result ≡ root_of self.now };
}

/// A batch: writes that are recorded on a list.
pub trait UnmerkleizedBatch<Db>: Drop + Sized {
    type Family;

    type K: ByteString;

    type V: ByteString;

    type Metadata: ByteString;

    type Merkleized: MerkleizedBatch;

    type Store: Store + Drop;

    /// What it and its database mean.
    ghost means: { Means Db Self.Store Self Self.Merkleized };

    /// Records a write: a value for the key, or its deletion. The last write of a key counts.
    fn write(self, key: Self::K, value: Option<Self::V>) -> Result<Self, AllocError>
        ensures { IfOk result (λ b.
            (chain above : Chain) (ws : List Write) → means.is_batch self chain above ws
            → means.is_batch b chain above (ws
            ++ record {
              key = Self.K.bytes key;
              value = option_map Self.V.bytes value;
            }
            ∷ [])) };

    /// Makes the list of the batch: a step of its base list, under the policy.
    fn merkleize<P: Policy<Self::Family, Self::K, Self::V>>(
        self,
        alloc: Global,
        db: &mut Db,
        metadata: Option<Self::Metadata>,
        policy: &mut P,
    ) -> Result<Self::Merkleized, Error>
        ensures makes { AtBatch means db.old self (λ list chain ws.
            Makes means db.old list chain (tip_of means.form P.rules chain ws policy.old
            (option_map Self.Metadata.bytes metadata)) result) }
        ensures reads { ReadsOnly means Self.Store.Store db.old db.new result };

    /// A merkleized batch has the root of the list that it makes.
    ghost rooted: { (b : Self.Merkleized) (chain : Chain) (tip : List Operation) → means.is_merkleized b chain tip → Self.Merkleized.root_of b ≡ means.root tip };

    /// An instance takes its own batches.
    ghost own: { (n : ℕ) → means.takes n n ≡ true };
}

/// A database that is changed by batches.
pub trait BatchableDb: Drop + Sized {
    type Family;

    type K: ByteString;

    type V: ByteString;

    type Store: Store + Drop;

    type Merkleized: MerkleizedBatch;

    type Batch: UnmerkleizedBatch<
        Self,
        Family = Self::Family,
        K = Self::K,
        V = Self::V,
        Metadata = Self::V,
        Merkleized = Self::Merkleized,
        Store = Self::Store,
    >;

    /// Begins a batch on the database as it is.
    fn new_batch(&self, alloc: Global) -> Result<Self::Batch, AllocError>
        ensures { IfOk result (λ b.
            (n : ℕ) (list : List Operation) → Self.Batch.means.numbered self.now n
            → Self.Batch.means.stands self.now list
            → Self.Batch.means.is_batch b (begun_on n list) (begun_on n list) []) };

    /// Takes the list of a batch.
    fn apply_batch(
        self,
        alloc: Global,
        batch: &Self::Merkleized,
    ) -> Result<Self, Refusal<Self, Self::Store>>
        ensures { Applies Self.Batch.means Self.Store.Store self batch.now result };
}

/// A database of one value for each key, whose root can be checked: what any and current ones have in common, over one family of trees.
pub trait DbAny<F: Family>: BatchableDb<
    Family = F,
    K = <Self as DbAny<F>>::Key,
    V = <Self as DbAny<F>>::Value,
> {
    type Key: ByteString;

    type Value: ByteString;

    type Digest: Digest;

    /// What a sync makes of a database, and what one that failed leaves of its store.
    ghost has_synced: { Self → Self → Type 0 };

    ghost sync_leaves: { Self → Self.Store → Type 0 };

    /// What a prune to a location makes of a database, and what one that failed leaves of its store.
    ghost has_pruned: { ℕ → Self → Self → Type 0 };

    ghost prune_leaves: { ℕ → Self → Self.Store → Type 0 };

    /// The value of a key, if it is live.
    fn get(&mut self, alloc: Global, key: &Self::Key) -> Result<Option<Self::Value>, Error>
        ensures value { (list : List Operation) → Self.Batch.means.stands self.old list
            → IfOk result (λ v.
            option_map Self.Value.bytes v ≡ value_of list (Self.Key.bytes key.now)) }
        ensures refused { (list : List Operation) → Self.Batch.means.stands self.old list
            → IfErr result (λ e. refusal_of e ≡ None) }
        ensures reads { ReadsOnly Self.Batch.means Self.Store.Store self.old self.new result };

    /// The values of keys, in their order, if they are live.
    fn get_many(
        &mut self,
        alloc: Global,
        keys: &[Self::Key],
    ) -> Result<Vec<Option<Self::Value>>, Error>
        ensures values { (list : List Operation) → Self.Batch.means.stands self.old list
            → IfOk result (λ v. map (option_map Self.Value.bytes) v.items
            ≡ map (λ k. value_of list (Self.Key.bytes k)) keys.now) }
        ensures refused { (list : List Operation) → Self.Batch.means.stands self.old list
            → IfErr result (λ e. refusal_of e ≡ None) }
        ensures reads { ReadsOnly Self.Batch.means Self.Store.Store self.old self.new result };

    /// The root of the list.
    fn root(&self) -> Self::Digest
        ensures { (list : List Operation) → Self.Batch.means.stands self.now list
            → Self.Digest.bytes result ≡ Self.Batch.means.root list };

    /// The location of the first operation that the store keeps, and the location after the last one.
    fn bounds(&self) -> (Location<F>, Location<F>)
        ensures start { result.0 ≡ Self.Store.start (Self.Batch.means.inside self.now) }
        ensures end { (list : List Operation) → Self.Batch.means.stands self.now list
            → result.1 ≡ length list };

    /// How many operations the list has.
    fn size(&self) -> Location<F>
        ensures { (list : List Operation) → Self.Batch.means.stands self.now list
            → result ≡ length list };

    /// The metadata of the last commit.
    fn get_metadata(&self, alloc: Global) -> Result<Option<Self::Value>, AllocError>
        ensures { (list : List Operation) → Self.Batch.means.stands self.now list
            → IfOk result (λ v. option_map Self.Value.bytes v ≡ last_metadata list) };

    /// Takes the operations before a location away from the store, and makes all others stable first: roots, reads and later
    /// batches stay what they were. The database comes back as it was if the location is past its boundary; every other refusal
    /// gives back the store.
    fn prune(self, alloc: Global, loc: Location<F>) -> Result<Self, Refusal<Self, Self::Store>>
        ensures stands { (list : List Operation) → Self.Batch.means.stands self list
            → IfOk result (λ db. Self.Batch.means.stands db list) }
        ensures numbered { (n : ℕ) → Self.Batch.means.numbered self n
            → IfOk result (λ db. Self.Batch.means.numbered db n) }
        ensures pruned { IfOk result (has_pruned loc self) }
        ensures start { IfOk result (λ db. Self.Store.start (Self.Batch.means.inside db)
            ≡ max (Self.Store.start (Self.Batch.means.inside self)) loc) }
        ensures fits { (list : List Operation) → Self.Batch.means.stands self list
            → OnOk result (loc ≤ Self.Batch.means.boundary list) }
        ensures beyond { (list : List Operation) → Self.Batch.means.stands self list
            → Self.Batch.means.boundary list < loc → IfErr result (λ r.
            (r.given ≡ Given.Database self)
            × (r.error ≡ Error.PruneBeyondMinRequired loc (Self.Batch.means.boundary list))) }
        ensures refused { (list : List Operation) → Self.Batch.means.stands self list
            → loc ≤ Self.Batch.means.boundary list → IfErr result (IsGivenUp Self.Store.Store (λ _.
            prune_leaves loc self) (Self.Batch.means.inside self)) };

    /// Makes the operations stable: from then on a crash leaves them all. A refusal gives back the store.
    fn commit(self) -> Result<Self, Refusal<Self, Self::Store>>
        ensures stands { (list : List Operation) → Self.Batch.means.stands self list
            → IfOk result (λ db. Self.Batch.means.stands db list) }
        ensures numbered { (n : ℕ) → Self.Batch.means.numbered self n
            → IfOk result (λ db. Self.Batch.means.numbered db n) }
        ensures committed { IfOk result (λ db. HasBecome Self.Store.Store
            (Self.Batch.means.inside self) (Self.Batch.means.inside db) settled) }
        ensures refused { IfErr result (IsGivenUp Self.Store.Store
            (HasLeftStable Self.Store.Store) (Self.Batch.means.inside self)) };

    /// Makes all that the store holds stable; a current database writes the metadata that counts its pruned chunks anew. A refusal
    /// gives back the store.
    fn sync(self, alloc: Global) -> Result<Self, Refusal<Self, Self::Store>>
        ensures stands { (list : List Operation) → Self.Batch.means.stands self list
            → IfOk result (λ db. Self.Batch.means.stands db list) }
        ensures numbered { (n : ℕ) → Self.Batch.means.numbered self n
            → IfOk result (λ db. Self.Batch.means.numbered db n) }
        ensures synced { IfOk result (has_synced self) }
        ensures refused { IfErr result (IsGivenUp Self.Store.Store (λ _. sync_leaves self)
            (Self.Batch.means.inside self)) };

    /// Empties the store: a database that is opened on it then is fresh. A refusal gives back the store.
    fn destroy(self) -> Result<Self::Store, Refusal<Self, Self::Store>>
        ensures destroyed { IfOk result
            (IsDestroyed Self.Store.Store (Self.Batch.means.inside self)) }
        ensures refused { IfErr result (IsGivenUp Self.Store.Store
            (HasLeftDestroyed Self.Store.Store) (Self.Batch.means.inside self)) };

    /// The floor of the last commit: no live update stands below it.
    fn inactivity_floor_loc(&self) -> Location<F>
        ensures { (list : List Operation) → Self.Batch.means.stands self.now list
            → result ≡ floor list };

    /// Up to where the list may be pruned.
    fn sync_boundary(&self) -> Location<F>
        ensures { (list : List Operation) → Self.Batch.means.stands self.now list
            → result ≡ Self.Batch.means.boundary list };
}

/// A database that proves its operations against its root: any ones alone, since a current one has another root.
pub trait Provable<F: Family>: DbAny<F> {
    type Operation: Drop;

    /// The operations, as clauses see them.
    ghost views: { List Self.Operation → List Operation };

    /// The proof of a list's operations from a location up to, and without, another.
    ghost proof_of: { List Operation → ℕ → ℕ → proofs.Proof };

    /// The operations from `start` on, at most `max`, and their proof in the whole list.
    fn proof(
        &mut self,
        alloc: Global,
        start: Location<F>,
        max: NonZeroU64,
    ) -> Result<(Proof<Self::Digest>, Vec<Self::Operation>), Error>
        ensures offered { (list : List Operation) → Self.Batch.means.stands self.old list
            → OnOk result (proof_refusal (Self.Store.start (Self.Batch.means.inside self.old)) list
            (length list) start
            ≡ None) }
        ensures proof { (list : List Operation) → Self.Batch.means.stands self.old list
            → IfOk result (λ shown. proof_view Self.Digest.bytes shown.0
            ≡ proof_of list start
            (start + proof_count (length list) start (non_zero_u64_get max))) }
        ensures operations { (list : List Operation) → Self.Batch.means.stands self.old list
            → IfOk result (λ shown. views shown.1.items
            ≡ take (proof_count (length list) start (non_zero_u64_get max)) (drop start list)) }
        ensures refused { (list : List Operation) → Self.Batch.means.stands self.old list
            → IfErr result (λ e. IsDue e (proof_refusal
            (Self.Store.start (Self.Batch.means.inside self.old)) list (length list) start)) }
        ensures reads { ReadsOnly Self.Batch.means Self.Store.Store self.old self.new result };

    /// The same in the list of the first `size` operations, which has to end with a commit.
    fn historical_proof(
        &mut self,
        alloc: Global,
        size: Location<F>,
        start: Location<F>,
        max: NonZeroU64,
    ) -> Result<(Proof<Self::Digest>, Vec<Self::Operation>), Error>
        ensures offered { (list : List Operation) → Self.Batch.means.stands self.old list
            → OnOk result (proof_refusal (Self.Store.start (Self.Batch.means.inside self.old)) list
            size start
            ≡ None) }
        ensures proof { (list : List Operation) → Self.Batch.means.stands self.old list
            → IfOk result (λ shown. proof_view Self.Digest.bytes shown.0
            ≡ proof_of (take size list) start
            (start + proof_count size start (non_zero_u64_get max))) }
        ensures operations { (list : List Operation) → Self.Batch.means.stands self.old list
            → IfOk result (λ shown. views shown.1.items
            ≡ take (proof_count size start (non_zero_u64_get max)) (drop start list)) }
        ensures refused { (list : List Operation) → Self.Batch.means.stands self.old list
            → IfErr result (λ e. IsDue e (proof_refusal
            (Self.Store.start (Self.Batch.means.inside self.old)) list size start)) }
        ensures reads { ReadsOnly Self.Batch.means Self.Store.Store self.old self.new result };
}
