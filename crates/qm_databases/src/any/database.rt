//! Any databases by the traits: each call is the database's own.

ghost use Rattle.std.specs.Prelude.{◌≡◌, ◌⊎◌, ◌≤◌, ◌<◌, ◌+◌, ◌++◌, ◌∷◌, ℕ, [], List, None, length, max, take, drop, option_map, refl, ⊤, IfOk, IfErr, OnOk};
ghost use Rattle.std.proofs.Common.{ap};
ghost use Rattle.std.specs.Int.NonZero.{non_zero_u64_get};
ghost use Rattle.qm_model.specs.Batches.{Chain};
ghost use Rattle.qm_model.specs.Live.{floor};
ghost use Rattle.qm_model.specs.Operations as lists;
ghost use Rattle.qm_model.specs.Proofs.{ops_proof};
ghost use Rattle.qm_model.specs.Refusals.{proof_count, proof_refusal};
ghost use Rattle.qm_model.specs.StoreModel.{settled};
ghost use Rattle.qm_model.specs.Writes.{Write};
ghost use Rattle.qm_operations.specs.Views.{operation_views};
ghost use Rattle.qm_proofs.specs.Proofs.{proof_view};
ghost use Rattle.qm_store.specs.Refusals.{IsDue};
ghost use Rattle.qm_any.specs.Lasting.{HasLasted, HasLeftPruned, HasLeftStable, HasPruned, IsGivenUp};
ghost use Rattle.qm_any.specs.Reading.{AtList};
ghost use Rattle.qm_databases.specs.Any.{IsBatch, any_means};
ghost use Rattle.qm_databases.specs.Words.{AtBatch, Makes, ReadsOnly, tip_of};

use crate::any::traits;
use qm_any::batch::{MerkleizedBatch, UnmerkleizedBatch};
use qm_any::db::{Db, LaidOut};
use qm_base::{Digest, Error, Hasher, Location};
use qm_bits::Chunks;
use qm_chain::Policy;
use qm_merkle::Family;
use qm_operations::{Operation, Update};
use qm_proofs::Proof;
use qm_step::kind::Steps;
use qm_store::{Given, Refusal, Store};
use std::alloc::{AllocError, Global};
use std::num::NonZeroU64;
use std::rc::Rc;

impl<F: Family, D: Digest, U: Update> traits::MerkleizedBatch for Rc<MerkleizedBatch<F, D, U>> {
    type Digest = D;

    ghost root_of = { λ b. b.value.bounds.tip.root };

    fn root(&self) -> D {
        MerkleizedBatch::root(self)
    }
}

impl<
    F: Family,
    C: Store + Drop,
    I: qm_index::Unordered<Value = Location<F>> + Drop,
    H: Hasher + Drop,
    U: Steps<F, I>,
    N: Chunks,
> traits::UnmerkleizedBatch<Db<F, C, I, H, U, N>> for UnmerkleizedBatch<F, H::Digest, U> {
    type Family = F;

    type K = U::Key;

    type V = U::Value;

    type Metadata = U::Value;

    type Merkleized = Rc<MerkleizedBatch<F, H::Digest, U>>;

    type Store = C;

    ghost means = { any_means C.Store ⟦<Db<F, C, I, H, U, N> as LaidOut>⟧.layout };

    fn write(self, key: U::Key, value: Option<U::Value>) -> Result<Self, AllocError>
        ensures { IfOk result (λ b.
            (chain above : Chain) (ws : List Write)
            → IsBatch ⟦<Db<F, C, I, H, U, N> as LaidOut>⟧.layout.hashing self chain above ws
            → IsBatch ⟦<Db<F, C, I, H, U, N> as LaidOut>⟧.layout.hashing b chain above (ws
            ++ record { key = U.Key.bytes key; value = option_map U.Value.bytes value }
            ∷ [])) }
    {
        self.write(key, value)
    }

    fn merkleize<P: Policy<F, U::Key, U::Value>>(
        self,
        alloc: Global,
        db: &mut Db<F, C, I, H, U, N>,
        metadata: Option<U::Value>,
        policy: &mut P,
    ) -> Result<Self::Merkleized, Error>
        ensures makes { AtBatch (any_means C.Store ⟦<Db<F, C, I, H, U, N> as LaidOut>⟧.layout) db.old self (λ list chain ws.
            Makes (any_means C.Store ⟦<Db<F, C, I, H, U, N> as LaidOut>⟧.layout) db.old list chain (tip_of U.form P.rules chain ws policy.old
            (option_map U.Value.bytes metadata)) result) }
        ensures reads { ReadsOnly (any_means C.Store ⟦<Db<F, C, I, H, U, N> as LaidOut>⟧.layout) C.Store db.old db.new result }
    {
        self.merkleize(alloc, db, metadata, policy)
    }

    ghost rooted = { λ b chain tip is. ap (λ k. k.root) is.bounds.tip };

    ghost own = { λ n. refl };
}

impl<
    F: Family,
    C: Store + Drop,
    I: qm_index::Unordered<Value = Location<F>> + Drop,
    H: Hasher + Drop,
    U: Steps<F, I>,
    N: Chunks,
> traits::BatchableDb for Db<F, C, I, H, U, N> {
    type Family = F;

    type K = U::Key;

    type V = U::Value;

    type Store = C;

    type Merkleized = Rc<MerkleizedBatch<F, H::Digest, U>>;

    type Batch = UnmerkleizedBatch<F, H::Digest, U>;

    fn new_batch(&self, alloc: Global) -> Result<Self::Batch, AllocError> {
        self.new_batch(alloc)
    }

    fn apply_batch(
        self,
        alloc: Global,
        batch: &Self::Merkleized,
    ) -> Result<Self, Refusal<Self, C>> {
        self.apply_batch(alloc, batch)
    }
}

impl<
    F: Family,
    C: Store + Drop,
    I: qm_index::Unordered<Value = Location<F>> + Drop,
    H: Hasher + Drop,
    U: Steps<F, I>,
    N: Chunks,
> traits::DbAny<F> for Db<F, C, I, H, U, N> {
    type Key = U::Key;

    type Value = U::Value;

    type Digest = H::Digest;

    ghost has_synced = { HasLasted C.Store ⟦<Db<F, C, I, H, U, N> as LaidOut>⟧.layout.hashing settled };

    ghost sync_leaves = { λ db. HasLeftStable C.Store db.log.store };

    ghost has_pruned = { HasPruned C.Store ⟦<Db<F, C, I, H, U, N> as LaidOut>⟧.layout settled };

    ghost prune_leaves = { λ to db new. HasLeftStable C.Store db.log.store new ⊎ HasLeftPruned C.Store ⟦<Db<F, C, I, H, U, N> as LaidOut>⟧.layout.hashing settled to db.log new };

    fn get(&mut self, alloc: Global, key: &U::Key) -> Result<Option<U::Value>, Error> {
        self.get(alloc, key)
    }

    fn get_many(&mut self, alloc: Global, keys: &[U::Key]) -> Result<Vec<Option<U::Value>>, Error> {
        self.get_many(alloc, keys)
    }

    fn root(&self) -> H::Digest {
        self.root()
    }

    fn bounds(&self) -> (Location<F>, Location<F>) {
        self.bounds()
    }

    fn size(&self) -> Location<F> {
        self.size()
    }

    fn get_metadata(&self, alloc: Global) -> Result<Option<U::Value>, AllocError> {
        self.get_metadata(alloc)
    }

    fn prune(self, alloc: Global, loc: Location<F>) -> Result<Self, Refusal<Self, C>>
        ensures stands { (list : List lists.Operation)
            → ⟦<Db<F, C, I, H, U, N> as LaidOut>⟧.stands self list
            → IfOk result (λ db. ⟦<Db<F, C, I, H, U, N> as LaidOut>⟧.stands db list) }
        ensures numbered { (n : ℕ) → ⊤ → IfOk result (λ db. ⊤) }
        ensures pruned { IfOk result
            (HasPruned C.Store ⟦<Db<F, C, I, H, U, N> as LaidOut>⟧.layout settled loc self) }
        ensures start { IfOk result (λ db. C.start db.log.store
            ≡ max (C.start self.log.store) loc) }
        ensures fits { (list : List lists.Operation)
            → ⟦<Db<F, C, I, H, U, N> as LaidOut>⟧.stands self list
            → OnOk result (loc ≤ floor list) }
        ensures beyond { (list : List lists.Operation)
            → ⟦<Db<F, C, I, H, U, N> as LaidOut>⟧.stands self list → floor list < loc
            → IfErr result (λ r. (r.given ≡ Given.Database self)
            × (r.error ≡ Error.PruneBeyondMinRequired loc (floor list))) }
        ensures refused { (list : List lists.Operation)
            → ⟦<Db<F, C, I, H, U, N> as LaidOut>⟧.stands self list → loc ≤ floor list
            → IfErr result (IsGivenUp C.Store (λ _ new.
            HasLeftStable C.Store self.log.store new
            ⊎ HasLeftPruned C.Store ⟦<Db<F, C, I, H, U, N> as LaidOut>⟧.layout.hashing settled loc
            self.log new) self.log.store) }
    {
        // The log is kept from where its store is.
        self.bounds();
        match self.prune(alloc, loc) {
            Ok(db) => {
                db.bounds();
                Ok(db)
            }
            Err(refused) => Err(refused),
        }
    }

    fn commit(self) -> Result<Self, Refusal<Self, C>> {
        self.commit()
    }

    fn sync(self, _alloc: Global) -> Result<Self, Refusal<Self, C>> {
        self.sync()
    }

    fn destroy(self) -> Result<C, Refusal<Self, C>> {
        self.destroy()
    }

    fn inactivity_floor_loc(&self) -> Location<F> {
        self.inactivity_floor_loc()
    }

    fn sync_boundary(&self) -> Location<F> {
        self.sync_boundary()
    }
}

impl<
    F: Family,
    C: Store + Drop,
    I: qm_index::Unordered<Value = Location<F>> + Drop,
    H: Hasher + Drop,
    U: Steps<F, I>,
    N: Chunks,
> traits::Provable<F> for Db<F, C, I, H, U, N> {
    type Operation = Operation<F, U>;

    ghost views = { operation_views U.view U.Key.bytes U.Value.bytes };

    ghost proof_of = { ops_proof H.hash F.shape U.form };

    fn proof(
        &mut self,
        alloc: Global,
        start: Location<F>,
        max: NonZeroU64,
    ) -> Result<(Proof<H::Digest>, Vec<Operation<F, U>>), Error>
        ensures offered { AtList C.Store ⟦<Db<F, C, I, H, U, N> as LaidOut>⟧.layout self.old
            (λ list. OnOk result (proof_refusal (C.start self.old.log.store) list (length list) start ≡ None)) }
        ensures proof { AtList C.Store ⟦<Db<F, C, I, H, U, N> as LaidOut>⟧.layout self.old (λ list.
            IfOk result (λ shown. proof_view H.Digest.bytes shown.0
            ≡ ops_proof H.hash F.shape U.form list start
            (start + proof_count (length list) start (non_zero_u64_get max)))) }
        ensures operations { AtList C.Store ⟦<Db<F, C, I, H, U, N> as LaidOut>⟧.layout self.old
            (λ list. IfOk result (λ shown.
            operation_views U.view U.Key.bytes U.Value.bytes shown.1.items
            ≡ take (proof_count (length list) start (non_zero_u64_get max)) (drop start list))) }
        ensures refused { AtList C.Store ⟦<Db<F, C, I, H, U, N> as LaidOut>⟧.layout self.old
            (λ list. IfErr result (λ e.
            IsDue e (proof_refusal (C.start self.old.log.store) list (length list) start))) }
        ensures reads { ReadsOnly (any_means C.Store ⟦<Db<F, C, I, H, U, N> as LaidOut>⟧.layout) C.Store
            self.old self.new result }
    {
        self.proof(alloc, start, max)
    }

    fn historical_proof(
        &mut self,
        alloc: Global,
        size: Location<F>,
        start: Location<F>,
        max: NonZeroU64,
    ) -> Result<(Proof<H::Digest>, Vec<Operation<F, U>>), Error>
        ensures offered { AtList C.Store ⟦<Db<F, C, I, H, U, N> as LaidOut>⟧.layout self.old
            (λ list. OnOk result (proof_refusal (C.start self.old.log.store) list size start ≡ None)) }
        ensures proof { AtList C.Store ⟦<Db<F, C, I, H, U, N> as LaidOut>⟧.layout self.old (λ list.
            IfOk result (λ shown. proof_view H.Digest.bytes shown.0
            ≡ ops_proof H.hash F.shape U.form (take size list) start
            (start + proof_count size start (non_zero_u64_get max)))) }
        ensures operations { AtList C.Store ⟦<Db<F, C, I, H, U, N> as LaidOut>⟧.layout self.old
            (λ list. IfOk result (λ shown.
            operation_views U.view U.Key.bytes U.Value.bytes shown.1.items
            ≡ take (proof_count size start (non_zero_u64_get max)) (drop start list))) }
        ensures refused { AtList C.Store ⟦<Db<F, C, I, H, U, N> as LaidOut>⟧.layout self.old
            (λ list. IfErr result (λ e.
            IsDue e (proof_refusal (C.start self.old.log.store) list size start))) }
        ensures reads { ReadsOnly (any_means C.Store ⟦<Db<F, C, I, H, U, N> as LaidOut>⟧.layout) C.Store
            self.old self.new result }
    {
        self.historical_proof(alloc, size, start, max)
    }
}
