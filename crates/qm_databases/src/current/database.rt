//! Current databases by the traits: each call is the database's own.

ghost use Rattle.std.specs.Prelude.{◌≡◌, ◌⊎◌, ◌≤◌, ◌<◌, ◌++◌, ◌∷◌, ℕ, [], List, max, option_map, refl, IfOk, IfErr, OnOk};
ghost use Rattle.std.proofs.lemmas.Bool.{eq-eqb};
ghost use Rattle.qm_model.specs.Batches.{Chain};
ghost use Rattle.qm_model.specs.Grafted.{boundary};
ghost use Rattle.qm_model.specs.Operations as lists;
ghost use Rattle.qm_model.specs.StoreModel.{settled};
ghost use Rattle.qm_model.specs.Writes.{Write};
ghost use Rattle.qm_graft.specs.Grafting.{grafting};
ghost use Rattle.qm_any.specs.Lasting.{HasLeftStable, IsGivenUp};
ghost use Rattle.qm_current.specs.Databases.{IsDatabase};
ghost use Rattle.qm_current.specs.Lasting.{HasCounted, HasLeftPruned, HasLeftUncounted, HasPruned, chunks_after};
ghost use Rattle.qm_databases.specs.Current.{IsBatch, current_means};
ghost use Rattle.qm_databases.specs.Words.{AtBatch, Makes, ReadsOnly, tip_of};

use crate::any::traits;
use qm_any::db::{Db as AnyDb, LaidOut};
use qm_base::{Digest, Error, Hasher, Location};
use qm_bits::Chunks;
use qm_chain::Policy;
use qm_chunks::Graftable;
use qm_current::{Db, MerkleizedBatch, UnmerkleizedBatch};
use qm_operations::Update;
use qm_step::kind::Steps;
use qm_store::{Given, Refusal, Store};
use std::alloc::{AllocError, Global};
use std::rc::Rc;

impl<F: Graftable, D: Digest, U: Update, N: Chunks> traits::MerkleizedBatch
    for Rc<MerkleizedBatch<F, D, U, N>> {
    type Digest = D;

    ghost root_of = { λ b. b.value.kept.root };

    fn root(&self) -> D {
        MerkleizedBatch::root(self)
    }
}

impl<
    F: Graftable,
    C: Store + Drop,
    I: qm_index::Unordered<Value = Location<F>> + Drop,
    H: Hasher + Drop,
    U: Steps<F, I>,
    N: Chunks,
> traits::UnmerkleizedBatch<Db<F, C, I, H, U, N>> for UnmerkleizedBatch<F, H::Digest, U, N> {
    type Family = F;

    type K = U::Key;

    type V = U::Value;

    type Metadata = U::Value;

    type Merkleized = Rc<MerkleizedBatch<F, H::Digest, U, N>>;

    type Store = C;

    ghost means = { current_means C.Store ⟦<AnyDb<F, C, I, H, U, N> as LaidOut>⟧.layout };

    fn write(self, key: U::Key, value: Option<U::Value>) -> Result<Self, AllocError>
        ensures { IfOk result (λ b.
            (chain above : Chain) (ws : List Write)
            → IsBatch ⟦<AnyDb<F, C, I, H, U, N> as LaidOut>⟧.layout.hashing N.LEN self chain above ws
            → IsBatch ⟦<AnyDb<F, C, I, H, U, N> as LaidOut>⟧.layout.hashing N.LEN b chain above (ws
            ++ record { key = U.Key.bytes key; value = option_map U.Value.bytes value }
            ∷ [])) }
    {
        self.write(key, value)
    }

    fn merkleize<P: Policy<F, U::Key, U::Value>>(
        self,
        alloc: Global,
        db: &mut Db<F, C, I, H, U, N>,
        metadata: Option<U::Value>,
        policy: &mut P,
    ) -> Result<Self::Merkleized, Error>
        ensures makes { AtBatch (current_means C.Store ⟦<AnyDb<F, C, I, H, U, N> as LaidOut>⟧.layout) db.old self (λ list chain ws.
            Makes (current_means C.Store ⟦<AnyDb<F, C, I, H, U, N> as LaidOut>⟧.layout) db.old list chain (tip_of U.form P.rules chain ws policy.old
            (option_map U.Value.bytes metadata)) result) }
        ensures reads { ReadsOnly (current_means C.Store ⟦<AnyDb<F, C, I, H, U, N> as LaidOut>⟧.layout) C.Store db.old db.new result }
    {
        self.merkleize(alloc, db, metadata, policy)
    }

    ghost rooted = { λ b chain tip is. is.kept.root };

    ghost own = { λ n. eq-eqb n n refl };
}

impl<
    F: Graftable,
    C: Store + Drop,
    I: qm_index::Unordered<Value = Location<F>> + Drop,
    H: Hasher + Drop,
    U: Steps<F, I>,
    N: Chunks,
> traits::BatchableDb for Db<F, C, I, H, U, N> {
    type Family = F;

    type K = U::Key;

    type V = U::Value;

    type Store = C;

    type Merkleized = Rc<MerkleizedBatch<F, H::Digest, U, N>>;

    type Batch = UnmerkleizedBatch<F, H::Digest, U, N>;

    fn new_batch(&self, alloc: Global) -> Result<Self::Batch, AllocError> {
        self.new_batch(alloc)
    }

    fn apply_batch(
        self,
        alloc: Global,
        batch: &Self::Merkleized,
    ) -> Result<Self, Refusal<Self, C>> {
        self.apply_batch(alloc, batch)
    }
}

impl<
    F: Graftable,
    C: Store + Drop,
    I: qm_index::Unordered<Value = Location<F>> + Drop,
    H: Hasher + Drop,
    U: Steps<F, I>,
    N: Chunks,
> traits::DbAny<F> for Db<F, C, I, H, U, N> {
    type Key = U::Key;

    type Value = U::Value;

    type Digest = H::Digest;

    ghost has_synced = { HasCounted C.Store ⟦<AnyDb<F, C, I, H, U, N> as LaidOut>⟧.layout settled };

    ghost sync_leaves = { λ db new. HasLeftStable C.Store db.any.log.store new ⊎ HasLeftUncounted C.Store ⟦<AnyDb<F, C, I, H, U, N> as LaidOut>⟧.layout settled db.any.activity.pruned db new };

    ghost has_pruned = { HasPruned C.Store ⟦<AnyDb<F, C, I, H, U, N> as LaidOut>⟧.layout settled };

    ghost prune_leaves = { λ to db new. HasLeftStable C.Store db.any.log.store new ⊎ (HasLeftUncounted C.Store ⟦<AnyDb<F, C, I, H, U, N> as LaidOut>⟧.layout settled (chunks_after N.LEN to db) db new ⊎ HasLeftPruned C.Store ⟦<AnyDb<F, C, I, H, U, N> as LaidOut>⟧.layout settled to db new) };

    fn get(&mut self, alloc: Global, key: &U::Key) -> Result<Option<U::Value>, Error> {
        self.get(alloc, key)
    }

    fn get_many(&mut self, alloc: Global, keys: &[U::Key]) -> Result<Vec<Option<U::Value>>, Error> {
        self.get_many(alloc, keys)
    }

    fn root(&self) -> H::Digest {
        self.root()
    }

    fn bounds(&self) -> (Location<F>, Location<F>) {
        self.bounds()
    }

    fn size(&self) -> Location<F> {
        self.size()
    }

    fn get_metadata(&self, alloc: Global) -> Result<Option<U::Value>, AllocError> {
        self.get_metadata(alloc)
    }

    fn prune(self, alloc: Global, loc: Location<F>) -> Result<Self, Refusal<Self, C>>
        ensures stands { (list : List lists.Operation)
            → IsDatabase C.Store ⟦<AnyDb<F, C, I, H, U, N> as LaidOut>⟧.layout self list
            → IfOk result (λ db. IsDatabase C.Store ⟦<AnyDb<F, C, I, H, U, N> as LaidOut>⟧.layout db list) }
        ensures numbered { (n : ℕ) → self.instance ≡ n → IfOk result (λ db. db.instance ≡ n) }
        ensures pruned { IfOk result
            (HasPruned C.Store ⟦<AnyDb<F, C, I, H, U, N> as LaidOut>⟧.layout settled loc self) }
        ensures start { IfOk result (λ db. C.start db.any.log.store
            ≡ max (C.start self.any.log.store) loc) }
        ensures fits { (list : List lists.Operation)
            → IsDatabase C.Store ⟦<AnyDb<F, C, I, H, U, N> as LaidOut>⟧.layout self list
            → OnOk result (loc ≤ boundary F.shape (grafting N.LEN) list) }
        ensures beyond { (list : List lists.Operation)
            → IsDatabase C.Store ⟦<AnyDb<F, C, I, H, U, N> as LaidOut>⟧.layout self list → boundary F.shape (grafting N.LEN) list < loc
            → IfErr result (λ r. (r.given ≡ Given.Database self)
            × (r.error ≡ Error.PruneBeyondMinRequired loc (boundary F.shape (grafting N.LEN) list))) }
        ensures refused { (list : List lists.Operation)
            → IsDatabase C.Store ⟦<AnyDb<F, C, I, H, U, N> as LaidOut>⟧.layout self list → loc ≤ boundary F.shape (grafting N.LEN) list
            → IfErr result (IsGivenUp C.Store (λ _ new.
            HasLeftStable C.Store self.any.log.store new
            ⊎ (HasLeftUncounted C.Store ⟦<AnyDb<F, C, I, H, U, N> as LaidOut>⟧.layout settled (chunks_after N.LEN loc self) self new
            ⊎ HasLeftPruned C.Store ⟦<AnyDb<F, C, I, H, U, N> as LaidOut>⟧.layout settled loc self new)) self.any.log.store) }
    {
        // The log is kept from where its store is.
        self.bounds();
        match self.prune(alloc, loc) {
            Ok(db) => {
                db.bounds();
                Ok(db)
            }
            Err(refused) => Err(refused),
        }
    }

    fn commit(self) -> Result<Self, Refusal<Self, C>> {
        self.commit()
    }

    fn sync(self, alloc: Global) -> Result<Self, Refusal<Self, C>> {
        self.sync(alloc)
    }

    fn destroy(self) -> Result<C, Refusal<Self, C>> {
        self.destroy()
    }

    fn inactivity_floor_loc(&self) -> Location<F> {
        self.inactivity_floor_loc()
    }

    fn sync_boundary(&self) -> Location<F> {
        self.sync_boundary()
    }
}
