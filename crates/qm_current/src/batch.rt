//! Batches of current databases.

ghost use Rattle.std.specs.Prelude.{◌≡◌, ◌++◌, ◌∷◌, suc, min, [], List, None, Some, length, map, option_map, IfOk};
ghost use Rattle.qm_model.specs.Batches.{Chain, child_of};
ghost use Rattle.qm_model.specs.Live as lives;
ghost use Rattle.qm_model.specs.Operations.{Operation};
ghost use Rattle.qm_model.specs.Writes.{read_through};
ghost use Rattle.qm_step.specs.PlanViews.{pair_views};
ghost use Rattle.qm_any.specs.Layouts.{Hashing};
ghost use Rattle.qm_any.specs.Reading.{AtBegun, AtMade, ReadsThrough};
ghost use Rattle.qm_current.specs.Databases.{IsBegun, IsMade};

use crate::db::Db;
use qm_any::batch as any;
use qm_any::db::{Db as AnyDb, LaidOut};
pub use qm_base::Slot;
use qm_base::{ByteString, Digest, Error, Hasher, Location};
use qm_bits::Chunks;
use qm_chunks::Graftable;
use qm_merkle::Family;
use qm_operations::{Update, ValueEncoding};
use qm_roots::Kept;
use qm_store::Store;
use std::alloc::{AllocError, Global};
use std::marker::Model;
use std::rc::Rc;

/// A merkleized batch: the any one, what its steps do to activity bits and to the grafted tree, and the canonical root of its list.
#[derive(Drop)]
pub struct MerkleizedBatch<F: Graftable, D: Digest, U: Update, N: Chunks> {
    pub(crate) any: Rc<any::MerkleizedBatch<F, D, U>>,
    pub(crate) kept: Kept<F, N, D>,
    pub(crate) instance: u64,
}

impl<F: Graftable, D: Digest, U: Update, N: Chunks> Model for MerkleizedBatch<F, D, U, N> {
    ghost use Rattle.qm_current.specs.Databases.{Made, AreSized};

    ghost Value = { Made D };

    ghost view = { λ b. record { any = b.any.value; kept = b.kept; instance = b.instance } };

    ghost invariant = { λ b. AreSized {D = D} b.any.value b.kept };
}

/// A batch: the any one, and the merkleized batch that it is begun on, of which it keeps as many steps as the any one.
#[derive(Drop)]
pub struct UnmerkleizedBatch<F: Graftable, D: Digest, U: Update, N: Chunks> {
    pub(crate) any: any::UnmerkleizedBatch<F, D, U>,
    pub(crate) parent: Rc<MerkleizedBatch<F, D, U, N>>,
    pub(crate) keep: usize,
}

impl<F: Graftable, D: Digest, U: Update, N: Chunks> Model for UnmerkleizedBatch<F, D, U, N> {
    ghost use Rattle.std.specs.Prelude.{◌≡◌, ◌≤◌, suc, length};
    ghost use Rattle.qm_current.specs.Databases.{Begun};

    ghost Value = { Begun D };

    ghost view = { λ b. record { any = b.any; parent = b.parent.value.kept; instance = b.parent.value.instance } };

    ghost invariant = { λ b. (b.any.parent ≡ b.parent.value.any) × (b.any.keep ≡ b.keep) × (b.keep ≤ suc (length b.parent.value.any.bounds.ancestors)) };
}

impl<F: Graftable, D: Digest, U: Update, N: Chunks> UnmerkleizedBatch<F, D, U, N> {
    /// Records a write, as the any batch does.
    pub fn write(self, key: U::Key, value: Option<U::Value>) -> Result<Self, AllocError>
        ensures any { IfOk result (λ b. b.any
            ≡ record self.any {
              writes = self.any.writes
                  ++ record { key = U.Key.bytes key; value = option_map U.Value.bytes value }
                  ∷ [];
            }) }
        ensures rest { IfOk result (λ b. (b.parent ≡ self.parent) × (b.instance ≡ self.instance)) }
    {
        let UnmerkleizedBatch { any, parent, keep } = self;
        let any = any.write(key, value)?;
        Ok(UnmerkleizedBatch { any, parent, keep })
    }

    /// The any batch.
    pub fn any(&self) -> &any::UnmerkleizedBatch<F, D, U>
        ensures { result.now ≡ self.now.any }
    {
        &self.any
    }

    /// The value of a key on the batch's base list under its writes, read over a database at a state that the batch's parent knows, as the any batch reads it.
    pub fn get<C: Store, I: qm_index::Unordered<Value = Location<F>>, H: Hasher<Digest = D>>(
        &self,
        alloc: Global,
        key: &U::Key,
        db: &mut Db<F, C, I, H, U, N>,
    ) -> Result<Option<U::Value>, Error>
        ensures value { AtBegun C.Store ⟦<AnyDb<F, C, I, H, U, N> as LaidOut>⟧.layout db.old.any
            self.now.any (λ chain above. IfOk result (λ v. option_map U.Value.bytes v
            ≡ read_through chain.base self.now.any.writes (U.Key.bytes key.now))) }
        ensures reads { ReadsThrough C.Store ⟦<AnyDb<F, C, I, H, U, N> as LaidOut>⟧.layout
            db.old.any db.new.any result self.now.any.parent.bounds }
        ensures rest { db.new ≡ record db.old { any = db.new.any } }
    {
        self.any.get(alloc, key, &mut db.any)
    }

    /// The values of keys, in their order, on the batch's base list under its writes, read over a database at a state that the batch's parent knows, as the any batch reads them.
    pub fn get_many<C: Store, I: qm_index::Unordered<Value = Location<F>>, H: Hasher<Digest = D>>(
        &self,
        alloc: Global,
        keys: &[U::Key],
        db: &mut Db<F, C, I, H, U, N>,
    ) -> Result<Vec<Option<U::Value>>, Error>
        ensures values { AtBegun C.Store ⟦<AnyDb<F, C, I, H, U, N> as LaidOut>⟧.layout db.old.any
            self.now.any (λ chain above. IfOk result (λ v. map (option_map U.Value.bytes) v.items
            ≡ map (λ k. read_through chain.base self.now.any.writes (U.Key.bytes k)) keys.now)) }
        ensures reads { ReadsThrough C.Store ⟦<AnyDb<F, C, I, H, U, N> as LaidOut>⟧.layout
            db.old.any db.new.any result self.now.any.parent.bounds }
        ensures rest { db.new ≡ record db.old { any = db.new.any } }
    {
        self.any.get_many(alloc, keys, &mut db.any)
    }
}

impl<F: Graftable, D: Digest, U: Update, N: Chunks> MerkleizedBatch<F, D, U, N> {
    /// The canonical root of the list that the batch makes.
    pub fn root(&self) -> D
        ensures { D.bytes result ≡ self.now.kept.root }
    {
        self.kept.root()
    }

    /// The operations root of the list that the batch makes.
    pub fn ops_root(&self) -> D
        ensures { D.bytes result ≡ self.now.any.bounds.tip.root }
    {
        self.any.root()
    }

    /// The keys that the batch's step evicted, in the order of the walk, each with the value that it had; none of a database as
    /// a batch.
    pub fn evicted(&self) -> &[(U::Key, U::Value)]
        ensures { pair_views U.Key.bytes U.Value.bytes result.now ≡ self.now.any.evicted }
    {
        self.any.evicted()
    }

    /// The any batch.
    pub fn any(&self) -> &any::MerkleizedBatch<F, D, U>
        ensures { result.now ≡ self.now.any }
    {
        &self.any
    }

    /// The value of a key on the list that the batch makes, read over a database at a state that the batch knows, as the any batch reads it.
    pub fn get<C: Store, I: qm_index::Unordered<Value = Location<F>>, H: Hasher<Digest = D>>(
        &self,
        alloc: Global,
        key: &U::Key,
        db: &mut Db<F, C, I, H, U, N>,
    ) -> Result<Option<U::Value>, Error>
        ensures value { AtMade C.Store ⟦<AnyDb<F, C, I, H, U, N> as LaidOut>⟧.layout db.old.any
            self.now.any (λ chain tip. IfOk result (λ v.
            option_map U.Value.bytes v ≡ lives.value_of tip (U.Key.bytes key.now))) }
        ensures reads { ReadsThrough C.Store ⟦<AnyDb<F, C, I, H, U, N> as LaidOut>⟧.layout
            db.old.any db.new.any result self.now.any.bounds }
        ensures rest { db.new ≡ record db.old { any = db.new.any } }
    {
        self.any.get(alloc, key, &mut db.any)
    }

    /// The values of keys, in their order, on the list that the batch makes, read over a database at a state that the batch knows, as the any batch reads them.
    pub fn get_many<C: Store, I: qm_index::Unordered<Value = Location<F>>, H: Hasher<Digest = D>>(
        &self,
        alloc: Global,
        keys: &[U::Key],
        db: &mut Db<F, C, I, H, U, N>,
    ) -> Result<Vec<Option<U::Value>>, Error>
        ensures values { AtMade C.Store ⟦<AnyDb<F, C, I, H, U, N> as LaidOut>⟧.layout db.old.any
            self.now.any (λ chain tip. IfOk result (λ v. map (option_map U.Value.bytes) v.items
            ≡ map (λ k. lives.value_of tip (U.Key.bytes k)) keys.now)) }
        ensures reads { ReadsThrough C.Store ⟦<AnyDb<F, C, I, H, U, N> as LaidOut>⟧.layout
            db.old.any db.new.any result self.now.any.bounds }
        ensures rest { db.new ≡ record db.old { any = db.new.any } }
    {
        self.any.get_many(alloc, keys, &mut db.any)
    }

    /// Begins a batch on the list that this one makes. It keeps this one and all that this one keeps.
    pub fn new_batch(
        batch: &Rc<Self>,
        alloc: Global,
    ) -> Result<UnmerkleizedBatch<F, D, U, N>, AllocError>
        ensures any { IfOk result (λ b. b.any
            ≡ record {
              parent = batch.now.value.any;
              keep = suc (length batch.now.value.any.bounds.ancestors);
              writes = [];
            }) }
        ensures rest { IfOk result (λ b. (b.parent ≡ batch.now.value.kept)
            × (b.instance ≡ batch.now.value.instance)) }
        ensures begun { (hashing : Hashing D) (chain : Chain) (tip : List Operation)
            → IsMade hashing N.LEN batch.now.value chain tip
            → IfOk result (λ b. IsBegun hashing N.LEN b (child_of None chain tip) chain) }
    {
        let any = any::MerkleizedBatch::new_batch(&batch.any, alloc)?;
        let keep = batch.any.bounds().ancestors.len() + 1;
        let parent = batch.clone()?;
        Ok(UnmerkleizedBatch { any, parent, keep })
    }

    /// Begins a batch on the list that this one makes, which keeps this one and the first `n` that this one keeps, newest
    /// first, or all if there are fewer.
    pub fn new_batch_keeping(
        batch: &Rc<Self>,
        alloc: Global,
        n: usize,
    ) -> Result<UnmerkleizedBatch<F, D, U, N>, AllocError>
        ensures any { IfOk result (λ b. b.any
            ≡ record {
              parent = batch.now.value.any;
              keep = suc (min n (length batch.now.value.any.bounds.ancestors));
              writes = [];
            }) }
        ensures rest { IfOk result (λ b. (b.parent ≡ batch.now.value.kept)
            × (b.instance ≡ batch.now.value.instance)) }
        ensures begun { (hashing : Hashing D) (chain : Chain) (tip : List Operation)
            → IsMade hashing N.LEN batch.now.value chain tip
            → IfOk result (λ b. IsBegun hashing N.LEN b (child_of (Some n) chain tip) chain) }
    {
        let any = any::MerkleizedBatch::new_batch_keeping(&batch.any, alloc, n)?;
        let keep = n.min(batch.any.bounds().ancestors.len()) + 1;
        let parent = batch.clone()?;
        Ok(UnmerkleizedBatch { any, parent, keep })
    }
}
