//! What databases and merkleized batches tell of themselves and of their lists.

ghost use Rattle.std.specs.Prelude.{◌≡◌, ◌≤◌, ◌+◌, ◌^◌, List, length, true, false, nat_lt, option_map, if◌then◌else◌, IfOk, IfErr, OnOk};
ghost use Rattle.qm_model.specs.Batches.{Chain, own_operations};
ghost use Rattle.qm_model.specs.Operations as lists;
ghost use Rattle.qm_operations.specs.Views.{operation_views};
ghost use Rattle.qm_any.specs.Layouts.{Hashing};
ghost use Rattle.qm_any.specs.Applying.{can_apply};
ghost use Rattle.qm_any.specs.Databases as anys;
ghost use Rattle.qm_any.specs.Reading.{AtList, Reads};
ghost use Rattle.qm_current.specs.Databases.{AreSized, IsJoined, IsMade};
ghost use Rattle.qm_step.specs.Changes.{update_of};
ghost use Rattle.qm_step.specs.Views.{read_view};

use crate::batch::MerkleizedBatch;
use crate::db::Db;
use qm_any::db as any;
use qm_any::db::LaidOut;
use qm_base::{ByteString, Digest, Error, Hasher, Location};
use qm_bits::{Chunks, Prunable};
use qm_chain::Bounds;
use qm_chunks::Graftable;
use qm_graft::Grafted;
use qm_merkle::Family;
use qm_merkle::mem::Mem;
use qm_operations::{Operation, Update, ValueEncoding};
use qm_store::Store;
use std::alloc::{AllocError, Global};

impl<
    F: Graftable,
    C: Store,
    I: qm_index::Unordered<Value = Location<F>>,
    H: Hasher,
    U: Update,
    N: Chunks,
> Db<F, C, I, H, U, N> {
    /// The metadata of the last commit.
    pub fn get_metadata(&self, alloc: Global) -> Result<Option<U::Value>, AllocError>
        ensures { IfOk result (λ v. option_map U.Value.bytes v ≡ self.now.any.metadata) }
    {
        self.any.get_metadata(alloc)
    }

    /// The location of the first operation that the store keeps, and the location after the last one.
    pub fn bounds(&self) -> (Location<F>, Location<F>)
        ensures start { result.0 ≡ C.start self.now.any.log.store }
        ensures first { C.start self.now.any.log.store ≡ self.now.any.log.tree.start }
        ensures end { result.1 ≡ self.now.any.commitment.size }
        ensures few { self.now.any.commitment.size ≤ 2 ^ 62 }
        ensures joined { IsJoined {C = C} {D = H.Digest} N.LEN self.now }
    {
        self.any.bounds()
    }

    /// How many operations the list has.
    pub fn size(&self) -> Location<F>
        ensures { result ≡ self.now.any.commitment.size }
    {
        self.any.size()
    }

    /// The floor of the last commit: no live update stands below it.
    pub fn inactivity_floor_loc(&self) -> Location<F>
        ensures { result ≡ self.now.any.floor }
    {
        self.any.inactivity_floor_loc()
    }

    /// How many keys are live.
    pub fn active_keys(&self) -> u64
        ensures { result ≡ self.now.any.live }
    {
        self.any.active_keys()
    }

    /// Whether no key is live.
    pub fn is_empty(&self) -> bool
        ensures { result ≡ (if nat_lt 0 self.now.any.live then false else true) }
    {
        self.any.is_empty()
    }

    /// With how many workers the database was opened.
    pub fn strategy(&self) -> usize
        ensures { result ≡ 1 }
    {
        self.any.strategy()
    }

    /// The bits of the list: set where a live update stands and at the last commit.
    pub fn bitmap(&self) -> &Prunable<N>
        ensures { result.now ≡ self.now.any.activity }
    {
        self.any.bitmap()
    }

    /// The tree over the chunks of the list's bits, grafted onto that over its operations.
    pub fn grafted_storage(&self) -> &Mem<Grafted<F, N>, H::Digest>
        ensures { result.now ≡ self.now.canonical.tree }
    {
        self.canonical.tree()
    }

    /// Whether the batch can be applied: the database is at its boundary or at a kept ancestor's tip. It takes no memory, and looks at
    /// commitments alone: a batch whose chain began on another instance can be applied too.
    pub fn validate_batch(&self, batch: &MerkleizedBatch<F, H::Digest, U, N>) -> Result<(), Error>
        ensures fits { OnOk result (can_apply self.now.any batch.now.any ≡ true) }
        ensures stale { IfErr result (λ e.
            (e ≡ Error.StaleBatch) × (can_apply self.now.any batch.now.any ≡ false)) }
    {
        self.any.validate_batch(&batch.any)
    }

    /// The live update of a key, if there is one, with its location. It takes as many reads of the log as `get`.
    pub fn get_with_loc(
        &mut self,
        alloc: Global,
        key: &U::Key,
    ) -> Result<Option<(Location<F>, U)>, Error>
        ensures value { AtList C.Store ⟦<any::Db<F, C, I, H, U, N> as LaidOut>⟧.layout self.old.any
            (λ list. IfOk result
            (λ found. option_map (read_view U.view) found ≡ update_of list (U.Key.bytes key.now))) }
        ensures reads { Reads C.Store ⟦<any::Db<F, C, I, H, U, N> as LaidOut>⟧.layout self.old.any
            self.new.any result }
        ensures rest { self.new ≡ record self.old { any = self.new.any } }
    {
        self.any.get_with_loc(alloc, key)
    }
}

impl<F: Graftable, D: Digest, U: Update, N: Chunks> MerkleizedBatch<F, D, U, N> {
    /// The states of a database that the batch knows, and the floor of its commit.
    pub fn bounds(&self) -> &Bounds<F, D>
        ensures bounds { result.now ≡ self.now.any.bounds }
        ensures agreed { anys.AreAgreed self.now.any }
        ensures sized { AreSized self.now.any self.now.kept }
    {
        self.any.bounds()
    }

    /// Where the batch's own operations begin, and these.
    pub fn operations(&self) -> (Location<F>, &[Operation<F, U>])
        ensures base { result.0 ≡ self.now.any.bounds.base.size }
        ensures own { (hashing : Hashing D) (chain : Chain) (tip : List lists.Operation)
            → IsMade hashing N.LEN self.now chain tip
            → operation_views U.view U.Key.bytes U.Value.bytes result.1.now
            ≡ own_operations chain tip }
        ensures count { result.0 + length result.1.now ≡ self.now.any.bounds.tip.size }
    {
        self.any.operations()
    }
}
