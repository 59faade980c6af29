//! The database.

ghost use Rattle.std.specs.Prelude.{◌≡◌, ◌≢◌, ◌⊎◌, ◌↔◌, ◌≤◌, ◌+◌, ◌^◌, ◌++◌, ◌∷◌, ℕ, [], List, nat_lt, true, false, length, map, option_map, Contains, IsSome, IfSome, if◌then◌else◌, IfOk, IfErr, OnOk, OnErr};
ghost use Rattle.qm_model.specs.Batches.{Chain, IsOnChain, begun_on};
ghost use Rattle.qm_model.specs.Causes.{IsCause, Rose};
ghost use Rattle.qm_model.specs.Live as lives;
ghost use Rattle.qm_model.specs.Forms.{spelling};
ghost use Rattle.qm_model.specs.Operations.{Operation, IsCommitEnded};
ghost use Rattle.qm_model.specs.Own as own;
ghost use Rattle.qm_model.specs.Policies.{Policy};
ghost use Rattle.qm_model.specs.Schemes.{engine_of};
ghost use Rattle.qm_model.specs.Trees as trees;
ghost use Rattle.qm_model.specs.Walk.{Rules};
ghost use Rattle.qm_model.specs.Writes.{read_through};
ghost use Rattle.qm_merkle.specs.Batches.{stops, lists_since};
ghost use Rattle.qm_merkle.specs.Mems.{Holds, Stands, node_at};
ghost use Rattle.qm_store.specs.Log as logs;
ghost use Rattle.qm_chain.specs.Bounds.{commitment_view};
ghost use Rattle.qm_model.specs.Bits.{bits};
ghost use Rattle.qm_bits.specs.Bitmaps.{all_bits, bit_count};
ghost use Rattle.qm_step.specs.Bases.{IsBase, base_view};
ghost use Rattle.qm_step.specs.Kinds.{HasRing};
ghost use Rattle.qm_step.specs.Layers.{LeadOver};
ghost use Rattle.qm_step.specs.Changes.{LeadTo, update_of};
ghost use Rattle.qm_index.specs.Indexed.{IsIndexed};
ghost use Rattle.qm_store.specs.Reads.{IsReadError};
ghost use Rattle.qm_step.specs.Views.{changes_view, keys_of, read_view, wanted_view, AreReads, IsPlan};
ghost use Rattle.qm_any.specs.Databases.{Database, over, IsBegun, IsLeft, IsMade, IsTree, at_rest, read_under};
ghost use Rattle.qm_store.specs.Given.{Appended, AppendedPart, store_given, store_after};
ghost use Rattle.qm_store.specs.KeptTrees.{IsKeptTree};
ghost use Rattle.qm_operations.specs.Views.{operation_views};
ghost use Rattle.qm_any.specs.Applying.{Appends, IsUnapplied, KeepsRest, can_apply, store_in};
ghost use Rattle.qm_offer.specs.Crashing.{IsSafe};
ghost use Rattle.qm_any.specs.Offered.{scheme_of};
ghost use Rattle.qm_any.specs.Making.{evicted_made, list_made, making_of, policy_left};
ghost use Rattle.qm_any.specs.Tips.{AreTreeAndRoot, IsTooLong, IsTreeAfter};
ghost use Rattle.qm_any.specs.Reading.{Reads, AtList};

use crate::batch::{Lacking, MerkleizedBatch, UnmerkleizedBatch};
use crate::operations::{Step, copy_of, share, spelled_behind};
use qm_base::{ByteString, Commitment, Digest, Error, Hasher, JournalError, Location, twin_option};
use qm_batch::{Base, Plan, Read, Wanted, Writes, apply_diffs, read_key, staged};
use qm_bits::{Chunks, Prunable};
use qm_chain::{Diff, Policy};
use qm_merkle::mem::Mem;
use qm_merkle::{Family, Position, StandardHasher};
use qm_operations::{Update, ValueEncoding};
use qm_overlay::apply_bits;
use qm_proofs::Proof;
use qm_step::kind::Steps;
use qm_store::{AuthLog, Given, KeptTree, LogGiven, LogRefusal, Refusal, Store};
use std::alloc::{AllocError, Global};
use std::fmt;
use std::marker::Model;
use std::rc::Rc;

/// A database over a log of its operations and an index of where keys are live: one value for each live key, a floor
/// below which no live update stands, and a commitment that tells its list from others. It keeps no operations in memory:
/// a read goes from the index to the log. What the index knows of a key its translator makes.
#[derive(Drop)]
pub struct Db<
    F: Family,
    C: Store,
    I: qm_index::Unordered<Value = Location<F>>,
    H: Hasher,
    U: Update,
    N: Chunks,
> {
    pub(crate) index: I,
    activity: Prunable<N>,
    pub(crate) log: AuthLog<F, C, H>,
    commitment: Commitment<H::Digest>,
    floor: Location<F>,
    live: u64,
    metadata: Option<Rc<U::Value>>,
}

impl<
    F: Family,
    C: Store,
    I: qm_index::Unordered<Value = Location<F>>,
    H: Hasher,
    U: Update,
    N: Chunks,
> Model for Db<F, C, I, H, U, N> {
    ghost use Rattle.std.specs.Prelude.{◌≡◌, ◌≤◌, option_map};
    ghost use Rattle.qm_bits.specs.Bitmaps.{bit_count};
    ghost use Rattle.qm_chain.specs.Bounds.{commitment_view};
    ghost use Rattle.qm_any.specs.Databases.{Database};

    ghost Value = { Database C H.Digest };

    ghost view = { λ db. record { entries = I.entries db.index; activity = db.activity; log = db.log; commitment = commitment_view H.Digest.bytes db.commitment; floor = db.floor; live = db.live; metadata = option_map (λ m. U.Value.bytes m.value) db.metadata } };

    ghost invariant = { λ db. (db.commitment.size ≡ db.log.tree.leaves) × (C.end db.log.store ≡ db.log.tree.leaves) × (db.live ≤ db.commitment.size) × (bit_count N.LEN db.activity ≡ db.commitment.size) };
}

/// What a database has beside its log.
#[derive(Drop)]
pub(crate) struct State<
    F,
    I: qm_index::Unordered<Value = Location<F>>,
    D: Digest,
    U: Update,
    N: Chunks,
> {
    index: I,
    pub(crate) activity: Prunable<N>,
    commitment: Commitment<D>,
    floor: Location<F>,
    live: u64,
    metadata: Option<Rc<U::Value>>,
}

impl<F, I: qm_index::Unordered<Value = Location<F>>, D: Digest, U: Update, N: Chunks> Model
    for State<F, I, D, U, N> {
    ghost use Rattle.std.specs.Prelude.{◌≡◌, ◌≤◌, option_map};
    ghost use Rattle.qm_bits.specs.Bitmaps.{bit_count};
    ghost use Rattle.qm_chain.specs.Bounds.{commitment_view};
    ghost use Rattle.qm_any.specs.Databases.{State};

    ghost Value = { State };

    ghost view = { λ b. record { entries = I.entries b.index; activity = b.activity; commitment = commitment_view D.bytes b.commitment; floor = b.floor; live = b.live; metadata = option_map (λ m. U.Value.bytes m.value) b.metadata } };

    ghost invariant = { λ b. (b.live ≤ b.commitment.size) × (bit_count N.LEN b.activity ≡ b.commitment.size) };
}

impl<F: Family, I: qm_index::Unordered<Value = Location<F>>, D: Digest, U: Update, N: Chunks> State<
    F,
    I,
    D,
    U,
    N,
> {
    // The database of this over a log.
    pub(crate) fn over<C: Store, H: Hasher<Digest = D>>(
        self,
        log: AuthLog<F, C, H>,
    ) -> Db<F, C, I, H, U, N>
        requires size { self.commitment.size ≡ log.tree.leaves }
        requires end { C.end log.store ≡ log.tree.leaves }
        ensures { result ≡ over self log }
    {
        Db {
            index: self.index,
            activity: self.activity,
            log,
            commitment: self.commitment,
            floor: self.floor,
            live: self.live,
            metadata: self.metadata,
        }
    }
}

/// How the lists of a database are hashed and indexed, by its type.
pub trait LaidOut {
    ghost use Rattle.std.specs.Prelude.{List};
    ghost use Rattle.qm_model.specs.Operations.{Operation};
    ghost use Rattle.qm_any.specs.Layouts.{Layout};
    ghost use Rattle.qm_any.specs.Databases.{Database};

    type Digest;

    type Store;

    ghost layout: { Layout Self.Digest };

    /// A database of the type stands for the list.
    ghost stands: { Database Self.Store Self.Digest → List Operation → Type 0 };
}

impl<
    F: Family,
    C: Store,
    I: qm_index::Unordered<Value = Location<F>>,
    H: Hasher,
    U: Update,
    N: Chunks,
> LaidOut for Db<F, C, I, H, U, N> {
    ghost use Rattle.qm_any.specs.Layouts.{layout_of};
    ghost use Rattle.qm_any.specs.Databases.{IsDatabase};

    type Digest = H::Digest;

    type Store = C;

    ghost layout = { layout_of N.LEN H.Digest.bytes H.Hasher F.Family U.Update I.Unordered };

    ghost stands = { IsDatabase C.Store (layout_of N.LEN H.Digest.bytes H.Hasher F.Family U.Update I.Unordered) };
}

impl<
    F: Family,
    C: Store,
    I: qm_index::Unordered<Value = Location<F>>,
    H: Hasher,
    U: Update,
    N: Chunks,
> Db<F, C, I, H, U, N> {
    ghost use Rattle.std.specs.Borrow.{Lends, sem};
    ghost use Rattle.qm_any.specs.contracts.db.Db.{the_row};
    ghost use Rattle.qm_merkle.specs.contracts.hasher.StandardHasher.{the_row as hasher_row};

    // The database of an index, a log and what these stand for.
    pub(crate) fn of_parts(
        index: I,
        activity: Prunable<N>,
        log: AuthLog<F, C, H>,
        commitment: Commitment<H::Digest>,
        floor: Location<F>,
        live: u64,
        metadata: Option<Rc<U::Value>>,
    ) -> Self
        requires size { commitment.size ≡ log.tree.leaves }
        requires bits { bit_count N.LEN activity ≡ commitment.size }
        requires end { C.end log.store ≡ log.tree.leaves }
        requires live { live ≤ commitment.size }
        ensures { result
            ≡ record {
              entries = I.entries index;
              activity = activity;
              log = log;
              commitment =
                  commitment_view H.Digest.bytes commitment;
              floor = floor;
              live = live;
              metadata =
                  option_map (λ m. U.Value.bytes m.value) metadata;
            } }
    {
        Db {
            index,
            activity,
            log,
            commitment,
            floor,
            live,
            metadata,
        }
    }

    // The log, and what the database has beside it.
    pub(crate) fn into_parts(self) -> (AuthLog<F, C, H>, State<F, I, H::Digest, U, N>)
        ensures whole { self ≡ over result.1 result.0 }
        ensures size { result.1.commitment.size ≡ result.0.tree.leaves }
        ensures end { C.end result.0.store ≡ result.0.tree.leaves }
    {
        let Db {
            index,
            activity,
            log,
            commitment,
            floor,
            live,
            metadata,
        } = self;
        let state = State {
            index,
            activity,
            commitment,
            floor,
            live,
            metadata,
        };
        (log, state)
    }

    /// Begins a batch on the database as it is.
    pub fn new_batch(&self, alloc: Global) -> Result<UnmerkleizedBatch<F, H::Digest, U>, AllocError>
        ensures value { IfOk result (λ b.
            b ≡ record { parent = at_rest self.now; keep = 0; writes = [] }) }
        ensures begun { (n : ℕ) (list : List Operation) → ⟦<Self as LaidOut>⟧.stands self.now list
            → IfOk result (λ b.
            IsBegun ⟦<Self as LaidOut>⟧.layout.hashing b (begun_on n list) (begun_on n list)) }
    {
        let parent = self.to_batch(alloc)?;
        Ok(UnmerkleizedBatch::begun(alloc, parent, 0))
    }

    /// The database as a merkleized batch, which does nothing: batches can be begun on it, and reads through it are exact
    /// if the database is as it is now.
    pub fn to_batch(
        &self,
        alloc: Global,
    ) -> Result<Rc<MerkleizedBatch<F, H::Digest, U>>, AllocError>
        ensures value { IfOk result (λ b. b.value ≡ at_rest self.now) }
        ensures made { (n : ℕ) (list : List Operation) → ⟦<Self as LaidOut>⟧.stands self.now list
            → IfOk result (λ b.
            IsMade ⟦<Self as LaidOut>⟧.layout.hashing b.value (begun_on n list) list) }
    {
        // The log has at most 2^62 items.
        self.log.bounds();
        let metadata = share(&self.metadata)?;
        let floor = Location::new(self.floor.get());
        MerkleizedBatch::at_rest(alloc, self.commitment, floor, self.live, metadata)
    }

    /// The digest of the node at this position of the tree of the database's list, if it is held: it came after what was
    /// pruned, or is a peak over that.
    pub fn get_node(&self, position: Position<F>) -> Option<H::Digest>
        ensures exact { result ≡ node_at F.shape self.now.log.tree position }
        ensures held { IsSome result ↔ Holds F.shape self.now.log.tree position }
        ensures value { (list : List Operation) → ⟦<Self as LaidOut>⟧.stands self.now list
            → (x : trees.Node) → trees.Shape.birth F.shape x ≤ length list
            → trees.Shape.position F.shape x ≡ position
            → IfSome result (λ d. H.Digest.bytes d
            ≡ trees.digest_of H.hash F.shape (trees.leaves_from H.hash F.shape U.form 0 list) x) }
    {
        self.log.tree().get_node(position)
    }

    /// Whether the batch can be applied: the database is at its boundary or at a kept ancestor's tip. It takes no memory.
    pub fn validate_batch(&self, batch: &MerkleizedBatch<F, H::Digest, U>) -> Result<(), Error>
        ensures fits { OnOk result (can_apply self.now batch.now ≡ true) }
        ensures stale { IfErr result (λ e.
            (e ≡ Error.StaleBatch) × (can_apply self.now batch.now ≡ false)) }
    {
        batch.fits(&self.commitment)
    }

    /// Appends the operations that the database does not have yet, those of kept ancestors that are not applied and the batch's own, and
    /// updates the index. `StaleBatch` gives the database back as it was, and so does want of memory before the store was called. Want of
    /// memory after that gives back the store, which may have a first part of the new operations; a failed store is given back so too.
    pub fn apply_batch(
        self,
        alloc: Global,
        batch: &MerkleizedBatch<F, H::Digest, U>,
    ) -> Result<Self, Refusal<Self, C>>
    where
        I: Drop,
        H: Drop,
        ensures stands { (list : List Operation) (chain : Chain) (tip : List Operation)
            → ⟦<Self as LaidOut>⟧.stands self list
            → IsMade ⟦<Self as LaidOut>⟧.layout.hashing batch.now chain tip → IsOnChain list chain
            → IfOk result (λ next. ⟦<Self as LaidOut>⟧.stands next tip) }
        ensures moved { IfOk result (λ next. (next.commitment ≡ batch.now.bounds.tip)
            × (next.activity.pruned ≡ self.activity.pruned)) }
        ensures called { IfOk result (λ next.
            Rose (C.calls self.log.store) (C.calls next.log.store)) }
        ensures fits { OnOk result (can_apply self batch.now ≡ true) }
        ensures appends { (chain : Chain) (tip : List Operation)
            → IsMade ⟦<Self as LaidOut>⟧.layout.hashing batch.now chain tip
            → Appends C.Store self batch.now U.form tip result }
        ensures rest { KeepsRest C.Store self.log.store (store_after store_in result) }
        ensures unapplied { IfErr result (IsUnapplied C.Store self batch.now) }
        ensures crashes { (rules : Rules Policy) (log : own.Log) (chain : Chain)
            (more : List Operation) → let longer = record log { list = log.list ++ more } in
            let e = engine_of (scheme_of H.Digest.SIZE ⟦<Self as LaidOut>⟧.layout.hashing) rules in
            ⟦<Self as LaidOut>⟧.stands self log.list
            → IsMade ⟦<Self as LaidOut>⟧.layout.hashing batch.now chain longer.list
            → own.IsKept e longer
            → IsSafe C.Store e log longer self.log.store (store_after store_in result) }
    {
        match batch.lacking(alloc, &self.commitment) {
            Err(error) => Err(Refusal {
                given: Given::Database(self),
                error,
            }),
            Ok(lacking) => self.moved(lacking, batch),
        }
    }

    // Moves the database to a batch's list by appending what it lacks of that. The batch's tree has the leaves, so nothing is hashed.
    fn moved(
        self,
        lacking: Lacking<'_, F, U>,
        batch: &MerkleizedBatch<F, H::Digest, U>,
    ) -> Result<Self, Refusal<Self, C>>
    where
        I: Drop,
        H: Drop,
        requires count { self.commitment.size + length lacking.items.items
            ≡ batch.now.bounds.tip.size }
        requires reach { Contains (stops batch.now.tree.leaves batch.now.tree.layers)
            self.commitment.size }
        ensures log { IfOk result (λ next. (list : List (List ℕ)) (older : List (List (List ℕ)))
            → logs.IsLog C.Store F.shape H.Digest.bytes H.hash self.log list
            → IsKeptTree H.Digest.bytes H.hash F.shape batch.now.tree
            (list ++ map (λ v. v.items) lacking.entry.items.items) older
            → Contains ((list ++ map (λ v. v.items) lacking.entry.items.items) ∷ older) list
            → logs.IsLog C.Store F.shape H.Digest.bytes H.hash next.log
            (list ++ map (λ v. v.items) lacking.entry.items.items)) }
        ensures index { IfOk result (λ next. (list tip : List Operation)
            → LeadTo
            (map (λ d. changes_view U.Key.bytes U.Value.bytes d.value) lacking.entry.diffs.now) list
            tip → IsIndexed I.index_key self.entries list
            → IsIndexed I.index_key next.entries tip) }
        ensures active { IfOk result (λ next. (list tip : List Operation)
            → LeadTo
            (map (λ d. changes_view U.Key.bytes U.Value.bytes d.value) lacking.entry.diffs.now) list
            tip → IsCommitEnded list → batch.now.bounds.tip.size ≡ length tip
            → all_bits N.LEN self.activity ≡ bits list
            → all_bits N.LEN next.activity ≡ bits tip) }
        ensures rest { IfOk result (λ next. (next.commitment ≡ batch.now.bounds.tip)
            × (next.floor ≡ batch.now.bounds.inactivity_floor) × (next.live ≡ batch.now.live)
            × (next.metadata ≡ option_map (λ m. U.Value.bytes m.value) lacking.entry.metadata)) }
        ensures pruned { IfOk result (λ next. next.activity.pruned ≡ self.activity.pruned) }
        ensures grown { IfOk result (λ next. Appended C.Store self.log.store next.log.store
            (map (λ v. v.items) lacking.entry.items.items)) }
        ensures later { IfOk result (λ next. C.faults self.log.store ≤ C.faults next.log.store) }
        ensures part { IfErr result (λ r.
            AppendedPart C.Store self.log.store (store_given (λ db. db.log.store) r.given)
            (map (λ v. v.items) lacking.entry.items.items)) }
        ensures back { IfErr result (λ r. (x : Database C H.Digest) → r.given ≡ Given.Database x
            → (x ≡ self) × (r.error ≡ Error.Memory)) }
        ensures called { IfErr result (λ r. (s : C) → r.given ≡ Given.Store s
            → Rose (C.calls self.log.store) (C.calls s)) }
        ensures causes { IfErr result (λ r.
            (r.error ≡ Error.Memory) ⊎ (r.error ≡ Error.Journal JournalError.Store)) }
        ensures cause { IfErr result (λ r.
            IsCause (C.faults self.log.store) (C.faults (store_given (λ db. db.log.store) r.given))
            (r.error ≡ Error.Journal JournalError.Store)) }
    {
        let (log, state) = self.into_parts();
        match log.append_tree(&lacking.items, &batch.tree) {
            Ok(log) => indexed(state, log, lacking.diffs, batch, lacking.metadata),
            Err(LogRefusal { given, error }) => Err(Refusal {
                given: given_back(state, given),
                error,
            }),
        }
    }

    /// The value of a key, if it is live. It takes one read of the log for each location in the key's bucket, at most.
    pub fn get(&mut self, alloc: Global, key: &U::Key) -> Result<Option<U::Value>, Error>
        ensures value { (list : List Operation) → ⟦<Self as LaidOut>⟧.stands self.old list
            → (IfOk result (λ v.
            option_map U.Value.bytes v ≡ lives.value_of list (U.Key.bytes key.now))) }
        ensures reads { Reads C.Store ⟦<Self as LaidOut>⟧.layout self.old self.new result }
    {
        let writes = Writes::new(alloc);
        self.read_one(alloc, &Vec::new(alloc), &writes, key)
    }

    /// The values of keys, in their order, if they are live.
    pub fn get_many(
        &mut self,
        alloc: Global,
        keys: &[U::Key],
    ) -> Result<Vec<Option<U::Value>>, Error>
        ensures values { AtList C.Store ⟦<Self as LaidOut>⟧.layout self.old (λ list.
            IfOk result (λ v. map (option_map U.Value.bytes) v.items
            ≡ map (λ k. lives.value_of list (U.Key.bytes k)) keys.now)) }
        ensures reads { Reads C.Store ⟦<Self as LaidOut>⟧.layout self.old self.new result }
    {
        let writes = Writes::new(alloc);
        self.read_all(alloc, &Vec::new(alloc), &writes, keys)
    }

    /// The live update of a key, if there is one, with its location. It takes as many reads of the log as `get`.
    pub fn get_with_loc(
        &mut self,
        alloc: Global,
        key: &U::Key,
    ) -> Result<Option<(Location<F>, U)>, Error>
        ensures value { AtList C.Store ⟦<Self as LaidOut>⟧.layout self.old (λ list. IfOk result
            (λ found. option_map (read_view U.view) found ≡ update_of list (U.Key.bytes key.now))) }
        ensures reads { Reads C.Store ⟦<Self as LaidOut>⟧.layout self.old self.new result }
    {
        self.find(alloc, &Vec::new(alloc), key)
    }

    // The value of a key: that of its last write or, if it has none, the one on the base list of a batch of these steps.
    pub(crate) fn read_one(
        &mut self,
        alloc: Global,
        steps: &[Step<F, U>],
        writes: &Writes<U::Key, U::Value>,
        key: &U::Key,
    ) -> Result<Option<U::Value>, Error>
        ensures value { (list base : List Operation) → ⟦<Self as LaidOut>⟧.stands self.old list
            → LeadOver (map (λ l. l.value) steps.now) list base
            → IfOk result (λ v.
            option_map U.Value.bytes v ≡ read_through base writes.now (U.Key.bytes key.now)) }
        ensures reads { Reads C.Store ⟦<Self as LaidOut>⟧.layout self.old self.new result }
    {
        if let Some(write) = writes.last(key.as_bytes()) {
            return Ok(twin_option(alloc, &write.value)?);
        }
        match self.find(alloc, steps, key)? {
            Some((_, update)) => Ok(Some(update.into_value())),
            None => Ok(None),
        }
    }

    // The values of keys, in their order.
    pub(crate) fn read_all(
        &mut self,
        alloc: Global,
        steps: &[Step<F, U>],
        writes: &Writes<U::Key, U::Value>,
        keys: &[U::Key],
    ) -> Result<Vec<Option<U::Value>>, Error>
        ensures values { (list base : List Operation) → ⟦<Self as LaidOut>⟧.stands self.old list
            → LeadOver (map (λ l. l.value) steps.now) list base
            → IfOk result (λ v. map (option_map U.Value.bytes) v.items
            ≡ map (λ k. read_through base writes.now (U.Key.bytes k)) keys.now) }
        ensures reads { Reads C.Store ⟦<Self as LaidOut>⟧.layout self.old self.new result }
    {
        let mut values = Vec::new(alloc);
        for key in keys {
            let value = self.read_one(alloc, steps, writes, key)?;
            values.push(value)?;
        }
        Ok(values)
    }

    // A key's live update on the base list of a batch of these steps, with its location.
    fn find(
        &mut self,
        alloc: Global,
        steps: &[Step<F, U>],
        key: &U::Key,
    ) -> Result<Option<(Location<F>, U)>, Error>
        ensures value { (list base : List Operation) → ⟦<Self as LaidOut>⟧.stands self.old list
            → LeadOver (map (λ l. l.value) steps.now) list base
            → IfOk result (λ found.
            option_map (read_view U.view) found ≡ update_of base (U.Key.bytes key.now)) }
        ensures reads { Reads C.Store ⟦<Self as LaidOut>⟧.layout self.old self.new result }
    {
        read_key(alloc, &self.index, &mut self.log, steps, key)
    }

    // Keys in their order, each with its live update on the base list of a batch of these steps.
    pub(crate) fn find_all(
        &mut self,
        alloc: Global,
        steps: &[Step<F, U>],
        keys: Vec<U::Key>,
    ) -> Result<Vec<Read<F, U>>, Error>
        ensures keys { IfOk result (λ reads.
            keys_of U.Key.bytes reads.items ≡ map U.Key.bytes keys.items) }
        ensures found { (list base : List Operation) → ⟦<Self as LaidOut>⟧.stands self.old list
            → LeadOver (map (λ l. l.value) steps.now) list base
            → IfOk result (λ reads. AreReads U.view U.Key.bytes reads.items base) }
        ensures reads { Reads C.Store ⟦<Self as LaidOut>⟧.layout self.old self.new result }
    {
        let mut reads = Vec::new(alloc);
        for key in keys {
            let found = self.find(alloc, steps, &key)?;
            reads.push(Read { key, found })?;
        }
        Ok(reads)
    }

    // A batch's tree with the leaves of these operations after its own, and the root of its list with this floor, if no
    // spelling is too long and the list is not. It keeps nothing of what led to lists of fewer operations than the boundary's.
    pub(crate) fn grown(
        &mut self,
        alloc: Global,
        tree: &KeptTree<F, H::Digest>,
        operations: &[qm_operations::Operation<F, U>],
        floor: u64,
        boundary: u64,
    ) -> Result<(KeptTree<F, H::Digest>, H::Digest), Error>
        requires few { tree.now.leaves ≤ 2 ^ 62 }
        requires reach { Contains (stops tree.now.leaves tree.now.layers) self.old.commitment.size }
        requires boundary { boundary ≤ self.old.commitment.size }
        ensures after { IfOk result (λ grown. IsTreeAfter U.form tree.now
            (operation_views U.view U.Key.bytes U.Value.bytes operations.now) boundary grown.0) }
        ensures tree { (list base : List Operation) (older : List (List Operation))
            → ⟦<Self as LaidOut>⟧.stands self.old list
            → IsTree ⟦<Self as LaidOut>⟧.layout.hashing tree.now base older
            → Contains (base ∷ older) list
            → IfOk result (AreTreeAndRoot ⟦<Self as LaidOut>⟧.layout.hashing
            (base ++ operation_views U.view U.Key.bytes U.Value.bytes operations.now)
            (lists_since boundary (map (map (spelling U.form)) (base ∷ older))) floor) }
        ensures refused { IfErr result (λ e. (e ≡ Error.Memory)
            ⊎ IsTooLong (map (spelling U.form)
            (operation_views U.view U.Key.bytes U.Value.bytes operations.now))
            (tree.now.leaves + length operations.now) e) }
        ensures same { self.new ≡ self.old }
    {
        let size = tree.leaves();
        let items = spelled_behind(alloc, operations, size)?;
        let leaves = size + items.len() as u64;
        let inactive = F::inactive_peaks(Location::new(leaves), Location::new(floor));
        Ok(tree.grown(alloc, &mut self.log, &items, inactive, boundary)?)
    }

    /// The metadata of the last commit.
    pub fn get_metadata(&self, alloc: Global) -> Result<Option<U::Value>, AllocError>
        ensures { IfOk result (λ v. option_map U.Value.bytes v ≡ self.now.metadata) }
    {
        copy_of(alloc, &self.metadata)
    }

    /// The operations root of the list.
    pub fn root(&self) -> H::Digest
        ensures { H.Digest.bytes result ≡ self.now.commitment.root }
    {
        self.commitment.root
    }

    /// The location of the first operation that the store keeps, and the location after the last one.
    pub fn bounds(&self) -> (Location<F>, Location<F>)
        ensures start { result.0 ≡ C.start self.now.log.store }
        ensures first { C.start self.now.log.store ≡ self.now.log.tree.start }
        ensures end { result.1 ≡ self.now.commitment.size }
        ensures last { C.end self.now.log.store ≡ self.now.commitment.size }
        ensures few { self.now.commitment.size ≤ 2 ^ 62 }
        ensures bits { bit_count N.LEN self.now.activity ≡ self.now.commitment.size }
    {
        let (start, size) = self.log.bounds();
        (Location::new(start), Location::new(size))
    }

    /// How many operations the list has.
    pub fn size(&self) -> Location<F>
        ensures { result ≡ self.now.commitment.size }
    {
        Location::new(self.commitment.size)
    }

    /// The floor of the last commit: no live update stands below it.
    pub fn inactivity_floor_loc(&self) -> Location<F>
        ensures { result ≡ self.now.floor }
    {
        Location::new(self.floor.get())
    }

    /// Up to where the list may be pruned: the floor.
    pub fn sync_boundary(&self) -> Location<F>
        ensures { result ≡ self.now.floor }
    {
        self.inactivity_floor_loc()
    }

    /// How many keys are live.
    pub fn active_keys(&self) -> u64
        ensures { result ≡ self.now.live }
    {
        self.live
    }

    /// Whether no key is live.
    pub fn is_empty(&self) -> bool
        ensures { result ≡ (if nat_lt 0 self.now.live then false else true) }
    {
        self.live == 0
    }

    /// With how many workers the database was opened.
    pub fn strategy(&self) -> usize
        ensures { result ≡ 1 }
    {
        1
    }

    // Size and root of the list.
    pub(crate) fn commitment(&self) -> &Commitment<H::Digest>
        ensures value { commitment_view H.Digest.bytes result.now ≡ self.now.commitment }
        ensures size { result.now.size ≡ self.now.commitment.size }
    {
        &self.commitment
    }

    /// The database's hasher, with its tree and its bits beside it: what else is hashed while these are read takes no hasher of its
    /// own. The database is as it was when they are given back.
    pub fn split(&mut self) -> (&mut StandardHasher<H>, &Mem<F, H::Digest>, &Prunable<N>)
        ensures* same { sem 𝓛 (Lends
            (the_row F.row C.row I.row H.row U.row N.row H.Digest.row U.Key.row U.Value.row F.Family
            C.Store I.Unordered H.Hasher H.Digest.Digest U.Update U.Key.ByteString
            U.Value.ByteString N.Chunks) (hasher_row H.row) self.entry result.0 (λ _. self.old)) }
        ensures tree { result.1.now ≡ self.old.log.tree }
        ensures bits { result.2.now ≡ self.old.activity }
    {
        let (hasher, tree) = self.log.split();
        (hasher, tree, &self.activity)
    }

    /// The tree over the list.
    pub fn tree(&self) -> &Mem<F, H::Digest>
        ensures value { result.now ≡ self.now.log.tree }
        ensures size { self.now.log.tree.leaves ≡ self.now.commitment.size }
        ensures stands { AtList C.Store ⟦<Self as LaidOut>⟧.layout self.now (λ list.
            Stands F.shape H.Digest.bytes H.hash result.now
            (trees.leaves_from H.hash F.shape U.form 0 list)) }
    {
        self.log.tree()
    }

    /// The store.
    pub fn store(&self) -> &C
        ensures { result.now ≡ self.now.log.store }
    {
        self.log.store()
    }

    /// The bits of the list: set where a live update stands and at the last commit.
    pub fn bitmap(&self) -> &Prunable<N>
        ensures { result.now ≡ self.now.activity }
    {
        &self.activity
    }

    /// Gives the store back, as it is.
    pub fn close(self) -> C
    where
        I: Drop,
        H: Drop,
        ensures { result ≡ self.log.store }
    {
        self.log.close()
    }
}

impl<
    F: Family,
    C: Store,
    I: qm_index::Unordered<Value = Location<F>>,
    H: Hasher,
    U: Steps<F, I>,
    N: Chunks,
> Db<F, C, I, H, U, N> {
    // What is wanted, and metadata, make of a base list, under a policy.
    pub(crate) fn plan<P: Policy<F, U::Key, U::Value>>(
        &mut self,
        alloc: Global,
        base: &Base<'_, F, U>,
        wanted: Wanted<'_, F, U>,
        metadata: Option<U::Value>,
        policy: &mut P,
    ) -> Result<Plan<F, U>, Error>
        requires base { (base.now.size ≤ 2 ^ 62) × (base.now.live ≤ base.now.size) }
        requires slots { length wanted.slots.now ≡ length wanted.reads.now }
        ensures plan { let making = making_of P.rules policy.old
            (wanted_view U.Key.bytes U.Value.bytes wanted.entry) (option_map U.Value.bytes metadata)
            in (list known : List Operation) → ⟦<Self as LaidOut>⟧.stands self.old list
            → IsBase (base_view base.now) list known → HasRing U.form known
            → AreReads U.view U.Key.bytes wanted.entry.reads.now known
            → IfOk result (λ plan.
            IsPlan plan known (list_made U.form making known) (evicted_made U.form making known)
            × (policy.new ≡ policy_left U.form making known)) }
        ensures live { IfOk result (λ plan. plan.live ≤ base.now.size + length plan.operations) }
        ensures error { IfErr result (IsReadError C.Store self.old.log self.new.log) }
        ensures whole { (list : List Operation) → ⟦<Self as LaidOut>⟧.stands self.old list
            → self.old.log.tree.start ≤ base.now.floor
            → IfErr result (λ e. (n : ℕ) → e ≢ Error.Journal (JournalError.ItemPruned n)) }
        ensures left { IsLeft C.Store ⟦<Self as LaidOut>⟧.layout.hashing self.old self.new }
    {
        staged(
            alloc,
            &self.index,
            &self.activity,
            &mut self.log,
            base,
            wanted,
            metadata,
            policy,
        )
    }
}

impl<
    F: Family,
    C: Store,
    I: qm_index::Unordered<Value = Location<F>>,
    H: Hasher,
    U: Update,
    N: Chunks,
> fmt::Debug for Db<F, C, I, H, U, N> {
    fn fmt<W: fmt::Write>(&self, f: &mut fmt::Formatter<W>) -> fmt::Result {
        let (start, size) = self.log.bounds();
        f.debug_struct("Db")
            .field("start", &start)
            .field("size", &size)
            .field("floor", &self.floor.get())
            .finish()
    }
}

// The value of a key that was read: that of its last write or, if it has none, the one that was found.
fn value_of<F, U: Update>(
    alloc: Global,
    writes: &Writes<U::Key, U::Value>,
    read: &Read<F, U>,
) -> Result<Option<U::Value>, AllocError>
    ensures { IfOk result (λ value. option_map U.Value.bytes value
        ≡ read_under writes.now (U.Key.bytes read.now.key)
        (option_map (read_view U.view) read.now.found)) }
{
    if let Some(write) = writes.last(read.key.as_bytes()) {
        return twin_option(alloc, &write.value);
    }
    match &read.found {
        Some((_, update)) => Ok(Some(update.value().twin(alloc)?)),
        None => Ok(None),
    }
}

// The values of keys that were read, in their order.
pub(crate) fn values_of<F, U: Update>(
    alloc: Global,
    writes: &Writes<U::Key, U::Value>,
    reads: &[Read<F, U>],
) -> Result<Vec<Option<U::Value>>, AllocError>
    ensures { IfOk result (λ values. map (option_map U.Value.bytes) values.items
        ≡ map (λ r.
        read_under writes.now (U.Key.bytes r.key) (option_map (read_view U.view) r.found))
        reads.now) }
{
    let mut values = Vec::with_capacity(alloc, reads.len())?;
    for read in reads {
        let value = value_of(alloc, writes, read)?;
        values.push(value)?;
    }
    Ok(values)
}

// The database of a log that has a batch's list, if the index takes it too.
fn indexed<
    F: Family,
    C: Store,
    I: qm_index::Unordered<Value = Location<F>> + Drop,
    H: Hasher + Drop,
    U: Update,
    N: Chunks,
>(
    state: State<F, I, H::Digest, U, N>,
    log: AuthLog<F, C, H>,
    diffs: &[Rc<Diff<F, U::Key, U::Value>>],
    batch: &MerkleizedBatch<F, H::Digest, U>,
    metadata: Option<Rc<U::Value>>,
) -> Result<Db<F, C, I, H, U, N>, Refusal<Db<F, C, I, H, U, N>, C>>
    requires size { batch.now.bounds.tip.size ≡ log.tree.leaves }
    requires grown { state.commitment.size ≤ log.tree.leaves }
    requires end { C.end log.store ≡ log.tree.leaves }
    ensures log { IfOk result (λ next. next.log ≡ log) }
    ensures index { IfOk result (λ next. (list tip : List Operation)
        → LeadTo (map (λ d. changes_view U.Key.bytes U.Value.bytes d.value) diffs.now) list tip
        → IsIndexed I.index_key state.entries list
        → IsIndexed I.index_key next.entries tip) }
    ensures active { IfOk result (λ next. (list tip : List Operation)
        → LeadTo (map (λ d. changes_view U.Key.bytes U.Value.bytes d.value) diffs.now) list tip
        → IsCommitEnded list → batch.now.bounds.tip.size ≡ length tip
        → all_bits N.LEN state.activity ≡ bits list
        → all_bits N.LEN next.activity ≡ bits tip) }
    ensures rest { IfOk result (λ next. (next.commitment ≡ batch.now.bounds.tip)
        × (next.floor ≡ batch.now.bounds.inactivity_floor) × (next.live ≡ batch.now.live)
        × (next.metadata ≡ option_map (λ m. U.Value.bytes m.value) metadata)) }
    ensures pruned { IfOk result (λ next. next.activity.pruned ≡ state.activity.pruned) }
    ensures back { IfErr result (λ r.
        (r.given ≡ Given.Store log.store) × (r.error ≡ Error.Memory)) }
{
    let State {
        mut index,
        mut activity,
        ..
    } = state;
    match brought_up(&mut index, &mut activity, batch.bounds.tip.size, diffs) {
        Ok(()) => Ok(Db {
            index,
            activity,
            log,
            commitment: batch.bounds.tip,
            floor: Location::new(batch.bounds.inactivity_floor.get()),
            live: batch.live,
            metadata,
        }),
        Err(_) => Err(Refusal {
            given: Given::Store(log.close()),
            error: Error::Memory,
        }),
    }
}

// Index and bits of a batch's list, of which the database lacked the steps that make these differences.
fn brought_up<
    F: Family,
    I: qm_index::Unordered<Value = Location<F>>,
    K: ByteString,
    V: ByteString,
    N: Chunks,
>(
    index: &mut I,
    activity: &mut Prunable<N>,
    size: u64,
    diffs: &[Rc<Diff<F, K, V>>],
) -> Result<(), AllocError>
    requires bits { bit_count N.LEN activity.old ≤ size }
    requires few { size ≤ 2 ^ 62 }
    ensures index { (list tip : List Operation)
        → LeadTo (map (λ d. changes_view K.bytes V.bytes d.value) diffs.now) list tip
        → IsIndexed I.index_key (I.entries index.old) list
        → OnOk result (IsIndexed I.index_key (I.entries index.new) tip) }
    ensures count { OnOk result (bit_count N.LEN activity.new ≡ size) }
    ensures pruned { OnOk result (activity.new.pruned ≡ activity.old.pruned) }
    ensures active { (list tip : List Operation)
        → LeadTo (map (λ d. changes_view K.bytes V.bytes d.value) diffs.now) list tip
        → IsCommitEnded list → size ≡ length tip → all_bits N.LEN activity.old ≡ bits list
        → OnOk result (all_bits N.LEN activity.new ≡ bits tip) }
    ensures err { OnErr result (activity.new ≡ activity.old) }
{
    apply_diffs(index, diffs)?;
    apply_bits(activity, size, diffs)
}

// What a database gives back if its log refused.
fn given_back<
    F: Family,
    C: Store,
    I: qm_index::Unordered<Value = Location<F>> + Drop,
    H: Hasher,
    U: Update,
    N: Chunks,
>(
    state: State<F, I, H::Digest, U, N>,
    given: LogGiven<AuthLog<F, C, H>, C>,
) -> Given<Db<F, C, I, H, U, N>, C>
    requires { (log : logs.Log C H.Digest) → given ≡ LogGiven.Log log
        → (state.commitment.size ≡ log.tree.leaves) × (C.end log.store ≡ log.tree.leaves) }
    ensures store { store_given (λ db. db.log.store) result ≡ logs.store_given given }
    ensures back { (x : Database C H.Digest) → result ≡ Given.Database x
        → (given ≡ LogGiven.Log x.log) × (x ≡ over state x.log) }
    ensures kept { (s : C) → result ≡ Given.Store s → given ≡ LogGiven.Store s }
{
    match given {
        LogGiven::Log(log) => Given::Database(state.over(log)),
        LogGiven::Store(store) => Given::Store(store),
    }
}
