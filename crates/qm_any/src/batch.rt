//! Batches: writes that are recorded, and the list that they make.

ghost use Rattle.std.specs.Prelude.{◌≡◌, ◌⊎◌, ◌↔◌, ◌≤◌, ◌<◌, ◌+◌, ◌^◌, ◌++◌, ◌∷◌, ℕ, suc, min, [], List, None, true, false, length, map, take, option_map, All, Contains, IsSome, IfSome, IfOk, IfErr, OnOk};
ghost use Rattle.qm_model.specs.Batches.{Chain, child_of, own_operations};
ghost use Rattle.qm_model.specs.Live as lives;
ghost use Rattle.qm_model.specs.Forms.{spelling};
ghost use Rattle.qm_model.specs.Operations.{Operation};
ghost use Rattle.qm_model.specs.Proofs.{ops_proof, pins_at};
ghost use Rattle.qm_model.specs.Trees as trees;
ghost use Rattle.qm_model.specs.Writes.{read_through};
ghost use Rattle.qm_merkle.specs.Batches.{AreLinked, layers_at, stops};
ghost use Rattle.qm_proofs.specs.Proofs.{proof_view, first_lacked, needed_positions};
ghost use Rattle.qm_chain.specs.Bounds.{commitment_view, is_at, knows};
ghost use Rattle.qm_step.specs.Bases.{base_view};
ghost use Rattle.qm_step.specs.PlanViews.{pair_views};
ghost use Rattle.qm_step.specs.Views.{changes_view, keys_of, write_view, AreReads};
ghost use Rattle.qm_any.specs.Databases.{AreAgreed, IsBegun, IsMade, base_of, bases, child_boundary, child_made, child_tips, operations_in, unapplied};
ghost use Rattle.qm_store.specs.KeptTrees.{held_at};
ghost use Rattle.qm_any.specs.Reasons.{IsNodeError};
ghost use Rattle.qm_any.specs.Tips.{IsPlaced, IsTreeAfter, IsUnplaced};
ghost use Rattle.qm_operations.specs.Views.{operation_views};
ghost use Rattle.qm_any.specs.Layouts.{Hashing, hashing_with};
ghost use Rattle.qm_any.specs.Reading.{ReadsThrough, AtMade, AtBegun};

use crate::db::{Db, LaidOut, values_of};
use crate::operations::{Step, diffs_of, share, shared_twin, spelled_steps, unapplied_of};
use qm_base::{ByteString, Commitment, Digest, Error, Hasher, Location};
use qm_batch::{Base, Layer, Plan, Read, Write, Writes};
use qm_bits::Chunks;
use qm_chain::{Bounds, Diff, validate_batch_applicable};
use qm_merkle::{Family, Position};
use qm_operations::{Update, ValueEncoding};
use qm_proofs::Proof;
use qm_store::{KeptTree, Store};
use std::alloc::{AllocError, Global};
use std::marker::Model;
use std::rc::Rc;

/// A batch: writes that are recorded on a list, which is a database's or a merkleized batch's.
#[derive(Drop)]
pub struct UnmerkleizedBatch<F: Family, D: Digest, U: Update> {
    parent: Rc<MerkleizedBatch<F, D, U>>,
    keep: usize,
    writes: Writes<U::Key, U::Value>,
}

impl<F: Family, D: Digest, U: Update> Model for UnmerkleizedBatch<F, D, U> {
    ghost use Rattle.std.specs.Prelude.{◌≤◌, suc, length};
    ghost use Rattle.qm_any.specs.Databases.{Begun};

    ghost Value = { Begun D };

    ghost view = { λ b. record { parent = b.parent.value; keep = b.keep; writes = b.writes } };

    ghost invariant = { λ b. b.keep ≤ suc (length b.parent.value.bounds.ancestors) };
}

/// A merkleized batch: the step that its writes make, those of the ancestors that it keeps, the states of a database that it
/// knows, and what its step evicted.
#[derive(Drop)]
pub struct MerkleizedBatch<F: Family, D: Digest, U: Update> {
    pub(crate) bounds: Bounds<F, D>,
    pub(crate) steps: Vec<Rc<Layer<F, U>>>,
    diffs: Vec<Rc<Diff<F, U::Key, U::Value>>>,
    pub(crate) tree: KeptTree<F, D>,
    pub(crate) live: u64,
    pub(crate) metadata: Option<Rc<U::Value>>,
    evicted: Vec<(U::Key, U::Value)>,
}

impl<F: Family, D: Digest, U: Update> Model for MerkleizedBatch<F, D, U> {
    ghost use Rattle.std.specs.Prelude.{◌≡◌, map, option_map};
    ghost use Rattle.qm_step.specs.PlanViews.{pair_views};
    ghost use Rattle.qm_step.specs.Views.{changes_view};
    ghost use Rattle.qm_any.specs.Databases.{Made, AreAgreed};

    ghost Value = { Made D };

    ghost view = { λ b. record { bounds = b.bounds; layers = map (λ l. l.value) b.steps.items; tree = b.tree; live = b.live; metadata = option_map (λ m. U.Value.bytes m.value) b.metadata; evicted = pair_views U.Key.bytes U.Value.bytes b.evicted.items } };

    ghost invariant = { λ b. AreAgreed {D = D} (record { bounds = b.bounds; layers = map (λ l. l.value) b.steps.items; tree = b.tree; live = b.live; metadata = option_map (λ m. U.Value.bytes m.value) b.metadata; evicted = pair_views U.Key.bytes U.Value.bytes b.evicted.items })
        × (map (λ d. changes_view U.Key.bytes U.Value.bytes d.value) b.diffs.items ≡ map (λ l. l.changes) (map (λ l. l.value) b.steps.items)) };
}

/// What a database lacks of a batch's list.
#[derive(Drop)]
pub(crate) struct Lacking<'a, F, U: Update> {
    /// The spellings of the operations that it lacks.
    pub(crate) items: Vec<Vec<u8>>,
    /// What these do to keys, by steps, newest first.
    pub(crate) diffs: &'a [Rc<Diff<F, U::Key, U::Value>>],
    /// The metadata of the list.
    pub(crate) metadata: Option<Rc<U::Value>>,
}

/// What a child has of its parent and of a database, beside its plan.
#[derive(Drop)]
pub(crate) struct Child<D: Digest, U: Update> {
    /// What stands for its boundary.
    pub(crate) boundary: Commitment<D>,
    /// What stands for the tips of the ancestors that it keeps, newest first.
    pub(crate) tips: Vec<Commitment<D>>,
    /// The metadata of its list.
    pub(crate) metadata: Option<Rc<U::Value>>,
}

impl<F: Family, D: Digest, U: Update> UnmerkleizedBatch<F, D, U> {
    // A batch on the list of a merkleized one, with no writes yet, that keeps the first `keep` ancestors, counting the parent.
    pub(crate) fn begun(alloc: Global, parent: Rc<MerkleizedBatch<F, D, U>>, keep: usize) -> Self
        requires { keep ≤ suc (length parent.value.bounds.ancestors) }
        ensures { result ≡ record { parent = parent.value; keep = keep; writes = [] } }
    {
        UnmerkleizedBatch {
            parent,
            keep,
            writes: Writes::new(alloc),
        }
    }

    // What it is begun on, how many ancestors it keeps, and its writes.
    pub(crate) fn parts(&self) -> (&MerkleizedBatch<F, D, U>, usize, &[Write<U::Key, U::Value>])
        ensures parent { result.0.now ≡ self.now.parent }
        ensures keep { result.1 ≡ self.now.keep }
        ensures few { result.1 ≤ suc (length result.0.now.bounds.ancestors) }
        ensures writes { map (write_view U.Key.bytes U.Value.bytes) result.2.now ≡ self.now.writes }
    {
        (&self.parent, self.keep, self.writes.as_slice())
    }

    /// Records a write: a value for the key, or its deletion. The last write of a key counts. If memory lacks the batch
    /// is gone.
    pub fn write(self, key: U::Key, value: Option<U::Value>) -> Result<Self, AllocError>
        ensures { IfOk result (λ b. b
            ≡ record self {
              writes = self.writes
                  ++ record { key = U.Key.bytes key; value = option_map U.Value.bytes value }
                  ∷ [];
            }) }
    {
        let UnmerkleizedBatch {
            parent,
            keep,
            writes,
        } = self;
        let writes = writes.push(key, value)?;
        Ok(UnmerkleizedBatch {
            parent,
            keep,
            writes,
        })
    }

    /// The value of a key as the batch has it: that of its last write or, if it has none, the one on its base list. It
    /// is read if the database is at a state that the batch's parent knows; the parent of a batch that was begun on a
    /// database is that database as it was. A key that no kept step touches takes one read of the log for each location
    /// in its bucket, at most.
    pub fn get<
        C: Store,
        I: qm_index::Unordered<Value = Location<F>>,
        H: Hasher<Digest = D>,
        N: Chunks,
    >(
        &self,
        alloc: Global,
        key: &U::Key,
        db: &mut Db<F, C, I, H, U, N>,
    ) -> Result<Option<U::Value>, Error>
        ensures value { AtBegun C.Store ⟦<Db<F, C, I, H, U, N> as LaidOut>⟧.layout db.old self.now
            (λ chain above. IfOk result (λ v. option_map U.Value.bytes v
            ≡ read_through chain.base self.now.writes (U.Key.bytes key.now))) }
        ensures reads { ReadsThrough C.Store ⟦<Db<F, C, I, H, U, N> as LaidOut>⟧.layout db.old
            db.new result self.now.parent.bounds }
    {
        self.parent.known(db.commitment())?;
        db.read_one(alloc, &self.parent.steps, &self.writes, key)
    }

    /// The values of keys, in their order, as `get` reads them.
    pub fn get_many<
        C: Store,
        I: qm_index::Unordered<Value = Location<F>>,
        H: Hasher<Digest = D>,
        N: Chunks,
    >(
        &self,
        alloc: Global,
        keys: &[U::Key],
        db: &mut Db<F, C, I, H, U, N>,
    ) -> Result<Vec<Option<U::Value>>, Error>
        ensures values { AtBegun C.Store ⟦<Db<F, C, I, H, U, N> as LaidOut>⟧.layout db.old self.now
            (λ chain above. IfOk result (λ v. map (option_map U.Value.bytes) v.items
            ≡ map (λ k. read_through chain.base self.now.writes (U.Key.bytes k)) keys.now)) }
        ensures reads { ReadsThrough C.Store ⟦<Db<F, C, I, H, U, N> as LaidOut>⟧.layout db.old
            db.new result self.now.parent.bounds }
    {
        self.parent.known(db.commitment())?;
        db.read_all(alloc, &self.parent.steps, &self.writes, keys)
    }

    // Keys in their order, each with what the base list has of it, and their values, as `get_many` reads them.
    pub(crate) fn located<
        C: Store,
        I: qm_index::Unordered<Value = Location<F>>,
        H: Hasher<Digest = D>,
        N: Chunks,
    >(
        &self,
        alloc: Global,
        keys: Vec<U::Key>,
        db: &mut Db<F, C, I, H, U, N>,
    ) -> Result<(Vec<Read<F, U>>, Vec<Option<U::Value>>), Error>
        ensures keys { IfOk result (λ r.
            keys_of U.Key.bytes r.0.items ≡ map U.Key.bytes keys.items) }
        ensures found { AtBegun C.Store ⟦<Db<F, C, I, H, U, N> as LaidOut>⟧.layout db.old self.now
            (λ chain above. IfOk result (λ r. AreReads U.view U.Key.bytes r.0.items chain.base)) }
        ensures values { AtBegun C.Store ⟦<Db<F, C, I, H, U, N> as LaidOut>⟧.layout db.old self.now
            (λ chain above. IfOk result (λ r. map (option_map U.Value.bytes) r.1.items
            ≡ map (λ k. read_through chain.base self.now.writes (U.Key.bytes k)) keys.items)) }
        ensures reads { ReadsThrough C.Store ⟦<Db<F, C, I, H, U, N> as LaidOut>⟧.layout db.old
            db.new result self.now.parent.bounds }
    {
        self.parent.known(db.commitment())?;
        let reads = db.find_all(alloc, &self.parent.steps, keys)?;
        let values = values_of(alloc, &self.writes, &reads)?;
        Ok((reads, values))
    }
}

impl<F: Family, D: Digest, U: Update> MerkleizedBatch<F, D, U> {
    /// The operations root of the list that the batch makes.
    pub fn root(&self) -> D
        ensures { D.bytes result ≡ self.now.bounds.tip.root }
    {
        self.bounds.tip.root
    }

    /// The digest of the node at this position of the tree of the list that the batch makes, if the tree came to have it
    /// after the batch's boundary. Older nodes are in a database at a state that the batch knows, unless it has pruned them.
    pub fn get_node(&self, position: Position<F>) -> Option<D>
        ensures exact { result ≡ layers_at F.shape self.now.tree.layers position }
        ensures linked { AreLinked F.shape self.now.tree.leaves self.now.tree.layers }
        ensures held { (hash : List ℕ → List ℕ) (chain : Chain) (tip : List Operation)
            → IsMade (hashing_with D.bytes hash F.shape U.form) self.now chain tip
            → (IsSome result
            ↔ ((trees.Shape.size F.shape self.now.bounds.db.size ≤ position)
            × (position < trees.Shape.size F.shape self.now.bounds.tip.size))) }
        ensures value { (hash : List ℕ → List ℕ) (chain : Chain) (tip : List Operation)
            → IsMade (hashing_with D.bytes hash F.shape U.form) self.now chain tip
            → (x : trees.Node) → trees.Shape.position F.shape x ≡ position
            → IfSome result (λ d. D.bytes d
            ≡ trees.digest_of hash F.shape (trees.leaves_from hash F.shape U.form 0 tip) x) }
    {
        self.tree.get_node(position)
    }

    /// The keys that the batch's step evicted, in the order of the walk, each with the value that it had; none of a database as
    /// a batch.
    pub fn evicted(&self) -> &[(U::Key, U::Value)]
        ensures { pair_views U.Key.bytes U.Value.bytes result.now ≡ self.now.evicted }
    {
        &self.evicted
    }

    /// The states of a database that the batch knows, and the floor of its commit.
    pub fn bounds(&self) -> &Bounds<F, D>
        ensures bounds { result.now ≡ self.now.bounds }
        ensures agreed { AreAgreed self.now }
    {
        &self.bounds
    }

    /// Where the batch's own operations begin, and these.
    pub fn operations(&self) -> (Location<F>, &[qm_operations::Operation<F, U>])
        ensures base { result.0 ≡ self.now.bounds.base.size }
        ensures own { (hashing : Hashing D) (chain : Chain) (tip : List Operation)
            → IsMade hashing self.now chain tip
            → operation_views U.view U.Key.bytes U.Value.bytes result.1.now
            ≡ own_operations chain tip }
        ensures count { result.0 + length result.1.now ≡ self.now.bounds.tip.size }
    {
        (
            Location::new(self.bounds.base.size),
            self.steps[0].operations(),
        )
    }

    /// What the steps of the batch and of its kept ancestors do to keys, the batch's own first. It takes no memory.
    pub fn diffs(&self) -> &[Rc<Diff<F, U::Key, U::Value>>]
        ensures { map (λ d. changes_view U.Key.bytes U.Value.bytes d.value) result.now
            ≡ map (λ l. l.changes) self.now.layers }
    {
        &self.diffs
    }

    /// Begins a batch on the list that this one makes. It keeps this one and all that this one keeps: it can be applied
    /// after them, or in one step with those that are not applied yet.
    pub fn new_batch(
        batch: &Rc<Self>,
        alloc: Global,
    ) -> Result<UnmerkleizedBatch<F, D, U>, AllocError>
        ensures value { IfOk result (λ b. b
            ≡ record {
              parent = batch.now.value;
              keep = suc
                  (length batch.now.value.bounds.ancestors);
              writes = [];
            }) }
        ensures begun { (hashing : Hashing D) (chain : Chain) (tip : List Operation)
            → IsMade hashing batch.now.value chain tip
            → IfOk result (λ b. IsBegun hashing b (child_of None chain tip) chain) }
    {
        Self::new_batch_keeping(batch, alloc, batch.bounds.ancestors.len())
    }

    /// Begins a batch on the list that this one makes, which keeps this one and the first `n` that this one keeps, newest
    /// first, or all if there are fewer.
    pub fn new_batch_keeping(
        batch: &Rc<Self>,
        alloc: Global,
        n: usize,
    ) -> Result<UnmerkleizedBatch<F, D, U>, AllocError>
        ensures value { IfOk result (λ b. b
            ≡ record {
              parent = batch.now.value;
              keep = suc
                  (min n (length batch.now.value.bounds.ancestors));
              writes = [];
            }) }
        ensures begun { (hashing : Hashing D) (chain : Chain) (tip : List Operation)
            → IsMade hashing batch.now.value chain tip
            → IfOk result (λ b. IsBegun hashing b (child_of (Some n) chain tip) chain) }
    {
        let keep = n.min(batch.bounds.ancestors.len()) + 1;
        let parent = batch.clone()?;
        Ok(UnmerkleizedBatch::begun(alloc, parent, keep))
    }

    /// The value of a key on the list that the batch makes. It is read if the database is at a state that the batch
    /// knows: its tip, its boundary, or a kept ancestor's tip.
    pub fn get<
        C: Store,
        I: qm_index::Unordered<Value = Location<F>>,
        H: Hasher<Digest = D>,
        N: Chunks,
    >(
        &self,
        alloc: Global,
        key: &U::Key,
        db: &mut Db<F, C, I, H, U, N>,
    ) -> Result<Option<U::Value>, Error>
        ensures value { AtMade C.Store ⟦<Db<F, C, I, H, U, N> as LaidOut>⟧.layout db.old self.now
            (λ chain tip. IfOk result (λ v.
            option_map U.Value.bytes v ≡ lives.value_of tip (U.Key.bytes key.now))) }
        ensures reads { ReadsThrough C.Store ⟦<Db<F, C, I, H, U, N> as LaidOut>⟧.layout db.old
            db.new result self.now.bounds }
    {
        self.known(db.commitment())?;
        let writes = Writes::new(alloc);
        db.read_one(alloc, &self.steps, &writes, key)
    }

    /// The values of keys, in their order, as `get` reads them.
    pub fn get_many<
        C: Store,
        I: qm_index::Unordered<Value = Location<F>>,
        H: Hasher<Digest = D>,
        N: Chunks,
    >(
        &self,
        alloc: Global,
        keys: &[U::Key],
        db: &mut Db<F, C, I, H, U, N>,
    ) -> Result<Vec<Option<U::Value>>, Error>
        ensures values { AtMade C.Store ⟦<Db<F, C, I, H, U, N> as LaidOut>⟧.layout db.old self.now
            (λ chain tip. IfOk result (λ v. map (option_map U.Value.bytes) v.items
            ≡ map (λ k. lives.value_of tip (U.Key.bytes k)) keys.now)) }
        ensures reads { ReadsThrough C.Store ⟦<Db<F, C, I, H, U, N> as LaidOut>⟧.layout db.old
            db.new result self.now.bounds }
    {
        self.known(db.commitment())?;
        let writes = Writes::new(alloc);
        db.read_all(alloc, &self.steps, &writes, keys)
    }

    /// The proof of the batch's own operations in the list that it makes. It verifies against the batch's root.
    pub fn proof<
        C: Store,
        I: qm_index::Unordered<Value = Location<F>>,
        H: Hasher<Digest = D>,
        N: Chunks,
    >(&self, alloc: Global, db: &Db<F, C, I, H, U, N>) -> Result<Proof<D>, Error>
        ensures proof { AtMade C.Store ⟦<Db<F, C, I, H, U, N> as LaidOut>⟧.layout db.now self.now
            (λ chain tip. IfOk result (λ p. proof_view D.bytes p
            ≡ ops_proof H.hash F.shape U.form tip (length chain.base) (length tip))) }
        ensures readable { OnOk result (knows self.now.bounds db.now.commitment ≡ true) }
        ensures held { OnOk result (first_lacked (held_at F.shape self.now.tree db.now.log.tree)
            (needed_positions F.shape self.now.bounds.tip.size self.now.bounds.base.size
            self.now.bounds.tip.size)
            ≡ None) }
        ensures lacking { IfErr result (IsNodeError (knows self.now.bounds db.now.commitment)
            (held_at F.shape self.now.tree db.now.log.tree) (needed_positions F.shape
            self.now.bounds.tip.size self.now.bounds.base.size self.now.bounds.tip.size)) }
        ensures whole { C.start db.now.log.store ≡ 0 → AtMade C.Store
            ⟦<Db<F, C, I, H, U, N> as LaidOut>⟧.layout db.now self.now
            (λ chain tip. IfErr result (λ e. e ≡ Error.Memory)) }
    {
        self.known(db.commitment())?;
        // The log is kept from where its store is.
        db.log.bounds();
        let (start, end) = (self.start(), self.tree.leaves());
        let inactive = F::inactive_peaks(Location::new(end), Location::new(self.floor()));
        self.tree.proof(alloc, &db.log, inactive, start, end)
    }

    /// The digests of the peaks over the list that the batch was made from, from left to right.
    pub fn pinned_nodes<
        C: Store,
        I: qm_index::Unordered<Value = Location<F>>,
        H: Hasher<Digest = D>,
        N: Chunks,
    >(&self, alloc: Global, db: &Db<F, C, I, H, U, N>) -> Result<Vec<D>, Error>
        ensures pins { AtMade C.Store ⟦<Db<F, C, I, H, U, N> as LaidOut>⟧.layout db.now self.now
            (λ chain tip. IfOk result (λ pins.
            map D.bytes pins.items ≡ pins_at H.hash F.shape U.form tip (length chain.base))) }
        ensures readable { OnOk result (knows self.now.bounds db.now.commitment ≡ true) }
        ensures held { OnOk result (first_lacked (held_at F.shape self.now.tree db.now.log.tree)
            (trees.peak_positions F.shape self.now.bounds.base.size)
            ≡ None) }
        ensures lacking { IfErr result (IsNodeError (knows self.now.bounds db.now.commitment)
            (held_at F.shape self.now.tree db.now.log.tree)
            (trees.peak_positions F.shape self.now.bounds.base.size)) }
        ensures whole { C.start db.now.log.store ≡ 0 → AtMade C.Store
            ⟦<Db<F, C, I, H, U, N> as LaidOut>⟧.layout db.now self.now
            (λ chain tip. IfErr result (λ e. e ≡ Error.Memory)) }
    {
        self.known(db.commitment())?;
        // The log is kept from where its store is.
        db.log.bounds();
        self.tree.pins(alloc, &db.log, self.start())
    }

    // The database at rest as a batch: a step that does nothing.
    pub(crate) fn at_rest(
        alloc: Global,
        commitment: Commitment<D>,
        floor: Location<F>,
        live: u64,
        metadata: Option<Rc<U::Value>>,
    ) -> Result<Rc<Self>, AllocError>
        requires few { commitment.size ≤ 2 ^ 62 }
        requires live { live ≤ commitment.size }
        ensures { IfOk result (λ b. b.value
            ≡ record {
              bounds = record {
                base = commitment_view D.bytes commitment;
                db =
                    commitment_view D.bytes commitment;
                tip = commitment_view D.bytes commitment;
                ancestors
                    = [];
                inactivity_floor = floor;
              };
              layers = record
                  { base = commitment.size; operations = []; changes = [] }
                  ∷ [];
              tree = record { leaves = commitment.size; layers = [] };
              live = live;
              metadata =
                  option_map (λ m. U.Value.bytes m.value) metadata;
              evicted = [];
            }) }
    {
        let steps = resting(alloc, commitment.size)?;
        let diffs = diffs_of(alloc, &steps)?;
        let bounds = Bounds {
            base: commitment,
            db: commitment,
            tip: commitment,
            ancestors: Vec::new(alloc),
            inactivity_floor: floor,
        };
        let tree = KeptTree::at_rest(commitment.size);
        Ok(Rc::new(
            alloc,
            MerkleizedBatch {
                bounds,
                steps,
                diffs,
                tree,
                live,
                metadata,
                evicted: Vec::new(alloc),
            },
        )?)
    }

    // What stands for the tips of the first `keep` ancestors, counting this batch, newest first.
    fn child_tips(&self, alloc: Global, keep: usize) -> Result<Vec<Commitment<D>>, AllocError>
        requires { keep ≤ suc (length self.now.bounds.ancestors) }
        ensures { IfOk result (λ tips.
            map (commitment_view D.bytes) tips.items ≡ child_tips keep self.now.bounds) }
    {
        if keep == 0 {
            return Ok(Vec::new(alloc));
        }
        let (kept, _) = self.bounds.ancestors.split_at(keep - 1);
        let mut tips = Vec::from_slice(alloc, kept)?;
        tips.insert(0, self.bounds.tip)?;
        Ok(tips)
    }

    // What stands for the boundary of a child that keeps the first `keep` ancestors.
    fn child_boundary(&self, keep: usize) -> Commitment<D>
        ensures { commitment_view D.bytes result ≡ child_boundary keep self.now.bounds }
    {
        if keep == 0 {
            return self.bounds.tip;
        }
        match self.bounds.ancestors.get(keep - 1) {
            Some(state) => *state,
            None => self.bounds.db,
        }
    }

    // What a child that keeps the first `keep` ancestors has beside its plan, if it can be made at this state of a database.
    pub(crate) fn child(
        &self,
        alloc: Global,
        keep: usize,
        current: &Commitment<D>,
        metadata: &Option<U::Value>,
    ) -> Result<Child<D, U>, Error>
        requires { keep ≤ suc (length self.now.bounds.ancestors) }
        ensures placed { IfOk result (λ child. IsPlaced self.now keep
            (commitment_view D.bytes current.now) (commitment_view D.bytes child.boundary)
            (map (commitment_view D.bytes) child.tips.items)) }
        ensures metadata { IfOk result (λ child.
            option_map (λ m. U.Value.bytes m.value) child.metadata
            ≡ option_map U.Value.bytes metadata.now) }
        ensures refused { IfErr result
            (IsUnplaced self.now keep (commitment_view D.bytes current.now)) }
    {
        let tips = self.child_tips(alloc, keep)?;
        let boundary = self.child_boundary(keep);
        validate_batch_applicable(current, &boundary, &tips)?;
        let metadata = shared_twin(alloc, metadata)?;
        Ok(Child {
            boundary,
            tips,
            metadata,
        })
    }

    // The steps of a child, its own after a list of this size, then the first `keep` of these, newest first, and what they do to keys.
    fn child_steps(
        &self,
        alloc: Global,
        size: u64,
        operations: Vec<qm_operations::Operation<F, U>>,
        diff: Diff<F, U::Key, U::Value>,
        keep: usize,
    ) -> Result<(Vec<Step<F, U>>, Vec<Rc<Diff<F, U::Key, U::Value>>>), AllocError>
        requires { keep ≤ suc (length self.now.bounds.ancestors) }
        ensures steps { IfOk result (λ r. map (λ l. l.value) r.0.items
            ≡ record {
              base = size;
              operations = operation_views U.view U.Key.bytes U.Value.bytes
                  operations.items;
              changes = changes_view U.Key.bytes U.Value.bytes diff;
            }
            ∷ take keep self.now.layers) }
        ensures diffs { IfOk result (λ r.
            map (λ d. changes_view U.Key.bytes U.Value.bytes d.value) r.1.items
            ≡ map (λ l. l.changes) (map (λ l. l.value) r.0.items)) }
    {
        let (kept, _) = self.steps.split_at(keep);
        let own = own_step(alloc, size, operations, diff)?;
        let mut steps = kept.to_vec(alloc)?;
        steps.insert(0, own)?;
        let diffs = diffs_of(alloc, &steps)?;
        Ok((steps, diffs))
    }

    // What is known of the list that the batch makes.
    pub(crate) fn base(&self) -> Base<'_, F, U>
        ensures value { base_view result ≡ base_of self.now }
        ensures size { result.size ≤ 2 ^ 62 }
        ensures live { result.live ≤ result.size }
    {
        Base {
            layers: &self.steps,
            size: self.bounds.tip.size,
            floor: Location::new(self.bounds.inactivity_floor.get()),
            live: self.live,
        }
    }

    // Whether the batch can be read at this state of a database, which is then one of those that its steps lead through.
    pub(crate) fn known(&self, current: &Commitment<D>) -> Result<(), Error>
        ensures readable { OnOk result
            (knows self.now.bounds (commitment_view D.bytes current.now) ≡ true) }
        ensures stale { IfErr result (λ e. (e ≡ Error.StaleRead)
            × (knows self.now.bounds (commitment_view D.bytes current.now) ≡ false)) }
        ensures reached { OnOk result
            (Contains (stops self.now.tree.leaves self.now.tree.layers) current.now.size) }
    {
        self.bounds.compatible(current)
    }

    // Whether the batch can be applied at this state of a database.
    pub(crate) fn fits(&self, current: &Commitment<D>) -> Result<(), Error>
        ensures fits { OnOk result (is_at (commitment_view D.bytes current.now) self.now.bounds.db
            self.now.bounds.ancestors
            ≡ true) }
        ensures stale { IfErr result (λ e. (e ≡ Error.StaleBatch)
            × (is_at (commitment_view D.bytes current.now) self.now.bounds.db
            self.now.bounds.ancestors
            ≡ false)) }
        ensures among { OnOk result (Contains (bases self.now.layers) current.now.size) }
        ensures reached { OnOk result
            (Contains (stops self.now.tree.leaves self.now.tree.layers) current.now.size) }
    {
        self.bounds.validate_apply_to(current)
    }

    // The tree of the list that the batch makes.
    pub(crate) fn tree(&self) -> &KeptTree<F, D>
        ensures value { result.now ≡ self.now.tree }
        ensures agreed { AreAgreed self.now }
    {
        &self.tree
    }

    // Where the batch's own operations begin.
    fn start(&self) -> u64
        ensures value { result ≡ self.now.bounds.base.size }
        ensures within { result ≤ self.now.tree.leaves }
    {
        self.bounds.base.size
    }

    // The floor of the batch's commit.
    fn floor(&self) -> u64
        ensures { result ≡ self.now.bounds.inactivity_floor }
    {
        self.bounds.inactivity_floor.get()
    }

    // What a database at this state lacks of the list, if the batch can be applied to it.
    pub(crate) fn lacking(
        &self,
        alloc: Global,
        current: &Commitment<D>,
    ) -> Result<Lacking<'_, F, U>, Error>
        ensures items { IfOk result (λ lack. map (λ v. v.items) lack.items.items
            ≡ map (spelling U.form) (operations_in (unapplied current.now.size self.now.layers))) }
        ensures diffs { IfOk result (λ lack.
            map (λ d. changes_view U.Key.bytes U.Value.bytes d.value) lack.diffs.now
            ≡ map (λ l. l.changes) (unapplied current.now.size self.now.layers)) }
        ensures metadata { IfOk result (λ lack.
            option_map (λ m. U.Value.bytes m.value) lack.metadata ≡ self.now.metadata) }
        ensures count { IfOk result (λ lack.
            current.now.size + length lack.items.items ≡ self.now.bounds.tip.size) }
        ensures among { OnOk result (Contains (bases self.now.layers) current.now.size) }
        ensures reached { OnOk result
            (Contains (stops self.now.tree.leaves self.now.tree.layers) current.now.size) }
        ensures fits { OnOk result (is_at (commitment_view D.bytes current.now) self.now.bounds.db
            self.now.bounds.ancestors
            ≡ true) }
        ensures stale { IfErr result (λ e. (e ≡ Error.Memory)
            ⊎ ((e ≡ Error.StaleBatch)
            × (is_at (commitment_view D.bytes current.now) self.now.bounds.db
            self.now.bounds.ancestors
            ≡ false))) }
    {
        self.fits(current)?;
        let steps = unapplied_of(&self.steps, current.size);
        let items = spelled_steps(alloc, steps)?;
        let (diffs, _) = self.diffs.split_at(steps.len());
        let metadata = share(&self.metadata)?;
        Ok(Lacking {
            items,
            diffs,
            metadata,
        })
    }
}

// The step that puts these operations after a list of this size.
fn own_step<F, U: Update>(
    alloc: Global,
    size: u64,
    operations: Vec<qm_operations::Operation<F, U>>,
    diff: Diff<F, U::Key, U::Value>,
) -> Result<Step<F, U>, AllocError>
    ensures { IfOk result (λ step. step.value
        ≡ record {
          base = size;
          operations = operation_views U.view U.Key.bytes U.Value.bytes
              operations.items;
          changes = changes_view U.Key.bytes U.Value.bytes diff;
        }) }
{
    let diff = Rc::new(alloc, diff)?;
    Ok(Rc::new(alloc, Layer::new(size, operations, diff))?)
}

// The steps of a database at rest that has `size` operations: one, which does nothing.
fn resting<F, U: Update>(alloc: Global, size: u64) -> Result<Vec<Step<F, U>>, AllocError>
    ensures { IfOk result (λ steps. map (λ l. l.value) steps.items
        ≡ record { base = size; operations = []; changes = [] } ∷ []) }
{
    let step = own_step(alloc, size, Vec::new(alloc), Diff::new(Vec::new(alloc)))?;
    let mut steps = Vec::new(alloc);
    steps.push(step)?;
    Ok(steps)
}

// The merkleized batch of a plan on its parent, which keeps the first `keep` ancestors.
pub(crate) fn sealed<F: Family, D: Digest, U: Update>(
    alloc: Global,
    parent: &MerkleizedBatch<F, D, U>,
    keep: usize,
    child: Child<D, U>,
    plan: Plan<F, U>,
    tree: KeptTree<F, D>,
    root: D,
) -> Result<Rc<MerkleizedBatch<F, D, U>>, Error>
    requires keep { keep ≤ suc (length parent.now.bounds.ancestors) }
    requires placed { (commitment_view D.bytes child.boundary
        ≡ child_boundary keep parent.now.bounds)
        × (map (commitment_view D.bytes) child.tips.items ≡ child_tips keep parent.now.bounds) }
    requires after { IsTreeAfter U.form parent.now.tree plan.operations
        (child_boundary keep parent.now.bounds).size tree }
    requires live { plan.live ≤ tree.leaves }
    ensures value { IfOk result (λ b. b.value
        ≡ child_made parent.now keep plan tree (D.bytes root)
        (option_map (λ m. U.Value.bytes m.value) child.metadata)) }
    ensures above { IfOk result (λ b.
        All (λ n. b.value.bounds.db.size ≤ n) (stops b.value.tree.leaves b.value.tree.layers)) }
    ensures memory { IfErr result (λ e. e ≡ Error.Memory) }
{
    let Plan {
        operations,
        diff,
        floor,
        live,
        evicted,
    } = plan;
    let base = parent.bounds.tip;
    let (steps, diffs) = parent.child_steps(alloc, base.size, operations, diff, keep)?;
    let bounds = Bounds {
        base,
        db: child.boundary,
        tip: Commitment {
            size: tree.leaves(),
            root,
        },
        ancestors: child.tips,
        inactivity_floor: floor,
    };
    Ok(Rc::new(
        alloc,
        MerkleizedBatch {
            bounds,
            steps,
            diffs,
            tree,
            live,
            metadata: child.metadata,
            evicted,
        },
    )?)
}
