//! Staged batches: keys that were read through a batch, so that they are not looked up again when it is merkleized.

ghost use Rattle.std.specs.Prelude.{◌≡◌, ◌≤◌, ◌+◌, ◌++◌, ◌==◌, true, length, map, option_map, IfOk, IfErr, OnOk};
ghost use Rattle.qm_base.specs.Slots.{slot_views, write_views};
ghost use Rattle.qm_model.specs.Slots.{slotted};
ghost use Rattle.qm_model.specs.Writes.{read_through};
ghost use Rattle.qm_step.specs.Views.{reads_view};
ghost use Rattle.qm_any.specs.Databases.{IsChild, IsMadeWith, IsLeft, IsStaged, is_on, staged_keys};
ghost use Rattle.qm_any.specs.Making.{IsMaking, IsUnmade, making_of};
ghost use Rattle.qm_any.specs.Tips.{IsShort};
ghost use Rattle.qm_any.specs.Reading.{IsOfKeptItem, ReadsThrough, AtBegun, AtList, AtStaged, OnBegun, OnStaged};

use crate::batch::{MerkleizedBatch, UnmerkleizedBatch, sealed};
use crate::db::{Db, LaidOut};
use qm_base::{ByteString, Digest, Error, Hasher, Location, Slot, Write};
use qm_batch::{Read, Wanted};
use qm_bits::Chunks;
use qm_chain::Policy;
use qm_merkle::Family;
use qm_operations::{Update, ValueEncoding};
use qm_step::kind::Steps;
use qm_store::Store;
use std::alloc::{AllocError, Global};
use std::marker::Model;
use std::ops::Range;
use std::rc::Rc;

/// A batch, and keys that were read through it, each with what the batch's base list has of it. Writes that come with the
/// keys' slots are not seen by later reads. It keeps a copy of what it found.
#[derive(Drop)]
pub struct Staged<F: Family, D: Digest, U: Update> {
    batch: UnmerkleizedBatch<F, D, U>,
    reads: Vec<Read<F, U>>,
}

impl<F: Family, D: Digest, U: Update> Model for Staged<F, D, U> {
    ghost use Rattle.std.specs.Prelude.{◌≤◌, suc, length};
    ghost use Rattle.qm_step.specs.Views.{reads_view};
    ghost use Rattle.qm_any.specs.Databases.{Staged};

    ghost Value = { Staged D };

    ghost view = { λ s. record { batch = s.batch; reads = reads_view U.view U.Key.bytes s.reads.items } };

    ghost invariant = { λ s. s.batch.keep ≤ suc (length s.batch.parent.bounds.ancestors) };
}

impl<F: Family, D: Digest, U: Update> UnmerkleizedBatch<F, D, U> {
    /// Reads the values of keys, as `get_many` does, and keeps what the base list has of each, so that no staged key is looked
    /// up again. The batch is gone also if this is refused. A key that the batch's own writes have is looked up like the
    /// others.
    pub fn stage<
        C: Store,
        I: qm_index::Unordered<Value = Location<F>>,
        H: Hasher<Digest = D>,
        N: Chunks,
    >(
        self,
        alloc: Global,
        keys: Vec<U::Key>,
        db: &mut Db<F, C, I, H, U, N>,
    ) -> Result<(Vec<Option<U::Value>>, Staged<F, D, U>), Error>
        ensures values { AtBegun C.Store ⟦<Db<F, C, I, H, U, N> as LaidOut>⟧.layout db.old self
            (λ chain above. IfOk result (λ r. map (option_map U.Value.bytes) r.0.items
            ≡ map (λ k. read_through chain.base self.writes (U.Key.bytes k)) keys.items)) }
        ensures staged { AtBegun C.Store ⟦<Db<F, C, I, H, U, N> as LaidOut>⟧.layout db.old self
            (λ chain above. IfOk result (λ r.
            IsStaged ⟦<Db<F, C, I, H, U, N> as LaidOut>⟧.layout.hashing r.1 chain above)) }
        ensures batch { IfOk result (λ r. r.1.batch ≡ self) }
        ensures keys { IfOk result (λ r. staged_keys r.1 ≡ map U.Key.bytes keys.items) }
        ensures reads { ReadsThrough C.Store ⟦<Db<F, C, I, H, U, N> as LaidOut>⟧.layout db.old
            db.new result self.parent.bounds }
    {
        let staged = Staged {
            batch: self,
            reads: Vec::new(alloc),
        };
        let (_, values, staged) = staged.expand(alloc, keys, db)?;
        Ok((values, staged))
    }
}

impl<F: Family, D: Digest, U: Update> UnmerkleizedBatch<F, D, U> {
    /// Makes the list of the batch: its writes on its base list, then what the policy decides, then a commit with the
    /// metadata. The database is at the batch's boundary or at a kept ancestor's tip, else the batch is refused as stale;
    /// then come the first spelling of more than 65,536 bytes, and a list of more than 2^62 operations. The batch is gone
    /// also if this is refused, and the policy may have moved on. k writes take k look-ups and k log k comparisons; each
    /// candidate that the walk comes to takes one read of the log, if no kept step has it, and 64 locations of dead ones
    /// a step; only the own operations are hashed.
    pub fn merkleize<
        C: Store,
        I: qm_index::Unordered<Value = Location<F>>,
        H: Hasher<Digest = D>,
        P: Policy<F, U::Key, U::Value>,
        N: Chunks,
    >(
        self,
        alloc: Global,
        db: &mut Db<F, C, I, H, U, N>,
        metadata: Option<U::Value>,
        policy: &mut P,
    ) -> Result<Rc<MerkleizedBatch<F, D, U>>, Error>
    where
        U: Steps<F, I>,
        ensures fits { OnOk result (is_on db.old.commitment self ≡ true) }
        ensures makes { OnBegun C.Store ⟦<Db<F, C, I, H, U, N> as LaidOut>⟧.layout db.old self
            (λ chain. IsMaking C.Store U.form
            (making_of P.rules policy.old self.writes (option_map U.Value.bytes metadata)) chain
            policy.new db.old.log db.new.log result
            (λ b. IsMadeWith ⟦<Db<F, C, I, H, U, N> as LaidOut>⟧.layout.hashing b.value chain)) }
        ensures short { IfOk result (λ b. IsShort U.form b.value) }
        ensures child { IfOk result (λ b. IsChild self.parent self.keep b.value) }
        ensures unmade { IfErr result (IsUnmade C.Store (is_on db.old.commitment self) db.old.log
            db.new.log) }
        ensures whole { OnBegun C.Store ⟦<Db<F, C, I, H, U, N> as LaidOut>⟧.layout db.old self
            (λ chain. IfErr result IsOfKeptItem) }
        ensures kept { AtList C.Store ⟦<Db<F, C, I, H, U, N> as LaidOut>⟧.layout db.old (λ list.
            db.old.log.tree.start ≤ self.parent.bounds.inactivity_floor
            → IfErr result IsOfKeptItem) }
        ensures left { IsLeft C.Store ⟦<Db<F, C, I, H, U, N> as LaidOut>⟧.layout.hashing db.old
            db.new }
    {
        let staged = Staged {
            batch: self,
            reads: Vec::new(alloc),
        };
        let (slots, others) = (Vec::new(alloc), Vec::new(alloc));
        staged.merkleize(alloc, &slots, &others, db, metadata, policy)
    }
}

impl<F: Family, D: Digest, U: Update> Staged<F, D, U> {
    /// How many keys are staged: those of `stage`, and of every `expand`.
    pub fn len(&self) -> usize
        ensures { result ≡ length (staged_keys self.now) }
    {
        self.reads.len()
    }

    /// Whether no key is staged.
    pub fn is_empty(&self) -> bool
        ensures { result ≡ (length (staged_keys self.now) == 0) }
    {
        self.reads.is_empty()
    }

    /// Reads the values of more keys, as `stage` does, and puts them after the staged ones; a key may be staged again. It
    /// gives their places among these, and is gone also if this is refused.
    pub fn expand<
        C: Store,
        I: qm_index::Unordered<Value = Location<F>>,
        H: Hasher<Digest = D>,
        N: Chunks,
    >(
        self,
        alloc: Global,
        keys: Vec<U::Key>,
        db: &mut Db<F, C, I, H, U, N>,
    ) -> Result<(Range<usize>, Vec<Option<U::Value>>, Self), Error>
        ensures range { IfOk result (λ r. (r.0.start ≡ length (staged_keys self))
            × (r.0.end ≡ length (staged_keys self) + length keys.items)) }
        ensures values { AtStaged C.Store ⟦<Db<F, C, I, H, U, N> as LaidOut>⟧.layout db.old self
            (λ chain above. IfOk result (λ r. map (option_map U.Value.bytes) r.1.items
            ≡ map (λ k. read_through chain.base self.batch.writes (U.Key.bytes k)) keys.items)) }
        ensures staged { AtStaged C.Store ⟦<Db<F, C, I, H, U, N> as LaidOut>⟧.layout db.old self
            (λ chain above. IfOk result (λ r.
            IsStaged ⟦<Db<F, C, I, H, U, N> as LaidOut>⟧.layout.hashing r.2 chain above)) }
        ensures batch { IfOk result (λ r. r.2.batch ≡ self.batch) }
        ensures keys { IfOk result (λ r.
            staged_keys r.2 ≡ staged_keys self ++ map U.Key.bytes keys.items) }
        ensures reads { ReadsThrough C.Store ⟦<Db<F, C, I, H, U, N> as LaidOut>⟧.layout db.old
            db.new result self.batch.parent.bounds }
    {
        let (found, values) = self.batch.located(alloc, keys, db)?;
        let start = self.len();
        let staged = self.with(found)?;
        let range = start..staged.len();
        Ok((range, values, staged))
    }

    // The staged batch, with the reads that were found after those that it has.
    fn with(self, found: Vec<Read<F, U>>) -> Result<Self, AllocError>
        ensures batch { IfOk result (λ s. s.batch ≡ self.batch) }
        ensures reads { IfOk result (λ s.
            s.reads ≡ self.reads ++ reads_view U.view U.Key.bytes found.items) }
    {
        let Staged { batch, reads } = self;
        let (mut reads, mut found) = (reads, found);
        reads.append(&mut found)?;
        Ok(Staged { batch, reads })
    }
}

impl<F: Family, D: Digest, U: Update> Staged<F, D, U> {
    /// Makes the list of the batch, as `merkleize` of the batch itself would do whose writes are the recorded ones, then the
    /// slots of the staged keys that are not `Keep`, in their order, then the others; the last of a key counts. There are as
    /// many slots as staged keys. No staged key is looked up again, whichever of the batch's lists the database has now.
    pub fn merkleize<
        C: Store,
        I: qm_index::Unordered<Value = Location<F>>,
        H: Hasher<Digest = D>,
        P: Policy<F, U::Key, U::Value>,
        N: Chunks,
    >(
        self,
        alloc: Global,
        slots: &[Slot<U::Value>],
        others: &[Write<U::Key, U::Value>],
        db: &mut Db<F, C, I, H, U, N>,
        metadata: Option<U::Value>,
        policy: &mut P,
    ) -> Result<Rc<MerkleizedBatch<F, D, U>>, Error>
    where
        U: Steps<F, I>,
        requires { length slots.now ≡ length (staged_keys self) }
        ensures fits { OnOk result (is_on db.old.commitment self.batch ≡ true) }
        ensures makes { OnStaged C.Store ⟦<Db<F, C, I, H, U, N> as LaidOut>⟧.layout db.old self
            (λ chain. IsMaking C.Store U.form
            (making_of P.rules policy.old
            (slotted self.batch.writes (staged_keys self) (slot_views U.Value.bytes slots.now)
            (write_views U.Key.bytes U.Value.bytes others.now)) (option_map U.Value.bytes metadata))
            chain policy.new db.old.log db.new.log result
            (λ b. IsMadeWith ⟦<Db<F, C, I, H, U, N> as LaidOut>⟧.layout.hashing b.value chain)) }
        ensures short { IfOk result (λ b. IsShort U.form b.value) }
        ensures child { IfOk result (λ b.
            IsChild self.batch.parent self.batch.keep b.value) }
        ensures unmade { IfErr result (IsUnmade C.Store (is_on db.old.commitment self.batch)
            db.old.log db.new.log) }
        ensures whole { OnStaged C.Store ⟦<Db<F, C, I, H, U, N> as LaidOut>⟧.layout db.old self
            (λ chain. IfErr result IsOfKeptItem) }
        ensures kept { AtList C.Store ⟦<Db<F, C, I, H, U, N> as LaidOut>⟧.layout db.old (λ list.
            db.old.log.tree.start ≤ self.batch.parent.bounds.inactivity_floor
            → IfErr result IsOfKeptItem) }
        ensures left { IsLeft C.Store ⟦<Db<F, C, I, H, U, N> as LaidOut>⟧.layout.hashing db.old
            db.new }
    {
        let (parent, keep, writes) = self.batch.parts();
        let child = parent.child(alloc, keep, db.commitment(), &metadata)?;
        let wanted = Wanted {
            writes,
            reads: &self.reads,
            slots,
            others,
        };
        let plan = db.plan(alloc, &parent.base(), wanted, metadata, policy)?;
        let (floor, boundary) = (plan.floor.get(), child.boundary.size);
        let (tree, root) = db.grown(alloc, parent.tree(), &plan.operations, floor, boundary)?;
        sealed(alloc, parent, keep, child, plan, tree, root)
    }
}
