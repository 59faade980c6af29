//! Staged batches: keys that were read through a batch, so that they are not looked up again when it is merkleized.

ghost use Rattle.std.specs.Prelude.{◌≡◌, ◌≤◌, ◌+◌, ◌++◌, ◌==◌, true, length, map, option_map, IfOk, IfErr, OnOk};
ghost use Rattle.qm_base.specs.Slots.{slot_views, write_views};
ghost use Rattle.qm_model.specs.Slots.{slotted};
ghost use Rattle.qm_model.specs.Writes.{read_through};
ghost use Rattle.qm_any.specs.Databases as anys;
ghost use Rattle.qm_any.specs.Databases.{staged_keys};
ghost use Rattle.qm_any.specs.Making.{IsMaking, IsUnmade, making_of};
ghost use Rattle.qm_any.specs.Tips.{IsShort};
ghost use Rattle.qm_any.specs.Reading as readings;
ghost use Rattle.qm_any.specs.Reading.{AtList, IsOfKeptItem, ReadsThrough, AtBegun, AtStaged};
ghost use Rattle.qm_current.specs.Databases.{IsMadeWith, begun_of};
ghost use Rattle.qm_current.specs.Making.{IsLeft, OnStaged, can_make};

use crate::batch::{MerkleizedBatch, UnmerkleizedBatch};
use crate::db::Db;
use crate::made::finished;
use qm_any::db::{Db as AnyDb, LaidOut};
use qm_any::staged as any;
use qm_base::{ByteString, Digest, Error, Hasher, Location, Slot, Write};
use qm_bits::Chunks;
use qm_chain::Policy;
use qm_chunks::Graftable;
use qm_operations::{Update, ValueEncoding};
use qm_step::kind::Steps;
use qm_store::Store;
use std::alloc::Global;
use std::marker::Model;
use std::ops::Range;
use std::rc::Rc;

/// A staged batch: the any one, and the merkleized batch that it is begun on, of which it keeps as many steps as the any one.
#[derive(Drop)]
pub struct Staged<F: Graftable, D: Digest, U: Update, N: Chunks> {
    pub(crate) any: any::Staged<F, D, U>,
    pub(crate) parent: Rc<MerkleizedBatch<F, D, U, N>>,
    pub(crate) keep: usize,
}

impl<F: Graftable, D: Digest, U: Update, N: Chunks> Model for Staged<F, D, U, N> {
    ghost use Rattle.std.specs.Prelude.{◌≡◌, ◌≤◌, suc, length};
    ghost use Rattle.qm_current.specs.Databases.{Staged};

    ghost Value = { Staged D };

    ghost view = { λ s. record { any = s.any; parent = s.parent.value.kept; instance = s.parent.value.instance } };

    ghost invariant = { λ s. (s.any.batch.parent ≡ s.parent.value.any) × (s.any.batch.keep ≡ s.keep) × (s.keep ≤ suc (length s.parent.value.any.bounds.ancestors)) };
}

impl<F: Graftable, D: Digest, U: Update, N: Chunks> UnmerkleizedBatch<F, D, U, N> {
    /// Reads the values of keys, as `get_many` does, and keeps what the base list has of each, so that no staged key is looked
    /// up again, as the any batch does. The batch is gone also if this is refused.
    pub fn stage<C: Store, I: qm_index::Unordered<Value = Location<F>>, H: Hasher<Digest = D>>(
        self,
        alloc: Global,
        keys: Vec<U::Key>,
        db: &mut Db<F, C, I, H, U, N>,
    ) -> Result<(Vec<Option<U::Value>>, Staged<F, D, U, N>), Error>
        ensures values { AtBegun C.Store ⟦<AnyDb<F, C, I, H, U, N> as LaidOut>⟧.layout db.old.any
            self.any (λ chain above. IfOk result (λ r. map (option_map U.Value.bytes) r.0.items
            ≡ map (λ k. read_through chain.base self.any.writes (U.Key.bytes k)) keys.items)) }
        ensures staged { AtBegun C.Store ⟦<AnyDb<F, C, I, H, U, N> as LaidOut>⟧.layout db.old.any
            self.any (λ chain above. IfOk result (λ r. anys.IsStaged
            ⟦<AnyDb<F, C, I, H, U, N> as LaidOut>⟧.layout.hashing (r.1).any chain above)) }
        ensures batch { IfOk result (λ r. begun_of r.1 ≡ self) }
        ensures keys { IfOk result (λ r. staged_keys (r.1).any ≡ map U.Key.bytes keys.items) }
        ensures reads { ReadsThrough C.Store ⟦<AnyDb<F, C, I, H, U, N> as LaidOut>⟧.layout
            db.old.any db.new.any result self.any.parent.bounds }
        ensures rest { db.new ≡ record db.old { any = db.new.any } }
    {
        let UnmerkleizedBatch { any, parent, keep } = self;
        match any.stage(alloc, keys, &mut db.any) {
            Ok((values, any)) => Ok((values, Staged { any, parent, keep })),
            Err(error) => Err(error),
        }
    }
}

impl<F: Graftable, D: Digest, U: Update, N: Chunks> Staged<F, D, U, N> {
    /// How many keys are staged: those of `stage`, and of every `expand`.
    pub fn len(&self) -> usize
        ensures { result ≡ length (staged_keys self.now.any) }
    {
        self.any.len()
    }

    /// Whether no key is staged.
    pub fn is_empty(&self) -> bool
        ensures { result ≡ (length (staged_keys self.now.any) == 0) }
    {
        self.any.is_empty()
    }

    /// Reads the values of more keys, as `stage` does, and puts them after the staged ones; a key may be staged again. It
    /// gives their places among these, and is gone also if this is refused.
    pub fn expand<C: Store, I: qm_index::Unordered<Value = Location<F>>, H: Hasher<Digest = D>>(
        self,
        alloc: Global,
        keys: Vec<U::Key>,
        db: &mut Db<F, C, I, H, U, N>,
    ) -> Result<(Range<usize>, Vec<Option<U::Value>>, Self), Error>
        ensures range { IfOk result (λ r. (r.0.start ≡ length (staged_keys self.any))
            × (r.0.end ≡ length (staged_keys self.any) + length keys.items)) }
        ensures values { AtStaged C.Store ⟦<AnyDb<F, C, I, H, U, N> as LaidOut>⟧.layout db.old.any
            self.any (λ chain above. IfOk result (λ r. map (option_map U.Value.bytes) r.1.items
            ≡ map (λ k. read_through chain.base self.any.batch.writes (U.Key.bytes k))
            keys.items)) }
        ensures staged { AtStaged C.Store ⟦<AnyDb<F, C, I, H, U, N> as LaidOut>⟧.layout db.old.any
            self.any (λ chain above. IfOk result (λ r. anys.IsStaged
            ⟦<AnyDb<F, C, I, H, U, N> as LaidOut>⟧.layout.hashing (r.2).any chain above)) }
        ensures batch { IfOk result (λ r. begun_of r.2 ≡ begun_of self) }
        ensures keys { IfOk result (λ r.
            staged_keys (r.2).any ≡ staged_keys self.any ++ map U.Key.bytes keys.items) }
        ensures reads { ReadsThrough C.Store ⟦<AnyDb<F, C, I, H, U, N> as LaidOut>⟧.layout
            db.old.any db.new.any result self.any.batch.parent.bounds }
        ensures rest { db.new ≡ record db.old { any = db.new.any } }
    {
        let Staged { any, parent, keep } = self;
        match any.expand(alloc, keys, &mut db.any) {
            Ok((range, values, any)) => Ok((range, values, Staged { any, parent, keep })),
            Err(error) => Err(error),
        }
    }

    /// Makes the list of the batch, as the any one does, and its canonical root, as `merkleize` of the batch itself would do
    /// whose writes are the recorded ones, then the slots of the staged keys that are not `Keep`, in their order, then the
    /// others. A batch whose chain began on another instance is refused as stale before anything is read. There are as many
    /// slots as staged keys.
    pub fn merkleize<
        C: Store,
        I: qm_index::Unordered<Value = Location<F>>,
        H: Hasher<Digest = D>,
        P: Policy<F, U::Key, U::Value>,
    >(
        self,
        alloc: Global,
        slots: &[Slot<U::Value>],
        others: &[Write<U::Key, U::Value>],
        db: &mut Db<F, C, I, H, U, N>,
        metadata: Option<U::Value>,
        policy: &mut P,
    ) -> Result<Rc<MerkleizedBatch<F, D, U, N>>, Error>
    where
        U: Steps<F, I>,
        requires { length slots.now ≡ length (staged_keys self.any) }
        ensures fits { OnOk result (can_make db.old (begun_of self) ≡ true) }
        ensures makes { OnStaged C.Store ⟦<AnyDb<F, C, I, H, U, N> as LaidOut>⟧.layout db.old self
            (λ chain. IsMaking C.Store U.form
            (making_of P.rules policy.old
            (slotted self.any.batch.writes (staged_keys self.any)
            (slot_views U.Value.bytes slots.now) (write_views U.Key.bytes U.Value.bytes others.now))
            (option_map U.Value.bytes metadata)) chain
            policy.new db.old.any.log db.new.any.log result (λ b.
            IsMadeWith ⟦<AnyDb<F, C, I, H, U, N> as LaidOut>⟧.layout.hashing N.LEN b.value chain)) }
        ensures short { IfOk result (λ b. IsShort U.form b.value.any) }
        ensures child { IfOk result (λ b. (b.value.instance ≡ self.instance)
            × anys.IsChild self.any.batch.parent self.any.batch.keep b.value.any) }
        ensures unmade { IfErr result
            (IsUnmade C.Store (can_make db.old (begun_of self)) db.old.any.log db.new.any.log) }
        ensures whole { readings.OnStaged C.Store ⟦<AnyDb<F, C, I, H, U, N> as LaidOut>⟧.layout
            db.old.any self.any (λ chain. IfErr result IsOfKeptItem) }
        ensures kept { AtList C.Store ⟦<AnyDb<F, C, I, H, U, N> as LaidOut>⟧.layout db.old.any
            (λ list. db.old.any.log.tree.start ≤ self.any.batch.parent.bounds.inactivity_floor
            → IfErr result IsOfKeptItem) }
        ensures left { IsLeft C.Store ⟦<AnyDb<F, C, I, H, U, N> as LaidOut>⟧.layout db.old db.new }
    {
        let Staged { any, parent, keep } = self;
        if parent.instance != db.instance {
            return Err(Error::StaleBatch);
        }
        match any.merkleize(alloc, slots, others, &mut db.any, metadata, policy) {
            Ok(any) => finished(alloc, &mut db.any, &db.canonical, &parent, keep, any),
            Err(error) => Err(error),
        }
    }
}
