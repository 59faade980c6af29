//! Logs: a store of items and a tree over their leaves, which agree.

ghost use Rattle.std.specs.Prelude.{◌≡◌, ◌≢◌, ◌↔◌, ◌⊎◌, ℕ, ◌+◌, ◌-◌, ◌*◌, ◌^◌, ◌<◌, ◌≤◌, min, IsTrue, List, [], ◌∷◌, ◌++◌, Contains, length, map, take, drop, slice_get};
ghost use Rattle.std.specs.Prelude.{Ok, Err, Some, None, IfSome, IfOk, IfErr, OnOk, OnErr, IsErrOf};
ghost use Rattle.std.specs.Int.NonZero.{non_zero_u64_get};
ghost use Rattle.std.specs.List.{concat};
ghost use Rattle.qm_model.specs.Causes.{IsCause};
ghost use Rattle.qm_model.specs.StoreModel.{settled, rewound, pruned, with_metadata, IsImage, IsOldOrNew, RewindLeaves, ReadsAs, Becomes};
ghost use Rattle.qm_model.specs.Trees as trees;
ghost use Rattle.qm_model.specs.Proofs.{proof_of};
ghost use Rattle.qm_merkle.specs.Mems.{Stands, IsWhole, node_at};
ghost use Rattle.qm_merkle.specs.Batches.{all_layers, layers_since, stops, stops_since, lists_since, IsHistory};
ghost use Rattle.qm_proofs.specs.Proofs.{proof_view, needed_positions, first_lacked, over_at};
ghost use Rattle.qm_store.specs.KeptTrees.{IsAdding, IsKeptTree};
ghost use Rattle.qm_store.specs.Log.{Log, digests_from, IsHead, log_error, IsLog, IsKept, HasGrown, HasGrownPart, HasBecome, HasLeft, HasLeftPruned, IsRefused, IsLacked, head_over};

use crate::{KeptTree, MetaEntry, Store, StoreError};
use qm_base::{Corrupt, Digest, Error, Hasher, JournalError, Location, TreeRefused};
use qm_merkle::mem::Mem;
use qm_merkle::{Family, MerkleizedBatch, Position, StandardHasher, UnmerkleizedBatch};
use qm_proofs::Proof;
use std::alloc::{AllocError, Global};
use std::marker::Model;
use std::num::NonZeroU64;

pub(crate) mod shown;

impl From<StoreError> for Error {
    ghost use Rattle.qm_store.specs.Log.{log_error};

    ghost from_gives = { λ s e. e ≡ log_error s };

    fn from(error: StoreError) -> Self {
        match error {
            StoreError::Memory => Error::Memory,
            StoreError::Failed => Error::Journal(JournalError::Store),
        }
    }
}

/// What a call that takes a log or a store by value gives back if it refuses: the log as it was, or the store.
#[derive(Drop)]
pub enum LogGiven<L, C> {
    Log(L),
    Store(C),
}

/// A refusal of a call that takes a log or a store by value.
#[derive(Drop)]
pub struct LogRefusal<L, C> {
    pub given: LogGiven<L, C>,
    pub error: Error,
}

/// A list of items in a store, with the tree over their leaves.
#[derive(Drop)]
pub struct AuthLog<F: Family, C: Store, H: Hasher> {
    store: C,
    tree: Mem<F, H::Digest>,
    hasher: StandardHasher<H>,
}

impl<F: Family, C: Store, H: Hasher> Model for AuthLog<F, C, H> {
    ghost use Rattle.std.specs.Prelude.{◌≡◌, ◌≤◌};
    ghost use Rattle.qm_store.specs.Log.{Log};

    ghost Value = { Log C H.Digest };

    ghost view = { λ l. record { store = l.store; tree = l.tree } };

    ghost invariant = { λ l. (l.tree.start ≡ C.start l.store) × (l.tree.leaves ≤ C.end l.store) };
}

impl<F: Family, C: Store, H: Hasher + Drop> AuthLog<F, C, H> {
    /// The log that ends at `size`, whatever the store has past it.
    /// Each item from the store's start up to there is read once. A head of another length than the digests of the peaks at the
    /// start have is refused, before any item is read. A refusal gives back the store.
    pub fn open(alloc: Global, store: C, hasher: H, size: u64) -> Result<Self, LogRefusal<Self, C>>
        requires start { C.start store ≤ size }
        requires end { size ≤ C.end store }
        ensures stands { (list : List (List ℕ)) → length list ≡ size
            → IfSome (C.told store) (λ held.
            take (size - C.start store) held.items ≡ drop (C.start store) list
            → held.head ≡ head_over F.shape H.hash (C.start store)
            (digests_from H.hash F.shape 0 (take (C.start store) list))
            → IfOk result (λ log. IsLog C.Store F.shape H.Digest.bytes H.hash log list)) }
        ensures start { IfOk result (λ log. log.tree.start ≡ C.start store) }
        ensures size { IfOk result (λ log. log.tree.leaves ≡ size) }
        ensures kept { IfOk result (λ log. IsKept C.Store store log.store) }
        ensures back { IfErr result (λ r.
            (s : C) × (r.given ≡ LogGiven.Store s) × IsKept C.Store store s
            × IsCause (C.faults store) (C.faults s) (r.error ≡ Error.Journal JournalError.Store)) }
        ensures long { IfOk result (λ _. IfSome (C.told store) (λ held.
            length held.head ≡ length (trees.peaks F.shape (C.start store)) * H.Digest.SIZE)) }
        ensures head { IfErr result (λ r. r.error ≡ Error.DataCorrupted Corrupt.HeadDoesNotMatch
            → IfSome (C.told store) (λ held.
            length held.head ≢ length (trees.peaks F.shape (C.start store)) * H.Digest.SIZE)) }
        ensures never { IfErr result (λ r. (r.error ≡ Error.Memory)
            ⊎ ((r.error ≡ Error.Journal JournalError.Store)
            ⊎ (r.error ≡ Error.DataCorrupted Corrupt.HeadDoesNotMatch))) }
        ensures later { IfOk result (λ log. C.faults store ≤ C.faults log.store) }
    {
        let mut store = store;
        let mut hasher = StandardHasher::new(hasher);
        match load(alloc, &mut store, &mut hasher, size) {
            Ok(tree) => Ok(AuthLog {
                store,
                tree,
                hasher,
            }),
            Err(error) => Err(LogRefusal {
                given: LogGiven::Store(store),
                error,
            }),
        }
    }

    /// Puts these after the last item, and their leaves after the last leaf. If memory lacks
    /// before the store is called, the log is given back as it was, and else the store.
    pub fn append_batch(self, alloc: Global, items: &[Vec<u8>]) -> Result<Self, LogRefusal<Self, C>>
        requires room { self.tree.leaves + length items.now ≤ 2 ^ 62 }
        requires last { C.end self.store ≡ self.tree.leaves }
        ensures stands { (list : List (List ℕ))
            → IsLog C.Store F.shape H.Digest.bytes H.hash self list
            → IfOk result (λ log. IsLog C.Store F.shape H.Digest.bytes H.hash log
            (list ++ map (λ v. v.items) items.now)) }
        ensures start { IfOk result (λ log. log.tree.start ≡ self.tree.start) }
        ensures size { IfOk result (λ log. log.tree.leaves ≡ self.tree.leaves + length items.now) }
        ensures grown { IfOk result (λ log.
            HasGrown C.Store self.store log.store (map (λ v. v.items) items.now)) }
        ensures refused { IfErr result (λ r. IsRefused C.Store (λ old new.
            HasGrownPart C.Store old new (map (λ v. v.items) items.now)) self r.given r.error) }
        ensures later { IfOk result (λ log. C.faults self.store ≤ C.faults log.store) }
    {
        let AuthLog {
            store,
            mut tree,
            mut hasher,
        } = self;
        match add_items(alloc, &mut tree, &mut hasher, items) {
            Ok(()) => stored(store, tree, hasher, items),
            Err(_) => Err(LogRefusal {
                given: LogGiven::Log(AuthLog {
                    store,
                    tree,
                    hasher,
                }),
                error: Error::Memory,
            }),
        }
    }

    /// Puts these after the last item, and after the last leaf the leaves that a tree has for them: nothing is hashed. If
    /// memory lacks before the store is called, the log is given back as it was, and else the store.
    pub fn append_tree(
        self,
        items: &[Vec<u8>],
        tree: &KeptTree<F, H::Digest>,
    ) -> Result<Self, LogRefusal<Self, C>>
        requires last { C.end self.store ≡ self.tree.leaves }
        requires reach { Contains (stops tree.now.leaves tree.now.layers) self.tree.leaves }
        requires count { tree.now.leaves ≡ self.tree.leaves + length items.now }
        ensures stands { (list : List (List ℕ)) (older : List (List (List ℕ)))
            → IsLog C.Store F.shape H.Digest.bytes H.hash self list
            → IsKeptTree H.Digest.bytes H.hash F.shape tree.now
            (list ++ map (λ v. v.items) items.now) older
            → Contains ((list ++ map (λ v. v.items) items.now) ∷ older) list
            → IfOk result (λ log. IsLog C.Store F.shape H.Digest.bytes H.hash log
            (list ++ map (λ v. v.items) items.now)) }
        ensures start { IfOk result (λ log. log.tree.start ≡ self.tree.start) }
        ensures size { IfOk result (λ log. log.tree.leaves ≡ self.tree.leaves + length items.now) }
        ensures grown { IfOk result (λ log.
            HasGrown C.Store self.store log.store (map (λ v. v.items) items.now)) }
        ensures refused { IfErr result (λ r. IsRefused C.Store (λ old new.
            HasGrownPart C.Store old new (map (λ v. v.items) items.now)) self r.given r.error) }
        ensures later { IfOk result (λ log. C.faults self.store ≤ C.faults log.store) }
    {
        let AuthLog {
            store,
            tree: mut grown,
            hasher,
        } = self;
        match tree.put_into(&mut grown) {
            Ok(()) => stored(store, grown, hasher, items),
            Err(_) => Err(LogRefusal {
                given: LogGiven::Log(AuthLog {
                    store,
                    tree: grown,
                    hasher,
                }),
                error: Error::Memory,
            }),
        }
    }

    /// Takes away what the store has past the log's end. A store that ends with the log is not called.
    pub fn settle(self) -> Result<Self, LogRefusal<Self, C>>
        ensures stands { (list : List (List ℕ))
            → IsLog C.Store F.shape H.Digest.bytes H.hash self list
            → IfOk result (λ log. IsLog C.Store F.shape H.Digest.bytes H.hash log list) }
        ensures tree { IfOk result (λ log. log.tree ≡ self.tree) }
        ensures start { IfOk result (λ log. C.start log.store ≡ C.start self.store) }
        ensures last { IfOk result (λ log. C.end log.store ≡ self.tree.leaves) }
        ensures settled { IfOk result (λ log.
            Becomes (C.told self.store) (C.told log.store) (rewound self.tree.leaves)) }
        ensures refused { IfErr result (λ r. IsRefused C.Store (HasLeft C.Store
            (λ s. ReadsAs (min s.stable self.tree.leaves) (RewindLeaves self.tree.leaves s))) self
            r.given r.error) }
        ensures given { IfErr result (λ r. (log : Log C H.Digest) → r.given ≢ LogGiven.Log log) }
        ensures later { IfOk result (λ log. C.faults self.store ≤ C.faults log.store) }
    {
        let size = self.size();
        let (_, end) = self.store.bounds();
        if end == size {
            return Ok(self);
        }
        let AuthLog {
            mut store,
            tree,
            hasher,
        } = self;
        let done = store.rewind(size);
        log_after(store, tree, hasher, done)
    }

    /// Replaces the metadata of a name in the store.
    pub fn put_meta(self, name: &str, entries: &[MetaEntry]) -> Result<Self, LogRefusal<Self, C>>
        requires last { C.end self.store ≡ self.tree.leaves }
        ensures stands { (list : List (List ℕ))
            → IsLog C.Store F.shape H.Digest.bytes H.hash self list
            → IfOk result (λ log. IsLog C.Store F.shape H.Digest.bytes H.hash log list) }
        ensures tree { IfOk result (λ log. log.tree ≡ self.tree) }
        ensures put { IfOk result (λ log.
            HasBecome C.Store self.store log.store (with_metadata name.now entries.now)) }
        ensures refused { IfErr result (λ r. IsRefused C.Store (HasLeft C.Store
            (λ s. ReadsAs s.stable (IsOldOrNew (with_metadata name.now entries.now) s))) self
            r.given r.error) }
        ensures given { IfErr result (λ r. (log : Log C H.Digest) → r.given ≢ LogGiven.Log log) }
        ensures later { IfOk result (λ log. C.faults self.store ≤ C.faults log.store) }
    {
        let AuthLog {
            mut store,
            tree,
            hasher,
        } = self;
        let done = store.put_meta(name, entries);
        log_after(store, tree, hasher, done)
    }

    /// Makes the items stable: from then on a crash leaves them all.
    pub fn commit(self) -> Result<Self, LogRefusal<Self, C>>
        requires last { C.end self.store ≡ self.tree.leaves }
        ensures stands { (list : List (List ℕ))
            → IsLog C.Store F.shape H.Digest.bytes H.hash self list
            → IfOk result (λ log. IsLog C.Store F.shape H.Digest.bytes H.hash log list) }
        ensures tree { IfOk result (λ log. log.tree ≡ self.tree) }
        ensures committed { IfOk result (λ log. HasBecome C.Store self.store log.store settled) }
        ensures refused { IfErr result (λ r. IsRefused C.Store
            (HasLeft C.Store (λ s. ReadsAs s.stable (IsImage s))) self r.given r.error) }
        ensures given { IfErr result (λ r. (log : Log C H.Digest) → r.given ≢ LogGiven.Log log) }
        ensures later { IfOk result (λ log. C.faults self.store ≤ C.faults log.store) }
    {
        let AuthLog {
            mut store,
            tree,
            hasher,
        } = self;
        let done = store.commit();
        log_after(store, tree, hasher, done)
    }

    /// Makes all that the store holds stable.
    pub fn sync(self) -> Result<Self, LogRefusal<Self, C>>
        requires last { C.end self.store ≡ self.tree.leaves }
        ensures stands { (list : List (List ℕ))
            → IsLog C.Store F.shape H.Digest.bytes H.hash self list
            → IfOk result (λ log. IsLog C.Store F.shape H.Digest.bytes H.hash log list) }
        ensures tree { IfOk result (λ log. log.tree ≡ self.tree) }
        ensures synced { IfOk result (λ log. HasBecome C.Store self.store log.store settled) }
        ensures refused { IfErr result (λ r. IsRefused C.Store
            (HasLeft C.Store (λ s. ReadsAs s.stable (IsImage s))) self r.given r.error) }
        ensures given { IfErr result (λ r. (log : Log C H.Digest) → r.given ≢ LogGiven.Log log) }
        ensures later { IfOk result (λ log. C.faults self.store ≤ C.faults log.store) }
    {
        let AuthLog {
            mut store,
            tree,
            hasher,
        } = self;
        let done = store.sync();
        log_after(store, tree, hasher, done)
    }

    /// Takes the items before a location away, and keeps the digests of the peaks there as the store's head: the log stands for
    /// the same list, from a later start. If memory lacks for these digests, the log is given back as it was.
    pub fn prune(self, alloc: Global, to: u64) -> Result<Self, LogRefusal<Self, C>>
        requires start { self.tree.start ≤ to }
        requires size { to ≤ self.tree.leaves }
        requires last { C.end self.store ≡ self.tree.leaves }
        requires stable { IfSome (C.told self.store) (λ s. to ≤ s.stable) }
        ensures stands { (list : List (List ℕ))
            → IsLog C.Store F.shape H.Digest.bytes H.hash self list
            → IfOk result (λ log. IsLog C.Store F.shape H.Digest.bytes H.hash log list) }
        ensures start { IfOk result (λ log. log.tree.start ≡ to) }
        ensures size { IfOk result (λ log. log.tree.leaves ≡ self.tree.leaves) }
        ensures end { IfOk result (λ log. C.end log.store ≡ C.end self.store) }
        ensures pruned { IfOk result (λ log.
            (head : List ℕ) × Becomes (C.told self.store) (C.told log.store) (pruned to head)
            × ((list : List (List ℕ)) → IsLog C.Store F.shape H.Digest.bytes H.hash self list
            → IsHead F.shape H.Digest.bytes H.hash to (digests_from H.hash F.shape 0 list) head)) }
        ensures refused { IfErr result (λ r.
            (head : List ℕ) × IsRefused C.Store (HasLeftPruned C.Store to head) self r.given r.error
            × ((list : List (List ℕ)) → IsLog C.Store F.shape H.Digest.bytes H.hash self list
            → IsHead F.shape H.Digest.bytes H.hash to (digests_from H.hash F.shape 0 list) head)) }
        ensures later { IfOk result (λ log. C.faults self.store ≤ C.faults log.store) }
    {
        let AuthLog {
            mut store,
            mut tree,
            hasher,
        } = self;
        match forget(alloc, &mut tree, to) {
            Ok(head) => {
                let done = store.prune(to, &head);
                log_after(store, tree, hasher, done)
            }
            Err(_) => Err(LogRefusal {
                given: LogGiven::Log(AuthLog {
                    store,
                    tree,
                    hasher,
                }),
                error: Error::Memory,
            }),
        }
    }

    /// Gives the store back.
    pub fn close(self) -> C
        ensures { result ≡ self.store }
    {
        self.store
    }
}

impl<F: Family, C: Store, H: Hasher> AuthLog<F, C, H> {
    ghost use Rattle.qm_merkle.specs.contracts.hasher.StandardHasher.{the_row as hasher_row};
    ghost use Rattle.qm_store.specs.contracts.log.AuthLog.{the_row};
    ghost use Rattle.std.specs.Borrow.{Lends, sem};

    /// Reads the item at a location.
    pub fn read(&mut self, at: u64) -> Result<Vec<u8>, Error>
        requires { at < self.old.tree.leaves }
        ensures item { (list : List (List ℕ))
            → IsLog C.Store F.shape H.Digest.bytes H.hash self.old list
            → IfOk result (λ v.
            IfSome (C.told self.old.store) (λ _. slice_get list at ≡ Some v.items)) }
        ensures held { IfOk result (λ v.
            IfSome (C.told self.old.store) (λ s. slice_get s.items (at - s.start) ≡ Some v.items)) }
        ensures stands { (list : List (List ℕ))
            → IsLog C.Store F.shape H.Digest.bytes H.hash self.old list
            → IsLog C.Store F.shape H.Digest.bytes H.hash self.new list }
        ensures pruned { (result ≡ Err (Error.Journal (JournalError.ItemPruned at)))
            ↔ (at < self.old.tree.start) }
        ensures never { IfErr result (λ e. (e ≡ Error.Memory)
            ⊎ ((e ≡ Error.Journal JournalError.Store)
            ⊎ (e ≡ Error.Journal (JournalError.ItemPruned at)))) }
        ensures tree { self.new.tree ≡ self.old.tree }
        ensures kept { IsKept C.Store self.old.store self.new.store }
        ensures cause { IsCause (C.faults self.old.store) (C.faults self.new.store)
            (IsErrOf result (Error.Journal JournalError.Store)) }
    {
        let (start, _) = self.tree.bounds();
        if at < start.get() {
            return Err(Error::Journal(JournalError::ItemPruned(at)));
        }
        Ok(self.store.read(at)?)
    }

    /// The root of the tree, the first of whose peaks are inactive.
    pub fn root(&mut self, alloc: Global, inactive: usize) -> Result<H::Digest, AllocError>
        requires { inactive ≤ length (trees.peaks F.shape self.old.tree.leaves) }
        ensures value { (list : List (List ℕ))
            → IsLog C.Store F.shape H.Digest.bytes H.hash self.old list
            → IfOk result (λ d. H.Digest.bytes d
            ≡ trees.root H.hash F.shape (digests_from H.hash F.shape 0 list) inactive) }
        ensures same { self.new ≡ self.old }
    {
        self.tree.root(alloc, &mut self.hasher, inactive)
    }

    /// The batch of the tree that puts the leaves of these items after the tree's own.
    pub fn tree_with(
        &mut self,
        alloc: Global,
        items: &[Vec<u8>],
    ) -> Result<MerkleizedBatch<F, H::Digest>, AllocError>
        requires room { self.old.tree.leaves + length items.now ≤ 2 ^ 62 }
        ensures history { (list : List (List ℕ))
            → IsLog C.Store F.shape H.Digest.bytes H.hash self.old list
            → IfOk result (λ b.
            IsHistory F.shape H.Digest.bytes H.hash (all_layers b) (digests_from H.hash F.shape 0
            (list ++ map (λ v. v.items) items.now) ∷ digests_from H.hash F.shape 0 list
            ∷ [])) }
        ensures leaves { IfOk result (λ b.
            b.newest.tree.leaves ≡ self.old.tree.leaves + length items.now) }
        ensures start { IfOk result (λ b. b.newest.tree.start ≡ self.old.tree.leaves) }
        ensures older { IfOk result (λ b. b.older ≡ []) }
        ensures adding { IfOk result (λ b. IsAdding F.shape b.newest) }
        ensures same { self.new ≡ self.old }
    {
        grown_by_items(alloc, &self.tree, &mut self.hasher, items)
    }

    // The tree as these items leave it, after the list of a batch on this tree, of whose layers it keeps those that begin at
    // a boundary or past it. Only the items' leaves, and the nodes over these, are hashed.
    pub(crate) fn tree_since(
        &mut self,
        alloc: Global,
        batch: &MerkleizedBatch<F, H::Digest>,
        boundary: u64,
        items: &[Vec<u8>],
    ) -> Result<MerkleizedBatch<F, H::Digest>, AllocError>
        requires room { batch.now.newest.tree.leaves + length items.now ≤ 2 ^ 62 }
        requires reach { Contains (stops batch.now.newest.tree.leaves (all_layers batch.now))
            self.old.tree.leaves }
        requires boundary { boundary ≤ self.old.tree.leaves }
        ensures history { (list base : List (List ℕ)) (lists : List (List (List ℕ)))
            → IsLog C.Store F.shape H.Digest.bytes H.hash self.old list
            → IsHistory F.shape H.Digest.bytes H.hash (all_layers batch.now)
            (digests_from H.hash F.shape 0 base ∷ lists)
            → Contains (digests_from H.hash F.shape 0 base ∷ lists)
            (digests_from H.hash F.shape 0 list)
            → IfOk result (λ b. IsHistory F.shape H.Digest.bytes H.hash (all_layers b)
            (digests_from H.hash F.shape 0 (base ++ map (λ v. v.items) items.now)
            ∷ lists_since boundary (digests_from H.hash F.shape 0 base ∷ lists))) }
        ensures leaves { IfOk result (λ b.
            b.newest.tree.leaves ≡ batch.now.newest.tree.leaves + length items.now) }
        ensures start { IfOk result (λ b. b.newest.tree.start ≡ batch.now.newest.tree.leaves) }
        ensures older { IfOk result (λ b. b.older ≡ layers_since boundary (all_layers batch.now)) }
        ensures adding { IfOk result (λ b. IsAdding F.shape b.newest) }
        ensures stops { IfOk result (λ b. stops b.newest.tree.start b.older
            ≡ stops_since boundary (stops batch.now.newest.tree.leaves (all_layers batch.now))) }
        ensures same { self.new ≡ self.old }
    {
        let size = batch.leaves().get();
        let digests = item_digests::<F, H>(alloc, &mut self.hasher, size, items)?;
        let draft = batch.new_batch_since(alloc, Location::new(boundary))?;
        grown_behind(alloc, &self.tree, &mut self.hasher, draft, &digests)
    }

    /// The root of the tree as a batch leaves it, the first of whose peaks are inactive.
    pub fn speculative_root(
        &mut self,
        alloc: Global,
        batch: &MerkleizedBatch<F, H::Digest>,
        inactive: usize,
    ) -> Result<H::Digest, AllocError>
        requires { inactive ≤ length (trees.peaks F.shape batch.now.newest.tree.leaves) }
        ensures value { (new : List (List ℕ)) (lists : List (List (List ℕ)))
            → IsHistory F.shape H.Digest.bytes H.hash (all_layers batch.now) (new ∷ lists)
            → IfOk result (λ d. H.Digest.bytes d ≡ trees.root H.hash F.shape new inactive) }
        ensures same { self.new ≡ self.old }
    {
        batch.root(alloc, &mut self.hasher, inactive)
    }

    /// The root that the tree would have with the leaves of these items after its own, the first of whose peaks are inactive.
    pub fn root_with(
        &mut self,
        alloc: Global,
        items: &[Vec<u8>],
        inactive: usize,
    ) -> Result<H::Digest, AllocError>
        requires room { self.old.tree.leaves + length items.now ≤ 2 ^ 62 }
        requires peaks { inactive
            ≤ length (trees.peaks F.shape (self.old.tree.leaves + length items.now)) }
        ensures value { (list : List (List ℕ))
            → IsLog C.Store F.shape H.Digest.bytes H.hash self.old list
            → IfOk result (λ d. H.Digest.bytes d
            ≡ trees.root H.hash F.shape
            (digests_from H.hash F.shape 0 (list ++ map (λ v. v.items) items.now)) inactive) }
        ensures same { self.new ≡ self.old }
    {
        let batch = grown_by_items(alloc, &self.tree, &mut self.hasher, items)?;
        batch.root(alloc, &mut self.hasher, inactive)
    }

    /// The proof of the items from `start` on, at most `max` of them, in the tree of the first `size` items, the first of
    /// whose peaks are inactive; and these items. `inactive` counts only if the log has so many items.
    pub fn historical_proof(
        &mut self,
        alloc: Global,
        size: u64,
        inactive: usize,
        start: u64,
        max: NonZeroU64,
    ) -> Result<(Proof<H::Digest>, Vec<Vec<u8>>), Error>
        requires { size ≤ self.old.tree.leaves → inactive ≤ length (trees.peaks F.shape size) }
        ensures proof { (list : List (List ℕ))
            → IsLog C.Store F.shape H.Digest.bytes H.hash self.old list
            → IfOk result (λ shown. proof_view H.Digest.bytes shown.0
            ≡ proof_of H.hash F.shape (digests_from H.hash F.shape 0 (take size list)) inactive
            start (start + min (non_zero_u64_get max) (size - start))) }
        ensures items { (list : List (List ℕ))
            → IsLog C.Store F.shape H.Digest.bytes H.hash self.old list
            → IfOk result (λ shown.
            IfSome (C.told self.old.store) (λ _. map (λ v. v.items) shown.1.items
            ≡ take (min (non_zero_u64_get max) (size - start)) (drop start list))) }
        ensures count { IfOk result (λ shown.
            length shown.1.items ≡ min (non_zero_u64_get max) (size - start)) }
        ensures size { self.old.tree.leaves < size
            → result ≡ Err (Error.Merkle (TreeRefused.RangeOutOfBounds size)) }
        ensures start { size ≤ self.old.tree.leaves → size ≤ start
            → result ≡ Err (Error.Merkle (TreeRefused.RangeOutOfBounds start)) }
        ensures pruned { size ≤ self.old.tree.leaves → start < size → start < self.old.tree.start
            → result ≡ Err (Error.Journal (JournalError.ItemPruned start)) }
        ensures never { size ≤ self.old.tree.leaves → start < size → self.old.tree.start ≤ start
            → IfErr result (λ e. (e ≡ Error.Memory) ⊎ (e ≡ Error.Journal JournalError.Store)) }
        ensures stands { (list : List (List ℕ))
            → IsLog C.Store F.shape H.Digest.bytes H.hash self.old list
            → IsLog C.Store F.shape H.Digest.bytes H.hash self.new list }
        ensures tree { self.new.tree ≡ self.old.tree }
        ensures kept { IsKept C.Store self.old.store self.new.store }
        ensures cause { IsCause (C.faults self.old.store) (C.faults self.new.store)
            (IsErrOf result (Error.Journal JournalError.Store)) }
    {
        let (first, leaves) = self.bounds();
        if leaves < size {
            return Err(Error::Merkle(TreeRefused::RangeOutOfBounds(size)));
        }
        if size <= start {
            return Err(Error::Merkle(TreeRefused::RangeOutOfBounds(start)));
        }
        if start < first {
            return Err(Error::Journal(JournalError::ItemPruned(start)));
        }
        let end = start + max.get().min(size - start);
        let proof = shown::kept_proof(alloc, &self.tree, size, inactive, start, end)?;
        let items = shown::read_items(alloc, &mut self.store, start, end)?;
        Ok((proof, items))
    }

    /// The digests of the peaks over the first `count` items, from left to right. If the log is kept from there or from
    /// before, it has them all.
    pub fn pinned_nodes_at(&self, alloc: Global, count: u64) -> Result<Vec<H::Digest>, Error>
        ensures value { (list : List (List ℕ))
            → IsLog C.Store F.shape H.Digest.bytes H.hash self.now list
            → IfOk result (λ pins. map H.Digest.bytes pins.items
            ≡ map (trees.digest_of H.hash F.shape (digests_from H.hash F.shape 0 list))
            (trees.peaks F.shape count)) }
        ensures range { self.now.tree.leaves < count
            → result ≡ Err (Error.Merkle (TreeRefused.RangeOutOfBounds count)) }
        ensures held { OnOk result (first_lacked (node_at F.shape self.now.tree)
            (trees.peak_positions F.shape count)
            ≡ None) }
        ensures cause { count ≤ self.now.tree.leaves
            → IfErr result
            (IsLacked (node_at F.shape self.now.tree) (trees.peak_positions F.shape count)) }
        ensures whole { self.now.tree.start ≤ count → count ≤ self.now.tree.leaves
            → IfErr result (λ e. e ≡ Error.Memory) }
    {
        let (_, leaves) = self.bounds();
        if leaves < count {
            return Err(Error::Merkle(TreeRefused::RangeOutOfBounds(count)));
        }
        shown::kept_peaks(alloc, &self.tree, count)
    }

    /// The proof of the leaves from `start` up to, and without, `end`, in the tree as a batch leaves it, the first of whose
    /// peaks are inactive.
    pub fn speculative_proof(
        &self,
        alloc: Global,
        batch: &MerkleizedBatch<F, H::Digest>,
        inactive: usize,
        start: u64,
        end: u64,
    ) -> Result<Proof<H::Digest>, Error>
        requires order { start ≤ end }
        requires within { end ≤ batch.now.newest.tree.leaves }
        requires inactive { inactive ≤ length (trees.peaks F.shape batch.now.newest.tree.leaves) }
        ensures value { (list : List (List ℕ)) (new : List (List ℕ)) (lists : List (List (List ℕ)))
            → IsLog C.Store F.shape H.Digest.bytes H.hash self.now list
            → IsHistory F.shape H.Digest.bytes H.hash (all_layers batch.now) (new ∷ lists)
            → Contains (new ∷ lists) (digests_from H.hash F.shape 0 list)
            → IfOk result (λ p.
            proof_view H.Digest.bytes p ≡ proof_of H.hash F.shape new inactive start end) }
        ensures held { OnOk result (first_lacked (over_at F.shape batch.now self.now.tree)
            (needed_positions F.shape batch.now.newest.tree.leaves start end)
            ≡ None) }
        ensures cause { IfErr result (IsLacked (over_at F.shape batch.now self.now.tree)
            (needed_positions F.shape batch.now.newest.tree.leaves start end)) }
        ensures whole { self.now.tree.start ≤ start
            → (list : List (List ℕ)) (new : List (List ℕ)) (lists : List (List (List ℕ)))
            → IsLog C.Store F.shape H.Digest.bytes H.hash self.now list
            → IsHistory F.shape H.Digest.bytes H.hash (all_layers batch.now) (new ∷ lists)
            → Contains (new ∷ lists) (digests_from H.hash F.shape 0 list)
            → IfErr result (λ e. e ≡ Error.Memory) }
    {
        shown::proof_over(alloc, batch, &self.tree, inactive, start, end)
    }

    /// The digests of the peaks over the first `at` leaves, from left to right, in the tree as a batch leaves it.
    pub fn speculative_pinned_nodes(
        &self,
        alloc: Global,
        batch: &MerkleizedBatch<F, H::Digest>,
        at: u64,
    ) -> Result<Vec<H::Digest>, Error>
        requires within { at ≤ batch.now.newest.tree.leaves }
        ensures value { (list : List (List ℕ)) (new : List (List ℕ)) (lists : List (List (List ℕ)))
            → IsLog C.Store F.shape H.Digest.bytes H.hash self.now list
            → IsHistory F.shape H.Digest.bytes H.hash (all_layers batch.now) (new ∷ lists)
            → Contains (new ∷ lists) (digests_from H.hash F.shape 0 list)
            → IfOk result (λ pins. map H.Digest.bytes pins.items
            ≡ map (trees.digest_of H.hash F.shape new) (trees.peaks F.shape at)) }
        ensures held { OnOk result (first_lacked (over_at F.shape batch.now self.now.tree)
            (trees.peak_positions F.shape at)
            ≡ None) }
        ensures cause { IfErr result
            (IsLacked (over_at F.shape batch.now self.now.tree) (trees.peak_positions F.shape at)) }
        ensures whole { self.now.tree.start ≤ at
            → (list : List (List ℕ)) (new : List (List ℕ)) (lists : List (List (List ℕ)))
            → IsLog C.Store F.shape H.Digest.bytes H.hash self.now list
            → IsHistory F.shape H.Digest.bytes H.hash (all_layers batch.now) (new ∷ lists)
            → Contains (new ∷ lists) (digests_from H.hash F.shape 0 list)
            → IfErr result (λ e. e ≡ Error.Memory) }
    {
        shown::peaks_over(alloc, batch, &self.tree, at)
    }

    /// How many items the log has, with those before the start.
    pub fn size(&self) -> u64
        ensures { result ≡ self.now.tree.leaves }
    {
        self.tree.leaves().get()
    }

    /// The location of the first item that is kept, and how many items the log has.
    pub fn bounds(&self) -> (u64, u64)
        ensures start { result.0 ≡ self.now.tree.start }
        ensures size { result.1 ≡ self.now.tree.leaves }
        ensures order { result.0 ≤ result.1 }
        ensures limit { result.1 ≤ 2 ^ 62 }
        ensures first { C.start self.now.store ≡ self.now.tree.start }
        ensures past { self.now.tree.leaves ≤ C.end self.now.store }
    {
        let (start, leaves) = self.tree.bounds();
        (start.get(), leaves.get())
    }

    /// The tree over the items' leaves.
    pub fn tree(&self) -> &Mem<F, H::Digest>
        ensures { result.now ≡ self.now.tree }
    {
        &self.tree
    }

    /// The log's hasher, with its tree beside it: what else is hashed while the tree is read takes no hasher of its own. The log is
    /// as it was when they are given back.
    pub fn split(&mut self) -> (&mut StandardHasher<H>, &Mem<F, H::Digest>)
        ensures* same { sem 𝓛 (Lends (the_row F.row C.row H.row H.Digest.row F.Family C.Store H.Hasher H.Digest.Digest) (hasher_row H.row) self.entry result.0 (λ _. self.old)) }
        ensures tree { result.1.now ≡ self.old.tree }
    {
        (&mut self.hasher, &self.tree)
    }

    /// The store.
    pub fn store(&self) -> &C
        ensures { result.now ≡ self.now.store }
    {
        &self.store
    }
}

// The log over a store that was called: if the call failed, the store alone is left.
fn log_after<F: Family, C: Store, H: Hasher + Drop>(
    store: C,
    tree: Mem<F, H::Digest>,
    hasher: StandardHasher<H>,
    done: Result<(), StoreError>,
) -> Result<AuthLog<F, C, H>, LogRefusal<AuthLog<F, C, H>, C>>
    requires start { OnOk done (tree.start ≡ C.start store) }
    requires size { OnOk done (tree.leaves ≤ C.end store) }
    ensures ok { IfOk result (λ log. (done ≡ Ok tt) × (log.store ≡ store) × (log.tree ≡ tree)) }
    ensures err { IfErr result (λ r.
        (r.given ≡ LogGiven.Store store) × IfErr done (λ e. r.error ≡ log_error e)
        × (done ≢ Ok tt)) }
{
    match done {
        Ok(()) => Ok(AuthLog {
            store,
            tree,
            hasher,
        }),
        Err(error) => Err(LogRefusal {
            given: LogGiven::Store(store),
            error: Error::from(error),
        }),
    }
}

// Forgets what a tree holds before a location, and gives the digests of the peaks there, one after another. If memory lacks,
// the tree is as it was.
fn forget<F: Family, D: Digest>(
    alloc: Global,
    tree: &mut Mem<F, D>,
    to: u64,
) -> Result<Vec<u8>, AllocError>
    requires start { tree.old.start ≤ to }
    requires leaves { to ≤ tree.old.leaves }
    ensures start { OnOk result (tree.new.start ≡ to) }
    ensures leaves { OnOk result (tree.new.leaves ≡ tree.old.leaves) }
    ensures stands { (hash : List ℕ → List ℕ) (list : List (List ℕ))
        → Stands F.shape D.bytes hash tree.old list
        → OnOk result (Stands F.shape D.bytes hash tree.new list) }
    ensures head { (hash : List ℕ → List ℕ) (list : List (List ℕ))
        → Stands F.shape D.bytes hash tree.old list
        → IfOk result (λ head. IsHead F.shape D.bytes hash to list head.items) }
    ensures whole { IsWhole F.shape tree.old }
    ensures err { OnErr result (tree.new ≡ tree.old) }
{
    let (start, _) = tree.bounds();
    prove!(start.get() <= to);
    let pins = shown::kept_peaks(alloc, tree, to).map_err(|_| AllocError)?;
    let head = joined(alloc, &pins)?;
    tree.prune(alloc, Location::new(to))?;
    Ok(head)
}

// The bytes of digests, one after another.
fn joined<D: Digest>(alloc: Global, digests: &[D]) -> Result<Vec<u8>, AllocError>
    ensures { IfOk result (λ v. v.items ≡ concat (map D.bytes digests.now)) }
{
    let mut bytes = Vec::new(alloc);
    for digest in digests {
        bytes.extend_from_slice(digest.bytes())?;
    }
    Ok(bytes)
}

// The log of a store that gets these items, whose leaves its tree has already.
fn stored<F: Family, C: Store, H: Hasher + Drop>(
    store: C,
    tree: Mem<F, H::Digest>,
    hasher: StandardHasher<H>,
    items: &[Vec<u8>],
) -> Result<AuthLog<F, C, H>, LogRefusal<AuthLog<F, C, H>, C>>
    requires start { tree.start ≡ C.start store }
    requires size { tree.leaves ≡ C.end store + length items.now }
    requires room { tree.leaves ≤ 2 ^ 62 }
    ensures tree { IfOk result (λ log. log.tree ≡ tree) }
    ensures grown { IfOk result (λ log.
        HasGrown C.Store store log.store (map (λ v. v.items) items.now)) }
    ensures later { IfOk result (λ log. C.faults store ≤ C.faults log.store) }
    ensures refused { IfErr result (λ r. (log : Log C H.Digest) → log.store ≡ store
        → IsRefused C.Store (λ old new. HasGrownPart C.Store old new (map (λ v. v.items) items.now))
        log r.given r.error) }
{
    let mut store = store;
    let done = store.append(items);
    log_after(store, tree, hasher, done)
}

// The tree of a store's items from its start up to `size`.
fn load<F: Family, C: Store, H: Hasher>(
    alloc: Global,
    store: &mut C,
    hasher: &mut StandardHasher<H>,
    size: u64,
) -> Result<Mem<F, H::Digest>, Error>
    requires start { C.start store.old ≤ size }
    requires end { size ≤ C.end store.old }
    ensures stands { (list : List (List ℕ)) → length list ≡ size
        → IfSome (C.told store.old) (λ held.
        take (size - C.start store.old) held.items ≡ drop (C.start store.old) list
        → held.head ≡ head_over F.shape H.hash (C.start store.old)
        (digests_from H.hash F.shape 0 (take (C.start store.old) list))
        → IfOk result (λ tree.
        Stands F.shape H.Digest.bytes H.hash tree (digests_from H.hash F.shape 0 list))) }
    ensures start { IfOk result (λ tree. tree.start ≡ C.start store.old) }
    ensures size { IfOk result (λ tree. tree.leaves ≡ size) }
    ensures long { IfOk result (λ _. IfSome (C.told store.old) (λ held.
        length held.head ≡ length (trees.peaks F.shape (C.start store.old)) * H.Digest.SIZE)) }
    ensures head { IfErr result (λ e. e ≡ Error.DataCorrupted Corrupt.HeadDoesNotMatch
        → IfSome (C.told store.old) (λ held.
        length held.head ≢ length (trees.peaks F.shape (C.start store.old)) * H.Digest.SIZE)) }
    ensures never { IfErr result (λ e. (e ≡ Error.Memory)
        ⊎ ((e ≡ Error.Journal JournalError.Store)
        ⊎ (e ≡ Error.DataCorrupted Corrupt.HeadDoesNotMatch))) }
    ensures kept { IsKept C.Store store.old store.new }
    ensures cause { IsCause (C.faults store.old) (C.faults store.new)
        (IsErrOf result (Error.Journal JournalError.Store)) }
{
    let mut tree = pruned(alloc, store)?;
    let (start, _) = store.bounds();
    let digests = read_digests::<F, C, H>(alloc, store, hasher, start, size)?;
    add_leaves(alloc, &mut tree, hasher, &digests)?;
    Ok(tree)
}

// The tree of no leaves past a store's start.
fn pruned<F: Family, C: Store, D: Digest>(alloc: Global, store: &mut C) -> Result<Mem<F, D>, Error>
    ensures stands { (hash : List ℕ → List ℕ) → ((m : List ℕ) → length (hash m) ≡ D.SIZE)
        → (list : List (List ℕ)) → C.start store.old ≤ length list
        → IfSome (C.told store.old) (λ held.
        held.head ≡ head_over F.shape hash (C.start store.old)
        (digests_from hash F.shape 0 (take (C.start store.old) list))
        → IfOk result (λ tree. Stands F.shape D.bytes hash tree
        (digests_from hash F.shape 0 (take (C.start store.old) list)))) }
    ensures start { IfOk result (λ tree. tree.start ≡ C.start store.old) }
    ensures leaves { IfOk result (λ tree. tree.leaves ≡ C.start store.old) }
    ensures long { IfOk result (λ _. IfSome (C.told store.old) (λ held.
        length held.head ≡ length (trees.peaks F.shape (C.start store.old)) * D.SIZE)) }
    ensures head { IfErr result (λ e. e ≡ Error.DataCorrupted Corrupt.HeadDoesNotMatch
        → IfSome (C.told store.old) (λ held.
        length held.head ≢ length (trees.peaks F.shape (C.start store.old)) * D.SIZE)) }
    ensures never { IfErr result (λ e. (e ≡ Error.Memory)
        ⊎ ((e ≡ Error.Journal JournalError.Store)
        ⊎ (e ≡ Error.DataCorrupted Corrupt.HeadDoesNotMatch))) }
    ensures kept { IsKept C.Store store.old store.new }
    ensures cause { IsCause (C.faults store.old) (C.faults store.new)
        (IsErrOf result (Error.Journal JournalError.Store)) }
{
    let (start, _) = store.bounds();
    let start = Location::new(start);
    let head = store.head()?;
    let count = F::peak_count(start) as usize;
    if !is_long(count, D::SIZE, head.len()) {
        return Err(Error::DataCorrupted(Corrupt::HeadDoesNotMatch));
    }
    Ok(bare_tree(alloc, start, count, &head)?)
}

// Whether there are so many bytes as so many digests of a size have.
fn is_long(count: usize, size: usize, bytes: usize) -> bool
    ensures { IsTrue result ↔ (bytes ≡ count * size) }
{
    match count.checked_mul(size) {
        Some(all) => all == bytes,
        None => false,
    }
}

// The tree of no leaves past a start, with the digests of the peaks there, which stand in the bytes one after another.
fn bare_tree<F: Family, D: Digest>(
    alloc: Global,
    start: Location<F>,
    count: usize,
    bytes: &[u8],
) -> Result<Mem<F, D>, AllocError>
    requires few { start ≤ 2 ^ 62 }
    requires count { count ≡ length (trees.peaks F.shape start) }
    requires long { length bytes.now ≡ count * D.SIZE }
    ensures start { IfOk result (λ tree. (tree.start ≡ start) × (tree.leaves ≡ start)) }
    ensures pins { IfOk result (λ tree.
        (length tree.pins ≡ count) × (concat (map D.bytes tree.pins) ≡ bytes.now)) }
{
    let mut pins = Vec::with_capacity(alloc, count)?;
    let mut rest = bytes;
    for _ in 0..count {
        let (piece, others) = rest.split_at(D::SIZE);
        pins.push_reserved(D::from_bytes(piece).unwrap());
        rest = others;
    }
    Mem::from_pruned_with_retained(alloc, Vec::new(alloc), start, pins)
}

// The leaves' digests of a store's items from its start up to `size`.
fn read_digests<F: Family, C: Store, H: Hasher>(
    alloc: Global,
    store: &mut C,
    hasher: &mut StandardHasher<H>,
    start: u64,
    size: u64,
) -> Result<Vec<H::Digest>, Error>
    requires start { start ≡ C.start store.old }
    requires order { start ≤ size }
    requires end { size ≤ C.end store.old }
    requires few { size ≤ 2 ^ 62 }
    ensures count { IfOk result (λ v. length v.items ≡ size - start) }
    ensures digests { IfOk result (λ v.
        IfSome (C.told store.old) (λ held. map H.Digest.bytes v.items
        ≡ digests_from H.hash F.shape start (take (size - start) held.items))) }
    ensures never { IfErr result (λ e.
        (e ≡ Error.Memory) ⊎ (e ≡ Error.Journal JournalError.Store)) }
    ensures kept { IsKept C.Store store.old store.new }
    ensures cause { IsCause (C.faults store.old) (C.faults store.new)
        (IsErrOf result (Error.Journal JournalError.Store)) }
{
    let mut made = Vec::with_capacity(alloc, (size - start) as usize)?;
    for at in start..size {
        let item = store.read(at)?;
        made.push_reserved(leaf_digest::<F, H>(hasher, at, &item));
    }
    Ok(made)
}

// Adds the leaves of items to a tree.
fn add_items<F: Family, H: Hasher>(
    alloc: Global,
    tree: &mut Mem<F, H::Digest>,
    hasher: &mut StandardHasher<H>,
    items: &[Vec<u8>],
) -> Result<(), AllocError>
    requires { tree.old.leaves + length items.now ≤ 2 ^ 62 }
    ensures start { OnOk result (tree.new.start ≡ tree.old.start) }
    ensures leaves { OnOk result (tree.new.leaves ≡ tree.old.leaves + length items.now) }
    ensures stands { (list : List (List ℕ))
        → Stands F.shape H.Digest.bytes H.hash tree.old (digests_from H.hash F.shape 0 list)
        → OnOk result (Stands F.shape H.Digest.bytes H.hash tree.new
        (digests_from H.hash F.shape 0 (list ++ map (λ v. v.items) items.now))) }
    ensures err { OnErr result (tree.new ≡ tree.old) }
{
    let batch = grown_by_items(alloc, tree, hasher, items)?;
    tree.apply_batch(&batch)
}

// The leaves' digests of items from a location on.
fn item_digests<F: Family, H: Hasher>(
    alloc: Global,
    hasher: &mut StandardHasher<H>,
    from: u64,
    items: &[Vec<u8>],
) -> Result<Vec<H::Digest>, AllocError>
    requires { from + length items.now ≤ 2 ^ 62 }
    ensures { IfOk result (λ v. map H.Digest.bytes v.items
        ≡ digests_from H.hash F.shape from (map (λ v. v.items) items.now)) }
{
    let mut made = Vec::with_capacity(alloc, items.len())?;
    for (index, item) in items.iter().enumerate() {
        made.push_reserved(leaf_digest::<F, H>(hasher, from + index as u64, item));
    }
    Ok(made)
}

// Adds leaves with these digests to a tree.
fn add_leaves<F: Family, H: Hasher>(
    alloc: Global,
    tree: &mut Mem<F, H::Digest>,
    hasher: &mut StandardHasher<H>,
    digests: &[H::Digest],
) -> Result<(), AllocError>
    requires { tree.old.leaves + length digests.now ≤ 2 ^ 62 }
    ensures start { OnOk result (tree.new.start ≡ tree.old.start) }
    ensures leaves { OnOk result (tree.new.leaves ≡ tree.old.leaves + length digests.now) }
    ensures stands { (list : List (List ℕ)) → Stands F.shape H.Digest.bytes H.hash tree.old list
        → OnOk result
        (Stands F.shape H.Digest.bytes H.hash tree.new (list ++ map H.Digest.bytes digests.now)) }
    ensures err { OnErr result (tree.new ≡ tree.old) }
{
    let batch = grown(alloc, tree, hasher, digests)?;
    tree.apply_batch(&batch)
}

// The batch that puts the leaves of items after a tree's own.
fn grown_by_items<F: Family, H: Hasher>(
    alloc: Global,
    tree: &Mem<F, H::Digest>,
    hasher: &mut StandardHasher<H>,
    items: &[Vec<u8>],
) -> Result<MerkleizedBatch<F, H::Digest>, AllocError>
    requires { tree.now.leaves + length items.now ≤ 2 ^ 62 }
    ensures leaves { IfOk result (λ b. b.newest.tree.leaves ≡ tree.now.leaves + length items.now) }
    ensures start { IfOk result (λ b. b.newest.tree.start ≡ tree.now.leaves) }
    ensures older { IfOk result (λ b. b.older ≡ []) }
    ensures adding { IfOk result (λ b. IsAdding F.shape b.newest) }
    ensures reach { IfOk result (λ b.
        Contains (stops b.newest.tree.leaves (all_layers b)) tree.now.leaves) }
    ensures history { (list : List (List ℕ))
        → Stands F.shape H.Digest.bytes H.hash tree.now (digests_from H.hash F.shape 0 list)
        → IfOk result (λ b.
        IsHistory F.shape H.Digest.bytes H.hash (all_layers b) (digests_from H.hash F.shape 0
        (list ++ map (λ v. v.items) items.now) ∷ digests_from H.hash F.shape 0 list
        ∷ [])) }
{
    let size = tree.leaves().get();
    let digests = item_digests::<F, H>(alloc, hasher, size, items)?;
    grown(alloc, tree, hasher, &digests)
}

// The batch that puts leaves with these digests after a tree's own.
fn grown<F: Family, H: Hasher>(
    alloc: Global,
    tree: &Mem<F, H::Digest>,
    hasher: &mut StandardHasher<H>,
    digests: &[H::Digest],
) -> Result<MerkleizedBatch<F, H::Digest>, AllocError>
    requires { tree.now.leaves + length digests.now ≤ 2 ^ 62 }
    ensures leaves { IfOk result (λ b.
        b.newest.tree.leaves ≡ tree.now.leaves + length digests.now) }
    ensures start { IfOk result (λ b. b.newest.tree.start ≡ tree.now.leaves) }
    ensures older { IfOk result (λ b. b.older ≡ []) }
    ensures adding { IfOk result (λ b. IsAdding F.shape b.newest) }
    ensures reach { IfOk result (λ b.
        Contains (stops b.newest.tree.leaves (all_layers b)) tree.now.leaves) }
    ensures history { (list : List (List ℕ)) → Stands F.shape H.Digest.bytes H.hash tree.now list
        → IfOk result (λ b. IsHistory F.shape H.Digest.bytes H.hash (all_layers b)
        ((list ++ map H.Digest.bytes digests.now) ∷ list ∷ [])) }
{
    let draft = tree.new_batch(alloc);
    grown_behind(alloc, tree, hasher, draft, digests)
}

// The batch that puts leaves with these digests after the list that a draft over a tree stands on.
fn grown_behind<F: Family, H: Hasher>(
    alloc: Global,
    tree: &Mem<F, H::Digest>,
    hasher: &mut StandardHasher<H>,
    draft: UnmerkleizedBatch<F, H::Digest>,
    digests: &[H::Digest],
) -> Result<MerkleizedBatch<F, H::Digest>, AllocError>
    requires none { draft.replaced ≡ [] }
    requires fresh { draft.added ≡ [] }
    requires room { draft.base + length digests.now ≤ 2 ^ 62 }
    requires reach { Contains (stops draft.base draft.layers) tree.now.leaves }
    ensures leaves { IfOk result (λ b. b.newest.tree.leaves ≡ draft.base + length digests.now) }
    ensures start { IfOk result (λ b. b.newest.tree.start ≡ draft.base) }
    ensures older { IfOk result (λ b. b.older ≡ draft.layers) }
    ensures adding { IfOk result (λ b. IsAdding F.shape b.newest) }
    ensures history { (list base : List (List ℕ)) (lists : List (List (List ℕ)))
        → Stands F.shape H.Digest.bytes H.hash tree.now list
        → IsHistory F.shape H.Digest.bytes H.hash draft.layers (base ∷ lists)
        → Contains (base ∷ lists) list
        → IfOk result (λ b. IsHistory F.shape H.Digest.bytes H.hash (all_layers b)
        ((base ++ map H.Digest.bytes digests.now) ∷ base ∷ lists)) }
{
    let mut draft = draft;
    draft.add_leaf_digests(digests)?;
    draft.merkleize(alloc, tree, hasher)
}

// The digest of the leaf at a location with these bytes.
fn leaf_digest<F: Family, H: Hasher>(
    hasher: &mut StandardHasher<H>,
    at: u64,
    item: &[u8],
) -> H::Digest
    requires { at ≤ 2 ^ 62 }
    ensures { H.Digest.bytes result
        ≡ trees.leaf_digest H.hash (trees.Shape.position F.shape (trees.leaf at)) item.now }
{
    let position: Position<F> = F::location_to_position(Location::new(at));
    hasher.leaf_digest(position, item)
}
