//! The database.

ghost use Rattle.std.specs.Prelude.{◌≡◌, ◌++◌, ◌<◌, ◌≤◌, ◌*◌, ◌/◌, ◌^◌, ◌∷◌, ℕ, suc, [], List, true, get_or, map, option_map, Contains, IfOk, IfErr, OnOk};
ghost use Rattle.qm_model.specs.Batches.{Chain, IsOnChain, begun_on};
ghost use Rattle.qm_model.specs.Grafted as grafts;
ghost use Rattle.qm_model.specs.Live as lives;
ghost use Rattle.qm_model.specs.Operations.{Operation};
ghost use Rattle.qm_model.specs.Own as own;
ghost use Rattle.qm_model.specs.Own.{Log};
ghost use Rattle.qm_model.specs.Policies.{Policy};
ghost use Rattle.qm_model.specs.Schemes.{engine_of};
ghost use Rattle.qm_model.specs.Walk.{Rules};
ghost use Rattle.qm_offer.specs.Crashing.{IsSafe};
ghost use Rattle.qm_any.specs.Databases as anys;
ghost use Rattle.qm_any.specs.Applying.{Appends, IsUnapplied, KeepsRest, can_apply};
ghost use Rattle.qm_any.specs.Reading.{AtList, Reads};
ghost use Rattle.qm_store.specs.Given.{store_after};
ghost use Rattle.qm_graft.specs.Grafting.{grafting};
ghost use Rattle.qm_roots.specs.Canonical.{IsCanonical};
ghost use Rattle.qm_roots.specs.Kept.{IsKept, sizes_of};
ghost use Rattle.qm_current.specs.Databases.{Database, IsBegun, IsCounted, IsDatabase, IsJoined, IsMade};
ghost use Rattle.qm_current.specs.Applying.{any_answer, any_given, store_in};
ghost use Rattle.qm_current.specs.Offered.{scheme_of};

use crate::batch::{MerkleizedBatch, UnmerkleizedBatch};
use qm_any::db as any;
use qm_any::db::LaidOut;
use qm_base::{ByteString, Digest, Error, Hasher, Location};
use qm_bits::Chunks;
use qm_chunks::Graftable;
use qm_graft::grafted::height;
use qm_merkle::Family;
use qm_operations::{Update, ValueEncoding};
use qm_roots::{Canonical, Kept};
use qm_store::{Given, Refusal, Store};
use std::alloc::{AllocError, Global};
use std::marker::Model;
use std::rc::Rc;

/// A current database: an any one, the grafted tree of its list and its canonical root. It is one instance of a number, and makes
/// lists of batches alone whose chain began on that instance.
#[derive(Drop)]
pub struct Db<
    F: Graftable,
    C: Store,
    I: qm_index::Unordered<Value = Location<F>>,
    H: Hasher,
    U: Update,
    N: Chunks,
> {
    pub(crate) any: any::Db<F, C, I, H, U, N>,
    pub(crate) canonical: Canonical<F, N, H::Digest>,
    pub(crate) instance: u64,
    pub(crate) name: &'static str,
}

impl<
    F: Graftable,
    C: Store,
    I: qm_index::Unordered<Value = Location<F>>,
    H: Hasher,
    U: Update,
    N: Chunks,
> Model for Db<F, C, I, H, U, N> {
    ghost use Rattle.qm_current.specs.Databases.{Database, IsJoined};

    ghost Value = { Database C H.Digest };

    ghost view = { λ db. record { any = db.any; canonical = db.canonical; instance = db.instance; name = db.name.now } };

    ghost invariant = { λ db. IsJoined {C = C} {D = H.Digest} N.LEN (record { any = db.any; canonical = db.canonical; instance = db.instance; name = db.name.now }) };
}

impl<
    F: Graftable,
    C: Store,
    I: qm_index::Unordered<Value = Location<F>>,
    H: Hasher,
    U: Update,
    N: Chunks,
> Db<F, C, I, H, U, N> {
    /// The canonical root, which speaks of every key.
    pub fn root(&self) -> H::Digest
        ensures { H.Digest.bytes result ≡ self.now.canonical.root }
    {
        self.canonical.root()
    }

    /// The operations root.
    pub fn ops_root(&self) -> H::Digest
        ensures { H.Digest.bytes result ≡ self.now.any.commitment.root }
    {
        self.any.root()
    }

    /// The any database, for what takes no call that changes it.
    pub fn any(&self) -> &any::Db<F, C, I, H, U, N>
        ensures { result.now ≡ self.now.any }
    {
        &self.any
    }

    /// Begins a batch on the database as it is.
    pub fn new_batch(
        &self,
        alloc: Global,
    ) -> Result<UnmerkleizedBatch<F, H::Digest, U, N>, AllocError>
        ensures value { IfOk result (λ b.
            (b.any ≡ record { parent = anys.at_rest self.now.any; keep = 0; writes = [] })
            × (b.instance ≡ self.now.instance)) }
        ensures begun { (list : List Operation)
            → IsDatabase C.Store ⟦<any::Db<F, C, I, H, U, N> as LaidOut>⟧.layout self.now list
            → IfOk result (λ b.
            IsBegun ⟦<any::Db<F, C, I, H, U, N> as LaidOut>⟧.layout.hashing N.LEN b
            (begun_on self.now.instance list) (begun_on self.now.instance list)) }
    {
        let parent = self.to_batch(alloc)?;
        let any = self.any.new_batch(alloc)?;
        Ok(UnmerkleizedBatch {
            any,
            parent,
            keep: 0,
        })
    }

    /// The database as a merkleized batch, which does nothing: batches can be begun on it.
    pub fn to_batch(
        &self,
        alloc: Global,
    ) -> Result<Rc<MerkleizedBatch<F, H::Digest, U, N>>, AllocError>
        ensures value { IfOk result (λ b. (b.value.any ≡ anys.at_rest self.now.any)
            × (b.value.instance ≡ self.now.instance)) }
        ensures made { (list : List Operation)
            → IsDatabase C.Store ⟦<any::Db<F, C, I, H, U, N> as LaidOut>⟧.layout self.now list
            → IfOk result (λ b.
            IsMade ⟦<any::Db<F, C, I, H, U, N> as LaidOut>⟧.layout.hashing N.LEN b.value
            (begun_on self.now.instance list) list) }
    {
        let any = self.any.to_batch(alloc)?;
        let kept = self.canonical.to_kept(alloc, self.any.bitmap())?;
        Ok(Rc::new(
            alloc,
            MerkleizedBatch {
                any,
                kept,
                instance: self.instance,
            },
        )?)
    }
}

impl<
    F: Graftable,
    C: Store,
    I: qm_index::Unordered<Value = Location<F>>,
    H: Hasher,
    U: Update,
    N: Chunks,
> Db<F, C, I, H, U, N> {
    /// The value of a key, if it is live, as the any database reads it.
    pub fn get(&mut self, alloc: Global, key: &U::Key) -> Result<Option<U::Value>, Error>
        ensures value { AtList C.Store ⟦<any::Db<F, C, I, H, U, N> as LaidOut>⟧.layout self.old.any
            (λ list. IfOk result (λ v.
            option_map U.Value.bytes v ≡ lives.value_of list (U.Key.bytes key.now))) }
        ensures reads { Reads C.Store ⟦<any::Db<F, C, I, H, U, N> as LaidOut>⟧.layout self.old.any
            self.new.any result }
        ensures rest { self.new ≡ record self.old { any = self.new.any } }
    {
        self.any.get(alloc, key)
    }

    /// The values of keys, in their order, if they are live.
    pub fn get_many(
        &mut self,
        alloc: Global,
        keys: &[U::Key],
    ) -> Result<Vec<Option<U::Value>>, Error>
        ensures values { AtList C.Store ⟦<any::Db<F, C, I, H, U, N> as LaidOut>⟧.layout
            self.old.any (λ list. IfOk result (λ v. map (option_map U.Value.bytes) v.items
            ≡ map (λ k. lives.value_of list (U.Key.bytes k)) keys.now)) }
        ensures reads { Reads C.Store ⟦<any::Db<F, C, I, H, U, N> as LaidOut>⟧.layout self.old.any
            self.new.any result }
        ensures rest { self.new ≡ record self.old { any = self.new.any } }
    {
        self.any.get_many(alloc, keys)
    }
}

impl<
    F: Graftable,
    C: Store,
    I: qm_index::Unordered<Value = Location<F>> + Drop,
    H: Hasher + Drop,
    U: Update,
    N: Chunks,
> Db<F, C, I, H, U, N> {
    /// Takes the batch's tip list, as the any database does, and with it the grafted tree and the canonical root: nothing is hashed.
    /// The commitment alone decides whether the batch is stale, and not on which instance its chain began. The database comes back as
    /// it was if the batch is stale, or if memory lacks before its store was called. If memory lacks after that its store comes back,
    /// which may have a first part of what the list adds, or all of it; so it does if it failed.
    pub fn apply_batch(
        self,
        alloc: Global,
        batch: &MerkleizedBatch<F, H::Digest, U, N>,
    ) -> Result<Self, Refusal<Self, C>>
        ensures stands { (list : List Operation) (chain : Chain) (tip : List Operation)
            → IsDatabase C.Store ⟦<any::Db<F, C, I, H, U, N> as LaidOut>⟧.layout self list
            → IsMade ⟦<any::Db<F, C, I, H, U, N> as LaidOut>⟧.layout.hashing N.LEN batch.now chain
            tip → IsOnChain list chain → IfOk result (λ next.
            IsDatabase C.Store ⟦<any::Db<F, C, I, H, U, N> as LaidOut>⟧.layout next tip) }
        ensures moved { IfOk result (λ next.
            (next.any.commitment ≡ batch.now.any.bounds.tip) × (next.instance ≡ self.instance)
            × (next.name ≡ self.name)) }
        ensures counted { IsCounted C.Store self → IfOk result (IsCounted C.Store) }
        ensures fits { OnOk result (can_apply self.any batch.now.any ≡ true) }
        ensures appends { (chain : Chain) (tip : List Operation)
            → anys.IsMade ⟦<any::Db<F, C, I, H, U, N> as LaidOut>⟧.layout.hashing batch.now.any
            chain tip
            → Appends C.Store self.any batch.now.any U.form tip (any_answer result) }
        ensures rest { KeepsRest C.Store (store_in self) (store_after store_in result) }
        ensures unapplied { IfErr (any_answer result)
            (IsUnapplied C.Store self.any batch.now.any) }
        ensures back { IfErr result (λ r. (x : Database C H.Digest) → r.given ≡ Given.Database x
            → x ≡ self) }
        ensures crashes { (rules : Rules Policy) (log : Log) (chain : Chain)
            (more : List Operation) → let longer = record log { list = log.list ++ more } in
            let e = engine_of (scheme_of H.Digest.SIZE ⟦<any::Db<F, C, I, H, U, N> as LaidOut>⟧.layout self.name)
            rules in
            IsDatabase C.Store ⟦<any::Db<F, C, I, H, U, N> as LaidOut>⟧.layout self log.list
            → anys.IsMade ⟦<any::Db<F, C, I, H, U, N> as LaidOut>⟧.layout.hashing batch.now.any
            chain longer.list
            → own.IsKept e longer
            → IsSafe C.Store e log longer self.any.log.store (store_after store_in result) }
    {
        // its clauses say that the log's tree starts where the store does
        self.any.bounds();
        // and that the sizes of a batch agree
        batch.any.bounds();
        let Db {
            any,
            canonical,
            instance,
            name,
        } = self;
        match any.apply_batch(alloc, &batch.any) {
            Ok(any) => joined(any, canonical, instance, name, &batch.kept),
            Err(Refusal { given, error }) => Err(Refusal {
                given: given_back(given, canonical, instance, name),
                error,
            }),
        }
    }
}

// The database over an any one that took a batch, if what it kept beside the older one takes it too.
fn joined<
    F: Graftable,
    C: Store,
    I: qm_index::Unordered<Value = Location<F>> + Drop,
    H: Hasher + Drop,
    U: Update,
    N: Chunks,
>(
    any: any::Db<F, C, I, H, U, N>,
    canonical: Canonical<F, N, H::Digest>,
    instance: u64,
    name: &'static str,
    batch: &Kept<F, N, H::Digest>,
) -> Result<Db<F, C, I, H, U, N>, Refusal<Db<F, C, I, H, U, N>, C>>
    requires among { Contains (sizes_of batch.now) canonical.size }
    requires size { any.commitment.size ≡ get_or (sizes_of batch.now) 0 0 }
    requires forgotten { canonical.tree.start ≡ any.activity.pruned }
    requires over { C.start any.log.store < suc any.activity.pruned * (8 * N.LEN) }
    ensures made { IfOk result (λ db. db.any ≡ any) }
    ensures numbered { IfOk result (λ db. (db.instance ≡ instance) × (db.name ≡ name.now)) }
    ensures canonical { (list tip : List Operation) (bases : List (List Operation))
        → IsKept H.Digest.bytes H.hash F.shape N.LEN U.form batch.now tip bases
        → Contains (tip ∷ bases) list
        → IsCanonical H.Digest.bytes H.hash F.shape N.LEN U.form canonical list → IfOk result
        (λ db. IsCanonical H.Digest.bytes H.hash F.shape N.LEN U.form db.canonical tip) }
    ensures refused { IfErr result (λ r.
        (r.given ≡ Given.Store any.log.store) × (r.error ≡ Error.Memory)) }
{
    // its clauses say that there are as many bits as operations, and that the log's tree starts where the store does
    any.bounds();
    let mut canonical = canonical;
    match canonical.apply(batch) {
        Ok(()) => Ok(Db {
            any,
            canonical,
            instance,
            name,
        }),
        Err(_) => Err(Refusal {
            given: Given::Store(any.close()),
            error: Error::Memory,
        }),
    }
}

// What a database gives back if the any one refused.
fn given_back<
    F: Graftable,
    C: Store,
    I: qm_index::Unordered<Value = Location<F>> + Drop,
    H: Hasher,
    U: Update,
    N: Chunks,
>(
    given: Given<any::Db<F, C, I, H, U, N>, C>,
    canonical: Canonical<F, N, H::Digest>,
    instance: u64,
    name: &'static str,
) -> Given<Db<F, C, I, H, U, N>, C>
    requires { (x : anys.Database C H.Digest) → given ≡ Given.Database x
        → IsJoined {C = C} {D = H.Digest} N.LEN
        (record { any = x; canonical = canonical; instance = instance; name = name.now }) }
    ensures any { any_given result ≡ given }
    ensures back { (x : Database C H.Digest) → result ≡ Given.Database x
        → x
        ≡ record { any = x.any; canonical = canonical; instance = instance; name = name.now } }
{
    match given {
        Given::Database(any) => Given::Database(Db {
            any,
            canonical,
            instance,
            name,
        }),
        Given::Store(store) => Given::Store(store),
    }
}

/// Up to where a list of this size may be pruned whose floor stands after so many whole chunks: the last place at or below the floor
/// where a chunk begins and the chunks before it wait for no more operations. `sync_boundary` of a database and of a batch say it of
/// their own floor and size.
pub fn sync_boundary<F: Graftable, N: Chunks>(floor_chunks: u64, size: u64) -> Location<F>
    requires within { floor_chunks * (8 * N.LEN) ≤ 2 ^ 62 }
    ensures exact { (floor : ℕ) → floor_chunks ≡ floor / 2 ^ grafting N.LEN
        → result ≡ grafts.sync_boundary F.shape (grafting N.LEN) floor size }
{
    let floor = floor_chunks * N::span();
    Location::new(qm_chunks::sync_boundary::<F>(height::<N>(), floor, size))
}

/// The least size of a list from which so many chunks may be pruned, if the node over the last of them and its neighbour waits for
/// more than its own operations. An opening refuses a list below it, if so many chunks are pruned.
pub fn pair_absorption_threshold<F: Graftable, N: Chunks>(chunk_count: u64) -> Option<u64>
    requires within { chunk_count * (8 * N.LEN) ≤ 2 ^ 62 }
    ensures { result ≡ grafts.pair_absorption_threshold F.shape (grafting N.LEN) chunk_count }
{
    qm_chunks::pair_absorption_threshold::<F>(height::<N>(), chunk_count)
}
