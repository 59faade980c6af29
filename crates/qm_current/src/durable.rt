//! What makes a current database outlive a crash, and what ends it: commits and syncs, pruning, and its end.

ghost use Rattle.std.specs.Prelude.{◌≡◌, ◌⊎◌, ◌≤◌, ◌<◌, ◌/◌, ◌*◌, ℕ, List, max, IfOk, IfErr, IfSome, OnOk};
ghost use Rattle.qm_model.specs.Forms.{Form};
ghost use Rattle.qm_model.specs.Grafted.{boundary, metadata};
ghost use Rattle.qm_model.specs.Opening.{count_in, entries_of};
ghost use Rattle.qm_model.specs.Operations.{Bytes, Operation};
ghost use Rattle.qm_model.specs.StoreModel.{end_of, settled};
ghost use Rattle.qm_graft.specs.Grafting.{grafting};
ghost use Rattle.qm_store.specs.Given.{store_after, store_given};
ghost use Rattle.qm_model.specs.Own.{Log, no_log};
ghost use Rattle.qm_model.specs.Policies.{Policy};
ghost use Rattle.qm_model.specs.Schemes.{engine_of};
ghost use Rattle.qm_model.specs.Walk.{Rules};
ghost use Rattle.qm_offer.specs.Crashing.{IsSafe};
ghost use Rattle.qm_current.specs.Applying.{store_in};
ghost use Rattle.qm_current.specs.Offered.{scheme_of};
ghost use Rattle.qm_roots.specs.Canonical.{IsCanonical, MayGo};
ghost use Rattle.qm_any.specs.Applying as anys_applying;
ghost use Rattle.qm_any.specs.Lasting.{IsDestroyed, IsGivenUp, HasLeftDestroyed, HasLeftStable};
ghost use Rattle.qm_current.specs.Databases.{IsCounted, IsDatabase, IsJoined};
ghost use Rattle.qm_current.specs.Lasting as lasts;
ghost use Rattle.qm_current.specs.Lasting.{boundary_of, chunks_after, over_any, AreEntries, HasCounted, HasLasted, HasLeftPruned, HasLeftUncounted, HasPruned};

use crate::db::Db;
use qm_any::db as any;
use qm_any::db::LaidOut;
use qm_base::{Digest, Error, Hasher, Location};
use qm_bits::{Chunks, Prunable};
use qm_chunks::Graftable;
use qm_operations::Update;
use qm_pinned::entries;
use qm_roots::Canonical;
use qm_store::{Given, MetaEntry, Refusal, Store};
use std::alloc::{AllocError, Global};

impl<
    F: Graftable,
    C: Store,
    I: qm_index::Unordered<Value = Location<F>> + Drop,
    H: Hasher + Drop,
    U: Update,
    N: Chunks,
> Db<F, C, I, H, U, N> {
    /// Makes the operations stable, as the any database does. No metadata is written. A refusal gives back the store.
    pub fn commit(self) -> Result<Self, Refusal<Self, C>>
        ensures stands { (list : List Operation)
            → IsDatabase C.Store ⟦<any::Db<F, C, I, H, U, N> as LaidOut>⟧.layout self list
            → IfOk result (λ db.
            IsDatabase C.Store ⟦<any::Db<F, C, I, H, U, N> as LaidOut>⟧.layout db list) }
        ensures counted { IsCounted C.Store self → IfOk result (IsCounted C.Store) }
        ensures committed { IfOk result
            (HasLasted C.Store ⟦<any::Db<F, C, I, H, U, N> as LaidOut>⟧.layout settled self) }
        ensures refused { IfErr result
            (IsGivenUp C.Store (HasLeftStable C.Store) self.any.log.store) }
        ensures crashes { (rules : Rules Policy) (log : Log) → IsSafe C.Store
            (engine_of (scheme_of H.Digest.SIZE ⟦<any::Db<F, C, I, H, U, N> as LaidOut>⟧.layout self.name)
            rules) log log self.any.log.store (store_after store_in result) }
    {
        let Db {
            any,
            canonical,
            instance,
            name,
        } = self;
        over(any.commit(), canonical, instance, name)
    }

    /// Makes all that the store holds stable, and then writes the metadata that counts the pruned chunks anew, with the digests of
    /// the grafted tree's peaks over them. It takes memory for these. A refusal gives back the store.
    pub fn sync(self, alloc: Global) -> Result<Self, Refusal<Self, C>>
        ensures stands { (list : List Operation)
            → IsDatabase C.Store ⟦<any::Db<F, C, I, H, U, N> as LaidOut>⟧.layout self list
            → IfOk result (λ db.
            IsDatabase C.Store ⟦<any::Db<F, C, I, H, U, N> as LaidOut>⟧.layout db list) }
        ensures counted { IfOk result (IsCounted C.Store) }
        ensures synced { IfOk result
            (HasCounted C.Store ⟦<any::Db<F, C, I, H, U, N> as LaidOut>⟧.layout settled self) }
        ensures refused { IfErr result (IsGivenUp C.Store (λ old new. HasLeftStable C.Store old new
            ⊎ HasLeftUncounted C.Store ⟦<any::Db<F, C, I, H, U, N> as LaidOut>⟧.layout settled
            self.any.activity.pruned self new) self.any.log.store) }
        ensures crashes { (rules : Rules Policy) (log : Log)
            → IsDatabase C.Store ⟦<any::Db<F, C, I, H, U, N> as LaidOut>⟧.layout self log.list
            → IsCounted C.Store self → IsSafe C.Store
            (engine_of (scheme_of H.Digest.SIZE ⟦<any::Db<F, C, I, H, U, N> as LaidOut>⟧.layout
            self.name)
            rules) log log self.any.log.store (store_after store_in result) }
    {
        match self.all_stable() {
            Ok(db) => db.count_pruned(alloc),
            Err(refusal) => Err(refusal),
        }
    }

    // The database whose store has made all stable that it holds.
    fn all_stable(self) -> Result<Self, Refusal<Self, C>>
        ensures stands { (list : List Operation)
            → IsDatabase C.Store ⟦<any::Db<F, C, I, H, U, N> as LaidOut>⟧.layout self list
            → IfOk result (λ db.
            IsDatabase C.Store ⟦<any::Db<F, C, I, H, U, N> as LaidOut>⟧.layout db list) }
        ensures synced { IfOk result
            (HasLasted C.Store ⟦<any::Db<F, C, I, H, U, N> as LaidOut>⟧.layout settled self) }
        ensures refused { IfErr result
            (IsGivenUp C.Store (HasLeftStable C.Store) self.any.log.store) }
    {
        let Db {
            any,
            canonical,
            instance,
            name,
        } = self;
        over(any.sync(), canonical, instance, name)
    }

    // The database whose store has metadata that counts what is pruned.
    fn count_pruned(self, alloc: Global) -> Result<Self, Refusal<Self, C>>
        ensures stands { (list : List Operation)
            → IsDatabase C.Store ⟦<any::Db<F, C, I, H, U, N> as LaidOut>⟧.layout self list
            → IfOk result (λ db.
            IsDatabase C.Store ⟦<any::Db<F, C, I, H, U, N> as LaidOut>⟧.layout db list) }
        ensures counted { IfOk result (IsCounted C.Store) }
        ensures put { IfOk result
            (HasCounted C.Store ⟦<any::Db<F, C, I, H, U, N> as LaidOut>⟧.layout (λ s. s) self) }
        ensures refused { IfErr result (IsGivenUp C.Store (λ _.
            HasLeftUncounted C.Store ⟦<any::Db<F, C, I, H, U, N> as LaidOut>⟧.layout (λ s. s)
            self.any.activity.pruned self) self.any.log.store) }
    {
        // its clauses say which of its leaves may be forgotten
        self.canonical.tree();
        let Db {
            any,
            canonical,
            instance,
            name,
        } = self;
        match counting(alloc, &canonical, any.bitmap().pruned_chunks() as u64) {
            Ok(entries) => over(any.put_meta(name, &entries), canonical, instance, name),
            Err(_) => Err(out_of_memory(any)),
        }
    }

    /// Takes the operations before a location away from the store, which keeps the digests of the peaks there, with the chunks of
    /// bits that end at or before it and their leaves of the grafted tree: roots, reads and later batches stay what they were. All
    /// operations are made stable first; then metadata is written that counts these chunks too, also if the store starts at the
    /// location or after it. The database comes back as it was if the location is past its boundary; every other refusal gives
    /// back the store.
    pub fn prune(self, alloc: Global, loc: Location<F>) -> Result<Self, Refusal<Self, C>>
        ensures stands { (list : List Operation)
            → IsDatabase C.Store ⟦<any::Db<F, C, I, H, U, N> as LaidOut>⟧.layout self list
            → IfOk result (λ db.
            IsDatabase C.Store ⟦<any::Db<F, C, I, H, U, N> as LaidOut>⟧.layout db list) }
        ensures counted { IfOk result (IsCounted C.Store) }
        ensures pruned { IfOk result
            (HasPruned C.Store ⟦<any::Db<F, C, I, H, U, N> as LaidOut>⟧.layout settled loc self) }
        ensures boundary { (list : List Operation)
            → IsDatabase C.Store ⟦<any::Db<F, C, I, H, U, N> as LaidOut>⟧.layout self list
            → boundary_of F.shape N.LEN self ≡ boundary F.shape (grafting N.LEN) list }
        ensures fits { OnOk result (loc ≤ boundary_of F.shape N.LEN self) }
        ensures beyond { IfErr result (λ r. boundary_of F.shape N.LEN self < loc
            → (r.given ≡ Given.Database self)
            × (r.error ≡ Error.PruneBeyondMinRequired loc (boundary_of F.shape N.LEN self))) }
        ensures refused { IfErr result (λ r. loc ≤ boundary_of F.shape N.LEN self
            → IsGivenUp C.Store (λ old new. HasLeftStable C.Store old new
            ⊎ (HasLeftUncounted C.Store ⟦<any::Db<F, C, I, H, U, N> as LaidOut>⟧.layout settled
            (chunks_after N.LEN loc self) self new
            ⊎ HasLeftPruned C.Store ⟦<any::Db<F, C, I, H, U, N> as LaidOut>⟧.layout settled loc self
            new)) self.any.log.store r) }
        ensures crashes { (rules : Rules Policy) (log : Log)
            → IsDatabase C.Store ⟦<any::Db<F, C, I, H, U, N> as LaidOut>⟧.layout self log.list
            → IsCounted C.Store self → IsSafe C.Store
            (engine_of (scheme_of H.Digest.SIZE ⟦<any::Db<F, C, I, H, U, N> as LaidOut>⟧.layout
            self.name) rules) log log self.any.log.store (store_after store_in result) }
    {
        // its clauses say that the log starts where the store does, and that there are at most 2^62 operations
        self.any.bounds();
        let boundary = self.sync_boundary().get();
        if loc.get() > boundary {
            let error = Error::PruneBeyondMinRequired(loc.get(), boundary);
            return Err(Refusal {
                given: Given::Database(self),
                error,
            });
        }
        match self.commit() {
            Ok(db) => db.cut(alloc, loc.get()),
            Err(refusal) => Err(refusal),
        }
    }

    // The database without what stands before a location, if all is stable.
    fn cut(self, alloc: Global, to: u64) -> Result<Self, Refusal<Self, C>>
        requires within { to ≤ boundary_of F.shape N.LEN self }
        requires stable { IfSome (C.told self.any.log.store) (λ s. s.stable ≡ end_of s) }
        ensures stands { (list : List Operation)
            → IsDatabase C.Store ⟦<any::Db<F, C, I, H, U, N> as LaidOut>⟧.layout self list
            → IfOk result (λ db.
            IsDatabase C.Store ⟦<any::Db<F, C, I, H, U, N> as LaidOut>⟧.layout db list) }
        ensures counted { IfOk result (IsCounted C.Store) }
        ensures pruned { IfOk result
            (HasPruned C.Store ⟦<any::Db<F, C, I, H, U, N> as LaidOut>⟧.layout (λ s. s) to self) }
        ensures refused { IfErr result (IsGivenUp C.Store (λ _ new.
            HasLeftUncounted C.Store ⟦<any::Db<F, C, I, H, U, N> as LaidOut>⟧.layout (λ s. s)
            (chunks_after N.LEN to self) self new
            ⊎ HasLeftPruned C.Store ⟦<any::Db<F, C, I, H, U, N> as LaidOut>⟧.layout (λ s. s) to self
            new) self.any.log.store) }
    {
        // their clauses say that there is a bit for each operation, and which leaves may be forgotten
        self.any.bounds();
        self.canonical.tree();
        let Db {
            any,
            mut canonical,
            instance,
            name,
        } = self;
        let chunks = whole_chunks::<N>(any.bitmap(), to);
        let Ok(entries) = forgetting(alloc, &mut canonical, chunks) else {
            return Err(out_of_memory(any));
        };
        match any.put_meta(name, &entries) {
            Ok(any) => over(
                any.prune_bits(to).prune_log(alloc, to),
                canonical,
                instance,
                name,
            ),
            Err(refusal) => Err(given_up(refusal)),
        }
    }

    // The database, whose metadata has this name.
    pub(crate) fn named(self, name: &'static str) -> Self
        ensures { result ≡ record self { name = name.now } }
    {
        let Db {
            any,
            canonical,
            instance,
            ..
        } = self;
        Db {
            any,
            canonical,
            instance,
            name,
        }
    }

    /// Empties the store: a database that is opened on it then is fresh. A refusal gives back the store.
    pub fn destroy(self) -> Result<C, Refusal<Self, C>>
        ensures destroyed { IfOk result (IsDestroyed C.Store self.any.log.store) }
        ensures refused { IfErr result
            (IsGivenUp C.Store (HasLeftDestroyed C.Store) self.any.log.store) }
        ensures crashes { IfOk result (λ left. (rules : Rules Policy) (log : Log) → IsSafe C.Store
            (engine_of (scheme_of H.Digest.SIZE ⟦<any::Db<F, C, I, H, U, N> as LaidOut>⟧.layout self.name)
            rules) log no_log self.any.log.store left) }
        ensures crashes_failing { IfErr result (λ r. (rules : Rules Policy) (log : Log)
            → IsSafe C.Store
            (engine_of (scheme_of H.Digest.SIZE ⟦<any::Db<F, C, I, H, U, N> as LaidOut>⟧.layout self.name)
            rules) log no_log self.any.log.store (store_given store_in r.given)) }
    {
        let Db { any, .. } = self;
        match any.destroy() {
            Ok(store) => Ok(store),
            Err(refusal) => Err(given_up(refusal)),
        }
    }

    /// The store.
    pub fn store(&self) -> &C
        ensures { result.now ≡ self.now.any.log.store }
    {
        self.any.store()
    }

    /// Gives the store back, as it is.
    pub fn close(self) -> C
        ensures { result ≡ self.any.log.store }
    {
        let Db { any, .. } = self;
        any.close()
    }
}

// The database over what a call left of the any one, or the store if the call was refused.
fn over<
    F: Graftable,
    C: Store,
    I: qm_index::Unordered<Value = Location<F>> + Drop,
    H: Hasher + Drop,
    U: Update,
    N: Chunks,
>(
    done: Result<any::Db<F, C, I, H, U, N>, Refusal<any::Db<F, C, I, H, U, N>, C>>,
    canonical: Canonical<F, N, H::Digest>,
    instance: u64,
    name: &'static str,
) -> Result<Db<F, C, I, H, U, N>, Refusal<Db<F, C, I, H, U, N>, C>>
    requires { IfOk done (λ any. IsJoined {C = C} {D = H.Digest} N.LEN
        (record { any = any; canonical = canonical; instance = instance; name = name.now })) }
    ensures { result ≡ over_any canonical instance name.now done }
{
    match done {
        Ok(any) => Ok(Db {
            any,
            canonical,
            instance,
            name,
        }),
        Err(refusal) => Err(given_up(refusal)),
    }
}

// What a database gives back if a call of the any one was refused: the store.
fn given_up<
    F: Graftable,
    C: Store,
    I: qm_index::Unordered<Value = Location<F>> + Drop,
    H: Hasher + Drop,
    U: Update,
    N: Chunks,
>(refusal: Refusal<any::Db<F, C, I, H, U, N>, C>) -> Refusal<Db<F, C, I, H, U, N>, C>
    ensures { result ≡ lasts.given_up refusal }
{
    let Refusal { given, error } = refusal;
    Refusal {
        given: Given::Store(store_of(given)),
        error,
    }
}

// The store that is given back, by itself or inside the any database.
fn store_of<
    F: Graftable,
    C: Store,
    I: qm_index::Unordered<Value = Location<F>> + Drop,
    H: Hasher + Drop,
    U: Update,
    N: Chunks,
>(given: Given<any::Db<F, C, I, H, U, N>, C>) -> C
    ensures { result ≡ store_given anys_applying.store_in given }
{
    match given {
        Given::Database(any) => any.close(),
        Given::Store(store) => store,
    }
}

// What a database gives back if memory lacked: the store as it is.
fn out_of_memory<
    F: Graftable,
    C: Store,
    I: qm_index::Unordered<Value = Location<F>> + Drop,
    H: Hasher + Drop,
    U: Update,
    N: Chunks,
>(any: any::Db<F, C, I, H, U, N>) -> Refusal<Db<F, C, I, H, U, N>, C>
    ensures given { result.given ≡ Given.Store any.log.store }
    ensures error { result.error ≡ Error.Memory }
{
    Refusal {
        given: Given::Store(any.close()),
        error: Error::Memory,
    }
}

// How many chunks of bits are pruned, or end at a location or before it.
fn whole_chunks<N: Chunks>(bits: &Prunable<N>, to: u64) -> u64
    ensures { result ≡ max bits.now.pruned (to / (8 * N.LEN)) }
{
    (bits.pruned_chunks() as u64).max(to / N::span())
}

// The metadata that counts the first chunks, with the digests of the grafted tree's peaks over them.
fn counting<F: Graftable, N: Chunks, D: Digest>(
    alloc: Global,
    canonical: &Canonical<F, N, D>,
    chunks: u64,
) -> Result<Vec<MetaEntry>, AllocError>
    requires start { canonical.now.tree.start ≤ chunks }
    requires may_go { MayGo F.shape (grafting N.LEN) chunks canonical.now.size }
    ensures count { IfOk result (λ v. count_in v.items ≡ chunks) }
    ensures pins { (hash : Bytes → Bytes) (form : Form) (list : List Operation)
        → IsCanonical D.bytes hash F.shape N.LEN form canonical.now list
        → IfOk result (λ v. v.items
        ≡ entries_of (metadata hash F.shape (grafting N.LEN) form list chunks)) }
{
    let pins = canonical.pins(alloc, chunks)?;
    entries(alloc, chunks, &pins)
}

// The same, of chunks whose leaves the grafted tree forgets then.
fn forgetting<F: Graftable, N: Chunks, D: Digest>(
    alloc: Global,
    canonical: &mut Canonical<F, N, D>,
    chunks: u64,
) -> Result<Vec<MetaEntry>, AllocError>
    requires start { canonical.old.tree.start ≤ chunks }
    requires may_go { MayGo F.shape (grafting N.LEN) chunks canonical.old.size }
    ensures count { IfOk result (λ v. count_in v.items ≡ chunks) }
    ensures pins { (hash : Bytes → Bytes) (form : Form) (list : List Operation)
        → IsCanonical D.bytes hash F.shape N.LEN form canonical.old list
        → IfOk result (λ v. v.items
        ≡ entries_of (metadata hash F.shape (grafting N.LEN) form list chunks)) }
    ensures start { IfOk result (λ _. canonical.new.tree.start ≡ chunks) }
    ensures rest { IfOk result (λ _.
        canonical.new ≡ record canonical.old { tree = canonical.new.tree }) }
    ensures stands { (hash : Bytes → Bytes) (form : Form) (list : List Operation)
        → IsCanonical D.bytes hash F.shape N.LEN form canonical.old list
        → IfOk result (λ _. IsCanonical D.bytes hash F.shape N.LEN form canonical.new list) }
{
    let entries = counting(alloc, canonical, chunks)?;
    canonical.prune(alloc, chunks)?;
    Ok(entries)
}
