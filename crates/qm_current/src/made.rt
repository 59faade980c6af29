//! What a batch makes: its list, and what its step does to activity bits and to the grafted tree.

ghost use Rattle.std.specs.Prelude.{◌≡◌, ◌≤◌, suc, [], List, true, length, option_map, IfOk, IfErr, OnOk};
ghost use Rattle.qm_model.specs.Batches.{Chain, IsOnChain};
ghost use Rattle.qm_model.specs.Operations.{Operation};
ghost use Rattle.qm_any.specs.Applying.{can_apply};
ghost use Rattle.qm_any.specs.Databases as anys;
ghost use Rattle.qm_any.specs.Making.{IsMaking, IsUnmade, making_of};
ghost use Rattle.qm_any.specs.Tips.{IsShort};
ghost use Rattle.qm_any.specs.Reading as readings;
ghost use Rattle.qm_any.specs.Reading.{AtList, IsOfKeptItem};
ghost use Rattle.qm_roots.specs.Kept.{IsKept};
ghost use Rattle.qm_current.specs.Databases.{AreSized, IsDatabase, IsJoined, IsMadeWith};
ghost use Rattle.qm_current.specs.Making.{IsLeft, OnBegun, can_make};

use crate::batch::{MerkleizedBatch, UnmerkleizedBatch};
use crate::db::Db;
use crate::nodes::NodesOver;
use qm_any::batch as any;
use qm_any::db::{Db as AnyDb, LaidOut};
use qm_base::{ByteString, Digest, Error, Hasher, Location, MerkleError};
use qm_bits::Chunks;
use qm_chain::Policy;
use qm_chunks::Graftable;
use qm_merkle::{Family, Position};
use qm_operations::{Update, ValueEncoding};
use qm_roots::{Canonical, Kept, Place, Tip};
use qm_step::kind::Steps;
use qm_store::Store;
use std::alloc::Global;
use std::rc::Rc;

impl<F: Graftable, D: Digest, U: Update, N: Chunks> UnmerkleizedBatch<F, D, U, N> {
    /// Makes the list of the batch, as the any batch does, and its canonical root. A batch whose chain began on another instance is
    /// refused as stale before anything is read; else it is refused as the any batch is. Of the grafted tree it hashes what its own
    /// step changes.
    pub fn merkleize<
        C: Store,
        I: qm_index::Unordered<Value = Location<F>>,
        H: Hasher<Digest = D>,
        P: Policy<F, U::Key, U::Value>,
    >(
        self,
        alloc: Global,
        db: &mut Db<F, C, I, H, U, N>,
        metadata: Option<U::Value>,
        policy: &mut P,
    ) -> Result<Rc<MerkleizedBatch<F, D, U, N>>, Error>
    where
        U: Steps<F, I>,
        ensures fits { OnOk result (can_make db.old self ≡ true) }
        ensures makes { OnBegun C.Store ⟦<AnyDb<F, C, I, H, U, N> as LaidOut>⟧.layout db.old self
            (λ chain. IsMaking C.Store U.form
            (making_of P.rules policy.old self.any.writes (option_map U.Value.bytes metadata)) chain
            policy.new db.old.any.log db.new.any.log result (λ b.
            IsMadeWith ⟦<AnyDb<F, C, I, H, U, N> as LaidOut>⟧.layout.hashing N.LEN b.value chain)) }
        ensures short { IfOk result (λ b. IsShort U.form b.value.any) }
        ensures numbered { IfOk result (λ b. b.value.instance ≡ self.instance) }
        ensures child { IfOk result (λ b.
            anys.IsChild self.any.parent self.any.keep b.value.any) }
        ensures unmade { IfErr result
            (IsUnmade C.Store (can_make db.old self) db.old.any.log db.new.any.log) }
        ensures whole { readings.OnBegun C.Store ⟦<AnyDb<F, C, I, H, U, N> as LaidOut>⟧.layout
            db.old.any self.any (λ chain. IfErr result IsOfKeptItem) }
        ensures kept { AtList C.Store ⟦<AnyDb<F, C, I, H, U, N> as LaidOut>⟧.layout db.old.any
            (λ list. db.old.any.log.tree.start ≤ self.any.parent.bounds.inactivity_floor
            → IfErr result IsOfKeptItem) }
        ensures left { IsLeft C.Store ⟦<AnyDb<F, C, I, H, U, N> as LaidOut>⟧.layout db.old db.new }
    {
        let UnmerkleizedBatch { any, parent, keep } = self;
        if parent.instance != db.instance {
            return Err(Error::StaleBatch);
        }
        match any.merkleize(alloc, &mut db.any, metadata, policy) {
            Ok(any) => finished(alloc, &mut db.any, &db.canonical, &parent, keep, any),
            Err(error) => Err(error),
        }
    }
}

// The batch of an any one that was made on a parent, of whose steps it keeps so many, over a database at one of its lists.
pub(crate) fn finished<
    F: Graftable,
    C: Store,
    I: qm_index::Unordered<Value = Location<F>>,
    H: Hasher,
    U: Update,
    N: Chunks,
>(
    alloc: Global,
    db: &mut AnyDb<F, C, I, H, U, N>,
    canonical: &Canonical<F, N, H::Digest>,
    parent: &MerkleizedBatch<F, H::Digest, U, N>,
    keep: usize,
    any: Rc<any::MerkleizedBatch<F, H::Digest, U>>,
) -> Result<Rc<MerkleizedBatch<F, H::Digest, U, N>>, Error>
    requires joined { IsJoined {C = C} {D = H.Digest} N.LEN
        (record { any = db.old; canonical = canonical.now; instance = 0; name = [] }) }
    requires keep { keep ≤ suc (length parent.now.any.bounds.ancestors) }
    requires child { anys.IsChild parent.now.any keep any.value }
    requires on { can_apply db.old any.value ≡ true }
    ensures value { IfOk result (λ b.
        (b.value.any ≡ any.value) × (b.value.instance ≡ parent.now.instance)) }
    ensures made { (list tip : List Operation) (chain above : Chain)
        → IsDatabase C.Store ⟦<AnyDb<F, C, I, H, U, N> as LaidOut>⟧.layout
        (record { any = db.old; canonical = canonical.now; instance = 0; name = [] }) list
        → anys.IsMade ⟦<AnyDb<F, C, I, H, U, N> as LaidOut>⟧.layout.hashing parent.now.any above
        chain.base
        → IsKept H.Digest.bytes H.hash F.shape N.LEN U.form parent.now.kept chain.base
        (anys.bases_of above) → chain.kept ≡ anys.kept_by keep above chain.base
        → IsOnChain list chain
        → anys.IsMade ⟦<AnyDb<F, C, I, H, U, N> as LaidOut>⟧.layout.hashing any.value chain tip
        → IfOk result (λ b.
        IsKept H.Digest.bytes H.hash F.shape N.LEN U.form b.value.kept tip (anys.bases_of chain)) }
    ensures memory { IfErr result (λ e. e ≡ Error.Memory) }
    ensures same { db.new ≡ db.old }
{
    let kept = match kept_behind(alloc, db, canonical, parent, keep, &any) {
        Ok(kept) => kept,
        Err(_) => return Err(Error::Memory),
    };
    let instance = parent.instance;
    match Rc::new(
        alloc,
        MerkleizedBatch {
            any,
            kept,
            instance,
        },
    ) {
        Ok(batch) => Ok(batch),
        Err(_) => Err(Error::Memory),
    }
}

// What a batch keeps beside the any one that was made on a parent, of whose steps it keeps so many, over a database at one of its
// lists.
fn kept_behind<
    F: Graftable,
    C: Store,
    I: qm_index::Unordered<Value = Location<F>>,
    H: Hasher,
    U: Update,
    N: Chunks,
>(
    alloc: Global,
    db: &mut AnyDb<F, C, I, H, U, N>,
    canonical: &Canonical<F, N, H::Digest>,
    parent: &MerkleizedBatch<F, H::Digest, U, N>,
    keep: usize,
    batch: &any::MerkleizedBatch<F, H::Digest, U>,
) -> Result<Kept<F, N, H::Digest>, MerkleError>
    requires joined { IsJoined {C = C} {D = H.Digest} N.LEN
        (record { any = db.old; canonical = canonical.now; instance = 0; name = [] }) }
    requires keep { keep ≤ suc (length parent.now.any.bounds.ancestors) }
    requires child { anys.IsChild parent.now.any keep batch.now }
    requires on { can_apply db.old batch.now ≡ true }
    ensures sized { IfOk result (AreSized batch.now) }
    ensures made { (list tip : List Operation) (chain above : Chain)
        → IsDatabase C.Store ⟦<AnyDb<F, C, I, H, U, N> as LaidOut>⟧.layout
        (record { any = db.old; canonical = canonical.now; instance = 0; name = [] }) list
        → anys.IsMade ⟦<AnyDb<F, C, I, H, U, N> as LaidOut>⟧.layout.hashing parent.now.any above
        chain.base
        → IsKept H.Digest.bytes H.hash F.shape N.LEN U.form parent.now.kept chain.base
        (anys.bases_of above) → chain.kept ≡ anys.kept_by keep above chain.base
        → IsOnChain list chain
        → anys.IsMade ⟦<AnyDb<F, C, I, H, U, N> as LaidOut>⟧.layout.hashing batch.now chain tip
        → IfOk result (λ k.
        IsKept H.Digest.bytes H.hash F.shape N.LEN U.form k tip (anys.bases_of chain)) }
    ensures same { db.new ≡ db.old }
{
    let lacking = parent.kept.lacking(db.size().get());
    // their clauses say which nodes are held
    db.tree().bounds();
    canonical.tree().bounds();
    batch.get_node(Position::new(0));
    let root = batch.root();
    let bounds = batch.bounds();
    let (own, _) = batch.diffs().split_at(1);
    let (hasher, tree, bits) = db.split();
    let operations = NodesOver { batch, tree };
    let place = Place {
        canonical,
        bits,
        lacking,
        keep,
    };
    let tip = Tip {
        size: bounds.tip.size,
        floor: bounds.inactivity_floor.get(),
        ops_root: &root,
        operations: &operations,
    };
    parent.kept.followed(alloc, hasher, &place, own, &tip)
}
