//! Operations and keys, read from a log.

ghost use Rattle.std.specs.Prelude.{◌≡◌, ◌≢◌, ◌⊎◌, ◌↔◌, ◌≤◌, ◌<◌, ◌-◌, ℕ, List, Some, None, true, length, slice_get, option_map, All, IfSome, IfOk, IfErr};
ghost use Rattle.qm_model.specs.Forms.{IsSpelling, decoded};
ghost use Rattle.qm_model.specs.Live as lives;
ghost use Rattle.qm_model.specs.Operations as model;
ghost use Rattle.qm_model.specs.Operations.{IsCommitEnded};
ghost use Rattle.qm_operations.specs.Parts.{update_key};
ghost use Rattle.qm_operations.specs.Views.{operation_view};
ghost use Rattle.qm_index.specs.Buckets.{bucket_at};
ghost use Rattle.qm_build.specs.Building.{key_at, IsFound};
ghost use Rattle.qm_build.specs.Cached.{AreKeys};
ghost use Rattle.qm_build.specs.Reads.{operation_at, HasOperations, SpellsAt, Spells, KeepsLog, IsRebuildError, IsReadFault, IsUndecoded};

use crate::cache::Cache;
use qm_base::{ByteString, Corrupt, Error, Hasher, Location};
use qm_merkle::Family;
use qm_operations::{Operation, Update};
use qm_store::{AuthLog, Store};
use std::alloc::Global;

/// The operation at a location. An item that spells none is refused.
pub fn read_operation<F: Family, C: Store, H: Hasher, U: Update>(
    alloc: Global,
    log: &mut AuthLog<F, C, H>,
    at: u64,
) -> Result<Operation<F, U>, Error>
    requires kept { log.old.tree.start ≤ at }
    requires below { at < log.old.tree.leaves }
    ensures value { (ops : List model.Operation)
        → HasOperations C.Store F.shape H.Digest.bytes H.hash U.form log.old ops
        → IfSome (C.told log.old.store) (λ _. IfOk result (λ op.
        slice_get ops at ≡ Some (operation_view U.view U.Key.bytes U.Value.bytes op))) }
    ensures decodes { (ops : List model.Operation)
        → HasOperations C.Store F.shape H.Digest.bytes H.hash U.form log.old ops
        → IfSome (C.told log.old.store) (λ _.
        IfErr result (λ e. e ≢ Error.DataCorrupted Corrupt.ItemDoesNotDecode)) }
    ensures held { IfSome (C.told log.old.store) (λ s. IfOk result (λ op.
        operation_at U.form s at ≡ Some (operation_view U.view U.Key.bytes U.Value.bytes op))) }
    ensures spelled { IfSome (C.told log.old.store) (λ s. IfOk result (λ op.
        SpellsAt U.form s at (operation_view U.view U.Key.bytes U.Value.bytes op))) }
    ensures corrupt { IfSome (C.told log.old.store) (λ s. IfErr result (λ e.
        e ≡ Error.DataCorrupted Corrupt.ItemDoesNotDecode → IsUndecoded U.form s at)) }
    ensures read { KeepsLog C.Store F.shape H.Digest.bytes H.hash log.old log.new }
    ensures error { IfErr result (IsRebuildError C.Store log.old log.new) }
{
    let item = log.read(at)?;
    operation_in(alloc, &item)
}

/// The metadata of the commit with which a log's list ends. It reads one item.
pub fn last_metadata<F: Family, C: Store, H: Hasher, U: Update>(
    alloc: Global,
    log: &mut AuthLog<F, C, H>,
) -> Result<Option<U::Value>, Error>
    requires { log.old.tree.start < log.old.tree.leaves }
    ensures value { (ops : List model.Operation)
        → HasOperations C.Store F.shape H.Digest.bytes H.hash U.form log.old ops → IsCommitEnded ops
        → IfSome (C.told log.old.store) (λ _.
        IfOk result (λ metadata. option_map U.Value.bytes metadata ≡ lives.last_metadata ops)) }
    ensures corrupt { IfSome (C.told log.old.store) (λ s.
        IfErr result (λ e. e ≡ Error.DataCorrupted Corrupt.ItemDoesNotDecode
        → IsUndecoded U.form s (log.old.tree.leaves - 1))) }
    ensures read { KeepsLog C.Store F.shape H.Digest.bytes H.hash log.old log.new }
    ensures error { IfErr result (IsRebuildError C.Store log.old log.new) }
{
    let (_, size) = log.bounds();
    let operation: Operation<F, U> = read_operation(alloc, log, size - 1)?;
    match operation {
        Operation::CommitFloor(metadata, _) => Ok(metadata),
        Operation::Update(_) => Ok(None),
        Operation::Delete(_) => Ok(None),
    }
}

/// The operation that an item spells. One that spells none is refused.
pub(crate) fn operation_in<F, U: Update>(
    alloc: Global,
    item: &[u8],
) -> Result<Operation<F, U>, Error>
    ensures decoded { IfOk result (λ op.
        decoded U.form item.now ≡ Some (operation_view U.view U.Key.bytes U.Value.bytes op)) }
    ensures spelled { IfOk result (λ op.
        IsSpelling U.form item.now (operation_view U.view U.Key.bytes U.Value.bytes op)) }
    ensures none { IfErr result (λ e. e ≡ Error.DataCorrupted Corrupt.ItemDoesNotDecode
        → (decoded U.form item.now ≡ None)
        × ((op : model.Operation) → ¬ IsSpelling U.form item.now op)) }
    ensures never { IfErr result (λ e.
        (e ≡ Error.Memory) ⊎ (e ≡ Error.DataCorrupted Corrupt.ItemDoesNotDecode)) }
{
    match Operation::decode(alloc, item)? {
        Some(operation) => Ok(operation),
        None => Err(Error::DataCorrupted(Corrupt::ItemDoesNotDecode)),
    }
}

/// Whether the operation at a location is an update of the key.
pub fn has_key<F: Family, C: Store, H: Hasher, U: Update>(
    log: &mut AuthLog<F, C, H>,
    at: u64,
    key: &[u8],
) -> Result<bool, Error>
    requires kept { log.old.tree.start ≤ at }
    requires below { at < log.old.tree.leaves }
    ensures value { (op : model.Operation)
        → IfSome (C.told log.old.store) (λ s. SpellsAt U.form s at op
        → IfOk result (λ yes. (yes ≡ true) ↔ (update_key op ≡ Some key.now))) }
    ensures read { KeepsLog C.Store F.shape H.Digest.bytes H.hash log.old log.new }
    ensures error { IfErr result (IsReadFault C.Store log.old log.new) }
{
    let item = log.read(at)?;
    Ok(spells_key::<U>(&item, key))
}

// Whether the bytes spell an update of the key.
fn spells_key<U: Update>(item: &[u8], key: &[u8]) -> bool
    ensures { (op : model.Operation) → IsSpelling U.form item.now op → (result ≡ true)
        ↔ (update_key op ≡ Some key.now) }
{
    match Operation::<(), U>::update_key(item) {
        Some(own) => own == key,
        None => false,
    }
}

// Whether the operation at a location is an update of the key, by the cache or else by the log.
fn is_of_key<F: Family, C: Store, H: Hasher, U: Update>(
    log: &mut AuthLog<F, C, H>,
    cache: &Cache<U::Key>,
    at: u64,
    key: &[u8],
) -> Result<bool, Error>
    requires kept { log.old.tree.start ≤ at }
    requires below { at < log.old.tree.leaves }
    ensures value { (ops : List model.Operation) (op : model.Operation)
        → slice_get ops at ≡ Some op → AreKeys U.Key.bytes ops cache.now
        → IfSome (C.told log.old.store) (λ s. SpellsAt U.form s at op
        → IfOk result (λ yes. (yes ≡ true) ↔ (key_at ops at ≡ Some key.now))) }
    ensures read { KeepsLog C.Store F.shape H.Digest.bytes H.hash log.old log.new }
    ensures error { IfErr result (IsReadFault C.Store log.old log.new) }
{
    match cache.get(at) {
        Some(own) => Ok(own.as_bytes() == key),
        None => has_key::<F, C, H, U>(log, at, key),
    }
}

/// Where an update of a key was found: the place in the key's bucket, and the location there.
#[derive(Clone, Copy, Drop)]
pub struct Found {
    pub place: usize,
    pub location: u64,
}

/// Looks for an update of a key at the locations in its bucket. Updates of other keys are passed over.
pub(crate) fn find<
    F: Family,
    I: qm_index::Unordered<Value = Location<F>>,
    C: Store,
    H: Hasher,
    U: Update,
>(
    index: &I,
    log: &mut AuthLog<F, C, H>,
    cache: &Cache<U::Key>,
    key: &[u8],
) -> Result<Option<Found>, Error>
    requires { All (λ at. (log.old.tree.start ≤ at) × (at < log.old.tree.leaves))
        (bucket_at (I.entries index.now) (I.index_key key.now)) }
    ensures place { IfOk result (λ found.
        IfSome found (λ f. slice_get (bucket_at (I.entries index.now) (I.index_key key.now)) f.place
        ≡ Some f.location)) }
    ensures key { (ops : List model.Operation) (from : ℕ)
        → All (λ at. (from ≤ at) × (at < length ops))
        (bucket_at (I.entries index.now) (I.index_key key.now))
        → AreKeys U.Key.bytes ops cache.now
        → IfSome (C.told log.old.store) (λ s. Spells U.form s from ops → IfOk result (λ found.
        IsFound ops key.now (bucket_at (I.entries index.now) (I.index_key key.now))
        (option_map (λ f. f.location) found))) }
    ensures read { KeepsLog C.Store F.shape H.Digest.bytes H.hash log.old log.new }
    ensures error { IfErr result (IsReadFault C.Store log.old log.new) }
{
    let bucket = index.bucket(key);
    for place in 0..bucket.len() {
        let location = bucket[place].get();
        if is_of_key::<F, C, H, U>(log, cache, location, key)? {
            return Ok(Some(Found { place, location }));
        }
    }
    Ok(None)
}
