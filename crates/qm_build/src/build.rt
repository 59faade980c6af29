//! The rebuilding of a list, item by item.

ghost use Rattle.std.specs.Prelude.{◌≡◌, ◌≢◌, ◌⊎◌, true, false, ◌+◌, ◌^◌, ◌<◌, ◌≤◌, ℕ, List, [], Some, is_none, length, slice_get, option_map, IfSome, IfOk, IfErr, OnOk};
ghost use Rattle.std.specs.List.{list_any};
ghost use Rattle.qm_model.specs.Operations as model;
ghost use Rattle.qm_operations.specs.Views.{operation_view};
ghost use Rattle.qm_build.specs.Building.{ArePlaced, AreWithin, between};
ghost use Rattle.qm_build.specs.Built.{Rebuilds};
ghost use Rattle.qm_build.specs.Cached.{let_go, kept_on, AreKeys};
ghost use Rattle.qm_build.specs.Reads.{Spells, KeepsLog, IsReadFault};

use crate::cache::Cache;
use crate::moves::{move_key, note};
use crate::read::{Found, find, read_operation};
use qm_base::{ByteString, Corrupt, Error, Hasher, Location};
use qm_bits::BitMap;
use qm_merkle::Family;
use qm_operations::{Operation, Update};
use qm_store::{AuthLog, Store};
use std::alloc::Global;
use std::num::NonZeroUsize;

/// What a list has beside its index: how many keys are live, and which locations from a floor on are active.
#[derive(Drop)]
pub struct Snapshot {
    pub live: u64,
    pub activity: BitMap,
}

/// Rebuilds the list of a log from its floor on, in an index that is empty. Each item is read once, in order. Keys
/// with the same index key are told apart by the items in their bucket, of which at most `kept_keys` keep their keys in memory;
/// the others are read again.
pub fn build_snapshot<
    F: Family,
    I: qm_index::Unordered<Value = Location<F>>,
    C: Store,
    H: Hasher,
    U: Update,
>(
    alloc: Global,
    index: &mut I,
    log: &mut AuthLog<F, C, H>,
    floor: Location<F>,
    kept_keys: NonZeroUsize,
) -> Result<Snapshot, Error>
    requires empty { I.entries index.old ≡ [] }
    requires kept { log.old.tree.start ≤ floor }
    requires below { floor < log.old.tree.leaves }
    ensures { Rebuilds C.Store F.shape H.Digest.bytes H.hash U.form I.index_key floor log.old
        log.new (I.entries index.new) result }
{
    let floor = floor.get();
    let (_, size) = log.bounds();
    let mut cache = Cache::new(alloc, kept_keys)?;
    let mut snapshot = Snapshot {
        live: 0,
        activity: BitMap::new(alloc),
    };
    for at in floor..size {
        let operation: Operation<F, U> = read_operation(alloc, log, at)?;
        put(index, log, &mut cache, &mut snapshot, floor, at, operation)?;
    }
    // the last operation is active, whether or not it is a live update
    snapshot.activity.set_bit(size - floor - 1, true);
    Ok(snapshot)
}

// Puts in the operation at a location, after those from the floor up to there.
fn put<F: Family, I: qm_index::Unordered<Value = Location<F>>, C: Store, H: Hasher, U: Update>(
    index: &mut I,
    log: &mut AuthLog<F, C, H>,
    cache: &mut Cache<U::Key>,
    snapshot: &mut Snapshot,
    floor: u64,
    at: u64,
    operation: Operation<F, U>,
) -> Result<(), Error>
    requires kept { log.old.tree.start ≤ floor }
    requires below { at < log.old.tree.leaves }
    requires few { at < 2 ^ 62 }
    requires here { at ≡ floor + length snapshot.old.activity }
    requires within { AreWithin floor at (I.entries index.old) }
    requires counted { snapshot.old.live ≤ length snapshot.old.activity }
    ensures placed { (ops : List model.Operation)
        → slice_get ops at ≡ Some (operation_view U.view U.Key.bytes U.Value.bytes operation)
        → ArePlaced I.index_key (I.entries index.old) snapshot.old.live snapshot.old.activity floor
        (between floor at ops) → AreKeys U.Key.bytes ops cache.old
        → IfSome (C.told log.old.store) (λ s. Spells U.form s floor ops
        → OnOk result (ArePlaced I.index_key (I.entries index.new) snapshot.new.live
        snapshot.new.activity floor (between floor (at + 1) ops)
        × AreKeys U.Key.bytes ops cache.new)) }
    ensures long { OnOk result (length snapshot.new.activity ≡ length snapshot.old.activity + 1) }
    ensures within { OnOk result (AreWithin floor (at + 1) (I.entries index.new)) }
    ensures counted { OnOk result (snapshot.new.live ≤ length snapshot.new.activity) }
    ensures read { KeepsLog C.Store F.shape H.Digest.bytes H.hash log.old log.new }
    ensures error { IfErr result (IsReadFault C.Store log.old log.new) }
{
    let is_update = operation.is_update();
    let Some(key) = operation.into_key() else {
        return note(snapshot, floor, None, false);
    };
    let bytes = key.as_bytes();
    let found = find::<F, I, C, H, U>(index, log, cache, bytes)?;
    move_key(index, bytes, found, is_update.then_some(Location::new(at)))?;
    keep(cache, at, key, found, is_update);
    note(snapshot, floor, found, is_update)
}

// Keeps the key of an update, and lets go of that of the update that was found.
fn keep<K: Drop>(cache: &mut Cache<K>, at: u64, key: K, found: Option<Found>, is_update: bool)
    ensures { cache.new ≡ kept_on cache.old (option_map (λ f. f.location) found) is_update at key }
{
    let_go(cache, found);
    if is_update {
        cache.put(at, key);
    }
}

// Lets go of the key of the update that was found.
fn let_go<K: Drop>(cache: &mut Cache<K>, found: Option<Found>)
    ensures { cache.new ≡ let_go cache.old (option_map (λ f. f.location) found) }
{
    if let Some(found) = found {
        cache.remove(found.location);
    }
}
