// What the ranges of an ordered database have, in one list.
ghost use Rattle.std.specs.Prelude.{◌≡◌, ◌≤◌, true, IfOk, length, map};
ghost use Rattle.qm_model.specs.Ranges.{keys_in, pairs_in};
ghost use Rattle.qm_any.specs.Reading.{AtList, Reads};
ghost use Rattle.qm_base.specs.Views.{limit_of, pair_view};
ghost use Rattle.qm_batch.specs.Scans.{left_of};

use crate::db::{Db, LaidOut};
use qm_base::{ByteString, Error, Hasher, Location};
use qm_batch::Scan;
use qm_bits::Chunks;
use qm_merkle::Family;
use qm_operations::Update;
use qm_step::kind::Steps;
use qm_store::Store;
use std::alloc::{AllocError, Global};
use std::ops::Bound;

// A copy of where a range begins or ends.
fn twin_bound<K: ByteString>(alloc: Global, limit: &Bound<K>) -> Result<Bound<K>, AllocError>
    ensures { IfOk result (λ copy. copy ≡ limit.now) }
{
    match limit {
        Bound::Included(key) => {
            let key = key.twin(alloc)?;
            Ok(Bound::Included(key))
        }
        Bound::Excluded(key) => {
            let key = key.twin(alloc)?;
            Ok(Bound::Excluded(key))
        }
        Bound::Unbounded => Ok(Bound::Unbounded),
    }
}

// The pairs that a scan of the database has left, which are at most so many.
fn collected<
    F: Family,
    C: Store,
    I: qm_index::Unordered<Value = Location<F>>,
    H: Hasher,
    U: Steps<F, I>,
    N: Chunks,
>(
    alloc: Global,
    db: &mut Db<F, C, I, H, U, N>,
    scan: &mut Scan<U>,
    most: u64,
) -> Result<Vec<(U::Key, U::Value)>, Error>
    requires { U.form.ordered ≡ true }
    ensures pairs { AtList C.Store ⟦<Db<F, C, I, H, U, N> as LaidOut>⟧.layout db.old (λ list.
        length (left_of I.index_key scan.old list) ≤ most
        → IfOk result (λ pairs. map (pair_view U.Key.bytes U.Value.bytes) pairs.items
        ≡ left_of I.index_key scan.old list)) }
    ensures reads { Reads C.Store ⟦<Db<F, C, I, H, U, N> as LaidOut>⟧.layout db.old db.new result }
{
    let mut pairs = Vec::new(alloc);
    for _ in 0..most {
        match db.scan_next(alloc, scan) {
            Some(next) => pairs.push(next?)?,
            None => return Ok(pairs),
        }
    }
    Ok(pairs)
}

/// The live keys of a range of the database with their values, by key.
pub fn pairs_of<
    F: Family,
    C: Store,
    I: qm_index::Unordered<Value = Location<F>>,
    H: Hasher,
    U: Steps<F, I>,
    N: Chunks,
>(
    alloc: Global,
    db: &mut Db<F, C, I, H, U, N>,
    low: &Bound<U::Key>,
    high: &Bound<U::Key>,
) -> Result<Vec<(U::Key, U::Value)>, Error>
    requires { U.form.ordered ≡ true }
    ensures pairs { AtList C.Store ⟦<Db<F, C, I, H, U, N> as LaidOut>⟧.layout db.old (λ list.
        IfOk result (λ pairs. map (pair_view U.Key.bytes U.Value.bytes) pairs.items
        ≡ pairs_in (limit_of U.Key.bytes low.now) (limit_of U.Key.bytes high.now) list)) }
    ensures reads { Reads C.Store ⟦<Db<F, C, I, H, U, N> as LaidOut>⟧.layout db.old db.new result }
{
    let live = db.active_keys();
    let low = twin_bound(alloc, low)?;
    let high = twin_bound(alloc, high)?;
    let mut scan = Scan::new(alloc, low, high);
    collected(alloc, db, &mut scan, live)
}

// The keys of pairs.
fn firsts<K: ByteString, V: ByteString>(
    alloc: Global,
    pairs: Vec<(K, V)>,
) -> Result<Vec<K>, AllocError>
    ensures { IfOk result (λ keys.
        map K.bytes keys.items ≡ map (λ p. p.0) (map (pair_view K.bytes V.bytes) pairs.items)) }
{
    let mut keys = Vec::new(alloc);
    for (key, _) in pairs {
        keys.push(key)?;
    }
    Ok(keys)
}

/// The live keys of a range of the database, by key.
pub fn keys_of<
    F: Family,
    C: Store,
    I: qm_index::Unordered<Value = Location<F>>,
    H: Hasher,
    U: Steps<F, I>,
    N: Chunks,
>(
    alloc: Global,
    db: &mut Db<F, C, I, H, U, N>,
    low: &Bound<U::Key>,
    high: &Bound<U::Key>,
) -> Result<Vec<U::Key>, Error>
    requires { U.form.ordered ≡ true }
    ensures keys { AtList C.Store ⟦<Db<F, C, I, H, U, N> as LaidOut>⟧.layout db.old (λ list.
        IfOk result (λ keys. map U.Key.bytes keys.items
        ≡ keys_in (limit_of U.Key.bytes low.now) (limit_of U.Key.bytes high.now) list)) }
    ensures reads { Reads C.Store ⟦<Db<F, C, I, H, U, N> as LaidOut>⟧.layout db.old db.new result }
{
    let pairs = pairs_of(alloc, db, low, high)?;
    Ok(firsts(alloc, pairs)?)
}
