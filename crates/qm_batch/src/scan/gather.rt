//! Reads of a bucket: the pairs of the updates in a range, by key.

ghost use Rattle.std.specs.Prelude.{◌≡◌, ◌≤◌, List, [], fold, map, option_map, All, IfSome, IfOk, IfErr, OnOk};
ghost use Rattle.qm_model.specs.Forms.{IsOf, IsSpelling, spelling};
ghost use Rattle.qm_model.specs.Operations as model;
ghost use Rattle.qm_model.specs.Ranges as ranges;
ghost use Rattle.qm_step.specs.Changes.{said_by, update_at};
ghost use Rattle.qm_base.specs.Reads.{ReadsItems};
ghost use Rattle.qm_step.specs.Nearest.{limit_view};
ghost use Rattle.qm_base.specs.Views.{limit_of, pair_view};
ghost use Rattle.qm_batch.specs.Gathered.{is_in, only_in, place_among, put_at, put_said};

use qm_base::{ByteString, Error, Items, Location};
use qm_operations::{Operation, Update};
use qm_step::found::update_in;
use qm_step::{is_before, is_below};
use std::alloc::{AllocError, Global};
use std::ops::Bound;

// Whether a key doesn't come before where a range begins.
fn is_after(low: Bound<&[u8]>, key: &[u8]) -> bool
    ensures { result ≡ ranges.is_after (limit_view low.entry) key.now }
{
    match low {
        Bound::Included(first) => !is_below(key, first),
        Bound::Excluded(before) => is_below(before, key),
        Bound::Unbounded => true,
    }
}

// Whether a key is in a range.
fn is_in(low: Bound<&[u8]>, high: Bound<&[u8]>, key: &[u8]) -> bool
    ensures { result ≡ is_in (limit_view low.entry) (limit_view high.entry) key.now }
{
    is_after(low, key) && is_before(high, key)
}

/// The bytes where a range begins or ends.
pub(crate) fn bytes_of<K: ByteString>(limit: &Bound<K>) -> Bound<&[u8]>
    ensures { limit_view result ≡ limit_of K.bytes limit.now }
{
    match limit {
        Bound::Included(key) => Bound::Included(key.as_bytes()),
        Bound::Excluded(key) => Bound::Excluded(key.as_bytes()),
        Bound::Unbounded => Bound::Unbounded,
    }
}

/// Of the updates at these locations of the log's list those in a range, by key, each key with its value.
pub(crate) fn pairs_at<F, L: Items, U: Update>(
    alloc: Global,
    log: &mut L,
    locations: &[Location<F>],
    low: Bound<&[u8]>,
    high: Bound<&[u8]>,
) -> Result<Vec<(U::Key, U::Value)>, Error>
    ensures value { (list : List model.Operation)
        → L.reads.logged log.old (map (spelling U.form) list) → All (IsOf U.form) list
        → IfSome (L.reads.told log.old) (λ _.
        IfOk result (λ pairs. map (pair_view U.Key.bytes U.Value.bytes) pairs.items
        ≡ fold (put_at (limit_view low.entry) (limit_view high.entry) list) [] locations.now)) }
    ensures reads { ReadsItems L.reads log.old log.new result
        (All (λ at. L.reads.start log.old ≤ at) locations.now) }
{
    let mut pairs = Vec::new(alloc);
    for location in locations {
        let update: Option<U> = read_in(alloc, log, location.get(), low, high)?;
        put(&mut pairs, update)?;
    }
    Ok(pairs)
}

// Puts key and value of an update, if there is one, in their place among pairs by key.
fn put<U: Update>(pairs: &mut Vec<(U::Key, U::Value)>, update: Option<U>) -> Result<(), AllocError>
    ensures { OnOk result (map (pair_view U.Key.bytes U.Value.bytes) pairs.new.items
        ≡ put_said (map (pair_view U.Key.bytes U.Value.bytes) pairs.old.items)
        (option_map U.view update)) }
{
    let Some(update) = update else {
        return Ok(());
    };
    let (key, value, _) = update.into_parts();
    let place = place_among(pairs, key.as_bytes());
    pairs.insert(place, (key, value))?;
    Ok(())
}

// Where a key goes among pairs by key.
fn place_among<K: ByteString, V: ByteString>(pairs: &[(K, V)], key: &[u8]) -> usize
    ensures { result ≡ place_among key.now (map (pair_view K.bytes V.bytes) pairs.now) }
{
    let mut place = 0;
    for pair in pairs {
        if is_below(key, pair.0.as_bytes()) {
            return place;
        }
        place += 1;
    }
    place
}

// The update at a location of the log's list, if its key is in a range. Another is read, and not copied.
fn read_in<L: Items, U: Update>(
    alloc: Global,
    log: &mut L,
    at: u64,
    low: Bound<&[u8]>,
    high: Bound<&[u8]>,
) -> Result<Option<U>, Error>
    ensures value { (list : List model.Operation)
        → L.reads.logged log.old (map (spelling U.form) list) → All (IsOf U.form) list
        → IfSome (L.reads.told log.old) (λ _. IfOk result (λ update. option_map U.view update
        ≡ only_in (limit_view low.entry) (limit_view high.entry) (update_at list at))) }
    ensures reads { ReadsItems L.reads log.old log.new result (L.reads.start log.old ≤ at) }
{
    match log.read_item(at)? {
        Some(item) => said_in(alloc, &item, low, high),
        None => Ok(None),
    }
}

// The update that the bytes spell, if its key is in a range.
fn said_in<U: Update>(
    alloc: Global,
    item: &[u8],
    low: Bound<&[u8]>,
    high: Bound<&[u8]>,
) -> Result<Option<U>, Error>
    ensures value { (op : model.Operation) → IsSpelling U.form item.now op
        → IfOk result (λ update. option_map U.view update
        ≡ only_in (limit_view low.entry) (limit_view high.entry) (said_by op)) }
    ensures memory { IfErr result (λ e. e ≡ Error.Memory) }
{
    match Operation::<(), U>::update_key(item) {
        Some(own) if is_in(low, high, own) => Ok(update_in(alloc, item)?),
        _ => Ok(None),
    }
}
