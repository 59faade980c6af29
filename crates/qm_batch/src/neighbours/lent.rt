//! The live update before a key in the list that index and log are lent for.

ghost use Rattle.std.specs.Prelude.{◌≡◌, ◌≤◌, true, List, fold, map, option_map, All, IfSome, IfOk, IfErr};
ghost use Rattle.std.specs.Option.{option_or};
ghost use Rattle.qm_index.specs.Buckets.{IsIndex};
ghost use Rattle.qm_model.specs.Forms.{IsOf, IsSpelling, spelling};
ghost use Rattle.qm_model.specs.Operations as model;
ghost use Rattle.qm_step.specs.Changes.{said_by, update_at};
ghost use Rattle.qm_base.specs.Reads.{ReadsItems};
ghost use Rattle.qm_step.specs.Lent.{IsLent, ReadsLent};
ghost use Rattle.qm_step.specs.Nearest.{lent_before, later_at, limit_view, only_within, said_key};
ghost use Rattle.qm_step.specs.Views.{read_view};

use qm_base::{ByteString, Error, Items, Location};
use qm_operations::{Operation, Update};
use qm_step::found::update_in;
use qm_step::kind::Steps;
use qm_step::order::is_within;
use std::alloc::Global;
use std::ops::Bound;

/// The live update with the greatest key before the limit in the key's own bucket, or else the one with the greatest key in
/// the bucket before it, with its location.
pub(crate) fn last_lent<F, I: qm_index::Unordered<Value = Location<F>>, L: Items, U: Steps<F, I>>(
    alloc: Global,
    index: &I,
    log: &mut L,
    key: &[u8],
    limit: Bound<&[u8]>,
) -> Result<Option<(Location<F>, U)>, Error>
    requires { U.form.ordered ≡ true }
    ensures value { (lent : List model.Operation)
        → IsLent L.reads U.form I.index_key (I.entries index.now) log.old lent
        → IfSome (L.reads.told log.old) (λ _.
        IfOk result (λ found. option_map (read_view U.view) found
        ≡ lent_before I.index_key (I.entries index.now) lent key.now (limit_view limit.entry))) }
    ensures index { IsIndex (I.entries index.now) }
    ensures reads { ReadsLent L.reads U.form I.index_key (I.entries index.now) log.old log.new
        result }
{
    if let Some(found) = last_at(alloc, log, index.bucket(key), limit)? {
        return Ok(Some(found));
    }
    match U::bucket_before(index, key) {
        Some((bucket, _)) => last_at(alloc, log, bucket, Bound::Unbounded),
        None => Ok(None),
    }
}

// Of the updates at these locations of the log's list the one with the greatest key before the limit, with its location.
fn last_at<F, L: Items, U: Update>(
    alloc: Global,
    log: &mut L,
    locations: &[Location<F>],
    limit: Bound<&[u8]>,
) -> Result<Option<(Location<F>, U)>, Error>
    ensures value { (list : List model.Operation)
        → L.reads.logged log.old (map (spelling U.form) list) → All (IsOf U.form) list
        → IfSome (L.reads.told log.old) (λ _.
        IfOk result (λ found. option_map (read_view U.view) found
        ≡ fold (later_at (limit_view limit.entry) list) None locations.now)) }
    ensures reads { ReadsItems L.reads log.old log.new result
        (All (λ at. L.reads.start log.old ≤ at) locations.now) }
{
    let mut last: Option<(Location<F>, U)> = None;
    for location in locations {
        let at = location.get();
        let update = read_within(alloc, log, at, key_in(&last), limit)?;
        last = or_last(at, update, last);
    }
    Ok(last)
}

// An update with its location, if there is one, or else the last one.
fn or_last<F, U: Update>(
    at: u64,
    update: Option<U>,
    last: Option<(Location<F>, U)>,
) -> Option<(Location<F>, U)>
    ensures { option_map (read_view U.view) result
        ≡ option_or (option_map (λ op. (at, op)) (option_map U.view update))
        (option_map (read_view U.view) last) }
{
    match update {
        Some(update) => Some((Location::new(at), update)),
        None => last,
    }
}

// The key of an update, if there is one.
fn key_in<F, U: Update>(found: &Option<(Location<F>, U)>) -> Option<&[u8]>
    ensures { option_map (λ k. k.now) result
        ≡ option_map (λ p. said_key p.1) (option_map (read_view U.view) found.now) }
{
    match found {
        Some((_, update)) => Some(update.key().as_bytes()),
        None => None,
    }
}

// The update at a location of the log's list, if its key comes after the given one and before the limit. Another is
// read, and not copied.
fn read_within<L: Items, U: Update>(
    alloc: Global,
    log: &mut L,
    at: u64,
    above: Option<&[u8]>,
    limit: Bound<&[u8]>,
) -> Result<Option<U>, Error>
    ensures value { (list : List model.Operation)
        → L.reads.logged log.old (map (spelling U.form) list) → All (IsOf U.form) list
        → IfSome (L.reads.told log.old) (λ _. IfOk result (λ update. option_map U.view update
        ≡ only_within (option_map (λ k. k.now) above.entry) (limit_view limit.entry)
        (update_at list at))) }
    ensures reads { ReadsItems L.reads log.old log.new result (L.reads.start log.old ≤ at) }
{
    match log.read_item(at)? {
        Some(item) => update_within(alloc, &item, above, limit),
        None => Ok(None),
    }
}

// The update that the bytes spell, if its key comes after the given one and before the limit.
fn update_within<U: Update>(
    alloc: Global,
    item: &[u8],
    above: Option<&[u8]>,
    limit: Bound<&[u8]>,
) -> Result<Option<U>, Error>
    ensures value { (op : model.Operation) → IsSpelling U.form item.now op
        → IfOk result (λ update. option_map U.view update
        ≡ only_within (option_map (λ k. k.now) above.entry) (limit_view limit.entry) (said_by op)) }
    ensures memory { IfErr result (λ e. e ≡ Error.Memory) }
{
    match Operation::<(), U>::update_key(item) {
        Some(own) if is_within(above, limit, own) => Ok(update_in(alloc, item)?),
        _ => Ok(None),
    }
}
