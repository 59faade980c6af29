//! Reads of an ordered base list: the live update before a key, around the ring, and the one whose span holds it.

ghost use Rattle.std.specs.Prelude.{◌≡◌, true, List, map, option_map, IfSome, IfOk, IfErr};
ghost use Rattle.qm_model.specs.Live.{live_keys};
ghost use Rattle.qm_model.specs.Operations as model;
ghost use Rattle.qm_model.specs.Ordered.{IsRing};
ghost use Rattle.qm_model.specs.Ranges.{key_above, key_below};
ghost use Rattle.qm_step.specs.Layers.{LeadOver};
ghost use Rattle.qm_step.specs.Lent.{IsLent, ReadsLent};
ghost use Rattle.qm_step.specs.Nearest.{is_nearest, nearer_of, own_or_nearer};
ghost use Rattle.qm_step.specs.Rings.{previous_of, holder_of};
ghost use Rattle.qm_step.specs.Views.{read_view};

mod left;
mod lent;

use self::left::{left_before, update_left};
use self::lent::last_lent;
use crate::read::{newest, update_from};
use qm_base::{ByteString, Error, Items, Location};
use qm_operations::Update;
use qm_step::Layer;
use qm_step::found::{key_under, next_above};
use qm_step::kind::Steps;
use qm_step::order::is_between;
use std::alloc::Global;
use std::ops::Bound;
use std::rc::Rc;

/// The live update of the nearest key before this one in the base list, around the ring, with its location; none if no
/// key is live. Index and log are lent for the base list or a list on the way to it. It takes the reads of two buckets at
/// most.
pub fn previous<F, I: qm_index::Unordered<Value = Location<F>>, L: Items, U: Steps<F, I>>(
    alloc: Global,
    index: &I,
    log: &mut L,
    layers: &[Rc<Layer<F, U>>],
    key: &U::Key,
) -> Result<Option<(Location<F>, U)>, Error>
    requires { U.form.ordered ≡ true }
    ensures value { (lent base : List model.Operation)
        → IsLent L.reads U.form I.index_key (I.entries index.now) log.old lent
        → LeadOver (map (λ l. l.value) layers.now) lent base → IsRing lent → IsRing base
        → IfSome (L.reads.told log.old) (λ _. IfOk result (λ found.
        option_map (read_view U.view) found ≡ previous_of base (U.Key.bytes key.now))) }
    ensures reads { ReadsLent L.reads U.form I.index_key (I.entries index.now) log.old log.new
        result }
{
    let lent = last_lent(
        alloc,
        index,
        log,
        key.as_bytes(),
        Bound::Excluded(key.as_bytes()),
    )?;
    nearer(alloc, layers, key.as_bytes(), lent)
}

/// The live update of the base list whose span holds the key, with its location: the key's own, or else the one before it,
/// around the ring; none if no key is live.
pub fn holder<F, I: qm_index::Unordered<Value = Location<F>>, L: Items, U: Steps<F, I>>(
    alloc: Global,
    index: &I,
    log: &mut L,
    layers: &[Rc<Layer<F, U>>],
    key: &U::Key,
) -> Result<Option<(Location<F>, U)>, Error>
    requires { U.form.ordered ≡ true }
    ensures value { (lent base : List model.Operation)
        → IsLent L.reads U.form I.index_key (I.entries index.now) log.old lent
        → LeadOver (map (λ l. l.value) layers.now) lent base → IsRing lent → IsRing base
        → IfSome (L.reads.told log.old) (λ _. IfOk result (λ found.
        option_map (read_view U.view) found ≡ holder_of base (U.Key.bytes key.now))) }
    ensures reads { ReadsLent L.reads U.form I.index_key (I.entries index.now) log.old log.new
        result }
{
    match newest(layers, key.as_bytes()) {
        Some((layer, entry)) => match update_from(alloc, layer, entry)? {
            Some(found) => Ok(Some(found)),
            None => previous(alloc, index, log, layers, key),
        },
        None => {
            let lent = last_lent(
                alloc,
                index,
                log,
                key.as_bytes(),
                Bound::Included(key.as_bytes()),
            )?;
            own_or_nearer(alloc, layers, key.as_bytes(), lent)
        }
    }
}

/// The nearest live key above this one in the base list, which does not go round.
pub fn next_key<F, I: qm_index::Unordered<Value = Location<F>>, L: Items, U: Steps<F, I>>(
    alloc: Global,
    index: &I,
    log: &mut L,
    layers: &[Rc<Layer<F, U>>],
    key: &U::Key,
) -> Result<Option<U::Key>, Error>
    requires { U.form.ordered ≡ true }
    ensures value { (lent base : List model.Operation)
        → IsLent L.reads U.form I.index_key (I.entries index.now) log.old lent
        → LeadOver (map (λ l. l.value) layers.now) lent base → IsRing lent → IsRing base
        → IfSome (L.reads.told log.old) (λ _. IfOk result (λ found.
        option_map U.Key.bytes found ≡ key_above (live_keys base) (U.Key.bytes key.now))) }
    ensures reads { ReadsLent L.reads U.form I.index_key (I.entries index.now) log.old log.new
        result }
{
    let found = holder(alloc, index, log, layers, key)?;
    Ok(next_above(alloc, found, key.as_bytes())?)
}

/// The nearest live key below this one in the base list, which does not go round.
pub fn previous_key<F, I: qm_index::Unordered<Value = Location<F>>, L: Items, U: Steps<F, I>>(
    alloc: Global,
    index: &I,
    log: &mut L,
    layers: &[Rc<Layer<F, U>>],
    key: &U::Key,
) -> Result<Option<U::Key>, Error>
    requires { U.form.ordered ≡ true }
    ensures value { (lent base : List model.Operation)
        → IsLent L.reads U.form I.index_key (I.entries index.now) log.old lent
        → LeadOver (map (λ l. l.value) layers.now) lent base → IsRing lent → IsRing base
        → IfSome (L.reads.told log.old) (λ _. IfOk result (λ found.
        option_map U.Key.bytes found ≡ key_below (live_keys base) (U.Key.bytes key.now))) }
    ensures reads { ReadsLent L.reads U.form I.index_key (I.entries index.now) log.old log.new
        result }
{
    let found = previous(alloc, index, log, layers, key)?;
    Ok(key_under(found, key.as_bytes()))
}

// Of the live update before a key in the lent list and the one that layers leave there the nearer one.
fn nearer<F, U: Update>(
    alloc: Global,
    layers: &[Rc<Layer<F, U>>],
    key: &[u8],
    lent: Option<(Location<F>, U)>,
) -> Result<Option<(Location<F>, U)>, Error>
    ensures value { IfOk result (λ found. option_map (read_view U.view) found
        ≡ nearer_of (map (λ l. l.value) layers.now) key.now (option_map (read_view U.view) lent)) }
    ensures memory { IfErr result (λ e. e ≡ Error.Memory) }
{
    let left = left_before(layers, key);
    if let Some(found) = lent {
        if is_nearest(layers, key, left, found.1.key().as_bytes()) {
            return Ok(Some(found));
        }
    }
    match left {
        Some(left) => update_left(alloc, layers, left),
        None => Ok(None),
    }
}

// Whether layers do nothing to a key, and leave none live between it and the key after it.
fn is_nearest<F, U: Update>(
    layers: &[Rc<Layer<F, U>>],
    key: &[u8],
    left: Option<&[u8]>,
    own: &[u8],
) -> bool
    ensures { result
        ≡ is_nearest (map (λ l. l.value) layers.now) key.now (option_map (λ k. k.now) left.entry)
        own.now }
{
    if newest(layers, own).is_some() {
        return false;
    }
    match left {
        Some(left) => is_between(left, key, own),
        None => true,
    }
}

// The lent list's update, if it is the key's own, or else the nearer one.
fn own_or_nearer<F, U: Update>(
    alloc: Global,
    layers: &[Rc<Layer<F, U>>],
    key: &[u8],
    lent: Option<(Location<F>, U)>,
) -> Result<Option<(Location<F>, U)>, Error>
    ensures value { IfOk result (λ found. option_map (read_view U.view) found
        ≡ own_or_nearer (map (λ l. l.value) layers.now) key.now
        (option_map (read_view U.view) lent)) }
    ensures memory { IfErr result (λ e. e ≡ Error.Memory) }
{
    match lent {
        Some(found) => {
            if found.1.key().as_bytes() == key {
                return Ok(Some(found));
            }
            nearer(alloc, layers, key, Some(found))
        }
        None => nearer(alloc, layers, key, None),
    }
}
