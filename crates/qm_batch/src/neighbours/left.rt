//! The keys to which layers leave a live update.

ghost use Rattle.std.specs.Prelude.{◌≡◌, map, option_map, option_and_then, IfOk, IfErr};
ghost use Rattle.qm_model.specs.Keys.{predecessor};
ghost use Rattle.qm_chain.specs.Ascending.{IsAscending};
ghost use Rattle.qm_step.specs.Nearest.{limit_view, last_key, changed_keys, left_by, left_keys, is_left};
ghost use Rattle.qm_step.specs.Views.{read_view};

use crate::read::{newest, update_from};
use qm_base::{ByteString, Error, Location};
use qm_operations::Update;
use qm_step::Layer;
use qm_step::order::{is_before, later};
use std::alloc::Global;
use std::ops::Bound;
use std::rc::Rc;

// The greatest key before a limit, if the keys ascend. It is looked for by halves.
fn last_before<'a, K: ByteString, E>(entries: &'a [(K, E)], limit: Bound<&[u8]>) -> Option<&'a [u8]>
    requires { IsAscending (map (λ e. K.bytes e.0) entries.now) }
    ensures { option_map (λ k. k.now) result
        ≡ last_key (limit_view limit.entry) (map (λ e. K.bytes e.0) entries.now) }
{
    let mut rest = entries;
    let mut last = None;
    while !rest.is_empty() {
        let (front, back) = rest.split_at(rest.len() / 2);
        let (middle, behind) = back.split_first()?;
        let key = middle.0.as_bytes();
        if is_before(limit, key) {
            last = Some(key);
            rest = behind;
        } else {
            rest = front;
        }
    }
    last
}

// The greatest key before a limit to which a layer does anything.
fn last_of<'a, F, U: Update>(layer: &'a Layer<F, U>, limit: Bound<&[u8]>) -> Option<&'a [u8]>
    ensures { option_map (λ k. k.now) result
        ≡ last_key (limit_view limit.entry) (map (λ c. c.0) layer.now.changes) }
{
    last_before(layer.diff().entries(), limit)
}

// The greatest key before a limit to which any layer does anything.
fn last_changed<'a, F, U: Update>(
    layers: &'a [Rc<Layer<F, U>>],
    limit: Bound<&[u8]>,
) -> Option<&'a [u8]>
    ensures { option_map (λ k. k.now) result
        ≡ last_key (limit_view limit.entry) (changed_keys (map (λ l. l.value) layers.now)) }
{
    let mut last = None;
    for layer in layers {
        last = later(last, last_of(layer, limit));
    }
    last
}

// Whether layers leave a key a live update.
fn is_left<F, U: Update>(layers: &[Rc<Layer<F, U>>], key: &[u8]) -> bool
    ensures { result ≡ is_left (map (λ l. l.value) layers.now) key.now }
{
    match newest(layers, key) {
        Some((_, entry)) => entry.loc().is_some(),
        None => false,
    }
}

// The greatest key before a limit to which layers leave a live update.
fn last_left<'a, F, U: Update>(
    layers: &'a [Rc<Layer<F, U>>],
    limit: Bound<&[u8]>,
) -> Option<&'a [u8]>
    ensures { option_map (λ k. k.now) result
        ≡ last_key (limit_view limit.entry) (left_keys (map (λ l. l.value) layers.now)) }
{
    let mut limit = limit;
    while let Some(key) = last_changed(layers, limit) {
        if is_left(layers, key) {
            return Some(key);
        }
        limit = Bound::Excluded(key);
    }
    None
}

/// The nearest key before this one, around the ring, to which layers leave a live update.
pub(crate) fn left_before<'a, F, U: Update>(
    layers: &'a [Rc<Layer<F, U>>],
    key: &[u8],
) -> Option<&'a [u8]>
    ensures { option_map (λ k. k.now) result
        ≡ predecessor (left_keys (map (λ l. l.value) layers.now)) key.now }
{
    match last_left(layers, Bound::Excluded(key)) {
        Some(below) => Some(below),
        None => last_left(layers, Bound::Unbounded),
    }
}

/// A copy of the live update that layers leave a key, with its location.
pub(crate) fn update_left<F, U: Update>(
    alloc: Global,
    layers: &[Rc<Layer<F, U>>],
    key: &[u8],
) -> Result<Option<(Location<F>, U)>, Error>
    ensures value { IfOk result (λ found.
        option_map (read_view U.view) found ≡ left_by (map (λ l. l.value) layers.now) key.now) }
    ensures memory { IfErr result (λ e. e ≡ Error.Memory) }
{
    match newest(layers, key) {
        Some((layer, entry)) => update_from(alloc, layer, entry),
        None => Ok(None),
    }
}
