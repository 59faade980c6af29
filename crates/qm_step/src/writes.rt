//! What writes append to a base list: the writes to live keys by location, then the creates by key.

ghost use Rattle.std.specs.Prelude.{◌≡◌, ◌++◌, ◌∷◌, [], ℕ, List, map, zip, filter_map, Some, None, option_map, option_to_list, IfOk, OnOk};
ghost use Rattle.std.specs.BTreeMap.{insert_entry};
ghost use Rattle.std.specs.Ordering.{nat_cmp};
ghost use Rattle.qm_base.specs.Slots.{slot_view, slot_views};
ghost use Rattle.qm_model.specs.Live.{live};
ghost use Rattle.qm_model.specs.Operations as operations;
ghost use Rattle.qm_model.specs.Slots.{write_in};
ghost use Rattle.qm_model.specs.Writes as model;
ghost use Rattle.qm_step.specs.PlanViews.{keyed, last_view, last_write_view, located_views, site_in, site_view, unordered_touch, unordered_touches, unordered_view};
ghost use Rattle.qm_step.specs.Touches.{rewrite_here, moved_touch, new_touch, written_touches};
ghost use Rattle.qm_step.specs.Views.{keys_of, wanted_view, write_view};

use crate::put::put;
use crate::site::Site;
use crate::touch::Touch;
use crate::wanted::{Read, Wanted};
use qm_base::{ByteString, Slot, Write};
use qm_operations::{Operation, Unordered, Update, ValueEncoding};
use std::alloc::{AllocError, Global};
use std::collections::BTreeMap;

/// A write whose key and value are lent.
#[derive(Drop)]
pub struct LastWrite<'a, K, V> {
    /// The key.
    pub key: &'a K,
    /// The value, or none if the key is deleted.
    pub value: Option<&'a V>,
}

impl<'a, K, V> LastWrite<'a, K, V> {
    /// The same.
    pub fn lent(&self) -> LastWrite<'a, K, V>
        ensures { result ≡ self.now }
    {
        LastWrite {
            key: self.key,
            value: self.value,
        }
    }
}

/// The last write of each key, by key.
pub type Last<'a, K, V> = BTreeMap<&'a [u8], LastWrite<'a, K, V>>;

/// Operations by the location where their keys' live updates stand.
type ByLocation<F, U> = BTreeMap<u64, Operation<F, U>>;

// Adds a write after those of which these are the last.
fn add_write<'a, K: ByteString, V: ByteString>(
    last: &mut Last<'a, K, V>,
    key: &'a K,
    value: Option<&'a V>,
) -> Result<(), AllocError>
    ensures { OnOk result ((ws : List model.Write)
        → map (last_view K.bytes V.bytes) last.old.entries ≡ map keyed (model.last_writes ws)
        → map (last_view K.bytes V.bytes) last.new.entries
        ≡ map keyed (model.last_writes (ws
        ++ record { key = K.bytes key.now; value = option_map (λ v. V.bytes v.now) value.entry }
        ∷ []))) }
{
    put(last, key.as_bytes(), LastWrite { key, value })
}

// Adds writes.
fn add_writes<'a, K: ByteString, V: ByteString>(
    last: &mut Last<'a, K, V>,
    writes: &'a [Write<K, V>],
) -> Result<(), AllocError>
    ensures { OnOk result ((ws : List model.Write)
        → map (last_view K.bytes V.bytes) last.old.entries ≡ map keyed (model.last_writes ws)
        → map (last_view K.bytes V.bytes) last.new.entries
        ≡ map keyed (model.last_writes (ws ++ map (write_view K.bytes V.bytes) writes.now))) }
{
    for write in writes {
        add_write(last, &write.key, write.value.as_ref())?;
    }
    Ok(())
}

// Adds the write that a key's slot is, if it is one.
fn add_slot<'a, K: ByteString, V: ByteString>(
    last: &mut Last<'a, K, V>,
    key: &'a K,
    slot: &'a Slot<V>,
) -> Result<(), AllocError>
    ensures { OnOk result ((ws : List model.Write)
        → map (last_view K.bytes V.bytes) last.old.entries ≡ map keyed (model.last_writes ws)
        → map (last_view K.bytes V.bytes) last.new.entries
        ≡ map keyed (model.last_writes
        (ws ++ option_to_list (write_in (K.bytes key.now, slot_view V.bytes slot.now))))) }
{
    match slot {
        Slot::Keep => Ok(()),
        Slot::Put(value) => add_write(last, key, Some(value)),
        Slot::Delete => add_write(last, key, None),
    }
}

// Adds the writes that the slots of keys that were read are.
fn add_slots<'a, F, U: Update>(
    last: &mut Last<'a, U::Key, U::Value>,
    reads: &'a [Read<F, U>],
    slots: &'a [Slot<U::Value>],
) -> Result<(), AllocError>
    ensures { OnOk result ((ws : List model.Write)
        → map (last_view U.Key.bytes U.Value.bytes) last.old.entries
        ≡ map keyed (model.last_writes ws)
        → map (last_view U.Key.bytes U.Value.bytes) last.new.entries
        ≡ map keyed (model.last_writes (ws
        ++ filter_map write_in
        (zip (keys_of U.Key.bytes reads.now) (slot_views U.Value.bytes slots.now))))) }
{
    for (read, slot) in reads.iter().zip(slots) {
        add_slot(last, &read.key, slot)?;
    }
    Ok(())
}

/// The last write of each key, of the writes that are wanted.
pub fn last_writes<'a, F, U: Update>(
    alloc: Global,
    wanted: &Wanted<'a, F, U>,
) -> Result<Last<'a, U::Key, U::Value>, AllocError>
    ensures { IfOk result (λ last. map (last_view U.Key.bytes U.Value.bytes) last.entries
        ≡ map keyed (model.last_writes (wanted_view U.Key.bytes U.Value.bytes wanted.now))) }
{
    let mut last = BTreeMap::new(alloc);
    add_writes(&mut last, wanted.writes)?;
    add_slots(&mut last, wanted.reads, wanted.slots)?;
    add_writes(&mut last, wanted.others)?;
    Ok(last)
}

// The operation that a write puts.
fn operation_of<F, K: ByteString, V: ValueEncoding<K>>(
    alloc: Global,
    write: &LastWrite<'_, K, V::Value>,
) -> Result<Operation<F, Unordered<K, V>>, AllocError>
    ensures { IfOk result (λ operation. unordered_view K.bytes V.Value.bytes operation
        ≡ model.operation_of (last_write_view K.bytes V.Value.bytes write.now)) }
{
    let key = write.key.twin(alloc)?;
    match write.value {
        Some(value) => {
            let value = value.twin(alloc)?;
            Ok(Operation::Update(Unordered(key, value)))
        }
        None => Ok(Operation::Delete(key)),
    }
}

// Puts what a write does to a live key in its place by location.
fn put_rewrite<F, K: ByteString, V: ValueEncoding<K>>(
    alloc: Global,
    rewrites: &mut ByLocation<F, Unordered<K, V>>,
    site: &Site<'_, K, V::Value>,
) -> Result<(), AllocError>
    ensures live { OnOk result ((at : ℕ) → (site_view K.bytes V.Value.bytes site.now).1 ≡ Some at
        → located_views (unordered_view K.bytes V.Value.bytes) rewrites.new.entries
        ≡ insert_entry nat_cmp
        (located_views (unordered_view K.bytes V.Value.bytes) rewrites.old.entries) at
        (model.operation_of (last_write_view K.bytes V.Value.bytes site.now.write))) }
    ensures other { OnOk result ((site_view K.bytes V.Value.bytes site.now).1 ≡ None
        → rewrites.new.entries ≡ rewrites.old.entries) }
{
    match site.at() {
        Some(at) => {
            let operation = operation_of(alloc, &site.write)?;
            put(rewrites, at, operation)
        }
        None => Ok(()),
    }
}

// The writes to live keys, by where these stand.
fn by_location<F, K: ByteString, V: ValueEncoding<K>>(
    alloc: Global,
    sites: &[Site<'_, K, V::Value>],
) -> Result<ByLocation<F, Unordered<K, V>>, AllocError>
    ensures { IfOk result (λ rewrites. (base : List operations.Operation) (ws : List model.Write)
        → map (site_view K.bytes V.Value.bytes) sites.now
        ≡ map (site_in base) (model.last_writes ws)
        → located_views (unordered_view K.bytes V.Value.bytes) rewrites.entries
        ≡ filter_map (rewrite_here (model.last_writes ws)) (live base)) }
{
    let mut rewrites = BTreeMap::new(alloc);
    for site in sites {
        put_rewrite(alloc, &mut rewrites, site)?;
    }
    Ok(rewrites)
}

// The operations by location, each of a key that stood there.
fn moved_touches<F, K: ByteString, V: ValueEncoding<K>>(
    alloc: Global,
    rewrites: ByLocation<F, Unordered<K, V>>,
) -> Result<Vec<Touch<F, Unordered<K, V>>>, AllocError>
    ensures { IfOk result (λ touches. unordered_touches K.bytes V.Value.bytes touches.items
        ≡ map (λ e. moved_touch (e.0, unordered_view K.bytes V.Value.bytes e.1)) rewrites.entries) }
{
    let mut touches = Vec::with_capacity(alloc, rewrites.len())?;
    for (at, operation) in rewrites {
        touches.push_reserved(Touch {
            operation,
            before: Some(at),
        });
    }
    Ok(touches)
}

// What a write creates: an update, if its key is not live.
fn create_of<F, K: ByteString, V: ValueEncoding<K>>(
    alloc: Global,
    site: &Site<'_, K, V::Value>,
) -> Result<Option<Touch<F, Unordered<K, V>>>, AllocError>
    ensures { IfOk result (λ made. (base : List operations.Operation) (w : model.Write)
        → site_view K.bytes V.Value.bytes site.now ≡ site_in base w
        → option_map (unordered_touch K.bytes V.Value.bytes) made
        ≡ option_map new_touch (model.create_of (live base) w)) }
{
    if site.at().is_some() {
        return Ok(None);
    }
    if site.write.value.is_none() {
        return Ok(None);
    }
    let operation = operation_of(alloc, &site.write)?;
    Ok(Some(Touch {
        operation,
        before: None,
    }))
}

/// Adds the thing, if there is one.
pub fn push_some<T: Drop>(things: &mut Vec<T>, thing: Option<T>) -> Result<(), AllocError>
    ensures { OnOk result (things.new.items ≡ things.old.items ++ option_to_list thing) }
{
    match thing {
        Some(thing) => {
            things.push(thing)?;
            Ok(())
        }
        None => Ok(()),
    }
}

// Adds what the writes create, in their order.
fn add_creates<F, K: ByteString, V: ValueEncoding<K>>(
    alloc: Global,
    touches: &mut Vec<Touch<F, Unordered<K, V>>>,
    sites: &[Site<'_, K, V::Value>],
) -> Result<(), AllocError>
    ensures { OnOk result ((base : List operations.Operation) (ws : List model.Write)
        → map (site_view K.bytes V.Value.bytes) sites.now ≡ map (site_in base) ws
        → unordered_touches K.bytes V.Value.bytes touches.new.items
        ≡ unordered_touches K.bytes V.Value.bytes touches.old.items
        ++ map new_touch (filter_map (model.create_of (live base)) ws)) }
{
    for site in sites {
        let touch = create_of(alloc, site)?;
        push_some(touches, touch)?;
    }
    Ok(())
}

/// The operations of the last writes.
pub fn written<F, K: ByteString, V: ValueEncoding<K>>(
    alloc: Global,
    sites: &[Site<'_, K, V::Value>],
) -> Result<Vec<Touch<F, Unordered<K, V>>>, AllocError>
    ensures { IfOk result (λ touches. (base : List operations.Operation) (ws : List model.Write)
        → map (site_view K.bytes V.Value.bytes) sites.now
        ≡ map (site_in base) (model.last_writes ws)
        → unordered_touches K.bytes V.Value.bytes touches.items
        ≡ written_touches base (model.last_writes ws)) }
{
    let rewrites = by_location(alloc, sites)?;
    let mut touches = moved_touches(alloc, rewrites)?;
    add_creates(alloc, &mut touches, sites)?;
    Ok(touches)
}
