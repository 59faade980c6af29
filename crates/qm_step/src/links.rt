//! The operations of ordered writes: deletes, updates and creates, each by key, then the links that these change.

ghost use Rattle.std.specs.Prelude.{◌≡◌, ◌++◌, List, map, filter_map, option_map, option_to_list, All, IfOk, OnOk};
ghost use Rattle.qm_model.specs.Keys.{predecessor, without};
ghost use Rattle.qm_model.specs.Operations as operations;
ghost use Rattle.qm_model.specs.Ordered.{IsRing, ordered_writes};
ghost use Rattle.qm_model.specs.Writes as model;
ghost use Rattle.qm_step.specs.Links.{is_kind, of_kind, keys_of_kind, key_after, named, ordered_operation, touch_of, after_of, before_of, next_of, keys_in, ordered_neighbour, relinked_touches, SameKeys, IsStanding, AreKeys, AreLive, AreRelinked};
ghost use Rattle.qm_step.specs.OrderedViews.{neighbour_view, ordered_touches, ordered_update};
ghost use Rattle.qm_step.specs.PlanViews.{last_write_view, linked_view};
ghost use Rattle.qm_step.specs.Rings.{linked_in, neighbour_in, touch_in};
ghost use Rattle.qm_step.specs.Touches as lists;

use crate::nearest::{entry_before, key_behind};
use crate::neighbour::Neighbour;
use crate::put::put;
use crate::site::Site;
use crate::touch::Touch;
use crate::writes::LastWrite;
use qm_base::{ByteString, Location};
use qm_operations::{Operation, Ordered, Update, ValueEncoding};
use std::alloc::{AllocError, Global};
use std::collections::BTreeMap;

/// What a write does to its key.
#[derive(Clone, Copy)]
enum Kind {
    Delete,
    Update,
    Create,
}

/// A set of keys, by their bytes.
type Keys<'a> = BTreeMap<&'a [u8], ()>;

/// Live updates with their locations, by key.
type Befores<'a, F, K, V> = BTreeMap<&'a [u8], &'a (Location<F>, Ordered<K, V>)>;

// Whether a write is of this kind.
fn is_of<K: ByteString, V: ByteString>(linked: &Site<'_, K, V>, kind: Kind) -> bool
    ensures { result ≡ is_kind kind (linked_view K.bytes V.bytes linked.now) }
{
    let puts = linked.write.value.is_some();
    let is_live = linked.stands.is_some();
    match kind {
        Kind::Delete => !puts && is_live,
        Kind::Update => puts && is_live,
        Kind::Create => puts && !is_live,
    }
}

// The keys of the writes of a kind.
fn keys_of<'a, K: ByteString, V: ByteString>(
    alloc: Global,
    linked: &'a [Site<'a, K, V>],
    kind: Kind,
) -> Result<Keys<'a>, AllocError>
    ensures { IfOk result (λ keys. SameKeys (keys_in keys.entries)
        (keys_of_kind kind (map (linked_view K.bytes V.bytes) linked.now))) }
{
    let mut keys = BTreeMap::new(alloc);
    for written in linked {
        if is_of(written, kind) {
            put(&mut keys, written.write.key.as_bytes(), ())?;
        }
    }
    Ok(keys)
}

// Adds the live update before a key, unless its key is deleted.
fn add_before<'a, F, K: ByteString, V: ValueEncoding<K>>(
    befores: &mut Befores<'a, F, K, V>,
    deleted: &Keys<'_>,
    neighbour: &'a Neighbour<'a, F, Ordered<K, V>>,
) -> Result<(), AllocError>
    ensures keys { OnOk result (SameKeys (keys_in befores.new.entries) (keys_in befores.old.entries
        ++ without (keys_in deleted.now.entries)
        (option_to_list (before_of (ordered_neighbour K.bytes V.Value.bytes neighbour.now))))) }
    ensures standing { OnOk result ((base : List operations.Operation)
        → IsStanding base (ordered_neighbour K.bytes V.Value.bytes neighbour.now)
        → AreLive (ordered_update K.bytes V.Value.bytes) base befores.old.entries
        → AreLive (ordered_update K.bytes V.Value.bytes) base befores.new.entries) }
{
    let Some(found) = &neighbour.before else {
        return Ok(());
    };
    let key = found.1.key.as_bytes();
    if deleted.contains_key(key) {
        Ok(())
    } else {
        put(befores, key, found)
    }
}

// The live updates before keys, without those of deleted keys.
fn befores_of<'a, F, K: ByteString, V: ValueEncoding<K>>(
    alloc: Global,
    deleted: &Keys<'_>,
    neighbours: &'a [Neighbour<'a, F, Ordered<K, V>>],
) -> Result<Befores<'a, F, K, V>, AllocError>
    ensures keys { IfOk result (λ befores.
        SameKeys (keys_in befores.entries) (without (keys_in deleted.now.entries)
        (filter_map before_of (map (ordered_neighbour K.bytes V.Value.bytes) neighbours.now)))) }
    ensures standing { IfOk result (λ befores. (base : List operations.Operation)
        → All (IsStanding base) (map (ordered_neighbour K.bytes V.Value.bytes) neighbours.now)
        → AreLive (ordered_update K.bytes V.Value.bytes) base befores.entries) }
{
    let mut befores = BTreeMap::new(alloc);
    for neighbour in neighbours {
        add_before(&mut befores, deleted, neighbour)?;
    }
    Ok(befores)
}

// Adds a key, if there is one that is not deleted.
fn add_kept<'a, K: ByteString>(
    keys: &mut Keys<'a>,
    deleted: &Keys<'_>,
    key: Option<&'a K>,
) -> Result<(), AllocError>
    ensures keys { OnOk result (SameKeys (keys_in keys.new.entries) (keys_in keys.old.entries
        ++ without (keys_in deleted.now.entries)
        (option_to_list (option_map (λ k. K.bytes k.now) key.entry)))) }
    ensures known { OnOk result (AreKeys K.has keys.old.entries → AreKeys K.has keys.new.entries) }
{
    let Some(key) = key else {
        return Ok(());
    };
    let key = key.as_bytes();
    if deleted.contains_key(key) {
        Ok(())
    } else {
        put(keys, key, ())
    }
}

// The key that a written key's live update names, or the key itself if it is created.
fn named_by<'a, K: ByteString, V: ByteString>(linked: &'a Site<'a, K, V>) -> Option<&'a K>
    ensures { option_map (λ k. K.bytes k.now) result
        ≡ after_of (linked_view K.bytes V.bytes linked.now) }
{
    match &linked.stands {
        Some(stands) => stands.next.as_ref(),
        None if linked.write.value.is_some() => Some(linked.write.key),
        None => None,
    }
}

// Adds the keys that come from writes, without those that are deleted.
fn add_named<'a, K: ByteString, V: ByteString>(
    keys: &mut Keys<'a>,
    deleted: &Keys<'_>,
    linked: &'a [Site<'a, K, V>],
) -> Result<(), AllocError>
    ensures keys { OnOk result (SameKeys (keys_in keys.new.entries) (keys_in keys.old.entries
        ++ without (keys_in deleted.now.entries)
        (filter_map after_of (map (linked_view K.bytes V.bytes) linked.now)))) }
    ensures known { OnOk result (AreKeys K.has keys.old.entries → AreKeys K.has keys.new.entries) }
{
    for written in linked {
        add_kept(keys, deleted, named_by(written))?;
    }
    Ok(())
}

// The key that the live update before a key names.
fn next_by<'a, F, K: ByteString, V: ValueEncoding<K>>(
    neighbour: &'a Neighbour<'a, F, Ordered<K, V>>,
) -> Option<&'a K>
    ensures { option_map (λ k. K.bytes k.now) result
        ≡ next_of (ordered_neighbour K.bytes V.Value.bytes neighbour.now) }
{
    match &neighbour.before {
        Some(found) => Some(&found.1.next_key),
        None => None,
    }
}

// Adds the keys that the live updates before keys name, without those that are deleted.
fn add_next<'a, F, K: ByteString, V: ValueEncoding<K>>(
    keys: &mut Keys<'a>,
    deleted: &Keys<'_>,
    neighbours: &'a [Neighbour<'a, F, Ordered<K, V>>],
) -> Result<(), AllocError>
    ensures keys { OnOk result (SameKeys (keys_in keys.new.entries) (keys_in keys.old.entries
        ++ without (keys_in deleted.now.entries)
        (filter_map next_of (map (ordered_neighbour K.bytes V.Value.bytes) neighbours.now)))) }
    ensures known { OnOk result (AreKeys K.has keys.old.entries → AreKeys K.has keys.new.entries) }
{
    for neighbour in neighbours {
        add_kept(keys, deleted, next_by(neighbour))?;
    }
    Ok(())
}

// The keys of which one comes after a key that is updated, created or written again.
fn afters_of<'a, F, K: ByteString, V: ValueEncoding<K>>(
    alloc: Global,
    deleted: &Keys<'_>,
    linked: &'a [Site<'a, K, V::Value>],
    neighbours: &'a [Neighbour<'a, F, Ordered<K, V>>],
) -> Result<Keys<'a>, AllocError>
    ensures keys { IfOk result (λ keys.
        SameKeys (keys_in keys.entries) (without (keys_in deleted.now.entries)
        (filter_map after_of (map (linked_view K.bytes V.Value.bytes) linked.now))
        ++ without (keys_in deleted.now.entries)
        (filter_map next_of (map (ordered_neighbour K.bytes V.Value.bytes) neighbours.now)))) }
    ensures known { IfOk result (λ keys. AreKeys K.has keys.entries) }
{
    let mut keys = BTreeMap::new(alloc);
    add_named(&mut keys, deleted, linked)?;
    add_next(&mut keys, deleted, neighbours)?;
    Ok(keys)
}

// The key after this one, or itself if there is none.
fn next_key<'a, K: ByteString>(
    alloc: Global,
    afters: &Keys<'a>,
    key: &'a K,
) -> Result<K, AllocError>
    requires { AreKeys K.has afters.now.entries }
    ensures { IfOk result (λ next.
        K.bytes next ≡ key_after (keys_in afters.now.entries) (K.bytes key.now)) }
{
    match key_behind(afters, key.as_bytes()) {
        Some(next) => K::from_bytes(alloc, next),
        None => key.twin(alloc),
    }
}

// The update of a key, which names the key after it.
fn update_with<'a, F, K: ByteString, V: ValueEncoding<K>>(
    alloc: Global,
    afters: &Keys<'a>,
    key: &'a K,
    value: &V::Value,
) -> Result<Operation<F, Ordered<K, V>>, AllocError>
    requires { AreKeys K.has afters.now.entries }
    ensures { IfOk result (λ operation. ordered_operation K.bytes V.Value.bytes operation
        ≡ named (keys_in afters.now.entries)
        (operations.update (K.bytes key.now) (V.Value.bytes value.now) None)) }
{
    let next_key = next_key(alloc, afters, key)?;
    let key = key.twin(alloc)?;
    let value = value.twin(alloc)?;
    Ok(Operation::Update(Ordered {
        key,
        value,
        next_key,
    }))
}

// The operation of a write.
fn operation_of<'a, F, K: ByteString, V: ValueEncoding<K>>(
    alloc: Global,
    afters: &Keys<'a>,
    write: &LastWrite<'a, K, V::Value>,
) -> Result<Operation<F, Ordered<K, V>>, AllocError>
    requires { AreKeys K.has afters.now.entries }
    ensures { IfOk result (λ operation. ordered_operation K.bytes V.Value.bytes operation
        ≡ named (keys_in afters.now.entries)
        (model.operation_of (last_write_view K.bytes V.Value.bytes write.now))) }
{
    match write.value {
        Some(value) => update_with(alloc, afters, write.key, value),
        None => Ok(Operation::Delete(write.key.twin(alloc)?)),
    }
}

// Adds the operations of the writes of a kind.
fn add_written<'a, F, K: ByteString, V: ValueEncoding<K>>(
    alloc: Global,
    touches: &mut Vec<Touch<F, Ordered<K, V>>>,
    afters: &Keys<'a>,
    linked: &[Site<'a, K, V::Value>],
    kind: Kind,
) -> Result<(), AllocError>
    requires { AreKeys K.has afters.now.entries }
    ensures { OnOk result (ordered_touches K.bytes V.Value.bytes touches.new.items
        ≡ ordered_touches K.bytes V.Value.bytes touches.old.items
        ++ map (touch_of (keys_in afters.now.entries))
        (of_kind kind (map (linked_view K.bytes V.Value.bytes) linked.now))) }
{
    for written in linked {
        if is_of(written, kind) {
            let operation = operation_of(alloc, afters, &written.write)?;
            touches.push(Touch {
                operation,
                before: written.at(),
            })?;
        }
    }
    Ok(())
}

// Writes the live update before a key again, unless its own key was written.
fn add_link<'a, F, K: ByteString, V: ValueEncoding<K>>(
    alloc: Global,
    touches: &mut Vec<Touch<F, Ordered<K, V>>>,
    written: &mut Keys<'a>,
    befores: &Befores<'a, F, K, V>,
    afters: &Keys<'a>,
    key: &'a K,
) -> Result<(), AllocError>
    requires { AreKeys K.has afters.now.entries }
    ensures { OnOk result ((base : List operations.Operation) (front : List lists.Touch)
        (before keys : List operations.Bytes)
        → AreLive (ordered_update K.bytes V.Value.bytes) base befores.now.entries
        → AreRelinked base (keys_in afters.now.entries) front before keys
        (ordered_touches K.bytes V.Value.bytes touches.old.items) (keys_in written.old.entries)
        → AreRelinked base (keys_in afters.now.entries) front before
        (keys ++ option_to_list (predecessor (keys_in befores.now.entries) (K.bytes key.now)))
        (ordered_touches K.bytes V.Value.bytes touches.new.items) (keys_in written.new.entries)) }
{
    let Some((before, found)) = entry_before(befores, key.as_bytes()) else {
        return Ok(());
    };
    if written.contains_key(before) {
        return Ok(());
    }
    let operation = update_with(alloc, afters, &found.1.key, &found.1.value)?;
    touches.push(Touch {
        operation,
        before: Some(found.0.get()),
    })?;
    put(written, before, ())
}

// Writes the live updates before the keys of the writes of a kind again, unless their own keys were written.
fn add_links<'a, F, K: ByteString, V: ValueEncoding<K>>(
    alloc: Global,
    touches: &mut Vec<Touch<F, Ordered<K, V>>>,
    written: &mut Keys<'a>,
    befores: &Befores<'a, F, K, V>,
    afters: &Keys<'a>,
    linked: &[Site<'a, K, V::Value>],
    kind: Kind,
) -> Result<(), AllocError>
    requires { AreKeys K.has afters.now.entries }
    ensures { OnOk result ((base : List operations.Operation) (front : List lists.Touch)
        (before keys : List operations.Bytes)
        → AreLive (ordered_update K.bytes V.Value.bytes) base befores.now.entries
        → AreRelinked base (keys_in afters.now.entries) front before keys
        (ordered_touches K.bytes V.Value.bytes touches.old.items) (keys_in written.old.entries)
        → AreRelinked base (keys_in afters.now.entries) front before (keys
        ++ filter_map (predecessor (keys_in befores.now.entries))
        (keys_of_kind kind (map (linked_view K.bytes V.Value.bytes) linked.now)))
        (ordered_touches K.bytes V.Value.bytes touches.new.items) (keys_in written.new.entries)) }
{
    for changed in linked {
        if is_of(changed, kind) {
            add_link(alloc, touches, written, befores, afters, changed.write.key)?;
        }
    }
    Ok(())
}

// Writes the live updates before the keys that are created or deleted again, unless their own keys were written.
fn add_relinked<'a, F, K: ByteString, V: ValueEncoding<K>>(
    alloc: Global,
    touches: &mut Vec<Touch<F, Ordered<K, V>>>,
    befores: &Befores<'a, F, K, V>,
    afters: &Keys<'a>,
    linked: &'a [Site<'a, K, V::Value>],
) -> Result<(), AllocError>
    requires { AreKeys K.has afters.now.entries }
    ensures { OnOk result ((base : List operations.Operation)
        → AreLive (ordered_update K.bytes V.Value.bytes) base befores.now.entries
        → ordered_touches K.bytes V.Value.bytes touches.new.items
        ≡ ordered_touches K.bytes V.Value.bytes touches.old.items
        ++ relinked_touches base (keys_in afters.now.entries)
        (keys_of_kind Kind.Update (map (linked_view K.bytes V.Value.bytes) linked.now))
        (filter_map (predecessor (keys_in befores.now.entries))
        (keys_of_kind Kind.Create (map (linked_view K.bytes V.Value.bytes) linked.now))
        ++ filter_map (predecessor (keys_in befores.now.entries))
        (keys_of_kind Kind.Delete (map (linked_view K.bytes V.Value.bytes) linked.now)))) }
{
    let mut written = keys_of(alloc, linked, Kind::Update)?;
    add_links(
        alloc,
        touches,
        &mut written,
        befores,
        afters,
        linked,
        Kind::Create,
    )?;
    add_links(
        alloc,
        touches,
        &mut written,
        befores,
        afters,
        linked,
        Kind::Delete,
    )
}

// The operations of writes: those of deletes, then of updates, then of creates, and then the links that these change.
fn written_touches<'a, F, K: ByteString, V: ValueEncoding<K>>(
    alloc: Global,
    befores: &Befores<'a, F, K, V>,
    afters: &Keys<'a>,
    linked: &'a [Site<'a, K, V::Value>],
) -> Result<Vec<Touch<F, Ordered<K, V>>>, AllocError>
    requires { AreKeys K.has afters.now.entries }
    ensures { IfOk result (λ touches. (base : List operations.Operation)
        → AreLive (ordered_update K.bytes V.Value.bytes) base befores.now.entries
        → ordered_touches K.bytes V.Value.bytes touches.items
        ≡ (map (touch_of (keys_in afters.now.entries))
        (of_kind Kind.Delete (map (linked_view K.bytes V.Value.bytes) linked.now))
        ++ map (touch_of (keys_in afters.now.entries))
        (of_kind Kind.Update (map (linked_view K.bytes V.Value.bytes) linked.now))
        ++ map (touch_of (keys_in afters.now.entries))
        (of_kind Kind.Create (map (linked_view K.bytes V.Value.bytes) linked.now)))
        ++ relinked_touches base (keys_in afters.now.entries)
        (keys_of_kind Kind.Update (map (linked_view K.bytes V.Value.bytes) linked.now))
        (filter_map (predecessor (keys_in befores.now.entries))
        (keys_of_kind Kind.Create (map (linked_view K.bytes V.Value.bytes) linked.now))
        ++ filter_map (predecessor (keys_in befores.now.entries))
        (keys_of_kind Kind.Delete (map (linked_view K.bytes V.Value.bytes) linked.now)))) }
{
    let mut touches = Vec::new(alloc);
    add_written(alloc, &mut touches, afters, linked, Kind::Delete)?;
    add_written(alloc, &mut touches, afters, linked, Kind::Update)?;
    add_written(alloc, &mut touches, afters, linked, Kind::Create)?;
    add_relinked(alloc, &mut touches, befores, afters, linked)?;
    Ok(touches)
}

/// The operations of the last writes, of which it is known where their keys stand, and what stands before those that are
/// created or deleted.
pub fn linked_touches<'a, F, K: ByteString, V: ValueEncoding<K>>(
    alloc: Global,
    linked: &'a [Site<'a, K, V::Value>],
    neighbours: &'a [Neighbour<'a, F, Ordered<K, V>>],
) -> Result<Vec<Touch<F, Ordered<K, V>>>, AllocError>
    ensures { IfOk result (λ touches.
        (base : List operations.Operation) (ws : List model.Write) → IsRing base
        → map (linked_view K.bytes V.Value.bytes) linked.now
        ≡ map (linked_in base) (model.last_writes ws)
        → map (neighbour_view ⟦<Ordered<K, V> as Update>⟧.view K.bytes) neighbours.now
        ≡ filter_map (neighbour_in base) (model.last_writes ws)
        → ordered_touches K.bytes V.Value.bytes touches.items
        ≡ map (touch_in base) (ordered_writes base ws)) }
{
    let deleted = keys_of(alloc, linked, Kind::Delete)?;
    let befores = befores_of(alloc, &deleted, neighbours)?;
    let afters = afters_of(alloc, &deleted, linked, neighbours)?;
    written_touches(alloc, &befores, &afters, linked)
}
