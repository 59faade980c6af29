//! The operations of what a walk decides in an ordered list: its moves, then the links that its evictions break.

ghost use Rattle.std.specs.Prelude.{◌≡◌, ◌≤◌, ◌^◌, ◌++◌, ◌∷◌, ◌||◌, ◌&&◌, List, length, map, filter, filter_map, not, true, bytes_eq, is_none, Some, option_map, option_to_list, All, IfOk, OnOk};
ghost use Rattle.std.specs.Cmp.Lexicographic.{slice_cmp};
ghost use Rattle.std.specs.List.{IsDistinct};
ghost use Rattle.std.specs.List.Sorted.{IsStrictlySortedBy};
ghost use Rattle.std.specs.Ordering.{nat_cmp};
ghost use Rattle.qm_model.specs.Keys.{contains_key, successor};
ghost use Rattle.qm_model.specs.Operations as model;
ghost use Rattle.qm_model.specs.Ordered.{IsRing};
ghost use Rattle.qm_model.specs.Ordered as ordered;
ghost use Rattle.qm_step.specs.Bases.{base_view, IsBase};
ghost use Rattle.qm_step.specs.Changes.{update_of};
ghost use Rattle.qm_step.specs.Going.{write_for, IsDecided};
ghost use Rattle.qm_step.specs.Layers.{LeadOver};
ghost use Rattle.qm_step.specs.Moves.{before_evicted, has_key, place_before, rewritten_naming, touch_naming, update_naming};
ghost use Rattle.qm_step.specs.OrderedViews.{ordered_touch, ordered_touches, ordered_update};
ghost use Rattle.qm_step.specs.PlanViews.{decided_view, decided_views, touch_views};
ghost use Rattle.qm_step.specs.Rings.{touch_in};
ghost use Rattle.qm_step.specs.Touches.{IsFrom, operations_of};
ghost use Rattle.qm_step.specs.Views.{read_view};

use crate::base::Base;
use crate::decided::{Decided, evicted};
use crate::diff::diff_of_touches;
use crate::layer::Layer;
use crate::nearest::key_behind;
use crate::put::put;
use crate::touch::Touch;
use crate::writes::push_some;
use qm_base::{ByteString, Location, twin_option};
use qm_operations::{Operation, Ordered, Update, ValueEncoding};
use std::alloc::{AllocError, Global};
use std::collections::BTreeMap;
use std::rc::Rc;

/// Keys, by their bytes.
type Keys<'a> = BTreeMap<&'a [u8], ()>;

/// A live update, with its location.
type Found<F, K, V> = (Location<F>, Ordered<K, V>);

/// Live updates by key.
type FoundByKey<'a, F, K, V> = BTreeMap<&'a [u8], &'a Found<F, K, V>>;

// The operation of a decision, whose update names the key that its live update names.
fn touch_of<F, K: ByteString, V: ValueEncoding<K>>(
    decided: Decided<K, V::Value>,
) -> Touch<F, Ordered<K, V>>
    ensures { ordered_touch K.bytes V.Value.bytes result
        ≡ touch_naming (decided_view K.bytes V.Value.bytes decided).next
        (decided_view K.bytes V.Value.bytes decided) }
{
    let Decided {
        key,
        value,
        next,
        before,
    } = decided;
    let operation = match (value, next) {
        (Some(value), Some(next_key)) => Operation::Update(Ordered {
            key,
            value,
            next_key,
        }),
        _ => Operation::Delete(key),
    };
    Touch { operation, before }
}

// Adds the operations of decisions of which none evicts a key.
fn with_moves<F, K: ByteString, V: ValueEncoding<K>>(
    made: Vec<Touch<F, Ordered<K, V>>>,
    decided: Vec<Decided<K, V::Value>>,
) -> Result<Vec<Touch<F, Ordered<K, V>>>, AllocError>
    ensures { IfOk result (λ touches. ordered_touches K.bytes V.Value.bytes touches.items
        ≡ ordered_touches K.bytes V.Value.bytes made.items
        ++ map (λ d. touch_naming d.next d) (decided_views K.bytes V.Value.bytes decided.items)) }
{
    let mut touches = made;
    for one in decided {
        touches.push(touch_of(one))?;
    }
    Ok(touches)
}

// A copy of an operation.
fn twin_operation<F, U: Update>(
    alloc: Global,
    operation: &Operation<F, U>,
) -> Result<Operation<F, U>, AllocError>
    ensures { IfOk result (λ copy. copy ≡ operation.now) }
{
    match operation {
        Operation::Update(update) => Ok(Operation::Update(update.twin(alloc)?)),
        Operation::Delete(key) => Ok(Operation::Delete(key.twin(alloc)?)),
        Operation::CommitFloor(metadata, floor) => Ok(Operation::CommitFloor(
            twin_option(alloc, metadata)?,
            Location::new(floor.get()),
        )),
    }
}

// Copies of the operations.
fn twin_operations<F, U: Update>(
    alloc: Global,
    touches: &[Touch<F, U>],
) -> Result<Vec<Operation<F, U>>, AllocError>
    ensures { IfOk result (λ operations. operations.items ≡ map (λ t. t.operation) touches.now) }
{
    let mut operations = Vec::with_capacity(alloc, touches.len())?;
    for touch in touches {
        operations.push_reserved(twin_operation(alloc, &touch.operation)?);
    }
    Ok(operations)
}

// A layer, or anything that is kept like one, before others.
fn layered<T: Drop>(alloc: Global, newest: T, layers: &[Rc<T>]) -> Result<Vec<Rc<T>>, AllocError>
    ensures { IfOk result (λ all.
        map (λ l. l.value) all.items ≡ newest ∷ map (λ l. l.value) layers.now) }
{
    let mut all = layers.to_vec(alloc)?;
    all.insert(0, Rc::new(alloc, newest)?)?;
    Ok(all)
}

/// The layers that lead to the list with the operations of writes.
pub fn layers_over<F, U: Update>(
    alloc: Global,
    base: &Base<'_, F, U>,
    made: &[Touch<F, U>],
) -> Result<Vec<Rc<Layer<F, U>>>, AllocError>
    requires { base.now.size ≤ 2 ^ 62 }
    ensures { IfOk result (λ layers.
        (lent list : List model.Operation) → IsBase (base_view base.now) lent list
        → All (IsFrom list) (touch_views U.view U.Key.bytes U.Value.bytes made.now)
        → LeadOver (map (λ l. l.value) layers.items) lent
        (list ++ operations_of (touch_views U.view U.Key.bytes U.Value.bytes made.now))) }
{
    let diff = diff_of_touches(alloc, base.size, made)?;
    let operations = twin_operations(alloc, made)?;
    let newest = Layer::new(base.size, operations, Rc::new(alloc, diff)?);
    layered(alloc, newest, base.layers)
}

// Adds the key that a decided key's live update names.
fn add_named<'a, K: ByteString, V>(
    keys: &mut Keys<'a>,
    one: &'a Decided<K, V>,
) -> Result<(), AllocError>
    ensures has { OnOk result ((x : model.Bytes)
        → has_key keys.new x
        ≡ (has_key keys.old x || contains_key (option_to_list (option_map K.bytes one.now.next))
        x)) }
    ensures known { OnOk result (All (λ e. K.has e.0.now ≡ true) keys.old.entries
        → All (λ e. K.has e.0.now ≡ true) keys.new.entries) }
{
    match &one.next {
        Some(next) => { put(keys, next.as_bytes(), ()) }
        None => Ok(()),
    }
}

// The keys that the live updates of decided keys name.
fn all_named<'a, K: ByteString, V>(
    alloc: Global,
    decided: &'a [Decided<K, V>],
) -> Result<Keys<'a>, AllocError>
    ensures has { IfOk result (λ keys. (x : model.Bytes)
        → has_key keys x
        ≡ contains_key (filter_map (λ d. option_map K.bytes d.next) decided.now) x) }
    ensures known { IfOk result (λ keys. All (λ e. K.has e.0.now ≡ true) keys.entries) }
{
    let mut keys = BTreeMap::new(alloc);
    for one in decided {
        add_named(&mut keys, one)?;
    }
    Ok(keys)
}

// Takes out a key that goes.
fn drop_gone<K: ByteString, V>(keys: &mut Keys<'_>, one: &Decided<K, V>)
    ensures has { (x : model.Bytes)
        → has_key keys.new x
        ≡ (has_key keys.old x && not (is_none one.now.value && bytes_eq (K.bytes one.now.key) x)) }
    ensures known { All (λ e. K.has e.0.now ≡ true) keys.old.entries
        → All (λ e. K.has e.0.now ≡ true) keys.new.entries }
{
    if one.value.is_none() {
        keys.remove(one.key.as_bytes());
    }
}

// The keys that the live updates of decided keys name, without those that go.
fn named<'a, K: ByteString, V>(
    alloc: Global,
    decided: &'a [Decided<K, V>],
) -> Result<Keys<'a>, AllocError>
    ensures has { IfOk result (λ keys. (x : model.Bytes)
        → has_key keys x
        ≡ (contains_key (filter_map (λ d. option_map K.bytes d.next) decided.now) x && not
        (contains_key (map (λ d. K.bytes d.key) (filter (λ d. is_none d.value) decided.now)) x))) }
    ensures known { IfOk result (λ keys. All (λ e. K.has e.0.now ≡ true) keys.entries) }
{
    let mut keys = all_named(alloc, decided)?;
    for one in decided {
        drop_gone(&mut keys, one);
    }
    Ok(keys)
}

// The live updates by key.
fn by_key<'a, F, K: ByteString, V: ValueEncoding<K>>(
    alloc: Global,
    found: &'a [(Location<F>, Ordered<K, V>)],
) -> Result<FoundByKey<'a, F, K, V>, AllocError>
    ensures has { IfOk result (λ all.
        (x : model.Bytes) → has_key all x ≡ contains_key (map (λ f. K.bytes f.1.key) found.now) x) }
    ensures stand { IfOk result (λ all. (list : List model.Operation)
        → All (λ f.
        update_of list (K.bytes f.1.key) ≡ Some (read_view ⟦<Ordered<K, V> as Update>⟧.view f))
        found.now
        → All (λ e.
        update_of list e.0.now ≡ Some (read_view ⟦<Ordered<K, V> as Update>⟧.view e.1.now))
        all.entries) }
{
    let mut all = BTreeMap::new(alloc);
    for one in found {
        put(&mut all, one.1.key.as_bytes(), one)?;
    }
    Ok(all)
}

// The live updates by key, without those of keys that were decided.
fn undecided<'a, F, K: ByteString, V: ValueEncoding<K>>(
    alloc: Global,
    found: &'a [(Location<F>, Ordered<K, V>)],
    decided: &[Decided<K, V::Value>],
) -> Result<FoundByKey<'a, F, K, V>, AllocError>
    ensures has { IfOk result (λ all. (x : model.Bytes)
        → has_key all x
        ≡ (contains_key (map (λ f. K.bytes f.1.key) found.now) x && not
        (contains_key (map (λ d. K.bytes d.key) decided.now) x))) }
    ensures stand { IfOk result (λ all. (list : List model.Operation)
        → All (λ f.
        update_of list (K.bytes f.1.key) ≡ Some (read_view ⟦<Ordered<K, V> as Update>⟧.view f))
        found.now
        → All (λ e.
        update_of list e.0.now ≡ Some (read_view ⟦<Ordered<K, V> as Update>⟧.view e.1.now))
        all.entries) }
{
    let mut all = by_key(alloc, found)?;
    for one in decided {
        all.remove(one.key.as_bytes());
    }
    Ok(all)
}

// The update of a key with a value, which names the key after it among these, if there is one.
fn relinked<'a, K: ByteString, V: ValueEncoding<K>>(
    alloc: Global,
    keys: &Keys<'a>,
    key: &'a K,
    value: &V::Value,
) -> Result<Option<Ordered<K, V>>, AllocError>
    requires { All (λ e. K.has e.0.now ≡ true) keys.now.entries }
    ensures { IfOk result (λ update. option_map (ordered_update K.bytes V.Value.bytes) update
        ≡ update_naming (successor (map (λ e. e.0.now) keys.now.entries) (K.bytes key.now))
        (K.bytes key.now) (Some (V.Value.bytes value.now))) }
{
    let Some(next) = key_behind(keys, key.as_bytes()) else {
        return Ok(None);
    };
    let next_key = K::from_bytes(alloc, next)?;
    let key = key.twin(alloc)?;
    let value = value.twin(alloc)?;
    Ok(Some(Ordered {
        key,
        value,
        next_key,
    }))
}

// The update of a decision, which names the key after its own among these.
fn moved<'a, K: ByteString, V: ValueEncoding<K>>(
    alloc: Global,
    keys: &Keys<'a>,
    one: &'a Decided<K, V::Value>,
) -> Result<Option<Ordered<K, V>>, AllocError>
    requires { All (λ e. K.has e.0.now ≡ true) keys.now.entries }
    ensures { IfOk result (λ update. option_map (ordered_update K.bytes V.Value.bytes) update
        ≡ update_naming (successor (map (λ e. e.0.now) keys.now.entries) (K.bytes one.now.key))
        (K.bytes one.now.key) (option_map V.Value.bytes one.now.value)) }
{
    match &one.value {
        Some(value) => relinked(alloc, keys, &one.key, value),
        None => Ok(None),
    }
}

// The operation of a decision, whose update names the key after its own among these.
fn moved_touch<'a, F, K: ByteString, V: ValueEncoding<K>>(
    alloc: Global,
    keys: &Keys<'a>,
    one: &'a Decided<K, V::Value>,
) -> Result<Touch<F, Ordered<K, V>>, AllocError>
    requires { All (λ e. K.has e.0.now ≡ true) keys.now.entries }
    ensures { IfOk result (λ touch. ordered_touch K.bytes V.Value.bytes touch
        ≡ touch_naming (successor (map (λ e. e.0.now) keys.now.entries) (K.bytes one.now.key))
        (decided_view K.bytes V.Value.bytes one.now)) }
{
    let operation = match moved(alloc, keys, one)? {
        Some(update) => Operation::Update(update),
        None => Operation::Delete(one.key.twin(alloc)?),
    };
    Ok(Touch {
        operation,
        before: one.before,
    })
}

// The operations of decisions, whose updates name the keys after their own among these.
fn moved_touches<'a, F, K: ByteString, V: ValueEncoding<K>>(
    alloc: Global,
    keys: &Keys<'a>,
    decided: &'a [Decided<K, V::Value>],
) -> Result<Vec<Touch<F, Ordered<K, V>>>, AllocError>
    requires { All (λ e. K.has e.0.now ≡ true) keys.now.entries }
    ensures { IfOk result (λ touches. ordered_touches K.bytes V.Value.bytes touches.items
        ≡ map (λ d. touch_naming (successor (map (λ e. e.0.now) keys.now.entries) d.key) d)
        (decided_views K.bytes V.Value.bytes decided.now)) }
{
    let mut touches = Vec::with_capacity(alloc, decided.len())?;
    for one in decided {
        touches.push_reserved(moved_touch(alloc, keys, one)?);
    }
    Ok(touches)
}

// Where the key of the update at a location stood in a base list of this size, which these operations follow.
fn place_before<F, U: Update>(size: u64, made: &[Touch<F, U>], at: u64) -> Option<u64>
    ensures { result
        ≡ place_before size (touch_views U.view U.Key.bytes U.Value.bytes made.now) at }
{
    if at < size {
        return Some(at);
    }
    match made.get((at - size) as usize) {
        Some(touch) => touch.before,
        None => None,
    }
}

// A live update written again, which names the key after its own among these, if there is one.
fn rewritten<'a, F, K: ByteString, V: ValueEncoding<K>>(
    alloc: Global,
    keys: &Keys<'a>,
    size: u64,
    made: &[Touch<F, Ordered<K, V>>],
    found: &'a (Location<F>, Ordered<K, V>),
) -> Result<Option<Touch<F, Ordered<K, V>>>, AllocError>
    requires { All (λ e. K.has e.0.now ≡ true) keys.now.entries }
    ensures { IfOk result (λ touch. option_map (ordered_touch K.bytes V.Value.bytes) touch
        ≡ rewritten_naming
        (successor (map (λ e. e.0.now) keys.now.entries) (K.bytes found.now.1.key))
        (place_before size (ordered_touches K.bytes V.Value.bytes made.now) found.now.0)
        (K.bytes found.now.1.key) (V.Value.bytes found.now.1.value)) }
{
    match relinked(alloc, keys, &found.1.key, &found.1.value)? {
        Some(update) => Ok(Some(Touch {
            operation: Operation::Update(update),
            before: place_before(size, made, found.0.get()),
        })),
        None => Ok(None),
    }
}

// Adds live updates written again, by key, each of which names the key after its own among these.
fn add_rewritten<'a, F, K: ByteString, V: ValueEncoding<K>>(
    alloc: Global,
    touches: &mut Vec<Touch<F, Ordered<K, V>>>,
    keys: &Keys<'a>,
    size: u64,
    made: &[Touch<F, Ordered<K, V>>],
    broken: &FoundByKey<'a, F, K, V>,
) -> Result<(), AllocError>
    requires { All (λ e. K.has e.0.now ≡ true) keys.now.entries }
    ensures made { OnOk result (ordered_touches K.bytes V.Value.bytes touches.new.items
        ≡ ordered_touches K.bytes V.Value.bytes touches.old.items
        ++ filter_map (λ e.
        rewritten_naming (successor (map (λ e. e.0.now) keys.now.entries) (K.bytes e.1.now.1.key))
        (place_before size (ordered_touches K.bytes V.Value.bytes made.now) e.1.now.0)
        (K.bytes e.1.now.1.key) (V.Value.bytes e.1.now.1.value)) broken.now.entries) }
    ensures ordered { IsStrictlySortedBy (λ x y. slice_cmp nat_cmp x.now y.now)
        (map (λ e. e.0) broken.now.entries) }
{
    for found in broken.values() {
        let touch = rewritten(alloc, keys, size, made, found)?;
        push_some(touches, touch)?;
    }
    Ok(())
}

// The operations of decisions, then those by which the updates of remaining keys name others if theirs go. These live
// updates were found before the keys that go.
fn linked_moves<'a, F, K: ByteString, V: ValueEncoding<K>>(
    alloc: Global,
    size: u64,
    made: &[Touch<F, Ordered<K, V>>],
    decided: &'a [Decided<K, V::Value>],
    found: &'a [(Location<F>, Ordered<K, V>)],
) -> Result<Vec<Touch<F, Ordered<K, V>>>, AllocError>
    ensures { IfOk result (λ touches. (list : List model.Operation) → size ≡ length list
        → IsRing (list ++ operations_of (ordered_touches K.bytes V.Value.bytes made.now))
        → All (IsFrom list) (ordered_touches K.bytes V.Value.bytes made.now)
        → All
        (IsDecided list (list ++ operations_of (ordered_touches K.bytes V.Value.bytes made.now)))
        (decided_views K.bytes V.Value.bytes decided.now)
        → IsDistinct bytes_eq
        (map (λ d. d.key) (map write_for (decided_views K.bytes V.Value.bytes decided.now)))
        → map (read_view ⟦<Ordered<K, V> as Update>⟧.view) found.now
        ≡ filter_map
        (before_evicted (list ++ operations_of (ordered_touches K.bytes V.Value.bytes made.now)))
        (decided_views K.bytes V.Value.bytes decided.now)
        → ordered_touches K.bytes V.Value.bytes touches.items
        ≡ map (touch_in list) (ordered.ordered_moves
        (list ++ operations_of (ordered_touches K.bytes V.Value.bytes made.now))
        (map write_for (decided_views K.bytes V.Value.bytes decided.now)))) }
{
    let keys = named(alloc, decided)?;
    let broken = undecided(alloc, found, decided)?;
    let mut touches = moved_touches(alloc, &keys, decided)?;
    add_rewritten(alloc, &mut touches, &keys, size, made, &broken)?;
    Ok(touches)
}

/// The operations of writes, and after them those of what was decided of the list with them. These live updates were found
/// before the keys that go.
pub fn moved_behind<F, K: ByteString, V: ValueEncoding<K>>(
    alloc: Global,
    size: u64,
    made: Vec<Touch<F, Ordered<K, V>>>,
    decided: Vec<Decided<K, V::Value>>,
    found: &[(Location<F>, Ordered<K, V>)],
) -> Result<Vec<Touch<F, Ordered<K, V>>>, AllocError>
    ensures value { IfOk result (λ touches. (list : List model.Operation) → size ≡ length list
        → IsRing (list ++ operations_of (ordered_touches K.bytes V.Value.bytes made.items))
        → All (IsFrom list) (ordered_touches K.bytes V.Value.bytes made.items)
        → All
        (IsDecided list (list ++ operations_of (ordered_touches K.bytes V.Value.bytes made.items)))
        (decided_views K.bytes V.Value.bytes decided.items)
        → IsDistinct bytes_eq
        (map (λ d. d.key) (map write_for (decided_views K.bytes V.Value.bytes decided.items)))
        → map (read_view ⟦<Ordered<K, V> as Update>⟧.view) found.now
        ≡ filter_map
        (before_evicted (list ++ operations_of (ordered_touches K.bytes V.Value.bytes made.items)))
        (decided_views K.bytes V.Value.bytes decided.items)
        → ordered_touches K.bytes V.Value.bytes touches.items
        ≡ ordered_touches K.bytes V.Value.bytes made.items
        ++ map (touch_in list) (ordered.ordered_moves
        (list ++ operations_of (ordered_touches K.bytes V.Value.bytes made.items))
        (map write_for (decided_views K.bytes V.Value.bytes decided.items)))) }
    ensures count { IfOk result (λ touches. length made.items ≤ length touches.items) }
{
    if evicted(&decided) == 0 {
        return with_moves(made, decided);
    }
    let mut moves = linked_moves(alloc, size, &made, &decided, found)?;
    let mut touches = made;
    touches.append(&mut moves)?;
    Ok(touches)
}
