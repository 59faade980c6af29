//! The walk from the floor, over a base list and the operations that are put after it.

ghost use Rattle.std.specs.Prelude.{◌≡◌, true, false, ◌≤◌, ◌<◌, ◌+◌, ◌-◌, ◌^◌, ◌++◌, ◌==◌, ℕ, min, nat_le, List, length, map, All, Option, option_map, slice_get, IfSome, IfOk, IfErr, MatchBool, MatchOption, OnOk, None, Some, option_to_list, is_some, if◌then◌else◌};
ghost use Rattle.std.specs.List.{list_any};
ghost use Rattle.qm_operations.specs.Parts.{update_key};
ghost use Rattle.qm_operations.specs.Views.{operation_view};
ghost use Rattle.qm_chain.specs.Policies.{action_view};
ghost use Rattle.qm_model.specs.Bits.{bits};
ghost use Rattle.qm_model.specs.Live.{floor};
ghost use Rattle.qm_model.specs.Operations as model;
ghost use Rattle.qm_model.specs.Operations.{update};
ghost use Rattle.qm_model.specs.Walk as walks;
ghost use Rattle.qm_step.specs.Bases.{base_view};
ghost use Rattle.qm_step.specs.Changes.{said_by, stands_at, update_at};
ghost use Rattle.qm_step.specs.Going.{decided_for, told_of, value_for, AreDead, AreDeadBetween, AreDecided, IsGoing, IsSpaced};
ghost use Rattle.qm_step.specs.Layers.{LeadOver};
ghost use Rattle.qm_index.specs.Indexed.{IsIndexed};
ghost use Rattle.qm_base.specs.Reads.{ReadsItems};
ghost use Rattle.qm_base.specs.Views.{pair_view};
ghost use Rattle.qm_step.specs.Lent.{IsLent};
ghost use Rattle.qm_step.specs.PlanViews.{decided_views, pair_views, touch_views};
ghost use Rattle.qm_batch.specs.PlanPaths.{found_view, path_view, AreBehind, IsPath};
ghost use Rattle.qm_step.specs.Touches.{is_there, moved_touch, operations_of, AreReplaced, IsFrom, IsKeyed, IsMoveAt, Once, Touch as Made};
ghost use Rattle.qm_step.specs.Views.{change_view};

use crate::read::{newest, twin_update};
use qm_base::{ByteString, Error, Items, Location};
use qm_bits::Candidates;
use qm_chain::{Action, DiffEntry, Entry, Limits, Policy, Walk};
use qm_operations::{Operation, Update};
use qm_step::decided::Decided;
use qm_step::found::update_in;
use qm_step::touch::{Touch, replaced_by};
use qm_step::{Base, Layer};
use std::alloc::{AllocError, Global};
use std::collections::BTreeSet;
use std::rc::Rc;

/// How many candidates a walk takes at a time, at most.
const ROUND: u64 = 1_024;

// What a walk goes over: a base list, the operations that are put after it, and the locations of the base list whose live
// updates these replace. The index is lent for the base list or one on the way to it.
#[derive(Drop)]
struct Path<'i, 'b, F, I, U: Update> {
    index: &'i I,
    base: &'i Base<'b, F, U>,
    made: &'i [Touch<F, U>],
    replaced: BTreeSet<u64>,
}

/// What a walk decided, the keys that it evicted with the values that they had, and where it ended.
#[derive(Drop)]
pub(crate) struct Walked<K, V> {
    pub(crate) decided: Vec<Decided<K, V>>,
    pub(crate) evicted: Vec<(K, V)>,
    pub(crate) floor: u64,
}

/// A walk on its way: its course, and what it decided and evicted so far.
#[derive(Drop)]
struct Going<F, K, V> {
    walk: Walk<F>,
    decided: Vec<Decided<K, V>>,
    evicted: Vec<(K, V)>,
}

/// A live update, and where its key's live update stands in the base list.
#[derive(Drop)]
struct Found<U> {
    update: U,
    before: Option<u64>,
}

// The operation at a location of the base list, if a layer has it; else the list that is lent has the same there.
fn in_layers<F, U: Update>(layers: &[Rc<Layer<F, U>>], at: u64) -> Option<&Operation<F, U>>
    ensures { (lent base : List model.Operation)
        → LeadOver (map (λ l. l.value) layers.now) lent base → at < length base
        → MatchOption result (slice_get base at ≡ slice_get lent at) (λ op.
        slice_get base at ≡ Some (operation_view U.view U.Key.bytes U.Value.bytes op.now)) }
{
    for layer in layers {
        if layer.base() <= at {
            return layer.operations().get((at - layer.base()) as usize);
        }
    }
    None
}

// Whether the entry of a diff leaves its key a live update at this location.
fn is_left_at<F, V>(entry: &DiffEntry<F, V>, at: u64) -> bool
    ensures { (value : V → model.Bytes) → result ≡ is_there (change_view value entry.now).now at }
{
    match entry {
        DiffEntry::Active { loc, .. } => loc.get() == at,
        DiffEntry::Deleted { .. } => false,
    }
}

// Whether the location is among these.
fn is_among<F>(locations: &[Location<F>], at: u64) -> bool
    ensures { result ≡ list_any (λ location. location == at) locations.now }
{
    for location in locations {
        if location.get() == at {
            return true;
        }
    }
    false
}

// Whether the key of the update at this location of the base list has its live update there.
fn is_live_there<F, I: qm_index::Unordered<Value = Location<F>>, U: Update>(
    index: &I,
    layers: &[Rc<Layer<F, U>>],
    key: &[u8],
    at: u64,
) -> bool
    ensures { (lent base : List model.Operation) (value : model.Bytes) (next : Option model.Bytes)
        → IsIndexed I.index_key (I.entries index.now) lent
        → LeadOver (map (λ l. l.value) layers.now) lent base
        → update_at base at ≡ Some (update key.now value next)
        → result ≡ is_there (stands_at base key.now) at }
{
    match newest(layers, key) {
        Some((_, entry)) => is_left_at(entry, at),
        None => is_among(index.bucket(key), at),
    }
}

// The key of the update that an operation is.
fn key_of_update<F, U: Update>(operation: &Operation<F, U>) -> Option<&[u8]>
    ensures { option_map (λ key. key.now) result
        ≡ update_key (operation_view U.view U.Key.bytes U.Value.bytes operation.now) }
{
    match operation {
        Operation::Update(update) => Some(update.key().as_bytes()),
        Operation::Delete(_) | Operation::CommitFloor(_, _) => None,
    }
}

// Whether a walk moves the operation at this location of the base list: an update of this key that is live there, if
// it is not replaced.
fn is_moved<F, I: qm_index::Unordered<Value = Location<F>>, U: Update>(
    index: &I,
    layers: &[Rc<Layer<F, U>>],
    replaced: &BTreeSet<u64>,
    key: Option<&[u8]>,
    at: u64,
) -> bool
    ensures { (lent base : List model.Operation) (made : List Made) (op : model.Operation)
        → IsIndexed I.index_key (I.entries index.now) lent
        → LeadOver (map (λ l. l.value) layers.now) lent base → All (IsFrom base) made
        → All IsKeyed made → AreReplaced replaced.now made → slice_get base at ≡ Some op
        → option_map (λ k. k.now) key.entry ≡ update_key op
        → IsMoveAt
        (option_map (λ said. moved_touch (at, said)) (if result then said_by op else None)) base
        (base ++ operations_of made) at }
{
    match key {
        Some(key) => {
            if replaced.contains(&at) {
                return false;
            }
            is_live_there(index, layers, key, at)
        }
        None => false,
    }
}

// The live update at a location of the base list that is not replaced. Another operation is not copied.
fn unreplaced_at<F, I: qm_index::Unordered<Value = Location<F>>, L: Items, U: Update>(
    alloc: Global,
    index: &I,
    log: &mut L,
    layers: &[Rc<Layer<F, U>>],
    replaced: &BTreeSet<u64>,
    at: u64,
) -> Result<Option<U>, Error>
    ensures value { (lent base : List model.Operation) (made : List Made)
        → IsLent L.reads U.form I.index_key (I.entries index.now) log.old lent
        → LeadOver (map (λ l. l.value) layers.now) lent base → at < length base
        → All (IsFrom base) made → All IsKeyed made → AreReplaced replaced.now made
        → IfSome (L.reads.told log.old) (λ _.
        IfOk result (λ found. IsMoveAt (option_map (λ u. moved_touch (at, U.view u)) found) base
        (base ++ operations_of made) at)) }
    ensures reads { ReadsItems L.reads log.old log.new result (L.reads.start log.old ≤ at) }
{
    if let Some(operation) = in_layers(layers, at) {
        return if is_moved(index, layers, replaced, key_of_update(operation), at) {
            twin_update(alloc, operation)
        } else {
            Ok(None)
        };
    }
    let Some(item) = log.read_item(at)? else {
        return Ok(None);
    };
    if is_moved(
        index,
        layers,
        replaced,
        Operation::<F, U>::update_key(&item),
        at,
    ) {
        Ok(update_in(alloc, &item)?)
    } else {
        Ok(None)
    }
}

// The live update at a place among the operations after the base list.
fn made_at<F, U: Update>(
    alloc: Global,
    made: &[Touch<F, U>],
    place: u64,
) -> Result<Option<Found<U>>, Error>
    ensures value { (base list : List model.Operation) (at : ℕ)
        → base ++ operations_of (touch_views U.view U.Key.bytes U.Value.bytes made.now) ≡ list
        → Once (operations_of (touch_views U.view U.Key.bytes U.Value.bytes made.now))
        → All (IsFrom base) (touch_views U.view U.Key.bytes U.Value.bytes made.now)
        → length base ≤ at → place ≡ at - length base
        → IfOk result (λ found. IsMoveAt (option_map (found_view U.view) found) base list at) }
    ensures memory { IfErr result (λ e. e ≡ Error.Memory) }
{
    let Some(touch) = made.get(place as usize) else {
        return Ok(None);
    };
    match twin_update(alloc, &touch.operation)? {
        Some(update) => Ok(Some(Found {
            update,
            before: touch.before,
        })),
        None => Ok(None),
    }
}

// The live update that stands at this location of the base list.
fn standing<U>(update: Option<U>, at: u64) -> Option<Found<U>>
    ensures { (view : U → model.Operation)
        → option_map (found_view view) result ≡ option_map (λ u. moved_touch (at, view u)) update }
{
    let update = update?;
    Some(Found {
        update,
        before: Some(at),
    })
}

// The live update at a location of the base list and the operations after it.
fn live_at<F, I: qm_index::Unordered<Value = Location<F>>, L: Items, U: Update>(
    alloc: Global,
    path: &Path<'_, '_, F, I, U>,
    log: &mut L,
    at: u64,
) -> Result<Option<Found<U>>, Error>
    ensures value { (lent base list : List model.Operation)
        → IsLent L.reads U.form I.index_key (I.entries path.now.index.now) log.old lent
        → IsPath (path_view U.view U.Key.bytes U.Value.bytes path.now) lent base list
        → IfSome (L.reads.told log.old) (λ _.
        IfOk result (λ found. IsMoveAt (option_map (found_view U.view) found) base list at)) }
    ensures reads { ReadsItems L.reads log.old log.new result (L.reads.start log.old ≤ at) }
{
    if path.base.size <= at {
        return made_at(alloc, path.made, at - path.base.size);
    }
    let update = unreplaced_at(alloc, path.index, log, path.base.layers, &path.replaced, at)?;
    Ok(standing(update, at))
}

// What is to be noted of a key: its new value, or none if it goes; nothing if the walk ends.
fn value_of<V>(action: Action<V>) -> Option<Option<V>>
    ensures { (bytes : V → model.Bytes)
        → option_map (λ value. option_map bytes value) result
        ≡ value_for (action_view bytes action) }
{
    match action {
        Action::Write(value) => Some(Some(value)),
        Action::Evict => Some(None),
        Action::Stop => None,
    }
}

// Notes what a policy says of the live update at the floor, and tells whether the walk goes on.
fn note<F, K: ByteString, V: ByteString>(
    going: &mut Going<F, K, V>,
    key: K,
    next: Option<K>,
    before: Option<u64>,
    action: Action<V>,
) -> Result<bool, Error>
    requires entries { 0 < going.old.walk.entries }
    requires floor { going.old.walk.floor < 2 ^ 64 - 1 }
    ensures goes { IfOk result (λ goes. goes
        ≡ is_some
        (decided_for (K.bytes key) (option_map K.bytes next) before (action_view V.bytes action))) }
    ensures decided { IfOk result (λ _. decided_views K.bytes V.bytes going.new.decided.items
        ≡ decided_views K.bytes V.bytes going.old.decided.items
        ++ option_to_list
        (decided_for (K.bytes key) (option_map K.bytes next) before (action_view V.bytes action))) }
    ensures walk { IfOk result (λ goes. going.new.walk
        ≡ (if goes then record going.old.walk
        { floor = going.old.walk.floor + 1; entries = going.old.walk.entries - 1 } else
        going.old.walk)) }
    ensures evicted { IfOk result (λ _. going.new.evicted.items ≡ going.old.evicted.items) }
    ensures memory { IfErr result (λ e. e ≡ Error.Memory) }
{
    let Some(value) = value_of(action) else {
        return Ok(false);
    };
    going.decided.push(Decided {
        key,
        value,
        next,
        before,
    })?;
    going.walk.decide();
    Ok(true)
}

// A key and its value, to be told if the key goes; none of a policy that evicts no key. The policy gets the value itself.
fn kept_pair<K: ByteString, V: ByteString>(
    alloc: Global,
    evicts: bool,
    key: &K,
    value: &V,
) -> Result<Option<(K, V)>, AllocError>
    ensures { IfOk result (λ pair. pair ≡ (if evicts then Some (key.now, value.now) else None)) }
{
    if !evicts {
        return Ok(None);
    }
    let key = key.twin(alloc)?;
    let value = value.twin(alloc)?;
    Ok(Some((key, value)))
}

// What is told of an action: the key that goes, with the value that it had.
fn pair_told<K: ByteString, V: ByteString>(
    action: &Action<V>,
    had: Option<(K, V)>,
) -> Option<(K, V)>
    ensures { option_map (pair_view K.bytes V.bytes) result
        ≡ told_of (action_view V.bytes action.now) (option_map (pair_view K.bytes V.bytes) had) }
{
    match action {
        Action::Evict => had,
        Action::Stop | Action::Write(_) => None,
    }
}

// Tells a pair, if there is one.
fn tell<K: ByteString, V: ByteString>(
    evicted: &mut Vec<(K, V)>,
    pair: Option<(K, V)>,
) -> Result<(), AllocError>
    ensures { OnOk result (evicted.new.items ≡ evicted.old.items ++ option_to_list pair) }
{
    let Some(pair) = pair else {
        return Ok(());
    };
    evicted.push(pair)?;
    Ok(())
}

// Has the policy decide the live update at the floor, notes that, and tells whether the walk goes on.
fn decide<F, U: Update, P: Policy<F, U::Key, U::Value>>(
    alloc: Global,
    policy: &mut P,
    going: &mut Going<F, U::Key, U::Value>,
    found: Found<U>,
) -> Result<bool, Error>
    requires entries { 0 < going.old.walk.entries }
    requires floor { going.old.walk.floor < 2 ^ 64 - 1 }
    ensures value { IfOk result (λ goes. (base list : List model.Operation) (all : walks.Walked P)
        → IsMoveAt (Some (found_view U.view found)) base list going.old.walk.floor
        → IsGoing P.rules base list
        (decided_views U.Key.bytes U.Value.bytes going.old.decided.items)
        (pair_views U.Key.bytes U.Value.bytes going.old.evicted.items) going.old.walk policy.old all
        → MatchBool goes (IsGoing P.rules base list
        (decided_views U.Key.bytes U.Value.bytes going.new.decided.items)
        (pair_views U.Key.bytes U.Value.bytes going.new.evicted.items) going.new.walk policy.new
        all) (AreDecided base list (decided_views U.Key.bytes U.Value.bytes going.new.decided.items)
        (pair_views U.Key.bytes U.Value.bytes going.new.evicted.items) going.new.walk.floor
        policy.new all)) }
    ensures low { IfOk result (λ _. going.old.walk.floor ≤ going.new.walk.floor) }
    ensures high { IfOk result (λ _. going.new.walk.floor ≤ going.old.walk.floor + 1) }
    ensures passed { IfOk result (λ goes.
        goes ≡ true → going.new.walk.floor ≡ going.old.walk.floor + 1) }
    ensures end { IfOk result (λ _. going.new.walk.end ≡ going.old.walk.end) }
    ensures memory { IfErr result (λ e. e ≡ Error.Memory) }
{
    let Found { update, before } = found;
    let (key, value, next) = update.into_parts();
    let at = Location::new(going.walk.floor.get());
    let remaining = going.walk.entries as usize;
    let had = kept_pair(alloc, policy.evicts(), &key, &value)?;
    let decision = policy.decide(alloc, Entry::new(at, &key, value, remaining))?;
    let action = decision.into_action();
    tell(&mut going.evicted, pair_told(&action, had))?;
    note(going, key, next, before, action)
}

// Passes the locations up to the next candidate, if the walk may still decide one, and tells whether it came there.
fn comes_to<F>(walk: &mut Walk<F>, at: u64) -> bool
    requires { walk.old.floor ≤ at }
    ensures spent { walk.old.entries ≡ 0 → (result ≡ false) × (walk.new ≡ walk.old) }
    ensures reached { 0 < walk.old.entries → result ≡ nat_le (at - walk.old.floor) walk.old.skips }
    ensures floor { 0 < walk.old.entries
        → walk.new.floor ≡ min at (walk.old.floor + walk.old.skips) }
    ensures rest { 0 < walk.old.entries
        → walk.new
        ≡ record walk.old
        { floor = walk.new.floor; skips = walk.old.skips - (at - walk.old.floor) } }
    ensures low { walk.old.floor ≤ walk.new.floor }
    ensures high { walk.new.floor ≤ at }
    ensures end { walk.new.end ≡ walk.old.end }
{
    walk.entries > 0 && walk.reach(Location::new(at))
}

// Visits the next candidate, and tells whether the walk goes on.
fn visit<
    F,
    I: qm_index::Unordered<Value = Location<F>>,
    L: Items,
    U: Update,
    P: Policy<F, U::Key, U::Value>,
>(
    alloc: Global,
    path: &Path<'_, '_, F, I, U>,
    log: &mut L,
    policy: &mut P,
    going: &mut Going<F, U::Key, U::Value>,
    at: u64,
) -> Result<bool, Error>
    requires low { going.old.walk.floor ≤ at }
    requires high { at < going.old.walk.end }
    ensures value { (lent base list : List model.Operation) (all : walks.Walked P)
        → IsLent L.reads U.form I.index_key (I.entries path.now.index.now) log.old lent
        → IsPath (path_view U.view U.Key.bytes U.Value.bytes path.now) lent base list
        → AreDead list going.old.walk.floor at
        → IsGoing P.rules base list
        (decided_views U.Key.bytes U.Value.bytes going.old.decided.items)
        (pair_views U.Key.bytes U.Value.bytes going.old.evicted.items) going.old.walk policy.old all
        → IfSome (L.reads.told log.old) (λ _.
        IfOk result (λ goes. MatchBool goes (AreDead list going.new.walk.floor (at + 1)
        × IsGoing P.rules base list
        (decided_views U.Key.bytes U.Value.bytes going.new.decided.items)
        (pair_views U.Key.bytes U.Value.bytes going.new.evicted.items) going.new.walk policy.new
        all) (AreDecided base list (decided_views U.Key.bytes U.Value.bytes going.new.decided.items)
        (pair_views U.Key.bytes U.Value.bytes going.new.evicted.items) going.new.walk.floor
        policy.new all))) }
    ensures low { IfOk result (λ _. going.old.walk.floor ≤ going.new.walk.floor) }
    ensures high { IfOk result (λ _. going.new.walk.floor ≤ at + 1) }
    ensures end { IfOk result (λ _. going.new.walk.end ≡ going.old.walk.end) }
    ensures reads { ReadsItems L.reads log.old log.new result (L.reads.start log.old ≤ at) }
{
    prove!(at < going.walk.end.get());
    if !comes_to(&mut going.walk, at) {
        return Ok(false);
    }
    match live_at(alloc, path, log, at)? {
        Some(found) => decide(alloc, policy, going, found),
        None => Ok(true),
    }
}

// Visits a round of candidates, and gives where the next one begins, if the walk goes on.
fn visit_all<
    F,
    I: qm_index::Unordered<Value = Location<F>>,
    L: Items,
    U: Update,
    P: Policy<F, U::Key, U::Value>,
>(
    alloc: Global,
    path: &Path<'_, '_, F, I, U>,
    log: &mut L,
    policy: &mut P,
    going: &mut Going<F, U::Key, U::Value>,
    round: &[Location<F>],
    next: Location<F>,
) -> Result<Option<Location<F>>, Error>
    requires { IsSpaced going.old.walk.floor round.now going.old.walk.end }
    ensures value { (lent base list : List model.Operation) (all : walks.Walked P)
        → IsLent L.reads U.form I.index_key (I.entries path.now.index.now) log.old lent
        → IsPath (path_view U.view U.Key.bytes U.Value.bytes path.now) lent base list
        → AreDeadBetween list going.old.walk.floor round.now next
        → IsGoing P.rules base list
        (decided_views U.Key.bytes U.Value.bytes going.old.decided.items)
        (pair_views U.Key.bytes U.Value.bytes going.old.evicted.items) going.old.walk policy.old all
        → IfSome (L.reads.told log.old) (λ _. IfOk result (λ next. MatchOption next
        (AreDecided base list (decided_views U.Key.bytes U.Value.bytes going.new.decided.items)
        (pair_views U.Key.bytes U.Value.bytes going.new.evicted.items) going.new.walk.floor
        policy.new all) (λ next. AreDead list going.new.walk.floor next
        × IsGoing P.rules base list
        (decided_views U.Key.bytes U.Value.bytes going.new.decided.items)
        (pair_views U.Key.bytes U.Value.bytes going.new.evicted.items) going.new.walk policy.new
        all))) }
    ensures next { IfOk result (λ found. IfSome found (λ n. n ≡ next)) }
    ensures low { IfOk result (λ _. going.old.walk.floor ≤ going.new.walk.floor) }
    ensures high { IfOk result (λ _.
        (to : ℕ) → IsSpaced going.old.walk.floor round.now to → going.new.walk.floor ≤ to) }
    ensures end { IfOk result (λ _. going.new.walk.end ≡ going.old.walk.end) }
    ensures reads { ReadsItems L.reads log.old log.new result
        (L.reads.start log.old ≤ going.old.walk.floor) }
{
    for at in round {
        let goes = visit(alloc, path, log, policy, going, at.get())?;
        if !goes {
            return Ok(None);
        }
    }
    Ok(Some(next))
}

// How many candidates a round has if so many live updates may still be decided: one at least.
fn round_of(entries: u64) -> usize
    ensures { 0 < result }
{
    entries.clamp(1, ROUND) as usize
}

// Visits a round of candidates, those from a location on, and tells where the next one begins, if the walk goes on.
fn walk_round<
    F,
    I: qm_index::Unordered<Value = Location<F>>,
    B: Candidates<F>,
    L: Items,
    U: Update,
    P: Policy<F, U::Key, U::Value>,
>(
    alloc: Global,
    activity: &B,
    path: &Path<'_, '_, F, I, U>,
    log: &mut L,
    policy: &mut P,
    going: &mut Going<F, U::Key, U::Value>,
    from: Location<F>,
) -> Result<Option<Location<F>>, Error>
    requires low { going.old.walk.floor ≤ from }
    requires high { from < going.old.walk.end }
    ensures value { (lent base list : List model.Operation) (all : walks.Walked P)
        → IsLent L.reads U.form I.index_key (I.entries path.now.index.now) log.old lent
        → B.activity activity.now ≡ bits lent
        → IsPath (path_view U.view U.Key.bytes U.Value.bytes path.now) lent base list
        → AreDead list going.old.walk.floor from
        → IsGoing P.rules base list
        (decided_views U.Key.bytes U.Value.bytes going.old.decided.items)
        (pair_views U.Key.bytes U.Value.bytes going.old.evicted.items) going.old.walk policy.old all
        → IfSome (L.reads.told log.old) (λ _. IfOk result (λ next. MatchOption next
        (AreDecided base list (decided_views U.Key.bytes U.Value.bytes going.new.decided.items)
        (pair_views U.Key.bytes U.Value.bytes going.new.evicted.items) going.new.walk.floor
        policy.new all) (λ next. AreDead list going.new.walk.floor next
        × IsGoing P.rules base list
        (decided_views U.Key.bytes U.Value.bytes going.new.decided.items)
        (pair_views U.Key.bytes U.Value.bytes going.new.evicted.items) going.new.walk policy.new
        all))) }
    ensures low { IfOk result (λ _. going.old.walk.floor ≤ going.new.walk.floor) }
    ensures next { IfOk result (λ next. IfSome next (λ next.
        (from < next) × (going.new.walk.floor ≤ next) × (next ≤ going.new.walk.end))) }
    ensures end { IfOk result (λ _. going.new.walk.end ≡ going.old.walk.end) }
    ensures reads { ReadsItems L.reads log.old log.new result
        (L.reads.start log.old ≤ going.old.walk.floor) }
{
    let end = Location::new(going.walk.end.get());
    let mut round = Vec::new(alloc);
    let next = activity.fill(from, end, round_of(going.walk.entries), &mut round)?;
    visit_all(alloc, path, log, policy, going, &round, next)
}

// Passes what is left where no live update is, if the walk may still decide one.
fn finish<F>(walk: &mut Walk<F>)
    requires { walk.old.floor ≤ walk.old.end }
    ensures none { walk.old.entries ≡ 0 → walk.new.floor ≡ walk.old.floor }
    ensures some { 0 < walk.old.entries
        → walk.new.floor ≡ min walk.old.end (walk.old.floor + walk.old.skips) }
{
    if walk.entries == 0 {
        return;
    }
    walk.exhaust();
}

// Walks to the end of the course, or to where the walk ends before.
fn walk_on<
    F,
    I: qm_index::Unordered<Value = Location<F>>,
    B: Candidates<F>,
    L: Items,
    U: Update,
    P: Policy<F, U::Key, U::Value>,
>(
    alloc: Global,
    activity: &B,
    path: &Path<'_, '_, F, I, U>,
    log: &mut L,
    policy: &mut P,
    going: &mut Going<F, U::Key, U::Value>,
) -> Result<(), Error>
    requires { going.old.walk.floor ≤ going.old.walk.end }
    ensures value { (lent base list : List model.Operation) (all : walks.Walked P)
        → IsLent L.reads U.form I.index_key (I.entries path.now.index.now) log.old lent
        → B.activity activity.now ≡ bits lent
        → IsPath (path_view U.view U.Key.bytes U.Value.bytes path.now) lent base list
        → IsGoing P.rules base list
        (decided_views U.Key.bytes U.Value.bytes going.old.decided.items)
        (pair_views U.Key.bytes U.Value.bytes going.old.evicted.items) going.old.walk policy.old all
        → IfSome (L.reads.told log.old) (λ _. OnOk result (AreDecided base list
        (decided_views U.Key.bytes U.Value.bytes going.new.decided.items)
        (pair_views U.Key.bytes U.Value.bytes going.new.evicted.items) going.new.walk.floor
        policy.new all)) }
    ensures reads { ReadsItems L.reads log.old log.new result
        (L.reads.start log.old ≤ going.old.walk.floor) }
{
    let end = going.walk.end.get();
    let floor = going.walk.floor.get();
    let mut from = floor;
    while from < end {
        let next = walk_round(
            alloc,
            activity,
            path,
            log,
            policy,
            going,
            Location::new(from),
        )?;
        let Some(next) = next else {
            return Ok(());
        };
        from = next.get();
    }
    finish(&mut going.walk);
    Ok(())
}

/// Walks from the floor on, to the end of the operations after the base list at most, as the policy decides, within these limits.
pub(crate) fn walk_from<
    F,
    I: qm_index::Unordered<Value = Location<F>>,
    B: Candidates<F>,
    L: Items,
    U: Update,
    P: Policy<F, U::Key, U::Value>,
>(
    alloc: Global,
    index: &I,
    activity: &B,
    log: &mut L,
    base: &Base<'_, F, U>,
    made: &[Touch<F, U>],
    policy: &mut P,
    limits: Limits,
) -> Result<Walked<U::Key, U::Value>, Error>
    requires { base.now.size ≤ 2 ^ 62 }
    ensures value { (lent front list : List model.Operation)
        → IsLent L.reads U.form I.index_key (I.entries index.now) log.old lent
        → B.activity activity.now ≡ bits lent
        → AreBehind (base_view base.now) (touch_views U.view U.Key.bytes U.Value.bytes made.now)
        lent front list
        → IfSome (L.reads.told log.old) (λ _. IfOk result (λ walked.
        AreDecided front list (decided_views U.Key.bytes U.Value.bytes walked.decided.items)
        (pair_views U.Key.bytes U.Value.bytes walked.evicted.items) walked.floor policy.new
        (walks.walk P.rules list (floor front)
        (record { entries = limits.entries; skips = limits.skips }) policy.old))) }
    ensures reads { ReadsItems L.reads log.old log.new result
        (L.reads.start log.old ≤ base.now.floor) }
{
    let replaced = replaced_by(alloc, made)?;
    let path = Path {
        index,
        base,
        made,
        replaced,
    };
    let floor = base.floor.get();
    let tip = floor.max(base.size + made.len() as u64);
    let walk = Walk::new(
        Location::new(floor),
        Location::new(tip),
        limits.entries,
        limits.skips,
    );
    let mut going = Going {
        walk,
        decided: Vec::new(alloc),
        evicted: Vec::new(alloc),
    };
    walk_on(alloc, activity, &path, log, policy, &mut going)?;
    Ok(Walked {
        decided: going.decided,
        evicted: going.evicted,
        floor: going.walk.floor.get(),
    })
}
