//! A worker: it does the operations of its keys, one after the other, and stops where it has to ask.

ghost use Rattle.std.specs.Prelude.{◌≡◌, ◌≢◌, ◌⊎◌, ◌+◌, ◌-◌, ◌*◌, ◌<◌, ◌^◌, ℕ, suc, Some, None, true, false, List, ◌∷◌, [], length, map, option_map, slice_get, IfSome, IfOk, OnOk};
ghost use Rattle.std.specs.Bool.{then_some};
ghost use Rattle.qm_model.specs.Operations as model;
ghost use Rattle.qm_index.specs.Buckets.{bucket_at};
ghost use Rattle.qm_index.specs.Places.{Places};
ghost use Rattle.qm_build.specs.Building.{key_at, IsFound, counted_after};
ghost use Rattle.qm_workers.specs.Known.{knowledge, IsTrueOf, KnowsNoMore};
ghost use Rattle.qm_workers.specs.Working.{move_of, work_of, front_sought, asked, Goes, Stays, Does, IsFront, sought, left_of, IsNew, IsTold, IsReplaced, with_last};

use crate::keys::Keys;
use crate::look::{Sought, seek};
use qm_base::{ByteString, Gate, Key, Location};
use qm_build::{Found, move_key};
use qm_crew::Turning;
use qm_index::Unordered;
use std::alloc::{AllocError, Global};
use std::collections::{BTreeSet, VecDeque};

/// An operation that a worker has to do: where it stands, its key, and whether it is an update.
#[derive(Drop)]
pub struct Task<K> {
    pub at: u64,
    pub key: K,
    pub is_update: bool,
}

/// A worker, with an index of its own keys.
#[derive(Drop)]
pub struct Worker<I, K> {
    index: I,
    located: BTreeSet<u64>,
    keys: Keys<K>,
    coming: VecDeque<Task<K>>,
    live: u64,
    failed: bool,
    begun: bool,
    step: u64,
}

impl<F, I: Unordered<Value = Location<F>> + Drop, K: ByteString> Worker<I, K> {
    /// A worker with an index of its own keys, which has no bucket yet, and a cache of so many keys at most. Want of memory is the only error.
    pub fn new(alloc: Global, index: I, kept_keys: usize) -> Result<Self, AllocError>
        requires { I.entries index ≡ [] }
        ensures { IfOk result (λ w. IsNew (work_of I.entries K.bytes w)) }
    {
        let keys = Keys::new(alloc, kept_keys)?;
        Ok(Worker {
            index,
            located: BTreeSet::new(alloc),
            keys,
            coming: VecDeque::new(alloc),
            live: 0,
            failed: false,
            begun: false,
            step: 0,
        })
    }

    // Begins an operation, if the last one is done: its number.
    fn begin(&mut self) -> Option<u64>
        ensures same { work_of I.entries K.bytes self.new ≡ work_of I.entries K.bytes self.old }
    {
        if self.begun {
            return None;
        }
        let step = self.step;
        self.begun = true;
        self.step = step.saturating_add(1);
        Some(step)
    }

    // What comes of looking for the key of the first operation.
    fn front_sought(&self) -> Sought
        ensures value { let w = work_of I.entries K.bytes self.now in
            result ≡ front_sought I.index_key w.entries w.known w.coming }
        ensures few { let w = work_of I.entries K.bytes self.now in
            left_of I.index_key w < suc (length w.coming) * 2 ^ 64 }
    {
        match self.coming.front() {
            Some(task) => seek(&self.index, &self.keys, task.key.as_bytes()),
            None => Sought::Nowhere,
        }
    }

    /// The location that it asks about, if it has to ask.
    pub fn asked(&self) -> Option<u64>
        ensures { result ≡ asked I.index_key (work_of I.entries K.bytes self.now) }
    {
        match self.front_sought() {
            Sought::Here(_) => None,
            Sought::Nowhere => None,
            Sought::Unknown(location) => Some(location),
        }
    }

    // Does the first operation, if it can tell where its key stands. Whether it did.
    fn work(&mut self) -> bool
        ensures goes { Goes I.index_key (work_of I.entries K.bytes self.old)
            (work_of I.entries K.bytes self.new) }
        ensures did { result ≡ true → suc (length (work_of I.entries K.bytes self.new).coming)
            ≡ length (work_of I.entries K.bytes self.old).coming }
        ensures not { result ≡ false → ((work_of I.entries K.bytes self.new).coming ≡ [])
            ⊎ Stays I.index_key (work_of I.entries K.bytes self.old)
            (work_of I.entries K.bytes self.new) }
    {
        match self.front_sought() {
            Sought::Here(found) => self.finish(Some(found)),
            Sought::Nowhere => self.finish(None),
            Sought::Unknown(_) => false,
        }
    }

    // Does the first operation, the key of which was looked for. Whether it did.
    fn finish(&mut self, found: Option<Found>) -> bool
        requires { let w = work_of I.entries K.bytes self.old in
            IsFront (front_sought I.index_key w.entries w.known w.coming) found }
        ensures goes { Goes I.index_key (work_of I.entries K.bytes self.old)
            (work_of I.entries K.bytes self.new) }
        ensures did { result ≡ true → suc (length (work_of I.entries K.bytes self.new).coming)
            ≡ length (work_of I.entries K.bytes self.old).coming }
        ensures not { result ≡ false → (work_of I.entries K.bytes self.new).coming ≡ [] }
    {
        match self.coming.pop_front() {
            Some(task) => self.settle(task, found),
            None => false,
        }
    }

    // Does an operation that was the first one; if memory is wanted it fails, and does nothing any more. Whether it did.
    fn settle(&mut self, task: Task<K>, found: Option<Found>) -> bool
        requires { let w = work_of I.entries K.bytes self.old in IsFront (sought w.known
            (K.bytes task.key) 0 (bucket_at w.entries (I.index_key (K.bytes task.key)))) found }
        ensures did { result ≡ true → Does I.index_key (move_of K.bytes task)
            (work_of I.entries K.bytes self.old) (work_of I.entries K.bytes self.new) }
        ensures failed { result ≡ false → (self.new.failed ≡ true)
            × ((work_of I.entries K.bytes self.new).coming ≡ []) }
    {
        match self.move_to(task, found) {
            Ok(()) => true,
            Err(_) => {
                self.failed = true;
                self.coming.clear();
                false
            }
        }
    }

    // Does an operation that was the first one.
    fn move_to(&mut self, task: Task<K>, found: Option<Found>) -> Result<(), AllocError>
        requires { let w = work_of I.entries K.bytes self.old in IsFront (sought w.known
            (K.bytes task.key) 0 (bucket_at w.entries (I.index_key (K.bytes task.key)))) found }
        ensures { OnOk result (Does I.index_key (move_of K.bytes task)
            (work_of I.entries K.bytes self.old) (work_of I.entries K.bytes self.new)) }
    {
        let Task { at, key, is_update } = task;
        let now = is_update.then_some(Location::new(at));
        move_key(&mut self.index, key.as_bytes(), found, now)?;
        replace(&mut self.located, at, found, is_update)?;
        self.live = counted(self.live, found, is_update);
        let is_last = self.coming.is_empty();
        remember(&mut self.keys, at, key, found, is_update, is_last)?;
        self.begun = false;
        Ok(())
    }

    /// Tells it the key of the update at a location, or that no update stands there. Want of memory is the only error.
    pub fn tell(&mut self, location: u64, key: Option<K>) -> Result<(), AllocError>
        ensures { OnOk result (IsTold location (option_map K.bytes key)
            (work_of I.entries K.bytes self.old) (work_of I.entries K.bytes self.new)) }
    {
        self.keys.learn(location, key)
    }

    /// Gives it an operation to do after the others. Want of memory is the only error.
    pub fn assign(&mut self, at: u64, key: K, is_update: bool) -> Result<(), AllocError>
        ensures { OnOk result (work_of I.entries K.bytes self.new
            ≡ with_last (record { at = at; key = K.bytes key; is_update = is_update })
            (work_of I.entries K.bytes self.old)) }
    {
        self.coming.push_back(Task { at, key, is_update })?;
        Ok(())
    }

    /// Whether it lacked memory.
    pub fn is_failed(&self) -> bool
        ensures { result ≡ (work_of I.entries K.bytes self.now).failed }
    {
        self.failed
    }

    /// How many keys are live in its index.
    pub fn live(&self) -> u64
        ensures { result ≡ (work_of I.entries K.bytes self.now).live }
    {
        self.live
    }

    /// The locations that stand in its index, each less the floor. Want of memory is the only error.
    pub fn places(&self, alloc: Global, floor: u64) -> Result<Vec<u64>, AllocError>
        ensures { IfOk result (λ places. places.items
            ≡ map (λ at. at - floor) (work_of I.entries K.bytes self.now).located) }
    {
        let mut places = Vec::new(alloc);
        for location in &self.located {
            places.push(location.saturating_sub(floor))?;
        }
        Ok(places)
    }

    /// Its index.
    pub fn into_index(self) -> I
        ensures { I.entries result ≡ (work_of I.entries K.bytes self).entries }
    {
        self.index
    }
}

impl<F: Send, I: Unordered<Value = Location<F>> + Send + Drop, K: Key> Turning for Worker<I, K> {
    ghost use Rattle.qm_workers.specs.Working.{work_of, left_of, MayTurn};

    ghost left = { λ w. left_of I.index_key (work_of I.entries K.bytes w) };

    ghost may_turn = { λ old new. MayTurn I.index_key (work_of I.entries K.bytes old)
        (work_of I.entries K.bytes new) };

    fn turn<G: Gate>(&mut self, gate: &G, number: usize) {
        for _ in 0..self.coming.len() {
            if let Some(step) = self.begin() {
                gate.take(number, step);
            }
            if !self.work() {
                return;
            }
        }
    }
}

// How many keys are live after an operation, an update or not, that takes the place of the update that was found.
fn counted(live: u64, found: Option<Found>, is_update: bool) -> u64
    ensures { live + 1 < 2 ^ 64
        → result ≡ counted_after live (option_map (λ f. f.location) found) is_update }
{
    match (found, is_update) {
        (None, true) => live.saturating_add(1),
        (Some(_), false) => live.saturating_sub(1),
        _ => live,
    }
}

// Puts the location of an update in the place of that which was found.
fn replace(
    located: &mut BTreeSet<u64>,
    at: u64,
    found: Option<Found>,
    is_update: bool,
) -> Result<(), AllocError>
    ensures { OnOk result (IsReplaced (option_map (λ f. f.location) found)
        (then_some is_update at) located.old.keys located.new.keys) }
{
    take_out(located, found);
    put_in(located, at, is_update)
}

// Takes out the location that was found.
fn take_out(located: &mut BTreeSet<u64>, found: Option<Found>)
    ensures { IsReplaced (option_map (λ f. f.location) found) None located.old.keys
        located.new.keys }
{
    if let Some(found) = found {
        located.remove(&found.location);
    }
}

// Puts in the location of an update.
fn put_in(located: &mut BTreeSet<u64>, at: u64, is_update: bool) -> Result<(), AllocError>
    ensures { OnOk result (IsReplaced None (then_some is_update at) located.old.keys
        located.new.keys) }
{
    if is_update {
        located.insert(at)?;
    }
    Ok(())
}

// Forgets the key of the update that was found, and learns that of an update; after the last operation of a round what the cache has room for stays.
fn remember<K: ByteString>(
    keys: &mut Keys<K>,
    at: u64,
    key: K,
    found: Option<Found>,
    is_update: bool,
    is_last: bool,
) -> Result<(), AllocError>
    ensures { OnOk result ((ops : List model.Operation)
        → IsTrueOf ops (knowledge K.bytes keys.old)
        → (is_update ≡ true → key_at ops at ≡ Some (K.bytes key))
        → IsTrueOf ops (knowledge K.bytes keys.new)) }
{
    forget(keys, found);
    if is_update {
        keys.learn(at, Some(key))?;
    }
    end_round(keys, is_last);
    Ok(())
}

// Forgets the key of the update that was found.
fn forget<K: ByteString>(keys: &mut Keys<K>, found: Option<Found>)
    ensures { KnowsNoMore (knowledge K.bytes keys.old) (knowledge K.bytes keys.new) }
{
    if let Some(found) = found {
        keys.forget(found.location);
    }
}

// Ends the round after its last operation.
fn end_round<K: ByteString>(keys: &mut Keys<K>, is_last: bool)
    ensures { KnowsNoMore (knowledge K.bytes keys.old) (knowledge K.bytes keys.new) }
{
    if is_last {
        keys.end_round();
    }
}
