//! Keys of updates that were read, by location.

ghost use Rattle.std.specs.Prelude.{◌≡◌, ◌≢◌, ◌⊎◌, ◌+◌, ◌*◌, ◌<◌, ◌≤◌, ℕ, None, Some, length, slice_index_or, IfSome, IfNone, true, false, IfOk, option_map};
ghost use Rattle.std.specs.NonZero.{non_zero_usize_get};
ghost use Rattle.qm_build.specs.Cached.{IsFirst, set_of, AreSlots, empty_cache, given, put, removed};

use std::alloc::{AllocError, Global};
use std::marker::Model;
use std::num::NonZeroUsize;

/// How many slots a set has at most.
const WAYS: usize = 16;

/// Some of the keys that were put in, by location. A key is kept in one of the slots of its location's set; if all are taken by
/// other locations, the key of the smallest of these leaves.
#[derive(Drop)]
pub struct Cache<K> {
    ways: usize,
    sets: usize,
    slots: Vec<Option<(u64, K)>>,
}

impl<K> Model for Cache<K> {
    ghost use Rattle.qm_build.specs.Cached.{Cached, AreSlots, kept_in};

    ghost Value = { Cached K };

    ghost view = { λ c. record { ways = c.ways; sets = c.sets; kept = kept_in c.slots.items } };

    ghost invariant = { λ c. AreSlots c.ways c.sets c.slots.items };
}

impl<K: Drop> Cache<K> {
    /// A cache of so many keys at most, without one: it has a whole number of sets. Want of memory is the only error, and no
    /// later call wants any.
    pub fn new(alloc: Global, capacity: NonZeroUsize) -> Result<Self, AllocError>
        ensures { IfOk result (λ c. c ≡ empty_cache (non_zero_usize_get capacity)) }
    {
        let ways = WAYS.min(capacity.get());
        let sets = capacity.get() / ways;
        let slots = empty(alloc, sets * ways)?;
        Ok(Cache { ways, sets, slots })
    }

    /// The key for a location, if it is still there.
    pub fn get(&self, location: u64) -> Option<&K>
        ensures { option_map (λ key. key.now) result ≡ given self.now location }
    {
        let first = set_of(self.sets, location) * self.ways;
        key_in(&self.slots, first, first + self.ways, location)
    }

    /// Puts in the key for a location.
    pub fn put(&mut self, location: u64, key: K)
        ensures { self.new ≡ put self.old location key }
    {
        let first = set_of(self.sets, location) * self.ways;
        let end = first + self.ways;
        clear_in(&mut self.slots, first, end, location);
        let room = room_in(&self.slots, first, end);
        self.slots[room] = Some((location, key));
    }

    /// Takes out the key for a location.
    pub fn remove(&mut self, location: u64)
        ensures { self.new ≡ removed self.old location }
    {
        let first = set_of(self.sets, location) * self.ways;
        let end = first + self.ways;
        clear_in(&mut self.slots, first, end, location);
    }
}

// The set of a location, of so many.
#[tactic(auto, unfolding(crate::specs::Cached::set_of))]
fn set_of(sets: usize, location: u64) -> usize
    requires { 0 < sets }
    ensures value { result ≡ set_of sets location }
    ensures below { result < sets }
{
    let hash = location.wrapping_mul(0x9E37_79B9_7F4A_7C15);
    ((hash as u128 * sets as u128) >> 64) as usize
}

// So many empty slots.
fn empty<K: Drop>(alloc: Global, count: usize) -> Result<Vec<Option<(u64, K)>>, AllocError>
    ensures long { IfOk result (λ slots. length slots.items ≡ count) }
    ensures none { IfOk result (λ slots. (i : ℕ) → slice_index_or slots.items i None ≡ None) }
{
    let mut slots = Vec::with_capacity(alloc, count)?;
    for _ in 0..count {
        slots.push(None)?;
    }
    Ok(slots)
}

// The location of a slot's key.
fn location_of<K>(slot: &Option<(u64, K)>) -> Option<u64>
    ensures { result ≡ option_map (λ p. p.0) slot.now }
{
    match slot {
        Some((location, _)) => Some(*location),
        None => None,
    }
}

// The key for a location in these slots.
fn key_in<K>(slots: &[Option<(u64, K)>], first: usize, end: usize, location: u64) -> Option<&K>
    requires { end ≤ length slots.now }
    ensures found { IfSome result (λ key. (i : ℕ)
        × (slice_index_or slots.now i None ≡ Some (location, key.now))) }
    ensures none { IfNone result ((i : ℕ) → first ≤ i → i < end
        → IfSome (slice_index_or slots.now i None) (λ p. p.0 ≢ location)) }
{
    for at in first..end {
        match &slots[at] {
            Some((own, key)) if *own == location => return Some(key),
            _ => {}
        }
    }
    None
}

// Empties those of these slots that are for a location.
fn clear_in<K: Drop>(slots: &mut Vec<Option<(u64, K)>>, first: usize, end: usize, location: u64)
    requires order { first ≤ end }
    requires within { end ≤ length slots.old.items }
    ensures long { length slots.new.items ≡ length slots.old.items }
    ensures kept { (i : ℕ)
        → (slice_index_or slots.new.items i None ≡ None)
        ⊎ (slice_index_or slots.new.items i None ≡ slice_index_or slots.old.items i None) }
    ensures others { (i : ℕ) → IfSome (slice_index_or slots.old.items i None) (λ p. p.0 ≢ location)
        → slice_index_or slots.new.items i None ≡ slice_index_or slots.old.items i None }
    ensures clear { (i : ℕ) → first ≤ i → i < end
        → IfSome (slice_index_or slots.new.items i None) (λ p. p.0 ≢ location) }
{
    for at in first..end {
        if location_of(&slots[at]) == Some(location) {
            slots[at] = None;
        }
    }
}

// Whether a slot is empty and another is not, or its location is below that of the other.
fn is_first<K>(slot: &Option<(u64, K)>, other: &Option<(u64, K)>) -> bool
    ensures yes { result ≡ true → IsFirst slot.now other.now }
    ensures no { result ≡ false → IsFirst other.now slot.now }
{
    location_of(slot) < location_of(other)
}

// The first empty one of these slots, or else the one with the smallest location.
fn room_in<K>(slots: &[Option<(u64, K)>], first: usize, end: usize) -> usize
    requires some { first < end }
    requires within { end ≤ length slots.now }
    ensures from { first ≤ result }
    ensures below { result < end }
    ensures least { (i : ℕ) → first ≤ i → i < end
        → IsFirst (slice_index_or slots.now result None) (slice_index_or slots.now i None) }
{
    let mut room = first;
    for at in first..end {
        if is_first(&slots[at], &slots[room]) {
            room = at;
        }
    }
    room
}
