//! Keys of updates that a worker knows, by location.

ghost use Rattle.std.specs.Prelude.{◌≡◌, ◌⊎◌, ℕ, Some, None, option_map, IfOk, OnOk};
ghost use Rattle.qm_model.specs.Operations.{Bytes};
ghost use Rattle.qm_workers.specs.Known.{given_by, knowledge, told, is_key, KnowsNoMore, Learns};

use qm_base::ByteString;
use qm_build::Cache;
use std::alloc::{AllocError, Global};
use std::collections::BTreeMap;
use std::num::NonZeroUsize;

/// The keys of updates: of the last ones, in a cache, and of those that were told or made in this round.
#[derive(Drop)]
pub struct Keys<K> {
    cache: Option<Cache<K>>,
    hints: BTreeMap<u64, Option<K>>,
}

impl<K: ByteString> Keys<K> {
    /// No keys yet, with a cache of so many at most, and none where that is 0. Want of memory is the only error.
    pub fn new(alloc: Global, capacity: usize) -> Result<Self, AllocError>
        ensures { IfOk result (λ keys. (at : ℕ) → told (knowledge K.bytes keys) at ≡ None) }
    {
        let cache = cache_of(alloc, capacity)?;
        Ok(Keys {
            cache,
            hints: BTreeMap::new(alloc),
        })
    }

    /// Whether the update at a location is of the key, if that is known.
    pub fn is_of(&self, location: u64, key: &[u8]) -> Option<bool>
        ensures { result
            ≡ option_map (is_key key.now) (told (knowledge K.bytes self.now) location) }
    {
        match self.hints.get(&location) {
            Some(own) => Some(is_key(own, key)),
            None => self.is_cached(location, key),
        }
    }

    // Whether the update at a location is of the key, if its key is in the cache.
    fn is_cached(&self, location: u64, key: &[u8]) -> Option<bool>
        ensures { result ≡ option_map (λ own. is_key key.now (Some own))
            ((knowledge K.bytes self.now).cached location) }
    {
        match &self.cache {
            Some(cache) => match cache.get(location) {
                Some(own) => Some(own.as_bytes() == key),
                None => None,
            },
            None => None,
        }
    }

    /// Learns the key of the update at a location, or that no update stands there, to the end of the round.
    pub fn learn(&mut self, location: u64, key: Option<K>) -> Result<(), AllocError>
        ensures { OnOk result (Learns location (option_map K.bytes key)
            (knowledge K.bytes self.old) (knowledge K.bytes self.new)) }
    {
        self.hints.insert(location, key)?;
        Ok(())
    }

    /// Forgets the key of a location.
    pub fn forget(&mut self, location: u64)
        ensures { KnowsNoMore (knowledge K.bytes self.old) (knowledge K.bytes self.new) }
    {
        self.hints.remove(&location);
        if let Some(cache) = &mut self.cache {
            cache.remove(location);
        }
    }

    /// Ends a round: what the cache has room for stays.
    pub fn end_round(&mut self)
        ensures { KnowsNoMore (knowledge K.bytes self.old) (knowledge K.bytes self.new) }
    {
        while let Some((location, key)) = self.hints.pop_first() {
            self.keep(location, key);
        }
    }

    // Keeps a key in the cache, if there is one.
    fn keep(&mut self, location: u64, key: Option<K>)
        ensures hints { self.new.hints ≡ self.old.hints }
        ensures cache { (at : ℕ) (own : Bytes) → (knowledge K.bytes self.new).cached at ≡ Some own
            → ((knowledge K.bytes self.old).cached at ≡ Some own)
            ⊎ ((at ≡ location) × (option_map K.bytes key ≡ Some own)) }
    {
        if let Some(key) = key {
            if let Some(cache) = &mut self.cache {
                cache.put(location, key);
            }
        }
    }
}

// A cache of so many keys at most.
fn cache_of<K: Drop>(alloc: Global, capacity: usize) -> Result<Option<Cache<K>>, AllocError>
    ensures { IfOk result (λ cache. (at : ℕ) → given_by cache at ≡ None) }
{
    match NonZeroUsize::new(capacity) {
        Some(capacity) => Ok(Some(Cache::new(alloc, capacity)?)),
        None => Ok(None),
    }
}

// Whether it is the key.
fn is_key<K: ByteString>(own: &Option<K>, key: &[u8]) -> bool
    ensures { result ≡ is_key key.now (option_map K.bytes own.now) }
{
    match own {
        Some(own) => own.as_bytes() == key,
        None => false,
    }
}
