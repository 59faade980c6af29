//! Indices whose buckets are in order, and what finds a bucket's neighbours.

ghost use Rattle.std.specs.Prelude.{◌≡◌, ◌↔◌, [], None, option_map, refl};
ghost use Rattle.std.specs.Map.{keys_of};
ghost use Rattle.qm_index.specs.Buckets.{bucket_at, IsIndex};
ghost use Rattle.qm_index.specs.Neighbours.{least_key, next_key, prev_key, neighbour_at};
ghost use Rattle.qm_index.specs.Translated.{IsMonotone};

use crate::bucket::Bucket;
use crate::translator::{OrderedTranslator, Translator};
use crate::unordered::{Factory, Unordered, show};
use crate::value::IndexValue;
use std::alloc::{AllocError, Global};
use std::collections::BTreeMap;
use std::marker::Model;
use std::ops::Bound;

/// An index that finds the buckets beside a key's. They go round: after the greatest index key comes the least. Each call takes one descent of the map, a second one if it wraps, and no memory.
pub trait Ordered: Unordered {
    /// The bucket of the greatest index key below the key's, or else, flagged as wrapped, of the greatest of all; none only if the index is empty.
    fn prev_bucket(&self, key: &[u8]) -> Option<(&[Self::Value], bool)>
        ensures value { option_map (λ b. (b.0.now, b.1)) result
            ≡ neighbour_at (Self.entries self.now)
            (prev_key (keys_of (Self.entries self.now)) (Self.index_key key.now)) }
        ensures none { (result ≡ None) ↔ (Self.entries self.now ≡ []) }
        ensures index { IsIndex (Self.entries self.now) };

    /// The bucket of the least index key above the key's, or else, flagged as wrapped, of the least of all; none only if the index is empty.
    fn next_bucket(&self, key: &[u8]) -> Option<(&[Self::Value], bool)>
        ensures value { option_map (λ b. (b.0.now, b.1)) result
            ≡ neighbour_at (Self.entries self.now)
            (next_key (keys_of (Self.entries self.now)) (Self.index_key key.now)) }
        ensures none { (result ≡ None) ↔ (Self.entries self.now ≡ []) }
        ensures index { IsIndex (Self.entries self.now) };

    /// The bucket of the least index key; none only if the index is empty.
    fn first_bucket(&self) -> Option<&[Self::Value]>
        ensures value { option_map (λ b. b.now) result
            ≡ option_map (bucket_at (Self.entries self.now))
            (least_key (keys_of (Self.entries self.now))) }
        ensures none { (result ≡ None) ↔ (Self.entries self.now ≡ []) }
        ensures index { IsIndex (Self.entries self.now) };

    /// A key that comes before another has no greater index key.
    ghost monotone: { IsMonotone Self.index_key };
}

/// An index in the order of index keys. It keeps an index key and the values for each bucket, and no key.
#[derive(Drop)]
pub struct Index<T, V> {
    alloc: Global,
    translator: T,
    buckets: BTreeMap<u64, Bucket<V>>,
}

impl<T, V> Model for Index<T, V> {
    ghost use Rattle.std.specs.Prelude.{ℕ, List};
    ghost use Rattle.qm_index.specs.Buckets.{IsIndex};

    ghost Value = { List (ℕ × List V) };

    ghost view = { λ i. i.buckets.entries };

    ghost invariant = { λ i. IsIndex i.buckets.entries };
}

impl<T: OrderedTranslator, V: IndexValue> Factory for Index<T, V> {
    type Translator = T;

    ghost made_from = { λ index_key. index_key };

    ghost translated = { refl };

    fn new(alloc: Global, translator: T) -> Self {
        Index {
            alloc,
            translator,
            buckets: BTreeMap::new(alloc),
        }
    }
}

impl<T: OrderedTranslator, V: IndexValue> Unordered for Index<T, V> {
    type Value = V;

    ghost index_key = { T.index_key };

    ghost entries = { λ i. i };

    fn bucket(&self, key: &[u8]) -> &[V] {
        match self.buckets.get(&self.translator.index_key(key)) {
            Some(bucket) => bucket.values(),
            None => &[],
        }
    }

    fn insert(&mut self, key: &[u8], value: V) -> Result<(), AllocError> {
        let index_key = self.translator.index_key(key);
        match self.buckets.get_mut(&index_key) {
            Some(bucket) => bucket.push(self.alloc, value),
            None => {
                self.buckets.insert(index_key, Bucket::of(value))?;
                Ok(())
            }
        }
    }

    fn update_at(&mut self, key: &[u8], i: usize, value: V) {
        let index_key = self.translator.index_key(key);
        if let Some(bucket) = self.buckets.get_mut(&index_key) {
            bucket.set(i, value);
        }
    }

    fn remove_at(&mut self, key: &[u8], i: usize) {
        let index_key = self.translator.index_key(key);
        match self.buckets.get_mut(&index_key) {
            Some(bucket) if 1 < bucket.values().len() => bucket.remove(i),
            Some(_) => drop(self.buckets.remove(&index_key)),
            None => {}
        }
    }

    fn for_each_value<F: FnMut(&V)>(&self, mut visit: F) {
        for bucket in self.buckets.values() {
            visit = show(bucket.values(), visit);
        }
    }
}

impl<T: OrderedTranslator, V: IndexValue> Ordered for Index<T, V> {
    ghost monotone = { T.monotone };

    fn prev_bucket(&self, key: &[u8]) -> Option<(&[V], bool)> {
        let index_key = self.translator.index_key(key);
        match self.buckets.range(..index_key).next_back() {
            Some((_, bucket)) => Some((bucket.values(), false)),
            None => match self.buckets.last_key_value() {
                Some((_, bucket)) => Some((bucket.values(), true)),
                None => None,
            },
        }
    }

    fn next_bucket(&self, key: &[u8]) -> Option<(&[V], bool)> {
        let index_key = self.translator.index_key(key);
        let above = (Bound::Excluded(index_key), Bound::Unbounded);
        match self.buckets.range(above).next() {
            Some((_, bucket)) => Some((bucket.values(), false)),
            None => match self.first_bucket() {
                Some(values) => Some((values, true)),
                None => None,
            },
        }
    }

    fn first_bucket(&self) -> Option<&[V]> {
        match self.buckets.first_key_value() {
            Some((_, bucket)) => Some(bucket.values()),
            None => None,
        }
    }
}
