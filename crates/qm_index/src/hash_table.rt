//! Buckets by index key, by hash.

use crate::bucket::Bucket;
use crate::table::Table;
use crate::unordered::show;
use crate::value::IndexValue;
use std::alloc::{AllocError, Global};
use std::collections::HashMap;
use std::marker::Model;

// Buckets by index key, by hash.
#[derive(Drop)]
pub struct HashTable<V> {
    alloc: Global,
    buckets: HashMap<u64, Bucket<V>>,
}

impl<V> Model for HashTable<V> {
    ghost use Rattle.std.specs.Prelude.{ℕ, List};
    ghost use Rattle.qm_index.specs.Buckets.{IsIndex};

    ghost Value = { List (ℕ × List V) };

    ghost view = { λ t. t.buckets.entries };

    ghost invariant = { λ t. IsIndex t.buckets.entries };
}

impl<V: IndexValue> Table for HashTable<V> {
    type Value = V;

    ghost entries = { λ t. t };

    fn new(alloc: Global) -> Self {
        HashTable {
            alloc,
            buckets: HashMap::new(alloc),
        }
    }

    fn bucket(&self, index_key: u64) -> &[V] {
        match self.buckets.get(&index_key) {
            Some(bucket) => bucket.values(),
            None => &[],
        }
    }

    #[tactic(auto, using(std::proofs::lemmas::Map::Steps::set_value_same))]
    fn insert(&mut self, index_key: u64, value: V) -> Result<(), AllocError> {
        match self.buckets.get_mut(&index_key) {
            Some(bucket) => bucket.push(self.alloc, value),
            None => {
                self.buckets.insert(index_key, Bucket::of(value))?;
                Ok(())
            }
        }
    }

    fn update_at(&mut self, index_key: u64, i: usize, value: V) {
        if let Some(bucket) = self.buckets.get_mut(&index_key) {
            bucket.set(i, value);
        }
    }

    fn remove_at(&mut self, index_key: u64, i: usize) {
        match self.buckets.get_mut(&index_key) {
            Some(bucket) if 1 < bucket.values().len() => bucket.remove(i),
            Some(_) => drop(self.buckets.remove(&index_key)),
            None => {}
        }
    }

    fn show_all<F: FnMut(&V)>(&self, mut visit: F) -> F {
        for bucket in self.buckets.values() {
            visit = show(bucket.values(), visit);
        }
        visit
    }
}
