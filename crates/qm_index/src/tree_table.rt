//! Buckets by index key, in its order.

use crate::bucket::Bucket;
use crate::table::{OrderedTable, Table};
use crate::unordered::show;
use crate::value::IndexValue;
use std::alloc::{AllocError, Global};
use std::collections::BTreeMap;
use std::marker::Model;
use std::ops::Bound;

// Buckets by index key, in its order.
#[derive(Drop)]
pub struct TreeTable<V> {
    alloc: Global,
    buckets: BTreeMap<u64, Bucket<V>>,
}

impl<V> Model for TreeTable<V> {
    ghost use Rattle.std.specs.Prelude.{ℕ, List};
    ghost use Rattle.qm_index.specs.Buckets.{IsIndex};

    ghost Value = { List (ℕ × List V) };

    ghost view = { λ t. t.buckets.entries };

    ghost invariant = { λ t. IsIndex t.buckets.entries };
}

impl<V: IndexValue> Table for TreeTable<V> {
    type Value = V;

    ghost entries = { λ t. t };

    fn new(alloc: Global) -> Self {
        TreeTable {
            alloc,
            buckets: BTreeMap::new(alloc),
        }
    }

    fn bucket(&self, index_key: u64) -> &[V] {
        match self.buckets.get(&index_key) {
            Some(bucket) => bucket.values(),
            None => &[],
        }
    }

    fn insert(&mut self, index_key: u64, value: V) -> Result<(), AllocError> {
        match self.buckets.get_mut(&index_key) {
            Some(bucket) => bucket.push(self.alloc, value),
            None => {
                self.buckets.insert(index_key, Bucket::of(value))?;
                Ok(())
            }
        }
    }

    fn update_at(&mut self, index_key: u64, i: usize, value: V) {
        if let Some(bucket) = self.buckets.get_mut(&index_key) {
            bucket.set(i, value);
        }
    }

    fn remove_at(&mut self, index_key: u64, i: usize) {
        match self.buckets.get_mut(&index_key) {
            Some(bucket) if 1 < bucket.values().len() => bucket.remove(i),
            Some(_) => drop(self.buckets.remove(&index_key)),
            None => {}
        }
    }

    fn show_all<F: FnMut(&V)>(&self, mut visit: F) -> F {
        for bucket in self.buckets.values() {
            visit = show(bucket.values(), visit);
        }
        visit
    }
}

impl<V: IndexValue> OrderedTable for TreeTable<V> {
    fn first(&self) -> Option<&[V]> {
        match self.buckets.first_key_value() {
            Some((_, bucket)) => Some(bucket.values()),
            None => None,
        }
    }

    fn last(&self) -> Option<&[V]> {
        match self.buckets.last_key_value() {
            Some((_, bucket)) => Some(bucket.values()),
            None => None,
        }
    }

    fn above(&self, index_key: u64) -> Option<&[V]> {
        let above = (Bound::Excluded(index_key), Bound::Unbounded);
        match self.buckets.range(above).next() {
            Some((_, bucket)) => Some(bucket.values()),
            None => None,
        }
    }

    fn below(&self, index_key: u64) -> Option<&[V]> {
        match self.buckets.range(..index_key).next_back() {
            Some((_, bucket)) => Some(bucket.values()),
            None => None,
        }
    }
}
