//! Partitions without an order of their index keys.

use crate::hash_table::HashTable;
use crate::partitioned;

/// An index by hash, in partitions, or in a range of them. Under a key outside of its range the bucket is empty, and an insert is refused.
pub type Index<T, V, P> = partitioned::Index<T, HashTable<V>, P>;
