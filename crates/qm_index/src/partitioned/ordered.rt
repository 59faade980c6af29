//! Partitions in the order of their index keys.

use crate::partitioned;
use crate::tree_table::TreeTable;

/// An index in the order of index keys, in partitions, or in a range of them. Under a key outside of its range the bucket is empty, and an insert is refused.
pub type Index<T, V, P> = partitioned::Index<T, TreeTable<V>, P>;
