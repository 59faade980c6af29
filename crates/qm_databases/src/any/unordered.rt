//! Unordered any databases, by how keys and values are spelled.

pub mod fixed;
pub mod variable;

use qm_operations::Unordered;

/// The updates of an unordered database, over any encoding.
pub type Update<K, V> = Unordered<K, V>;

/// Its operations.
pub type Operation<F, K, V> = qm_operations::Operation<F, Update<K, V>>;
