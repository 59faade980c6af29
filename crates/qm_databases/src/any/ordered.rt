//! Ordered any databases, by how keys and values are spelled.

pub mod fixed;
pub mod variable;

use qm_operations::Ordered;

/// The updates of an ordered database, over any encoding.
pub type Update<K, V> = Ordered<K, V>;

/// Its operations.
pub type Operation<F, K, V> = qm_operations::Operation<F, Update<K, V>>;
