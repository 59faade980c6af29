//! Unordered current databases over any encoding and index.

use crate::any::unordered::Update;

/// The database.
pub type Db<F, C, K, V, I, H, N> = qm_current::Db<F, C, I, H, Update<K, V>, N>;
