//! Any databases: what stood for a key at some time can be proved.

mod database;
pub mod ordered;
pub mod traits;
pub mod unordered;

pub use qm_any::{Config, hasher, init, initial_root};

/// How a database is opened whose keys and values are of fixed sizes.
pub type FixedConfig<T, B = ()> = Config<T, B>;

/// How one is opened whose keys and values are of any length.
pub type VariableConfig<T, B = ()> = Config<T, B>;
