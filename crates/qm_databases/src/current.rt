//! Current databases: what stands for a key now can be proved.

mod database;
pub mod ordered;
pub mod unordered;

pub use qm_current::{Config, init};

/// How a database is opened whose keys and values are of fixed sizes.
pub type FixedConfig<T, B = ()> = Config<T, B>;

/// How one is opened whose keys and values are of any length.
pub type VariableConfig<T, B = ()> = Config<T, B>;
