//! Databases of one value for each key, over an index and a log: the database, its batches, and how one is opened.
#![tactic(auto)]

pub mod batch;
pub mod db;
mod durable;
mod fresh;
pub mod laws;
mod offer;
mod open;
mod operations;
mod ordered;
pub mod proof;
pub mod scan;
pub mod staged;

pub use offer::listed::{listed, span_from, twin_keys, twin_pairs};
pub use offer::ranges::{keys_of, pairs_of};
pub use open::{init, init_with};
pub use qm_open::{Config, hasher, initial_root};
