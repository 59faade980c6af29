//! Chunks of activity bits over a tree of operations: which are grafted, what is hashed over them, and up to where a list may be
//! pruned.
#![tactic(auto)]

pub mod boundary;
pub mod chunks;
pub mod digests;
pub mod graftable;
pub mod laws;
pub mod nodes;

pub use boundary::{pair_absorption_threshold, sync_boundary};
pub use graftable::Graftable;
