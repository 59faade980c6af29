//! What is read off a log of operations: the index of a list's live keys, their number and its activity bits, rebuilt from the
//! items of the log; whether the links of its live updates form a ring; and proofs of its operations.
#![tactic(auto)]

pub mod build;
pub mod cache;
mod item;
pub mod links;
mod moves;
mod proof;
mod read;
pub mod snapshot;

pub use build::{Snapshot, build_snapshot};
pub use cache::Cache;
pub use item::commit_floor_in;
pub use links::forms_ring;
pub use moves::move_key;
pub use proof::proved_over;
pub use read::{Found, has_key, last_metadata, read_operation};
pub use snapshot::SnapshotBuild;
