//! How the list that a store keeps is opened: which commit is selected, and why the store is refused; the log that ends with it,
//! and what its list has beside it; and how a fresh list begins.
#![tactic(auto)]

mod checked;
mod config;
mod fresh;
mod opened;
mod parts;
mod pruned;
mod select;

pub use checked::open_checked;
pub use config::Config;
pub use fresh::{empty_log, hasher, initial_root, store_of};
pub use opened::Opened;
pub use parts::{activity_from, root_of};
pub use pruned::Pruned;
pub use select::{Selected, select_commit};
