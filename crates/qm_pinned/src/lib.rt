//! The metadata by which the store of a current database counts its pruned chunks: how many those are, and the pins of the
//! grafted tree there.
#![tactic(auto)]

mod pinned;
mod written;

pub use pinned::{Pinned, read};
pub use written::entries;
