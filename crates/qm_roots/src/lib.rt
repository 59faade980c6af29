//! What a current database and its batches keep beside the any ones: the grafted tree, the bits that a chain of unapplied batches
//! changes, and the canonical root.
#![tactic(auto)]

pub mod canonical;
pub mod kept;
mod steps;

pub use canonical::Canonical;
pub use kept::{Kept, Place, Tip};
