//! Families of trees, the hashing of their nodes, trees in memory, and their batches.
#![tactic(auto)]

pub mod batch;
pub mod family;
pub mod hasher;
pub mod mem;
pub mod mmb;
pub mod mmr;
pub mod position;

pub use batch::{MerkleizedBatch, UnmerkleizedBatch};
pub use family::{Family, Node};
pub use hasher::StandardHasher;
pub use mem::Mem;
pub use position::Position;
