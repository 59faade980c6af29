//! Proofs of a list against its canonical root, made from the list's trees and its activity bits.
#![tactic(auto)]

pub mod chunks;
mod grafted;
mod operation;
pub mod parts;
mod range;
mod witness;

pub use parts::Parts;
