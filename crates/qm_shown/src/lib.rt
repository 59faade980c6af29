//! Proofs of keys, of their absence, of ranges and of the operations root, made of the list of an any database and of what a current
//! one keeps beside it.
#![tactic(auto)]

mod exclusion;
mod key;
pub mod ordered;
mod parts;
mod range;
mod refused;
pub mod unordered;
mod witness;

pub use exclusion::exclusion_proof;
pub use key::update_proof;
pub use range::{ShownRange, range_proof};
pub use witness::ops_root_witness;
