//! What a light client holds: a proof of a key or of its absence, as bytes, and what it answers to a claim by a root alone.
#![tactic(auto)]

pub mod claim;
pub mod decode;
pub mod encode;
pub mod laws;
pub mod proof;

pub use claim::{Claim, check_proof, shows};
pub use decode::decode_proof;
pub use encode::encode_proof;
pub use proof::AnyProof;
