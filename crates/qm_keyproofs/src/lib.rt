//! What a light client checks against the canonical root of a list: proofs of operations and their activity, of keys, of
//! absences, and of the operations root. A check takes no memory.
#![tactic(auto)]

pub mod chunk;
mod claim;
pub mod exclusion;
mod lent;
pub mod operation;
pub mod ordered;
pub mod range;
mod rebuild;
pub mod unordered;
pub mod witness;

pub use chunk::ChunkBytes;
pub use exclusion::ExclusionProof;
pub use operation::OperationProof;
pub use range::RangeProof;
pub use witness::OpsRootWitness;
