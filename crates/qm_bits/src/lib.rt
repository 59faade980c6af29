//! The activity bits that a database owns: one for each location of its operation list, without the first chunks, and the walk over the locations that may hold live updates.
#![tactic(auto)]

pub mod bitmap;
pub mod candidates;
pub mod chunks;
pub mod prunable;
pub mod readable;
mod words;

pub use bitmap::BitMap;
pub use candidates::Candidates;
pub use chunks::{Chunk32, Chunk64, Chunks};
pub use prunable::Prunable;
pub use readable::Readable;
