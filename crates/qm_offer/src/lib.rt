//! What a database offers to a run of commands, over any store: what it means, and its calls, in groups.
#![tactic(auto)]

pub mod meaning;
pub mod offer;

pub use meaning::Meaning;
pub use offer::{
    BatchSizes, Batching, Common, Durable, Engine, Making, Neighbours, Numbers, Proving, Reading,
    Roots, Showing, ShownRange, Staging, Writing,
};
