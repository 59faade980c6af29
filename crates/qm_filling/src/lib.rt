//! The run of a fill, a round at a time, over any database that answers its commands, and its text and status.
#![tactic(auto)]

mod parts;
pub mod runs;
pub mod served;

pub use runs::{Filled, run_fill};
pub use served::serve_fill;
