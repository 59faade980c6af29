//! What a batch appends to an operation list, found over an index and a log that are lent for a list on the way to it.
#![tactic(auto)]

pub mod apply;
pub mod neighbours;
pub mod plan;
pub mod read;
mod scan;
pub mod writes;

pub use apply::apply_diffs;
pub use neighbours::{holder, next_key, previous, previous_key};
pub use plan::{Plan, plain, staged};
pub use qm_base::Write;
pub use qm_step::{Base, Layer, Read, Wanted, is_before, is_below};
pub use read::{read_key, read_keys};
pub use scan::Scan;
pub use writes::Writes;
