//! Workers that rebuild an index side by side, each with a range of its partitions.
#![tactic(auto)]

pub mod keys;
pub mod look;
pub mod round;
pub mod sharing;
#[cfg(test)]
mod tests;
pub mod worker;
