//! The names under which databases are known, and the traits by which code is generic over them.
#![tactic(auto)]

pub mod any;
pub mod current;
