//! The check of a claim about a key, as words and an input ask for it: from the digits of a proof and a root alone.
#![tactic(auto)]

pub mod input;
pub mod served;
pub mod words;

pub use input::verdict;
pub use served::{check, serve_check};
pub use words::{Asked, Trees, are_words, parse_words};
