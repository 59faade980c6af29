//! A large run that is computed from a number: its draws, its commands a round at a time, and the summary of their replies.
#![tactic(auto)]

pub mod laws;
pub mod rounds;
pub mod tally;
pub mod words;

pub use rounds::{Rounds, ending, opening};
pub use tally::Tally;
pub use words::{Fill, parse_words};
