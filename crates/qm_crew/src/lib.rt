//! The base of workers that rebuild an index side by side: turns that a crew takes, and marks in shared words. Threads enter as calls that are handed in.
#![tactic(auto)]

pub mod board;
pub mod calls;
pub mod crew;
pub mod laws;
pub mod rounds;
#[cfg(test)]
mod tests;
pub mod turns;

pub use board::{Board, MarkSeat};
pub use calls::{ByCall, Marks, Runs};
pub use crew::{Marker, mark_all, mark_each, marked_by};
pub use rounds::{Answers, turn_until_quiet};
pub use turns::{Turning, turn_all, turn_each};
