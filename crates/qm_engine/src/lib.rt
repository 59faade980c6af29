//! Runs of commands over any database that offers what they ask for, and the answers to the lines of an input.
#![tactic(auto)]

pub mod answering;
pub mod answers;
pub mod laws;
pub mod runs;
pub mod session;
mod table;
pub mod turns;

pub use answering::{Answering, Asking, returned};
pub use answers::{Answered, Ending, answer_lines};
pub use runs::{End, Outcome, Part, begin, run, run_part};
pub use session::{SessionOf, Turn};
pub use turns::{
    batch_turn, info_turn, making_turn, read_turn, shown_turn, staged_turn, store_turn,
    unshown_turn,
};
