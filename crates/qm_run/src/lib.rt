//! The program: its databases, and its top call.
#![tactic(auto)]

mod any;
mod checks;
mod commands;
mod current_mmb;
mod current_mmr;
mod fills;
mod kind;
mod program;

pub use checks::{are_words, qmdb_main};
pub use commands::{Replies, run_commands};
pub use kind::Named;
pub use qm_engine::End;
