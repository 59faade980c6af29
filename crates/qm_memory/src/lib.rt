//! A store in memory, which tells all that it holds, fails exactly at the listed calls, and notes what each call changed.
#![tactic(auto)]

mod change;
mod items;
mod mem_store;
mod metadata;

pub use mem_store::MemStore;
