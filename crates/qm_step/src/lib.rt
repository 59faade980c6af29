//! What a step appends to its base list, made of writes and decisions once it is known where their keys stand.
#![tactic(auto)]

pub mod base;
pub mod decided;
pub mod diff;
pub mod found;
pub mod kind;
pub mod layer;
pub mod links;
pub mod moves;
pub mod nearest;
pub mod neighbour;
pub mod order;
mod put;
pub mod site;
pub mod touch;
pub mod wanted;
pub mod writes;

pub use base::Base;
pub use layer::Layer;
pub use order::{is_before, is_below};
pub use wanted::{Read, Wanted};
