//! Chunks of activity bits grafted onto a tree of operations: the grafted tree, how it follows a step, and the canonical root.
#![tactic(auto)]

pub mod grafted;
pub mod places;
pub mod root;
pub mod step;
pub mod tree;
pub mod trees;
pub mod view;

pub use grafted::Grafted;
pub use view::GraftedView;
