//! Parts of an index that are rebuilt side by side: routed operations, and whose partition is whose, with laws, each as the contract of a function that does nothing.
#![tactic(auto)]

pub mod laws;
