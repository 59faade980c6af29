//! Operations, the updates of both kinds among them, and how they are spelled.
#![tactic(auto)]

pub mod decode;
pub mod encoding;
pub mod feed;
pub mod operation;
pub mod update;

pub use encoding::{FixedEncoding, ValueEncoding, VariableEncoding};
pub use operation::Operation;
pub use update::{Ordered, Unordered, Update};
