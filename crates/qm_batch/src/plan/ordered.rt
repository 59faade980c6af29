//! What an ordered step is to know of its base list, in which each update names the key after its own.

mod moves;
mod neighbours;

pub(crate) use self::moves::befores_of;
pub(crate) use self::neighbours::neighbours_of;
