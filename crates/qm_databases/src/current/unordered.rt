//! Unordered current databases, by how keys and values are spelled.

pub mod db;
pub mod fixed;
pub mod variable;
