//! Current databases: an any database and what it keeps beside it for a root that speaks of every key.
#![tactic(auto)]

mod absence;
pub mod batch;
mod boundary;
mod config;
pub mod db;
mod durable;
pub mod laws;
mod made;
mod nodes;
mod offer;
mod open;
mod ordered;
pub mod proof;
mod reads;
pub mod scan;
mod shown;
pub mod staged;

pub use absence::Absences;
pub use batch::{MerkleizedBatch, UnmerkleizedBatch};
pub use config::Config;
pub use db::Db;
pub use open::init;
pub use staged::Staged;
