//! Translated indices: for each short index key, the values of the keys that translate to it. The keys themselves are kept elsewhere.
#![tactic(auto)]

mod bucket;
mod hash_table;
pub mod laws;
pub mod ordered;
pub mod partitioned;
pub mod prefix;
mod table;
mod table_row;
pub mod translator;
mod tree_table;
pub mod unordered;
pub mod value;

pub use ordered::Ordered;
pub use partitioned::Ranges;
pub use prefix::{P64k, P256, Prefix};
pub use translator::{EightCap, FourCap, OneCap, OrderedTranslator, Translator, TwoCap};
pub use unordered::{Factory, Unordered};
pub use value::IndexValue;
