//! Lines and replies: their types, their text, and the ports that bytes come from and go to.
#![tactic(auto)]

pub mod adapters;
pub mod command;
pub mod memory;
pub mod parse;
pub mod policy;
pub mod ports;
pub mod reply;
pub mod text;
pub mod whole;

pub use adapters::{StdSink, StdSource};
pub use command::{
    BatchCommand, Command, InfoCommand, MakingCommand, Question, ReadCommand, StagedCommand,
    StoreCommand,
};
pub use memory::{MemSink, MemSource};
pub use parse::{ByteCommand, next_line, parse_line, plain_number};
pub use policy::AnyPolicy;
pub use ports::{Failed, Sink, SinkError, Source};
pub use reply::{LogRefused, Refused, Reply};
pub use text::reply_text;
pub use whole::{InputError, LIMIT, read_all, write_all};
