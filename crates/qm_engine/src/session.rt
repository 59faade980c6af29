// What a run holds between two commands.
ghost use Rattle.std.specs.Prelude.{◌≡◌};
ghost use Rattle.qm_store.specs.Given.{store_given};
ghost use Rattle.qm_engine.specs.Turn.{turn_of_log, turn_of_error};

use crate::table::Slot;
use qm_base::{Error, JournalError};
use qm_lines::{LogRefused, Refused, Reply};
use qm_offer::{Durable, Meaning};
use qm_store::{Given, Store};

/// The database or its store, the batches, and how many openings were accepted.
#[derive(Drop)]
pub struct Session<X, C, B, S, M> {
    pub held: Given<X, C>,
    pub table: Vec<Slot<B, S, M>>,
    pub opened: u64,
}

pub type SessionOf<X, C> = Session<
    X,
    C,
    <X as Meaning<C>>::Batch,
    <X as Meaning<C>>::Staged,
    <X as Meaning<C>>::Merkleized,
>;

/// What a command comes to: a reply, or why the run ends.
#[derive(Drop)]
pub enum Turn<K, V, D> {
    Reply(Reply<K, V, D>),
    Memory,
    StoreFault,
}

/// A command asks for a database, and none is open.
pub fn no_database<K, V, D>() -> Turn<K, V, D>
    ensures { result ≡ Turn.Reply (Reply.Refused Refused.NoDatabase) }
{
    Turn::Reply(Reply::Refused(Refused::NoDatabase))
}

/// A command names a batch by a number that no such batch has.
pub fn no_such_handle<K, V, D>(number: u64) -> Turn<K, V, D>
    ensures { result ≡ Turn.Reply (Reply.Refused (Refused.NoSuchHandle number)) }
{
    Turn::Reply(Reply::Refused(Refused::NoSuchHandle(number)))
}

// What an error of a log comes to.
fn turn_of_log<K: Drop, V: Drop, D: Drop>(error: JournalError) -> Turn<K, V, D>
    ensures { result ≡ turn_of_log error }
{
    let refused = match error {
        JournalError::Store => return Turn::StoreFault,
        JournalError::ItemPruned(location) => LogRefused::ItemPruned(location),
        JournalError::ItemTooLarge(length) => LogRefused::ItemTooLarge(length),
    };
    Turn::Reply(Reply::Refused(Refused::Journal(refused)))
}

/// What an error of a call comes to: a refusal, or the end of the run.
pub fn turn_of<K: Drop, V: Drop, D: Drop>(error: Error) -> Turn<K, V, D>
    ensures { result ≡ turn_of_error error }
{
    let refused = match error {
        Error::Memory => return Turn::Memory,
        Error::Journal(error) => return turn_of_log(error),
        Error::InvalidInitializationBound => Refused::InvalidInitializationBound,
        Error::StaleBatch => Refused::StaleBatch,
        Error::StaleRead => Refused::StaleRead,
        Error::KeyNotFound => Refused::KeyNotFound,
        Error::KeyExists => Refused::KeyExists,
        Error::OperationPruned(location) => Refused::OperationPruned(location),
        Error::PruneBeyondMinRequired(location, boundary) => {
            Refused::PruneBeyondMinRequired(location, boundary)
        }
        Error::HistoricalFloorPruned(size) => Refused::HistoricalFloorPruned(size),
        Error::DataCorrupted(corrupt) => Refused::DataCorrupted(corrupt),
        Error::Merkle(refused) => Refused::Merkle(refused),
    };
    Turn::Reply(Reply::Refused(refused))
}

/// The store that is held, by itself or inside the database.
pub fn into_store<X: Durable<C>, C: Store>(held: Given<X, C>) -> C
    ensures { result ≡ store_given X.inside held }
{
    match held {
        Given::Database(x) => x.close(),
        Given::Store(store) => store,
    }
}
