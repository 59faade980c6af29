//! Databases under test, whatever they are made of: what a test does to one is said for each bed, and a bed is named once.

use crate::expiry::Expiry;
use qm_any::batch::MerkleizedBatch;
use qm_any::db::Db;
use qm_any::{Config, init_with};
use qm_base::{ByteString, Error, Hasher, Location};
use qm_bits::Chunk64;
use qm_index::Factory;
use qm_merkle::Family;
use qm_operations::Update;
use qm_step::kind::Steps;
use qm_store::{MetaEntry, Refusal, Store};
use std::alloc::{AllocError, Global};
use std::num::NonZeroUsize;
use std::rc::Rc;
use std::slice::from_ref;

/// What a database under test is made of.
pub(crate) trait Bed {
    type Family: Family;

    type Store: Store + Drop;

    type Index: Factory<Value = Location<Self::Family>> + Drop;

    type Hasher: Hasher + Drop;

    type Pair: Steps<Self::Family, Self::Index>;

    /// An empty store.
    fn store(alloc: Global) -> Self::Store;

    /// The hasher of messages.
    fn hasher() -> Self::Hasher;

    /// What makes index keys.
    fn translator() -> <Self::Index as Factory>::Translator;
}

pub(crate) type Key<B> = <<B as Bed>::Pair as Update>::Key;

pub(crate) type Value<B> = <<B as Bed>::Pair as Update>::Value;

pub(crate) type Database<B> = Db<
    <B as Bed>::Family,
    <B as Bed>::Store,
    <B as Bed>::Index,
    <B as Bed>::Hasher,
    <B as Bed>::Pair,
    Chunk64,
>;

pub(crate) type Batch<B> = MerkleizedBatch<
    <B as Bed>::Family,
    <<B as Bed>::Hasher as Hasher>::Digest,
    <B as Bed>::Pair,
>;

/// The key that the tests write, and its value, which is valid up to block 10.
pub(crate) const KEY: [u8; 4] = [1, 2, 3, 4];

const VALUE: [u8; 8] = [10, 11, 12, 13, 14, 15, 16, 17];

// What a call answers, or why it was refused.
pub(crate) fn kept<T: Drop, X: Drop, C: Drop>(done: Result<T, Refusal<X, C>>) -> Result<T, Error> {
    match done {
        Ok(answer) => Ok(answer),
        Err(refusal) => Err(refusal.error),
    }
}

// A key or a value of these bytes. There is none if they are not of its size.
pub(crate) fn of_bytes<S: ByteString>(alloc: Global, bytes: &[u8]) -> Result<S, AllocError> {
    if !S::is_of(bytes) {
        return Err(AllocError);
    }
    S::from_bytes(alloc, bytes)
}

// The database of the whole list that a store keeps, with chunks of activity bits, of which none is pruned.
pub(crate) fn opened<B: Bed>(alloc: Global, store: B::Store) -> Result<Database<B>, Error> {
    let opening = Config {
        translator: B::translator(),
        init_cache: NonZeroUsize::MIN,
        init_concurrency: (),
    };
    kept(init_with(alloc, store, B::hasher(), opening, None, Some((0, None))))
}

// The batch on the list of a database that gives a key a value, and drops what has expired at a block.
pub(crate) fn batch_of<B: Bed>(
    alloc: Global,
    db: &mut Database<B>,
    key: &[u8],
    value: &[u8],
    block: u8,
) -> Result<Rc<Batch<B>>, Error> {
    let key: Key<B> = of_bytes(alloc, key)?;
    let value: Value<B> = of_bytes(alloc, value)?;
    let batch = db.new_batch(alloc)?.write(key, Some(value))?;
    batch.merkleize(alloc, db, None, &mut Expiry { block })
}

// A database with one write.
fn written<B: Bed>(alloc: Global) -> Result<Database<B>, Error> {
    let mut db = opened::<B>(alloc, B::store(alloc))?;
    let batch = batch_of::<B>(alloc, &mut db, &KEY, &VALUE, 10)?;
    kept(db.apply_batch(alloc, &batch))
}

// The same, with an entry of metadata, and opened again from its store.
pub(crate) fn again<B: Bed>(alloc: Global) -> Result<Database<B>, Error> {
    let db = written::<B>(alloc)?;
    let entry = MetaEntry {
        key: [1; 9],
        value: Vec::new(alloc),
    };
    let db = kept(db.put_meta("a", from_ref(&entry)))?;
    opened::<B>(alloc, db.close())
}
