//! What a line asks for.

use qm_base::Resolution;
use std::num::NonZeroU64;
use std::ops::Bound;

/// What only a current database offers.
#[derive(Drop)]
pub enum Question<K> {
    /// Proves the value of a key, and checks the proof.
    Held(K),
    /// Proves that a key has no value, and checks the proof.
    Absent(K),
    /// Proves a range of chunks, from a location on, at most so many.
    Chunks(u64, NonZeroU64),
    /// Shows the operations root in the root.
    Witness,
}

/// What begins and writes batches. A batch goes by the number that the run gave it.
#[derive(Drop)]
pub enum BatchCommand<K, V> {
    /// Begins a batch.
    Batch,
    /// Begins a child of the merkleized batch of this number, which keeps so many of its kept ancestors, or all.
    Child(u64, Option<u64>),
    /// Makes the database a merkleized batch.
    Tip,
    /// Writes a value for a key, in the batch of this number.
    Put(u64, K, V),
    /// Deletes a key, in the batch of this number.
    Del(u64, K),
}

/// What makes the lists of batches, and moves the database on to them.
#[derive(Drop)]
pub enum MakingCommand<V, P> {
    /// Merkleizes the batch of this number under a policy, with this metadata.
    Merkleize(u64, P, Option<V>),
    /// Applies the merkleized batch of this number.
    Apply(u64),
}

/// What stages batches.
#[derive(Drop)]
pub enum StagedCommand<K, V, P> {
    /// Reads the values of keys through the batch of this number, which becomes a staged one.
    Stage(u64, Vec<K>),
    /// Reads the values of more keys through the staged batch of this number.
    Expand(u64, Vec<K>),
    /// Merkleizes the staged batch of this number under a policy, with this metadata and what becomes of its keys.
    Resolve(u64, P, Option<V>, Resolution<K, V>),
}

/// What reads keys, in the database or through a batch.
#[derive(Drop)]
pub enum ReadCommand<K> {
    /// Reads the value of a key, in the database or through the batch of this number.
    Get(K, Option<u64>),
    /// Reads the values of keys, in the database or through the batch of this number.
    Many(Vec<K>, Option<u64>),
    /// Reads the nearest live key above a key, in the database or through the merkleized batch of this number.
    Next(K, Option<u64>),
    /// Reads the nearest live key below a key, in the database or through the merkleized batch of this number.
    Prev(K, Option<u64>),
    /// Reads the live update whose span holds a key.
    Span(K),
    /// Reads the value of a key, and the next key.
    All(K),
    /// Reads the live keys of a range with their values.
    Range(Bound<K>, Bound<K>),
    /// Reads the live keys of a range.
    Keys(Bound<K>, Bound<K>),
}

/// What tells of the database and of batches, and proves it.
#[derive(Drop)]
pub enum InfoCommand<K> {
    /// Lists the own operations of the merkleized batch of this number.
    Ops(u64),
    /// Lists the keys that the merkleized batch of this number evicted, with the values that they had.
    Evicted(u64),
    /// Tells the database's numbers.
    Info,
    /// Tells the numbers of the merkleized batch of this number.
    BatchInfo(u64),
    /// Tells the database's roots.
    Root,
    /// Tells the roots of the merkleized batch of this number.
    BatchRoot(u64),
    /// Proves the own operations of the merkleized batch of this number.
    BatchProof(u64),
    /// Tells the metadata of the last commit.
    Meta,
    /// Proves operations of the database's first ones, so many, from a location on, at most so many.
    Prove(u64, u64, NonZeroU64),
    /// Lists the digests of the peaks over the first operations, so many.
    Pins(u64),
    /// Asks what only a current database offers.
    Current(Question<K>),
}

/// What opens the database, makes it last or ends it.
#[derive(Drop)]
pub enum StoreCommand {
    /// Opens the store: the longest list that it keeps and that ends with a commit, of at most so many operations if a
    /// number is given.
    Open(Option<u64>),
    /// Forgets the operations before a location, and makes those that are left stable.
    Prune(u64),
    /// Makes the operations stable.
    Commit,
    /// Makes all that the store holds stable.
    Sync,
    /// Closes the database; the store stays as it is.
    Close,
    /// Closes the database and empties the store.
    Destroy,
    /// Closes the database, if one is open, and has the store go through a crash, with the end that is asked for.
    Crash(u64),
}

/// A command with keys, values and policies of these types.
#[derive(Drop)]
pub enum Command<K, V, P> {
    /// One that begins or writes a batch.
    Batch(BatchCommand<K, V>),
    /// One that makes a batch's list, or applies it.
    Making(MakingCommand<V, P>),
    /// One that stages.
    Staged(StagedCommand<K, V, P>),
    /// One that reads keys.
    Read(ReadCommand<K>),
    /// One that tells and proves.
    Info(InfoCommand<K>),
    /// One that opens, settles or ends the database.
    Store(StoreCommand),
}
