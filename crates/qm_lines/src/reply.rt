//! What a command answers.

use qm_base::{Corrupt, Listed, Span, TreeRefused};

/// Why a log refused.
#[derive(Clone, Copy)]
pub enum LogRefused {
    /// The item at this location is before the store's start.
    ItemPruned(u64),
    /// A spelling has so many bytes, which are too many.
    ItemTooLarge(u64),
}

/// Why a command was refused.
#[derive(Clone, Copy)]
pub enum Refused {
    NotOffered,
    NoDatabase,
    NoSuchHandle(u64),
    /// How many keys are staged, and how many slots were given.
    SlotCount(u64, u64),
    InvalidInitializationBound,
    StaleBatch,
    StaleRead,
    /// A key that was to be proved has no value.
    KeyNotFound,
    /// A key that was to be proved absent has a value.
    KeyExists,
    /// The chunk of activity bits of the operation at this location is pruned.
    OperationPruned(u64),
    /// Where the database was to be pruned to, and up to where it may be.
    PruneBeyondMinRequired(u64, u64),
    /// No commit stands at the end of so many operations.
    HistoricalFloorPruned(u64),
    DataCorrupted(Corrupt),
    Merkle(TreeRefused),
    Journal(LogRefused),
}

/// The reply to a command, with keys, values and digests of these types.
#[derive(Drop)]
pub enum Reply<K, V, D> {
    /// The opening's number, and the database's start and size.
    Opened(u64, u64, u64),
    /// The batch's number.
    Batch(u64),
    Done,
    /// The batch's number, the sizes of its base and its tip, and its floor.
    Merkleized(u64, u64, u64, u64),
    /// The database's size.
    Applied(u64),
    /// The size of a batch's base, and its own operations.
    Ops(u64, Vec<Listed<K, V>>),
    /// Evicted keys with the values that they had, in the order of the walk.
    Evicted(Vec<(K, V)>),
    /// The values of the keys that were asked, in their order.
    Read(Vec<Option<V>>),
    /// From which staged key up to which, and the values of these.
    Expanded(u64, u64, Vec<Option<V>>),
    /// The neighbour of the key that was asked, if there is one.
    Neighbour(Option<K>),
    /// The live update whose span holds the key, if any key is live.
    Span(Option<Span<K, V>>),
    /// The value of a key and the next key, if the key is live.
    All(Option<(V, K)>),
    /// Keys with their values, by key.
    Range(Vec<(K, V)>),
    /// Keys, by key.
    Keys(Vec<K>),
    /// Start, size, floor and boundary, and whether any key is live.
    Info(u64, u64, u64, u64, bool),
    /// The sizes of a batch's base and its tip, its floor and its boundary.
    BatchInfo(u64, u64, u64, u64),
    /// The root and the operations root.
    Root(D, D),
    /// The metadata of the last commit.
    Meta(Option<V>),
    /// How many leaves the tree has, how many of its peaks are inactive, the digests, and the operations proved.
    Proof(u64, u64, Vec<D>, Vec<Listed<K, V>>),
    /// The same of a batch's own operations: leaves, inactive peaks and digests, and then the pins at its base.
    BatchProof(u64, u64, Vec<D>, Vec<D>),
    /// The digests of peaks.
    Pins(Vec<D>),
    /// Where the live update of a key stands, and whether its proof was accepted.
    Held(u64, bool),
    /// Where what shows that a key is absent stands, and whether its proof was accepted.
    Absent(u64, bool),
    /// How many operations and how many chunks were proved, and whether the proof was accepted.
    Chunks(u64, u64, bool),
    /// Whether the proof of the operations root was accepted.
    Witness(bool),
    Refused(Refused),
}
