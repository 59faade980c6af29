//! What a database offers to a run, over any store: a trait for each group of its calls, and one of them all.

ghost use Rattle.std.specs.Prelude.{◌≡◌, [], List, length, nat_lt, is_some};
ghost use Rattle.qm_model.specs.Batches.{Chain};
ghost use Rattle.qm_model.specs.Live.{floor, live};
ghost use Rattle.qm_model.specs.Operations.{Operation};
ghost use Rattle.qm_model.specs.Schemes.{HasBounds};
ghost use Rattle.qm_model.specs.Trees.{peaks};

pub mod batches;
pub mod durable;
pub mod making;
pub mod ordered;
pub mod proofs;
pub mod reads;
pub mod showing;
pub mod staged;

use crate::meaning::Meaning;
pub use batches::{Batching, Writing};
pub use durable::Durable;
pub use making::Making;
pub use ordered::Neighbours;
pub use proofs::Proving;
use qm_base::{ByteString, Digest};
use qm_store::Store;
pub use reads::Reading;
pub use showing::{Showing, ShownRange};
pub use staged::Staging;

/// The numbers of a database.
#[derive(Clone, Copy)]
pub struct Numbers {
    /// The location of the first operation that the store keeps.
    pub start: u64,
    /// How many operations the list has.
    pub size: u64,
    /// The floor: no live update stands below it.
    pub floor: u64,
    /// Up to where the list may be pruned.
    pub boundary: u64,
    /// Whether any key is live.
    pub is_live: bool,
}

/// The numbers of a merkleized batch.
#[derive(Clone, Copy)]
pub struct BatchSizes {
    /// How many operations the list has that the batch was made from.
    pub base: u64,
    /// How many operations the list has that the batch makes.
    pub tip: u64,
    /// The floor of that list.
    pub floor: u64,
    /// Up to where that list may be pruned.
    pub boundary: u64,
}

/// The roots of a list: the one that speaks for a database, and the operations root, by which batches fit. They are one in a
/// database that has no bits under its root.
#[derive(Clone, Copy)]
pub struct Roots<D> {
    /// The root.
    pub root: D,
    /// The operations root.
    pub operations: D,
}

/// What the groups of calls stand on: what keys, values and digests are, whether the database is an ordered one, and the
/// numbers of it and of its merkleized batches.
pub trait Common<C: Store>: Meaning<C> + Drop + Sized {
    type Family;

    type Key: ByteString;

    type Value: ByteString;

    type Digest: Digest;

    /// Whether it is an ordered database, which alone offers the reads in key order.
    fn is_ordered() -> bool
        ensures { result ≡ Self.scheme.form.ordered };

    /// Whether it is a current database, which alone is asked for proofs of keys and of ranges; the others alone prove a batch.
    fn is_current() -> bool
        ensures { result ≡ is_some Self.scheme.grafts };

    /// The numbers of the database.
    fn info(&self) -> Numbers
        ensures start { result.start ≡ C.start (Self.inside self.now) }
        ensures list { (list : List Operation) → Self.stands self.now list
            → (result.size ≡ length list) × (result.floor ≡ floor list)
            × (result.boundary ≡ Self.scheme.boundary list)
            × (result.is_live ≡ nat_lt 0 (length (live list))) };

    /// The sizes of a merkleized batch.
    fn sizes(batch: &Self::Merkleized) -> BatchSizes
        ensures { (chain : Chain) (tip : List Operation) → Self.is_merkleized batch.now chain tip
            → (result.base ≡ length chain.base) × (result.tip ≡ length tip)
            × (result.floor ≡ floor tip)
            × (result.boundary ≡ Self.scheme.boundary tip) };

    /// Nothing has no peaks.
    ghost bare: { peaks Self.scheme.shape 0 ≡ [] };

    /// No list may be pruned past its floor, nor past the boundary of its chunks, if it has any.
    ghost bounds: { HasBounds Self.scheme };
}

/// A kind of database: one call for each command of a run.
pub trait Engine<C: Store>: Durable<C>
    + Batching<C>
    + Writing<C>
    + Making<C>
    + Staging<C>
    + Reading<C>
    + Neighbours<C>
    + Proving<C> {}
