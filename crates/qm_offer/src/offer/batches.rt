//! Batches: begun and written, by a trait each.

ghost use Rattle.std.specs.Prelude.{◌≡◌, ◌++◌, ◌∷◌, ℕ, [], List, Some, None, IfOk};
ghost use Rattle.qm_model.specs.Operations.{Operation};
ghost use Rattle.qm_model.specs.Writes.{Write};
ghost use Rattle.qm_model.specs.Batches.{Chain, begun_on, child_of};

use crate::offer::Common;
use qm_store::Store;
use std::alloc::{AllocError, Global};

/// The calls that begin batches.
pub trait Batching<C: Store>: Common<C> {
    /// Begins a batch.
    fn batch(&self, alloc: Global) -> Result<Self::Batch, AllocError>
        ensures { IfOk result (λ b.
            (n : ℕ) (list : List Operation) → Self.numbered self.now n → Self.stands self.now list
            → Self.is_batch b (begun_on n list) (begun_on n list) []) };

    /// Begins a batch on the list of a merkleized one. It keeps that one and the first `keep` of its kept ancestors, or all.
    fn child(
        alloc: Global,
        batch: &Self::Merkleized,
        keep: Option<u64>,
    ) -> Result<Self::Batch, AllocError>
        ensures { IfOk result (λ b.
            (chain : Chain) (tip : List Operation) → Self.is_merkleized batch.now chain tip
            → Self.is_batch b (child_of keep chain tip) chain []) };

    /// The database as a merkleized batch, which does nothing and evicted nothing.
    fn tip(&self, alloc: Global) -> Result<Self::Merkleized, AllocError>
        ensures { IfOk result (λ b.
            (n : ℕ) (list : List Operation) → Self.numbered self.now n → Self.stands self.now list
            → Self.is_merkleized b (begun_on n list) list × (Self.evictions b ≡ [])) };
}

/// The calls that write batches.
pub trait Writing<C: Store>: Common<C> {
    /// Writes a value for a key.
    fn put(
        alloc: Global,
        batch: Self::Batch,
        key: Self::Key,
        value: Self::Value,
    ) -> Result<Self::Batch, AllocError>
        ensures { IfOk result (λ b.
            (chain above : Chain) (ws : List Write) → Self.is_batch batch chain above ws
            → Self.is_batch b chain above (ws
            ++ record { key = Self.Key.bytes key; value = Some (Self.Value.bytes value) }
            ∷ [])) };

    /// Deletes a key.
    fn del(alloc: Global, batch: Self::Batch, key: Self::Key) -> Result<Self::Batch, AllocError>
        ensures { IfOk result (λ b.
            (chain above : Chain) (ws : List Write) → Self.is_batch batch chain above ws
            → Self.is_batch b chain above
            (ws ++ record { key = Self.Key.bytes key; value = None } ∷ [])) };
}
