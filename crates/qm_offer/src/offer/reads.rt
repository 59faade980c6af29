//! Reads of a database, and of its batches.

ghost use Rattle.std.specs.Prelude.{◌≡◌, ◌≢◌, List, None, map, length, option_map, IfOk, IfErr};
ghost use Rattle.qm_model.specs.Operations.{Operation};
ghost use Rattle.qm_model.specs.Live.{value_of, last_metadata};
ghost use Rattle.qm_model.specs.Writes.{read_through};
ghost use Rattle.qm_model.specs.Batches.{Chain, IsKnown, own_operations};
ghost use Rattle.qm_base.specs.Listed.{listed_view};
ghost use Rattle.qm_base.specs.Views.{pair_view};
ghost use Rattle.qm_store.specs.Refusals.{refusal_of};
ghost use Rattle.qm_offer.specs.Roots.{AreRoots};
ghost use Rattle.qm_offer.specs.Words.{AtBatch, AtTip, CanRead, IsReadFailure, ReadsOnly};

use crate::offer::{Common, Roots};
use qm_base::{Error, Listed};
use qm_store::Store;
use std::alloc::{AllocError, Global};

/// The calls that read a database or its batches.
pub trait Reading<C: Store>: Common<C> {
    /// The roots of the list that a merkleized batch makes.
    fn batch_root(batch: &Self::Merkleized) -> Roots<Self::Digest>
        ensures { (chain : Chain) (tip : List Operation) → Self.is_merkleized batch.now chain tip
            → AreRoots Self.scheme Self.Digest.bytes tip result };

    /// The size of a merkleized batch's base, and its own operations.
    fn ops(
        alloc: Global,
        batch: &Self::Merkleized,
    ) -> Result<(u64, Vec<Listed<Self::Key, Self::Value>>), AllocError>
        ensures { IfOk result (λ r.
            (chain : Chain) (tip : List Operation) → Self.is_merkleized batch.now chain tip
            → (r.0 ≡ length chain.base)
            × (map (listed_view Self.Key.bytes Self.Value.bytes) r.1.items
            ≡ own_operations chain tip)) };

    /// The keys that a merkleized batch's step evicted, in the order of the walk, each with the value that it had: copies.
    fn evicted(
        alloc: Global,
        batch: &Self::Merkleized,
    ) -> Result<Vec<(Self::Key, Self::Value)>, AllocError>
        ensures { IfOk result (λ pairs.
            map (pair_view Self.Key.bytes Self.Value.bytes) pairs.items
            ≡ Self.evictions batch.now) };

    /// Reads the values of keys, in their order.
    fn get(&mut self, alloc: Global, keys: &[Self::Key]) -> Result<Vec<Option<Self::Value>>, Error>
        ensures values { IfOk result (λ v. (list : List Operation) → Self.stands self.old list
            → map (option_map Self.Value.bytes) v.items
            ≡ map (λ k. value_of list (Self.Key.bytes k)) keys.now) }
        ensures reads { ReadsOnly Self.Meaning C.Store self.old self.new result }
        ensures never { IfErr result (λ e. e ≢ Error.StaleBatch) }
        ensures refused { IfErr result (λ e. (list : List Operation) → Self.stands self.old list
            → refusal_of e ≡ None) };

    /// Reads the values of keys through a batch: its own writes, then its base list. It is refused if the database is at no
    /// state at which the batch's parent can be read.
    fn get_through(
        &mut self,
        alloc: Global,
        batch: &Self::Batch,
        keys: &[Self::Key],
    ) -> Result<Vec<Option<Self::Value>>, Error>
        ensures readable { IfOk result (λ _. AtBatch Self.Meaning self.old batch.now
            (λ list chain above ws. CanRead Self.Meaning list above chain.base)) }
        ensures values { IfOk result (λ v. AtBatch Self.Meaning self.old batch.now
            (λ list chain above ws. IsKnown list above chain.base
            → map (option_map Self.Value.bytes) v.items
            ≡ map (λ k. read_through chain.base ws (Self.Key.bytes k)) keys.now)) }
        ensures failure { IfErr result (λ e.
            AtBatch Self.Meaning self.old batch.now (λ list chain above ws. IsReadFailure Self.Meaning list above chain.base e)) }
        ensures reads { ReadsOnly Self.Meaning C.Store self.old self.new result }
        ensures never { IfErr result (λ e. e ≢ Error.StaleBatch) };

    /// Reads the values of keys through a merkleized batch, on the list that it makes. It is refused if the database is at
    /// no state at which the batch can be read.
    fn get_from(
        &mut self,
        alloc: Global,
        batch: &Self::Merkleized,
        keys: &[Self::Key],
    ) -> Result<Vec<Option<Self::Value>>, Error>
        ensures readable { IfOk result (λ _. AtTip Self.Meaning self.old batch.now
            (λ list chain tip. CanRead Self.Meaning list chain tip)) }
        ensures values { IfOk result (λ v.
            AtTip Self.Meaning self.old batch.now (λ list chain tip. IsKnown list chain tip
            → map (option_map Self.Value.bytes) v.items
            ≡ map (λ k. value_of tip (Self.Key.bytes k)) keys.now)) }
        ensures failure { IfErr result (λ e.
            AtTip Self.Meaning self.old batch.now (λ list chain tip. IsReadFailure Self.Meaning list chain tip e)) }
        ensures reads { ReadsOnly Self.Meaning C.Store self.old self.new result }
        ensures never { IfErr result (λ e. e ≢ Error.StaleBatch) };

    /// The roots of the database's list.
    fn root(&self) -> Roots<Self::Digest>
        ensures { (list : List Operation) → Self.stands self.now list
            → AreRoots Self.scheme Self.Digest.bytes list result };

    /// The metadata of the list's last commit.
    fn metadata(&self, alloc: Global) -> Result<Option<Self::Value>, AllocError>
        ensures { IfOk result (λ v. (list : List Operation) → Self.stands self.now list
            → option_map Self.Value.bytes v ≡ last_metadata list) };
}
