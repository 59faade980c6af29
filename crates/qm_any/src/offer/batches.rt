//! Batches: begun and written.

use crate::batch::MerkleizedBatch;
use crate::db::Db;
use qm_base::{Location, Sha256};
use qm_bits::Chunks;
use qm_merkle::Family;
use qm_offer::{Batching, Writing};
use qm_step::kind::Steps;
use qm_store::Store;
use std::alloc::{AllocError, Global};

impl<
    F: Family,
    C: Store + Drop,
    I: qm_index::Unordered<Value = Location<F>> + Drop,
    U: Steps<F, I>,
    N: Chunks,
> Batching<C> for Db<F, C, I, Sha256, U, N> {
    fn batch(&self, alloc: Global) -> Result<Self::Batch, AllocError> {
        self.new_batch(alloc)
    }

    fn child(
        alloc: Global,
        batch: &Self::Merkleized,
        keep: Option<u64>,
    ) -> Result<Self::Batch, AllocError> {
        match keep {
            None => MerkleizedBatch::new_batch(batch, alloc),
            Some(n) => MerkleizedBatch::new_batch_keeping(batch, alloc, n as usize),
        }
    }

    fn tip(&self, alloc: Global) -> Result<Self::Merkleized, AllocError> {
        self.to_batch(alloc)
    }
}

impl<
    F: Family,
    C: Store + Drop,
    I: qm_index::Unordered<Value = Location<F>> + Drop,
    U: Steps<F, I>,
    N: Chunks,
> Writing<C> for Db<F, C, I, Sha256, U, N> {
    fn put(
        _alloc: Global,
        batch: Self::Batch,
        key: U::Key,
        value: U::Value,
    ) -> Result<Self::Batch, AllocError> {
        batch.write(key, Some(value))
    }

    fn del(_alloc: Global, batch: Self::Batch, key: U::Key) -> Result<Self::Batch, AllocError> {
        batch.write(key, None)
    }
}
