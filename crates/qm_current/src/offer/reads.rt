//! Reads of a database, and of its batches.

use crate::db::Db;
use qm_any::{listed, twin_pairs};
use qm_base::{Error, Listed, Location, Sha256, Sha256Digest};
use qm_bits::Chunk32;
use qm_chunks::Graftable;
use qm_offer::{Reading, Roots};
use qm_operations::Update;
use qm_store::Store;
use std::alloc::{AllocError, Global};

impl<
    F: Graftable,
    C: Store + Drop,
    I: qm_index::Unordered<Value = Location<F>> + Drop,
    U: Update,
> Reading<C> for Db<F, C, I, Sha256, U, Chunk32> {
    fn batch_root(batch: &Self::Merkleized) -> Roots<Sha256Digest> {
        Roots {
            root: batch.root(),
            operations: batch.ops_root(),
        }
    }

    fn ops(
        alloc: Global,
        batch: &Self::Merkleized,
    ) -> Result<(u64, Vec<Listed<U::Key, U::Value>>), AllocError> {
        let (base, own) = batch.operations();
        let own = listed(alloc, own)?;
        Ok((base.get(), own))
    }

    fn evicted(
        alloc: Global,
        batch: &Self::Merkleized,
    ) -> Result<Vec<(U::Key, U::Value)>, AllocError> {
        twin_pairs(alloc, batch.evicted())
    }

    fn get(&mut self, alloc: Global, keys: &[U::Key]) -> Result<Vec<Option<U::Value>>, Error> {
        self.get_many(alloc, keys)
    }

    fn get_through(
        &mut self,
        alloc: Global,
        batch: &Self::Batch,
        keys: &[U::Key],
    ) -> Result<Vec<Option<U::Value>>, Error> {
        batch.get_many(alloc, keys, self)
    }

    fn get_from(
        &mut self,
        alloc: Global,
        batch: &Self::Merkleized,
        keys: &[U::Key],
    ) -> Result<Vec<Option<U::Value>>, Error> {
        batch.get_many(alloc, keys, self)
    }

    fn root(&self) -> Roots<Sha256Digest> {
        Roots {
            root: self.root(),
            operations: self.ops_root(),
        }
    }

    fn metadata(&self, alloc: Global) -> Result<Option<U::Value>, AllocError> {
        self.get_metadata(alloc)
    }
}
