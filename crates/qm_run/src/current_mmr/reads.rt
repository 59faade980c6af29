//! Reads of a database, and of its batches.

use crate::current_mmr::{Database, Inside};
use crate::kind::Kind;
use qm_base::{ByteKey, ByteValue, Error, Listed, Location, Sha256Digest};
use qm_index::{Factory, FourCap};
use qm_merkle::mmr;
use qm_offer::{Reading, Roots};
use qm_store::Store;
use std::alloc::{AllocError, Global};

impl<
    C: Store + Drop,
    I: Factory<Value = Location<mmr::Family>, Translator = FourCap> + Drop,
    U: Kind<mmr::Family, I, Key = ByteKey, Value = ByteValue>,
> Reading<C> for Database<C, I, U> {
    fn batch_root(batch: &Self::Merkleized) -> Roots<Sha256Digest> {
        <Inside<C, I, U> as Reading<C>>::batch_root(&batch.batch)
    }

    fn ops(
        alloc: Global,
        batch: &Self::Merkleized,
    ) -> Result<(u64, Vec<Listed<ByteKey, ByteValue>>), AllocError> {
        <Inside<C, I, U> as Reading<C>>::ops(alloc, &batch.batch)
    }

    fn evicted(
        alloc: Global,
        batch: &Self::Merkleized,
    ) -> Result<Vec<(ByteKey, ByteValue)>, AllocError> {
        <Inside<C, I, U> as Reading<C>>::evicted(alloc, &batch.batch)
    }

    fn get(&mut self, alloc: Global, keys: &[ByteKey]) -> Result<Vec<Option<ByteValue>>, Error> {
        <Inside<C, I, U> as Reading<C>>::get(&mut self.db, alloc, keys)
    }

    fn get_through(
        &mut self,
        alloc: Global,
        batch: &Self::Batch,
        keys: &[ByteKey],
    ) -> Result<Vec<Option<ByteValue>>, Error> {
        <Inside<C, I, U> as Reading<C>>::get_through(&mut self.db, alloc, batch, keys)
    }

    fn get_from(
        &mut self,
        alloc: Global,
        batch: &Self::Merkleized,
        keys: &[ByteKey],
    ) -> Result<Vec<Option<ByteValue>>, Error> {
        <Inside<C, I, U> as Reading<C>>::get_from(&mut self.db, alloc, &batch.batch, keys)
    }

    fn root(&self) -> Roots<Sha256Digest> {
        <Inside<C, I, U> as Reading<C>>::root(&self.db)
    }

    fn metadata(&self, alloc: Global) -> Result<Option<ByteValue>, AllocError> {
        <Inside<C, I, U> as Reading<C>>::metadata(&self.db, alloc)
    }
}
