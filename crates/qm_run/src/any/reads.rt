//! Reads of a database, and of its batches.

use crate::any::{Database, Inside};
use crate::kind::Kind;
use qm_base::{ByteKey, ByteValue, Error, Listed, Location, Sha256Digest};
use qm_index::{Factory, FourCap};
use qm_merkle::Family;
use qm_offer::{Reading, Roots};
use qm_store::Store;
use std::alloc::{AllocError, Global};

impl<
    F: Family,
    C: Store + Drop,
    I: Factory<Value = Location<F>, Translator = FourCap> + Drop,
    U: Kind<F, I, Key = ByteKey, Value = ByteValue>,
> Reading<C> for Database<F, C, I, U> {
    fn batch_root(batch: &Self::Merkleized) -> Roots<Sha256Digest> {
        <Inside<F, C, I, U> as Reading<C>>::batch_root(batch)
    }

    fn ops(
        alloc: Global,
        batch: &Self::Merkleized,
    ) -> Result<(u64, Vec<Listed<ByteKey, ByteValue>>), AllocError> {
        <Inside<F, C, I, U> as Reading<C>>::ops(alloc, batch)
    }

    fn evicted(
        alloc: Global,
        batch: &Self::Merkleized,
    ) -> Result<Vec<(ByteKey, ByteValue)>, AllocError> {
        <Inside<F, C, I, U> as Reading<C>>::evicted(alloc, batch)
    }

    fn get(&mut self, alloc: Global, keys: &[ByteKey]) -> Result<Vec<Option<ByteValue>>, Error> {
        <Inside<F, C, I, U> as Reading<C>>::get(&mut self.db, alloc, keys)
    }

    fn get_through(
        &mut self,
        alloc: Global,
        batch: &Self::Batch,
        keys: &[ByteKey],
    ) -> Result<Vec<Option<ByteValue>>, Error> {
        <Inside<F, C, I, U> as Reading<C>>::get_through(&mut self.db, alloc, batch, keys)
    }

    fn get_from(
        &mut self,
        alloc: Global,
        batch: &Self::Merkleized,
        keys: &[ByteKey],
    ) -> Result<Vec<Option<ByteValue>>, Error> {
        <Inside<F, C, I, U> as Reading<C>>::get_from(&mut self.db, alloc, batch, keys)
    }

    fn root(&self) -> Roots<Sha256Digest> {
        <Inside<F, C, I, U> as Reading<C>>::root(&self.db)
    }

    fn metadata(&self, alloc: Global) -> Result<Option<ByteValue>, AllocError> {
        <Inside<F, C, I, U> as Reading<C>>::metadata(&self.db, alloc)
    }
}
