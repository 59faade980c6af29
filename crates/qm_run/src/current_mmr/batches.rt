//! Batches: begun and written.

use crate::current_mmr::{Database, Inside, Made};
use crate::kind::Kind;
use qm_base::{ByteKey, ByteValue, Location};
use qm_index::{Factory, FourCap};
use qm_merkle::mmr;
use qm_offer::{Batching, Writing};
use qm_store::Store;
use std::alloc::{AllocError, Global};

impl<
    C: Store + Drop,
    I: Factory<Value = Location<mmr::Family>, Translator = FourCap> + Drop,
    U: Kind<mmr::Family, I, Key = ByteKey, Value = ByteValue>,
> Batching<C> for Database<C, I, U> {
    fn batch(&self, alloc: Global) -> Result<Self::Batch, AllocError> {
        <Inside<C, I, U> as Batching<C>>::batch(&self.db, alloc)
    }

    fn child(
        alloc: Global,
        batch: &Self::Merkleized,
        keep: Option<u64>,
    ) -> Result<Self::Batch, AllocError> {
        <Inside<C, I, U> as Batching<C>>::child(alloc, &batch.batch, keep)
    }

    fn tip(&self, alloc: Global) -> Result<Self::Merkleized, AllocError> {
        let batch = <Inside<C, I, U> as Batching<C>>::tip(&self.db, alloc)?;
        Ok(Made { batch })
    }
}

impl<
    C: Store + Drop,
    I: Factory<Value = Location<mmr::Family>, Translator = FourCap> + Drop,
    U: Kind<mmr::Family, I, Key = ByteKey, Value = ByteValue>,
> Writing<C> for Database<C, I, U> {
    fn put(
        alloc: Global,
        batch: Self::Batch,
        key: ByteKey,
        value: ByteValue,
    ) -> Result<Self::Batch, AllocError> {
        <Inside<C, I, U> as Writing<C>>::put(alloc, batch, key, value)
    }

    fn del(alloc: Global, batch: Self::Batch, key: ByteKey) -> Result<Self::Batch, AllocError> {
        <Inside<C, I, U> as Writing<C>>::del(alloc, batch, key)
    }
}
