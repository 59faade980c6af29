//! Staged batches.

use crate::current_mmr::{Database, Inside, Made};
use crate::kind::Kind;
use qm_base::{ByteKey, ByteValue, Error, Location, Resolution};
use qm_chain::Policy;
use qm_index::{Factory, FourCap};
use qm_merkle::mmr;
use qm_offer::Staging;
use qm_store::Store;
use std::alloc::Global;
use std::ops::Range;

impl<
    C: Store + Drop,
    I: Factory<Value = Location<mmr::Family>, Translator = FourCap> + Drop,
    U: Kind<mmr::Family, I, Key = ByteKey, Value = ByteValue>,
> Staging<C> for Database<C, I, U> {
    fn stage(
        &mut self,
        alloc: Global,
        batch: Self::Batch,
        keys: &[ByteKey],
    ) -> Result<(Vec<Option<ByteValue>>, Self::Staged), Error> {
        <Inside<C, I, U> as Staging<C>>::stage(&mut self.db, alloc, batch, keys)
    }

    fn expand(
        &mut self,
        alloc: Global,
        batch: Self::Staged,
        keys: &[ByteKey],
    ) -> Result<(Range<usize>, Vec<Option<ByteValue>>, Self::Staged), Error> {
        <Inside<C, I, U> as Staging<C>>::expand(&mut self.db, alloc, batch, keys)
    }

    fn staged_count(batch: &Self::Staged) -> usize {
        batch.len()
    }

    fn resolve<P: Policy<mmr::Family, ByteKey, ByteValue>>(
        &mut self,
        alloc: Global,
        batch: Self::Staged,
        resolution: &Resolution<ByteKey, ByteValue>,
        policy: &mut P,
        metadata: &Option<ByteValue>,
    ) -> Result<Self::Merkleized, Error> {
        match <Inside<C, I, U> as Staging<C>>::resolve(
            &mut self.db,
            alloc,
            batch,
            resolution,
            policy,
            metadata,
        ) {
            Ok(batch) => Ok(Made { batch }),
            Err(error) => Err(error),
        }
    }
}
