//! Staged batches.

use crate::db::Db;
use crate::offer::listed::twin_keys;
use qm_base::{Error, Location, Resolution, Sha256, twin_option};
use qm_bits::Chunks;
use qm_chain::Policy;
use qm_merkle::Family;
use qm_offer::Staging;
use qm_step::kind::Steps;
use qm_store::Store;
use std::alloc::Global;
use std::ops::Range;

impl<
    F: Family,
    C: Store + Drop,
    I: qm_index::Unordered<Value = Location<F>> + Drop,
    U: Steps<F, I>,
    N: Chunks,
> Staging<C> for Db<F, C, I, Sha256, U, N> {
    fn stage(
        &mut self,
        alloc: Global,
        batch: Self::Batch,
        keys: &[U::Key],
    ) -> Result<(Vec<Option<U::Value>>, Self::Staged), Error> {
        match twin_keys(alloc, keys) {
            Ok(keys) => batch.stage(alloc, keys, self),
            Err(_) => Err(Error::Memory),
        }
    }

    fn expand(
        &mut self,
        alloc: Global,
        batch: Self::Staged,
        keys: &[U::Key],
    ) -> Result<(Range<usize>, Vec<Option<U::Value>>, Self::Staged), Error> {
        match twin_keys(alloc, keys) {
            Ok(keys) => batch.expand(alloc, keys, self),
            Err(_) => Err(Error::Memory),
        }
    }

    fn staged_count(batch: &Self::Staged) -> usize {
        batch.len()
    }

    fn resolve<P: Policy<F, U::Key, U::Value>>(
        &mut self,
        alloc: Global,
        batch: Self::Staged,
        resolution: &Resolution<U::Key, U::Value>,
        policy: &mut P,
        metadata: &Option<U::Value>,
    ) -> Result<Self::Merkleized, Error> {
        let metadata = twin_option(alloc, metadata)?;
        batch.merkleize(
            alloc,
            &resolution.slots,
            &resolution.others,
            self,
            metadata,
            policy,
        )
    }
}
