//! The lists of batches: made, and applied.

use crate::db::Db;
use qm_base::{Error, Location, Sha256, twin_option};
use qm_bits::Chunks;
use qm_chain::Policy;
use qm_merkle::Family;
use qm_offer::Making;
use qm_step::kind::Steps;
use qm_store::{Refusal, Store};
use std::alloc::Global;

impl<
    F: Family,
    C: Store + Drop,
    I: qm_index::Unordered<Value = Location<F>> + Drop,
    U: Steps<F, I>,
    N: Chunks,
> Making<C> for Db<F, C, I, Sha256, U, N> {
    fn merkleize<P: Policy<F, U::Key, U::Value>>(
        &mut self,
        alloc: Global,
        batch: Self::Batch,
        policy: &mut P,
        metadata: &Option<U::Value>,
    ) -> Result<Self::Merkleized, Error> {
        let metadata = twin_option(alloc, metadata)?;
        batch.merkleize(alloc, self, metadata, policy)
    }

    fn apply(self, alloc: Global, batch: &Self::Merkleized) -> Result<Self, Refusal<Self, C>> {
        self.apply_batch(alloc, batch)
    }
}
