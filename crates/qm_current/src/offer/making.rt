//! The lists of batches: made, and applied.

use crate::db::Db;
use qm_base::{Error, Location, Sha256, twin_option};
use qm_bits::Chunk32;
use qm_chain::Policy;
use qm_chunks::Graftable;
use qm_offer::Making;
use qm_step::kind::Steps;
use qm_store::{Refusal, Store};
use std::alloc::Global;

impl<
    F: Graftable,
    C: Store + Drop,
    I: qm_index::Unordered<Value = Location<F>> + Drop,
    U: Steps<F, I>,
> Making<C> for Db<F, C, I, Sha256, U, Chunk32> {
    fn merkleize<P: Policy<F, U::Key, U::Value>>(
        &mut self,
        alloc: Global,
        batch: Self::Batch,
        policy: &mut P,
        metadata: &Option<U::Value>,
    ) -> Result<Self::Merkleized, Error> {
        let metadata = twin_option(alloc, metadata)?;
        batch.merkleize(alloc, self, metadata, policy)
    }

    fn apply(self, alloc: Global, batch: &Self::Merkleized) -> Result<Self, Refusal<Self, C>> {
        self.apply_batch(alloc, batch)
    }
}
