//! Proofs and pins.

use crate::db::Db;
use qm_any::listed;
use qm_base::{Error, Listed, Location, Sha256, Sha256Digest};
use qm_bits::Chunk32;
use qm_chunks::Graftable;
use qm_offer::Proving;
use qm_operations::Update;
use qm_proofs::Proof;
use qm_store::Store;
use std::alloc::Global;
use std::num::NonZeroU64;

impl<
    F: Graftable,
    C: Store + Drop,
    I: qm_index::Unordered<Value = Location<F>> + Drop,
    U: Update,
> Proving<C> for Db<F, C, I, Sha256, U, Chunk32> {
    fn proof(
        &self,
        alloc: Global,
        batch: &Self::Merkleized,
    ) -> Result<(Proof<Sha256Digest>, Vec<Sha256Digest>), Error> {
        let own = batch.any();
        let db = self.any();
        // Its numbers agree.
        own.bounds();
        match own.proof(alloc, db) {
            Ok(proof) => match own.pinned_nodes(alloc, db) {
                Ok(pins) => Ok((proof, pins)),
                Err(error) => Err(error),
            },
            Err(error) => Err(error),
        }
    }

    fn prove(
        &mut self,
        alloc: Global,
        size: u64,
        start: u64,
        max: NonZeroU64,
    ) -> Result<(Proof<Sha256Digest>, Vec<Listed<U::Key, U::Value>>), Error> {
        let (size, start) = (Location::new(size), Location::new(start));
        let (proof, operations) = self.ops_historical_proof(alloc, size, start, max)?;
        let operations = listed(alloc, &operations)?;
        Ok((proof, operations))
    }

    fn pins(&self, alloc: Global, at: u64) -> Result<Vec<Sha256Digest>, Error> {
        // No list is too long.
        self.bounds();
        self.pinned_nodes_at(alloc, Location::new(at))
    }
}
