//! Proofs and pins.

use crate::db::Db;
use crate::offer::listed::listed;
use qm_base::{Error, Listed, Location, Sha256, Sha256Digest};
use qm_bits::Chunks;
use qm_merkle::Family;
use qm_offer::Proving;
use qm_operations::Update;
use qm_proofs::Proof;
use qm_store::Store;
use std::alloc::Global;
use std::num::NonZeroU64;

impl<
    F: Family,
    C: Store + Drop,
    I: qm_index::Unordered<Value = Location<F>> + Drop,
    U: Update,
    N: Chunks,
> Proving<C> for Db<F, C, I, Sha256, U, N> {
    fn proof(
        &self,
        alloc: Global,
        batch: &Self::Merkleized,
    ) -> Result<(Proof<Sha256Digest>, Vec<Sha256Digest>), Error> {
        // Its numbers agree.
        batch.bounds();
        match batch.proof(alloc, self) {
            Ok(proof) => match batch.pinned_nodes(alloc, self) {
                Ok(pins) => Ok((proof, pins)),
                Err(error) => Err(error),
            },
            Err(error) => Err(error),
        }
    }

    fn prove(
        &mut self,
        alloc: Global,
        size: u64,
        start: u64,
        max: NonZeroU64,
    ) -> Result<(Proof<Sha256Digest>, Vec<Listed<U::Key, U::Value>>), Error> {
        let (size, start) = (Location::new(size), Location::new(start));
        let (proof, operations) = self.historical_proof(alloc, size, start, max)?;
        let operations = listed(alloc, &operations)?;
        Ok((proof, operations))
    }

    fn pins(&self, alloc: Global, at: u64) -> Result<Vec<Sha256Digest>, Error> {
        // No list is too long.
        self.bounds();
        self.pinned_nodes_at(alloc, Location::new(at))
    }
}
