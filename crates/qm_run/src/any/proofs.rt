//! Proofs and pins.

use crate::any::{Database, Inside};
use crate::kind::Kind;
use qm_base::{ByteKey, ByteValue, Error, Listed, Location, Sha256Digest};
use qm_index::{Factory, FourCap};
use qm_merkle::Family;
use qm_offer::Proving;
use qm_proofs::Proof;
use qm_store::Store;
use std::alloc::Global;
use std::num::NonZeroU64;

impl<
    F: Family,
    C: Store + Drop,
    I: Factory<Value = Location<F>, Translator = FourCap> + Drop,
    U: Kind<F, I, Key = ByteKey, Value = ByteValue>,
> Proving<C> for Database<F, C, I, U> {
    fn proof(
        &self,
        alloc: Global,
        batch: &Self::Merkleized,
    ) -> Result<(Proof<Sha256Digest>, Vec<Sha256Digest>), Error> {
        <Inside<F, C, I, U> as Proving<C>>::proof(&self.db, alloc, batch)
    }

    fn prove(
        &mut self,
        alloc: Global,
        size: u64,
        start: u64,
        max: NonZeroU64,
    ) -> Result<(Proof<Sha256Digest>, Vec<Listed<ByteKey, ByteValue>>), Error> {
        <Inside<F, C, I, U> as Proving<C>>::prove(&mut self.db, alloc, size, start, max)
    }

    fn pins(&self, alloc: Global, at: u64) -> Result<Vec<Sha256Digest>, Error> {
        <Inside<F, C, I, U> as Proving<C>>::pins(&self.db, alloc, at)
    }
}
