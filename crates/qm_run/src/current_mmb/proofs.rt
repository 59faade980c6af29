//! Proofs and pins.

use crate::current_mmb::{Database, Inside};
use crate::kind::Kind;
use qm_base::{ByteKey, ByteValue, Error, Listed, Location, Sha256Digest};
use qm_index::{Factory, FourCap};
use qm_merkle::mmb;
use qm_offer::Proving;
use qm_proofs::Proof;
use qm_store::Store;
use std::alloc::Global;
use std::num::NonZeroU64;

impl<
    C: Store + Drop,
    I: Factory<Value = Location<mmb::Family>, Translator = FourCap> + Drop,
    U: Kind<mmb::Family, I, Key = ByteKey, Value = ByteValue>,
> Proving<C> for Database<C, I, U> {
    fn proof(
        &self,
        alloc: Global,
        batch: &Self::Merkleized,
    ) -> Result<(Proof<Sha256Digest>, Vec<Sha256Digest>), Error> {
        <Inside<C, I, U> as Proving<C>>::proof(&self.db, alloc, &batch.batch)
    }

    fn prove(
        &mut self,
        alloc: Global,
        size: u64,
        start: u64,
        max: NonZeroU64,
    ) -> Result<(Proof<Sha256Digest>, Vec<Listed<ByteKey, ByteValue>>), Error> {
        <Inside<C, I, U> as Proving<C>>::prove(&mut self.db, alloc, size, start, max)
    }

    fn pins(&self, alloc: Global, at: u64) -> Result<Vec<Sha256Digest>, Error> {
        <Inside<C, I, U> as Proving<C>>::pins(&self.db, alloc, at)
    }
}
