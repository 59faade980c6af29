//! The lists of batches: made, and applied.

use crate::any::{Database, Inside};
use crate::kind::Kind;
use qm_base::{ByteKey, ByteValue, Error, Location};
use qm_chain::Policy;
use qm_index::{Factory, FourCap};
use qm_merkle::Family;
use qm_offer::Making;
use qm_store::{Given, Refusal, Store};
use std::alloc::Global;

impl<
    F: Family,
    C: Store + Drop,
    I: Factory<Value = Location<F>, Translator = FourCap> + Drop,
    U: Kind<F, I, Key = ByteKey, Value = ByteValue>,
> Making<C> for Database<F, C, I, U> {
    fn merkleize<P: Policy<F, ByteKey, ByteValue>>(
        &mut self,
        alloc: Global,
        batch: Self::Batch,
        policy: &mut P,
        metadata: &Option<ByteValue>,
    ) -> Result<Self::Merkleized, Error> {
        <Inside<F, C, I, U> as Making<C>>::merkleize(&mut self.db, alloc, batch, policy, metadata)
    }

    fn apply(self, alloc: Global, batch: &Self::Merkleized) -> Result<Self, Refusal<Self, C>> {
        match <Inside<F, C, I, U> as Making<C>>::apply(self.db, alloc, batch) {
            Ok(db) => Ok(Database { db }),
            Err(refused) => {
                let Refusal { given, error } = refused;
                match given {
                    Given::Database(db) => Err(Refusal {
                        given: Given::Database(Database { db }),
                        error,
                    }),
                    Given::Store(store) => Err(Refusal {
                        given: Given::Store(store),
                        error,
                    }),
                }
            }
        }
    }
}
