//! What opens, settles and ends a database.

use crate::db::Db;
use crate::open::init;
use qm_base::{Location, Sha256};
use qm_bits::Chunks;
use qm_index::{Factory, FourCap};
use qm_merkle::Family;
use qm_offer::Durable;
use qm_open::Config;
use qm_operations::Update;
use qm_store::{Refusal, Store};
use std::alloc::Global;

impl<
    F: Family,
    C: Store + Drop,
    I: Factory<Value = Location<F>, Translator = FourCap> + Drop,
    U: Update,
    N: Chunks,
> Durable<C> for Db<F, C, I, Sha256, U, N> {
    type Config = Config<FourCap, ()>;

    fn open(
        alloc: Global,
        store: C,
        config: &Self::Config,
        max_size: Option<u64>,
        _number: u64,
    ) -> Result<Self, Refusal<Self, C>> {
        let config = Config {
            translator: config.translator,
            init_cache: config.init_cache,
            init_concurrency: (),
        };
        init(alloc, store, Sha256::new(), config, max_size)
    }

    fn commit(self) -> Result<Self, Refusal<Self, C>> {
        self.commit()
    }

    fn sync(self, _alloc: Global) -> Result<Self, Refusal<Self, C>> {
        self.sync()
    }

    fn prune(self, alloc: Global, to: u64) -> Result<Self, Refusal<Self, C>> {
        // The log is kept from where its store is.
        self.bounds();
        match self.prune(alloc, Location::new(to)) {
            Ok(db) => {
                db.bounds();
                Ok(db)
            }
            Err(refused) => Err(refused),
        }
    }

    fn destroy(self) -> Result<C, Refusal<Self, C>> {
        self.destroy()
    }

    fn store(&self) -> &C {
        self.store()
    }

    fn close(self) -> C {
        self.close()
    }
}
