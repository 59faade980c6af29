//! What opens, settles and ends a current database.

use crate::config::Config;
use crate::db::Db;
use crate::open::init;
use qm_base::{Error, Location, Sha256};
use qm_bits::Chunk32;
use qm_chunks::Graftable;
use qm_index::{Factory, FourCap};
use qm_offer::Durable;
use qm_operations::Update;
use qm_store::{Given, Refusal, Store};
use std::alloc::Global;

impl<
    F: Graftable,
    C: Store + Drop,
    I: Factory<Value = Location<F>, Translator = FourCap> + Drop,
    U: Update,
> Durable<C> for Db<F, C, I, Sha256, U, Chunk32> {
    type Config = qm_any::Config<FourCap, ()>;

    fn open(
        alloc: Global,
        store: C,
        config: &Self::Config,
        max_size: Option<u64>,
        number: u64,
    ) -> Result<Self, Refusal<Self, C>> {
        let config = Config {
            translator: config.translator,
            init_cache: config.init_cache,
            init_concurrency: (),
            metadata: "grafted",
            instance: number,
        };
        init(alloc, store, Sha256::new(), config, max_size)
    }

    fn commit(self) -> Result<Self, Refusal<Self, C>> {
        self.commit()
    }

    fn sync(self, alloc: Global) -> Result<Self, Refusal<Self, C>> {
        self.named("grafted").sync(alloc)
    }

    fn prune(self, alloc: Global, to: u64) -> Result<Self, Refusal<Self, C>> {
        let boundary = self.sync_boundary().get();
        if to > boundary {
            let error = Error::PruneBeyondMinRequired(to, boundary);
            return Err(Refusal {
                given: Given::Database(self),
                error,
            });
        }
        // The log is kept from where its store is.
        self.any.bounds();
        match self.named("grafted").prune(alloc, Location::new(to)) {
            Ok(db) => {
                db.any.bounds();
                Ok(db)
            }
            Err(refused) => Err(refused),
        }
    }

    fn destroy(self) -> Result<C, Refusal<Self, C>> {
        self.destroy()
    }

    fn store(&self) -> &C {
        self.store()
    }

    fn close(self) -> C {
        self.close()
    }
}
