//! What opens, settles and ends a database.

use crate::current_mmb::{Database, Inside};
use crate::kind::Kind;
use qm_any::Config;
use qm_base::{ByteKey, ByteValue, Location};
use qm_index::{Factory, FourCap};
use qm_merkle::mmb;
use qm_offer::Durable;
use qm_store::{Given, Refusal, Store};
use std::alloc::Global;

impl<
    C: Store + Drop,
    I: Factory<Value = Location<mmb::Family>, Translator = FourCap> + Drop,
    U: Kind<mmb::Family, I, Key = ByteKey, Value = ByteValue>,
> Durable<C> for Database<C, I, U> {
    type Config = Config<FourCap, ()>;

    fn open(
        alloc: Global,
        store: C,
        config: &Self::Config,
        max_size: Option<u64>,
        number: u64,
    ) -> Result<Self, Refusal<Self, C>> {
        match <Inside<C, I, U> as Durable<C>>::open(alloc, store, config, max_size, number) {
            Ok(db) => Ok(Database { db }),
            Err(refused) => {
                let Refusal { given, error } = refused;
                match given {
                    Given::Database(db) => Err(Refusal {
                        given: Given::Database(Database { db }),
                        error,
                    }),
                    Given::Store(store) => Err(Refusal {
                        given: Given::Store(store),
                        error,
                    }),
                }
            }
        }
    }

    fn commit(self) -> Result<Self, Refusal<Self, C>> {
        match <Inside<C, I, U> as Durable<C>>::commit(self.db) {
            Ok(db) => Ok(Database { db }),
            Err(refused) => {
                let Refusal { given, error } = refused;
                match given {
                    Given::Database(db) => Err(Refusal {
                        given: Given::Database(Database { db }),
                        error,
                    }),
                    Given::Store(store) => Err(Refusal {
                        given: Given::Store(store),
                        error,
                    }),
                }
            }
        }
    }

    fn sync(self, alloc: Global) -> Result<Self, Refusal<Self, C>> {
        match <Inside<C, I, U> as Durable<C>>::sync(self.db, alloc) {
            Ok(db) => Ok(Database { db }),
            Err(refused) => {
                let Refusal { given, error } = refused;
                match given {
                    Given::Database(db) => Err(Refusal {
                        given: Given::Database(Database { db }),
                        error,
                    }),
                    Given::Store(store) => Err(Refusal {
                        given: Given::Store(store),
                        error,
                    }),
                }
            }
        }
    }

    fn prune(self, alloc: Global, to: u64) -> Result<Self, Refusal<Self, C>> {
        match <Inside<C, I, U> as Durable<C>>::prune(self.db, alloc, to) {
            Ok(db) => Ok(Database { db }),
            Err(refused) => {
                let Refusal { given, error } = refused;
                match given {
                    Given::Database(db) => Err(Refusal {
                        given: Given::Database(Database { db }),
                        error,
                    }),
                    Given::Store(store) => Err(Refusal {
                        given: Given::Store(store),
                        error,
                    }),
                }
            }
        }
    }

    fn destroy(self) -> Result<C, Refusal<Self, C>> {
        match <Inside<C, I, U> as Durable<C>>::destroy(self.db) {
            Ok(store) => Ok(store),
            Err(refused) => {
                let Refusal { given, error } = refused;
                match given {
                    Given::Database(db) => Err(Refusal {
                        given: Given::Database(Database { db }),
                        error,
                    }),
                    Given::Store(store) => Err(Refusal {
                        given: Given::Store(store),
                        error,
                    }),
                }
            }
        }
    }

    fn store(&self) -> &C {
        self.db.store()
    }

    fn close(self) -> C {
        self.db.close()
    }
}
