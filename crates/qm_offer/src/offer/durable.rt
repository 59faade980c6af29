//! What makes a store last, and what opens and ends a database.

ghost use Rattle.std.specs.Prelude.{◌≡◌, IfOk, IfErr};
ghost use Rattle.qm_model.specs.StoreModel.{settled, IsImage, ReadsAs};
ghost use Rattle.qm_model.specs.Taken.{synced, LeavesSync};
ghost use Rattle.qm_offer.specs.Words.{IsSettling, IsPruned, IsUnpruned, IsDestroying, Opens};

use crate::offer::Common;
use qm_store::{Refusal, Store};
use std::alloc::Global;

/// The calls that open, settle and end a database.
pub trait Durable<C: Store>: Common<C> {
    type Config: Drop;

    /// Opens the longest list of at most `max_size` operations that ends with a commit the store still has; an empty store
    /// becomes a fresh database. It is the instance of this number. What the store has after that list is cut off, and what
    /// remains is made stable. A refusal leaves the store as it was.
    fn open(
        alloc: Global,
        store: C,
        config: &Self::Config,
        max_size: Option<u64>,
        number: u64,
    ) -> Result<Self, Refusal<Self, C>>
        ensures { Opens Self.Meaning C.Store store max_size number result };

    /// Makes the operations stable: from then on a crash leaves them all. A refusal gives back the store.
    fn commit(self) -> Result<Self, Refusal<Self, C>>
        ensures { IsSettling Self.Meaning C.Store (λ list. settled)
            (λ list s. ReadsAs s.stable (IsImage s)) self result };

    /// Makes all that the store holds stable, and a current database writes the metadata that counts its pruned chunks anew. A
    /// refusal gives back the store.
    fn sync(self, alloc: Global) -> Result<Self, Refusal<Self, C>>
        ensures { IsSettling Self.Meaning C.Store (synced Self.scheme) (LeavesSync Self.scheme)
            self result };

    /// Takes the operations before a location away from the store, and makes all others stable first; then a current database
    /// counts in its metadata the chunks of bits that go. The database comes back as it was if the location is past its
    /// boundary; every other refusal gives back the store.
    fn prune(self, alloc: Global, to: u64) -> Result<Self, Refusal<Self, C>>
        ensures pruned { IfOk result (IsPruned Self.Meaning C.Store to self) }
        ensures refused { IfErr result (IsUnpruned Self.Meaning C.Store to self) };

    /// Empties the store. A refusal gives it back.
    fn destroy(self) -> Result<C, Refusal<Self, C>>
        ensures { IsDestroying Self.Meaning C.Store self result };

    /// Lends the store.
    fn store(&self) -> &C
        ensures { result.now ≡ Self.inside self.now };

    /// Gives the store back, as it is.
    fn close(self) -> C
        ensures { result ≡ Self.inside self };
}
