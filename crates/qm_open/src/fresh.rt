//! How a fresh list begins: its root, and the empty log that it is put into.

ghost use Rattle.std.specs.Prelude.{◌≡◌, ◌∷◌, [], IfOk, IfErr};
ghost use Rattle.qm_model.specs.Operations.{fresh};
ghost use Rattle.qm_model.specs.Trees as trees;
ghost use Rattle.qm_store.specs.Log as logs;
ghost use Rattle.qm_open.specs.Opened.{IsEmptyLog, IsNoLog};

use qm_base::{Digest, Hasher, Location, Spelled, eight_bytes};
use qm_merkle::{Family, StandardHasher};
use qm_operations::{Operation, Update};
use qm_store::{AuthLog, Given, LogGiven, Refusal, Store};
use std::alloc::Global;

/// The hasher of operations roots and proofs over a hasher of messages.
pub fn hasher<H: Hasher>(inner: H) -> StandardHasher<H>
    ensures { result ≡ 0 }
{
    StandardHasher::new(inner)
}

/// The operations root of a fresh database: of a list of one commit without metadata and with floor 0. It takes no memory.
pub fn initial_root<F: Family, H: Hasher + Drop, U: Update>(inner: H) -> H::Digest
    ensures { H.Digest.bytes result ≡ trees.ops_root H.hash F.shape U.form fresh }
{
    let mut hasher = inner;
    let first: Operation<F, U> = Operation::CommitFloor(None, Location::new(0));
    let position = F::location_to_position(Location::new(0));
    let leaf = leaf_of(&mut hasher, position.get(), &first);
    root_of_one(&mut hasher, &leaf)
}

// The digest of a leaf.
fn leaf_of<H: Hasher, E: Spelled>(hasher: &mut H, position: u64, element: &E) -> H::Digest
    ensures { H.Digest.bytes result ≡ trees.leaf_digest H.hash position (E.spelling element.now) }
{
    hasher.start();
    hasher.update(&eight_bytes(position));
    element.feed(hasher);
    hasher.finish()
}

// The root of a tree of one leaf, which is active.
#[tactic(auto, using(std::proofs::Common::append_assoc))]
fn root_of_one<H: Hasher>(hasher: &mut H, leaf: &H::Digest) -> H::Digest
    ensures { H.Digest.bytes result ≡ trees.root_of H.hash 1 0 (H.Digest.bytes leaf.now ∷ []) }
{
    hasher.start();
    hasher.update(&eight_bytes(1));
    hasher.update(&eight_bytes(0));
    hasher.update(leaf.bytes());
    hasher.finish()
}

/// The store that a log gave back.
pub fn store_of<F: Family, C: Store, H: Hasher + Drop>(given: LogGiven<AuthLog<F, C, H>, C>) -> C
    ensures { result ≡ logs.store_given given }
{
    match given {
        LogGiven::Log(log) => log.close(),
        LogGiven::Store(store) => store,
    }
}

/// An empty log over an empty store. A refusal gives back the store; that of a head with a byte leaves it as it was.
pub fn empty_log<F: Family, C: Store, H: Hasher + Drop, X: Drop>(
    alloc: Global,
    store: C,
    hasher: H,
) -> Result<AuthLog<F, C, H>, Refusal<X, C>>
    requires start { C.start store ≡ 0 }
    requires empty { C.end store ≡ 0 }
    ensures made { IfOk result (IsEmptyLog C.Store F.shape H.Digest.bytes H.hash store) }
    ensures refused { IfErr result (IsNoLog C.Store store) }
{
    match AuthLog::open(alloc, store, hasher, 0) {
        Ok(log) => {
            // The tree is whole, so it has no pins.
            log.tree().bounds();
            Ok(log)
        }
        Err(refusal) => Err(Refusal {
            given: Given::Store(store_of(refusal.given)),
            error: refusal.error,
        }),
    }
}
