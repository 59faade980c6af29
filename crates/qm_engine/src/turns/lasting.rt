// What makes a store last, and what opens and ends a database. Each takes what is held, and gives what is held then.
ghost use Rattle.std.specs.Prelude.{◌≡◌, ◌+◌, ◌^◌, ◌<◌, ◌≤◌, ℕ};
ghost use Rattle.qm_model.specs.Schemes.{chunks_of};
ghost use Rattle.qm_machine.specs.Lines.{Crash};
ghost use Rattle.qm_machine.specs.Machine as machine;
ghost use Rattle.qm_store.specs.Given.{store_given};
ghost use Rattle.qm_engine.specs.Session.{ObeysHeld, ObeysHeldSteady, LeavesHeld, LeavesHeldSteady, IsOpen, Handles, HandlesLine};
ghost use Rattle.qm_engine.specs.Turn.{given_after, turn_settled};

use crate::session::{Turn, into_store, no_database, turn_of};
use qm_base::Error;
use qm_chain::Policy;
use qm_lines::{Refused, Reply};
use qm_offer::{Common, Durable};
use qm_store::{Given, Refusal, Store};
use std::alloc::Global;

/// Opens what the store keeps, whatever was open, and counts the opening.
pub fn open<X: Durable<C>, C: Store>(
    alloc: Global,
    config: &X::Config,
    held: Given<X, C>,
    opened: &mut u64,
    max_size: Option<u64>,
) -> (Given<X, C>, Turn<X::Key, X::Value, X::Digest>)
    requires { opened.old + 1 < 2 ^ 64 }
    ensures machine { (table : _)
        → ObeysHeldSteady C.Store X.Meaning X.Key.bytes X.Value.bytes X.Digest.bytes table
        opened.old held opened.new result.0 result.1 (λ s. machine.open_store X.scheme s max_size) }
    ensures left { (table : _) (count : ℕ)
        → LeavesHeldSteady C.Store X.Meaning table count held result.0 (λ s.
        machine.open_store X.scheme s max_size) }
    ensures handles { Handles (chunks_of X.scheme) ⊥ C.Store (store_given X.inside held)
        (store_given X.inside result.0) result.1 }
    ensures opened { opened.new ≤ opened.old + 1 }
{
    let store = into_store::<X, C>(held);
    match X::open(alloc, store, config, max_size, *opened + 1) {
        Ok(x) => {
            let numbers = x.info();
            *opened += 1;
            let reply = Reply::Opened(*opened, numbers.start, numbers.size);
            (Given::Database(x), Turn::Reply(reply))
        }
        Err(Refusal { given, error }) => (given, turn_of(error)),
    }
}

/// A store without a database, as it is.
pub fn without_database<X: Common<C>, C: Store>(
    store: C,
) -> (Given<X, C>, Turn<X::Key, X::Value, X::Digest>)
    ensures given { result.0 ≡ Given.Store store }
    ensures turn { result.1 ≡ Turn.Reply (Reply.Refused Refused.NoDatabase) }
{
    (Given::Store(store), no_database())
}

// What a commit, a sync or a prune came to.
fn settled<X: Common<C>, C: Store>(
    settling: Result<X, Refusal<X, C>>,
) -> (Given<X, C>, Turn<X::Key, X::Value, X::Digest>)
    ensures given { result.0 ≡ given_after settling }
    ensures turn { result.1 ≡ turn_settled settling }
{
    match settling {
        Ok(x) => (Given::Database(x), Turn::Reply(Reply::Done)),
        Err(Refusal { given, error }) => (given, turn_of(error)),
    }
}

/// Makes the operations stable.
pub fn commit<X: Durable<C>, C: Store>(
    held: Given<X, C>,
) -> (Given<X, C>, Turn<X::Key, X::Value, X::Digest>)
    ensures machine { (table : _) (count : ℕ)
        → ObeysHeld C.Store X.Meaning X.Key.bytes X.Value.bytes X.Digest.bytes table count held
        result.0 result.1 machine.commit }
    ensures left { (table : _) (count : ℕ)
        → LeavesHeldSteady C.Store X.Meaning table count held result.0 machine.commit }
    ensures handles { Handles (chunks_of X.scheme) ⊥ C.Store (store_given X.inside held)
        (store_given X.inside result.0) result.1 }
{
    match held {
        Given::Store(store) => without_database::<X, C>(store),
        Given::Database(x) => settled::<X, C>(x.commit()),
    }
}

/// Makes all that the store holds stable.
pub fn sync<X: Durable<C>, C: Store>(
    alloc: Global,
    held: Given<X, C>,
) -> (Given<X, C>, Turn<X::Key, X::Value, X::Digest>)
    ensures machine { (table : _) (count : ℕ)
        → ObeysHeldSteady C.Store X.Meaning X.Key.bytes X.Value.bytes X.Digest.bytes table count
        held count result.0 result.1 machine.commit }
    ensures left { (table : _) (count : ℕ)
        → LeavesHeldSteady C.Store X.Meaning table count held result.0 machine.commit }
    ensures handles { Handles (chunks_of X.scheme) ⊥ C.Store (store_given X.inside held)
        (store_given X.inside result.0) result.1 }
{
    match held {
        Given::Store(store) => without_database::<X, C>(store),
        Given::Database(x) => settled::<X, C>(x.sync(alloc)),
    }
}

/// Takes the operations before a location away, and makes all others stable.
pub fn prune<X: Durable<C>, C: Store>(
    alloc: Global,
    held: Given<X, C>,
    to: u64,
) -> (Given<X, C>, Turn<X::Key, X::Value, X::Digest>)
    ensures machine { (table : _) (count : ℕ)
        → ObeysHeldSteady C.Store X.Meaning X.Key.bytes X.Value.bytes X.Digest.bytes table count
        held count result.0 result.1 (λ s. machine.prune X.scheme s to) }
    ensures left { (table : _) (count : ℕ)
        → LeavesHeldSteady C.Store X.Meaning table count held result.0 (λ s.
        machine.prune X.scheme s to) }
    ensures handles { Handles (chunks_of X.scheme) ⊥ C.Store (store_given X.inside held)
        (store_given X.inside result.0) result.1 }
{
    match held {
        Given::Store(store) => without_database::<X, C>(store),
        Given::Database(x) => settled::<X, C>(x.prune(alloc, to)),
    }
}

/// Closes the database.
pub fn close<X: Durable<C>, C: Store>(
    held: Given<X, C>,
) -> (Given<X, C>, Turn<X::Key, X::Value, X::Digest>)
    ensures machine { (table : _) (count : ℕ)
        → ObeysHeld C.Store X.Meaning X.Key.bytes X.Value.bytes X.Digest.bytes table count held
        result.0 result.1 machine.close }
    ensures left { (table : _) (count : ℕ)
        → LeavesHeld C.Store X.Meaning table count held result.0 machine.close }
    ensures handles { Handles (chunks_of X.scheme) ⊥ C.Store (store_given X.inside held)
        (store_given X.inside result.0) result.1 }
{
    match held {
        Given::Store(store) => without_database::<X, C>(store),
        Given::Database(x) => (Given::Store(x.close()), Turn::Reply(Reply::Done)),
    }
}

/// Closes the database, and empties the store.
pub fn destroy<X: Durable<C>, C: Store>(
    held: Given<X, C>,
) -> (Given<X, C>, Turn<X::Key, X::Value, X::Digest>)
    ensures machine { (table : _) (count : ℕ)
        → ObeysHeld C.Store X.Meaning X.Key.bytes X.Value.bytes X.Digest.bytes table count held
        result.0 result.1 machine.destroy }
    ensures left { (table : _) (count : ℕ)
        → LeavesHeldSteady C.Store X.Meaning table count held result.0 machine.destroy }
    ensures handles { Handles (chunks_of X.scheme) (IsOpen held) C.Store (store_given X.inside held)
        (store_given X.inside result.0) result.1 }
{
    match held {
        Given::Store(store) => without_database::<X, C>(store),
        Given::Database(x) => match x.destroy() {
            Ok(store) => (Given::Store(store), Turn::Reply(Reply::Done)),
            Err(Refusal { given, error }) => (given, turn_of(error)),
        },
    }
}

/// Closes what is open, and has the store go through a crash, with the end that is asked for.
pub fn crash<X: Durable<C>, C: Store, P: Policy<X::Family, X::Key, X::Value>>(
    held: Given<X, C>,
    keep: u64,
) -> (Given<X, C>, Turn<X::Key, X::Value, X::Digest>)
    ensures machine { (table : _) (count : ℕ)
        → ObeysHeldSteady C.Store X.Meaning X.Key.bytes X.Value.bytes X.Digest.bytes table count
        held count result.0 result.1 machine.crash }
    ensures left { (table : _) (count : ℕ)
        → LeavesHeldSteady C.Store X.Meaning table count held result.0 machine.crash }
    ensures handles { HandlesLine {P = P} (chunks_of X.scheme) C.Store (Crash keep)
        (store_given X.inside held) (store_given X.inside result.0) result.1 }
{
    let mut store = into_store::<X, C>(held);
    match store.restart(keep) {
        Ok(()) => (Given::Store(store), Turn::Reply(Reply::Done)),
        Err(error) => (Given::Store(store), turn_of(Error::from(error))),
    }
}
