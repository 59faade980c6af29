// Commands that prove.
ghost use Rattle.std.specs.Prelude.{◌≡◌, ◌≢◌};
ghost use Rattle.std.specs.Int.NonZero.{non_zero_u64_get};
ghost use Rattle.qm_machine.specs.Machine as machine;
ghost use Rattle.qm_store.specs.Given.{store_given, IsUnchanged};
ghost use Rattle.qm_engine.specs.Session.{Obeys, Tells, Uses};

use crate::session::{SessionOf, Turn, no_database, no_such_handle, turn_of};
use crate::table::merkleized_at;
use qm_lines::{Refused, Reply};
use qm_offer::{Common, Proving};
use qm_proofs::Proof;
use qm_store::{Given, Store};
use std::alloc::Global;
use std::num::NonZeroU64;

/// The proof of a merkleized batch's own operations, and the pins at the list that it was made from. A current database offers
/// none.
pub fn batch_proof<X: Proving<C>, C: Store>(
    alloc: Global,
    session: &SessionOf<X, C>,
    number: u64,
) -> Turn<X::Key, X::Value, X::Digest>
    ensures machine { Tells C.Store X.Meaning X.Key.bytes X.Value.bytes X.Digest.bytes session.now
        result (λ s. machine.batch_proof X.scheme s number) }
    ensures never { result ≢ Turn.StoreFault }
{
    if X::is_current() {
        return Turn::Reply(Reply::Refused(Refused::NotOffered));
    }
    let Given::Database(x) = &session.held else {
        return no_database();
    };
    let Some(batch) = merkleized_at(&session.table, number) else {
        return no_such_handle(number);
    };
    match x.proof(alloc, batch) {
        Ok((proof, pins)) => {
            let Proof {
                leaves,
                inactive_peaks,
                digests,
            } = proof;
            Turn::Reply(Reply::BatchProof(leaves, inactive_peaks as u64, digests, pins))
        }
        Err(error) => turn_of(error),
    }
}

/// Operations from `start` on, at most `max`, and their proof in the list of the first `size` operations.
pub fn prove<X: Proving<C>, C: Store>(
    alloc: Global,
    session: &mut SessionOf<X, C>,
    size: u64,
    start: u64,
    max: NonZeroU64,
) -> Turn<X::Key, X::Value, X::Digest>
    ensures machine { Obeys C.Store X.Meaning X.Key.bytes X.Value.bytes X.Digest.bytes session.old
        session.new result (λ s. machine.prove X.scheme s size start (non_zero_u64_get max)) }
    ensures store { IsUnchanged C.Store (store_given X.inside session.old.held)
        (store_given X.inside session.new.held) }
    ensures uses { Uses C.Store (store_given X.inside session.old.held)
        (store_given X.inside session.new.held) result }
    ensures opened { session.new.opened ≡ session.old.opened }
{
    let Given::Database(x) = &mut session.held else {
        return no_database();
    };
    match x.prove(alloc, size, start, max) {
        Ok((proof, operations)) => {
            let Proof {
                leaves,
                inactive_peaks,
                digests,
            } = proof;
            Turn::Reply(Reply::Proof(leaves, inactive_peaks as u64, digests, operations))
        }
        Err(error) => turn_of(error),
    }
}

/// The pins at a location.
pub fn pins<X: Proving<C>, C: Store>(
    alloc: Global,
    session: &SessionOf<X, C>,
    at: u64,
) -> Turn<X::Key, X::Value, X::Digest>
    ensures machine { Tells C.Store X.Meaning X.Key.bytes X.Value.bytes X.Digest.bytes session.now
        result (λ s. machine.pins X.scheme s at) }
    ensures never { result ≢ Turn.StoreFault }
{
    let Given::Database(x) = &session.held else {
        return no_database();
    };
    match x.pins(alloc, at) {
        Ok(digests) => Turn::Reply(Reply::Pins(digests)),
        Err(error) => turn_of(error),
    }
}
