//! Proofs of keys.

ghost use Rattle.std.specs.Prelude.{◌≡◌, ◌≤◌, ◌<◌, ◌*◌, ◌^◌, None, Some, IfOk, IfErr};
ghost use Rattle.qm_model.specs.Live.{live, live_of};
ghost use Rattle.qm_model.specs.RangeProofs as range_proofs;
ghost use Rattle.qm_graft.specs.Grafting.{grafting};
ghost use Rattle.qm_keyproofs.specs.Views.{operation_view};
ghost use Rattle.qm_step.specs.Changes.{update_of};
ghost use Rattle.qm_any.specs.Databases.{IsLeft};
ghost use Rattle.qm_any.specs.Reading.{AtList};
ghost use Rattle.qm_shown.specs.Beside.{AtBoth, HasEnds};
ghost use Rattle.qm_model.specs.Refusals.{lacking_refusal};
ghost use Rattle.qm_store.specs.Refusals.{IsDue};
ghost use Rattle.qm_shown.specs.Refusals.{from_refusal, IsCaused, IsUnread};

use crate::parts::parts;
use crate::refused::provable_from;
use qm_any::db::{Db, LaidOut};
use qm_base::{ByteString, Digest, Error, Hasher, Location};
use qm_bits::Chunks;
use qm_chunks::Graftable;
use qm_keyproofs::OperationProof;
use qm_merkle::{Family, StandardHasher};
use qm_operations::{Update, ValueEncoding};
use qm_roots::Canonical;
use qm_store::Store;
use std::alloc::Global;

/// The live update of a key, and the proof that it stands there and is active, of which the proofs of keys are made in either kind
/// of databases. It is refused for a key that is not live, and for nothing else.
pub fn update_proof<
    F: Graftable,
    C: Store,
    I: qm_index::Unordered<Value = Location<F>>,
    H: Hasher,
    U: Update,
    N: Chunks,
>(
    alloc: Global,
    hasher: &mut StandardHasher<H>,
    db: &mut Db<F, C, I, H, U, N>,
    own: &Canonical<F, N, H::Digest>,
    key: &U::Key,
) -> Result<(U, OperationProof<F, N, H::Digest>), Error>
    requires { HasEnds {C = C} {D = H.Digest} db.old own.now }
    ensures update { AtBoth C.Store ⟦<Db<F, C, I, H, U, N> as LaidOut>⟧.layout db.old own.now
        (λ list. IfOk result (λ shown.
        update_of list (U.Key.bytes key.now) ≡ Some (shown.1.loc, U.view shown.0))) }
    ensures proof { AtBoth C.Store ⟦<Db<F, C, I, H, U, N> as LaidOut>⟧.layout db.old own.now
        (λ list. IfOk result (λ shown. operation_view H.Digest.bytes shown.1
        ≡ range_proofs.operation_proof H.hash F.shape (grafting N.LEN) U.form list shown.1.loc)) }
    ensures refused { AtBoth C.Store ⟦<Db<F, C, I, H, U, N> as LaidOut>⟧.layout db.old own.now
        (λ list. IfErr result (λ e.
        IsDue e (lacking_refusal (live_of (live list) (U.Key.bytes key.now))))) }
    ensures caused { IfErr result (IsCaused C.Store db.old db.new) }
    ensures left { IsLeft C.Store ⟦<Db<F, C, I, H, U, N> as LaidOut>⟧.layout.hashing db.old db.new }
{
    let (at, update) = found(alloc, db, key)?;
    let proof = proof_at(alloc, hasher, db, own, at)?;
    Ok((update, proof))
}

// The live update of a key, with its location.
fn found<
    F: Graftable,
    C: Store,
    I: qm_index::Unordered<Value = Location<F>>,
    H: Hasher,
    U: Update,
    N: Chunks,
>(alloc: Global, db: &mut Db<F, C, I, H, U, N>, key: &U::Key) -> Result<(Location<F>, U), Error>
    ensures update { AtList C.Store ⟦<Db<F, C, I, H, U, N> as LaidOut>⟧.layout db.old (λ list.
        IfOk result (λ found.
        Some (found.0, U.view found.1) ≡ update_of list (U.Key.bytes key.now))) }
    ensures refused { AtList C.Store ⟦<Db<F, C, I, H, U, N> as LaidOut>⟧.layout db.old (λ list.
        IfErr result (λ e. IsDue e (lacking_refusal (live_of (live list) (U.Key.bytes key.now))))) }
    ensures caused { IfErr result (IsCaused C.Store db.old db.new) }
    ensures left { IsLeft C.Store ⟦<Db<F, C, I, H, U, N> as LaidOut>⟧.layout.hashing db.old db.new }
{
    match db.get_with_loc(alloc, key)? {
        Some(found) => Ok(found),
        None => Err(Error::KeyNotFound),
    }
}

// The proof of the operation at a location.
pub(crate) fn proof_at<
    F: Graftable,
    C: Store,
    I: qm_index::Unordered<Value = Location<F>>,
    H: Hasher,
    U: Update,
    N: Chunks,
>(
    alloc: Global,
    hasher: &mut StandardHasher<H>,
    db: &Db<F, C, I, H, U, N>,
    own: &Canonical<F, N, H::Digest>,
    at: Location<F>,
) -> Result<OperationProof<F, N, H::Digest>, Error>
    requires { HasEnds {C = C} {D = H.Digest} db.now own.now }
    ensures loc { IfOk result (λ p. p.loc ≡ at) }
    ensures proof { AtBoth C.Store ⟦<Db<F, C, I, H, U, N> as LaidOut>⟧.layout db.now own.now
        (λ list. IfOk result (λ p. operation_view H.Digest.bytes p
        ≡ range_proofs.operation_proof H.hash F.shape (grafting N.LEN) U.form list at)) }
    ensures refused { AtBoth C.Store ⟦<Db<F, C, I, H, U, N> as LaidOut>⟧.layout db.now own.now
        (λ list. IfErr result (λ e. IsDue e (from_refusal C.Store N.LEN db.now list at))) }
    ensures unread { IfErr result IsUnread }
{
    provable_from(db, Location::new(at.get()))?;
    // its clauses say that the tree starts where the store does
    db.bounds();
    // and that it is over as many operations
    db.tree();
    let root = db.root();
    match parts(db, own, &root).operation_proof(alloc, hasher, at) {
        Ok(proof) => Ok(proof),
        Err(_) => Err(Error::Memory),
    }
}
