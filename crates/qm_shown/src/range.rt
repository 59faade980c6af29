//! Proofs of operations in a row.

ghost use Rattle.std.specs.Prelude.{◌≡◌, ◌≤◌, ◌<◌, ◌+◌, ◌*◌, ◌^◌, None, length, take, drop, IfOk, IfErr, OnOk};
ghost use Rattle.std.specs.NonZero.{non_zero_u64_get};
ghost use Rattle.qm_base.specs.declared.error.Error.TheVariants as errors;
ghost use Rattle.qm_model.specs.RangeProofs as range_proofs;
ghost use Rattle.qm_model.specs.Refusals.{proof_count};
ghost use Rattle.qm_graft.specs.Grafting.{grafting};
ghost use Rattle.qm_keyproofs.specs.Views.{chunk_views, range_view};
ghost use Rattle.qm_operations.specs.Views.{operation_views};
ghost use Rattle.qm_any.specs.Databases.{IsLeft};
ghost use Rattle.qm_shown.specs.Beside.{AtBoth, HasEnds};
ghost use Rattle.qm_store.specs.Refusals.{IsDue};
ghost use Rattle.qm_shown.specs.Refusals.{from_refusal, IsCaused};

use crate::parts::parts;
use crate::refused::provable_from;
use qm_any::db::{Db, LaidOut};
use qm_base::{Digest, Error, Hasher, Location, MerkleError};
use qm_bits::Chunks;
use qm_chunks::Graftable;
use qm_keyproofs::{ChunkBytes, RangeProof};
use qm_merkle::{Family, StandardHasher};
use qm_operations::{Operation, Update};
use qm_roots::Canonical;
use qm_store::Store;
use std::alloc::Global;
use std::num::NonZeroU64;

/// A range proof, the operations that it shows, and their chunks.
pub type ShownRange<F, N, D, U> = (RangeProof<D>, Vec<Operation<F, U>>, Vec<ChunkBytes<N>>);

/// The operations from `start` on, at most `max`, with their chunks, and their proof in the database's list. It is refused for the
/// first of these: `start` is past the end; its chunk is pruned; the store no longer has the operation there.
pub fn range_proof<
    F: Graftable,
    C: Store,
    I: qm_index::Unordered<Value = Location<F>>,
    H: Hasher,
    U: Update,
    N: Chunks,
>(
    alloc: Global,
    hasher: &mut StandardHasher<H>,
    db: &mut Db<F, C, I, H, U, N>,
    own: &Canonical<F, N, H::Digest>,
    start: Location<F>,
    max: NonZeroU64,
) -> Result<ShownRange<F, N, H::Digest, U>, Error>
    requires { HasEnds {C = C} {D = H.Digest} db.old own.now }
    ensures offered { AtBoth C.Store ⟦<Db<F, C, I, H, U, N> as LaidOut>⟧.layout db.old own.now
        (λ list. OnOk result (from_refusal C.Store N.LEN db.old list start ≡ None)) }
    ensures proof { AtBoth C.Store ⟦<Db<F, C, I, H, U, N> as LaidOut>⟧.layout db.old own.now
        (λ list. IfOk result (λ shown. range_view H.Digest.bytes shown.0
        ≡ range_proofs.range_proof H.hash F.shape (grafting N.LEN) U.form list start
        (start + proof_count (length list) start (non_zero_u64_get max)))) }
    ensures operations { AtBoth C.Store ⟦<Db<F, C, I, H, U, N> as LaidOut>⟧.layout db.old own.now
        (λ list. IfOk result (λ shown.
        operation_views U.view U.Key.bytes U.Value.bytes shown.1.items
        ≡ take (proof_count (length list) start (non_zero_u64_get max)) (drop start list))) }
    ensures chunks { AtBoth C.Store ⟦<Db<F, C, I, H, U, N> as LaidOut>⟧.layout db.old own.now
        (λ list. IfOk result (λ shown. chunk_views shown.2.items
        ≡ range_proofs.chunks_of (grafting N.LEN) list start
        (start + proof_count (length list) start (non_zero_u64_get max)))) }
    ensures refused { AtBoth C.Store ⟦<Db<F, C, I, H, U, N> as LaidOut>⟧.layout db.old own.now
        (λ list. IfErr result (λ e. IsDue e (from_refusal C.Store N.LEN db.old list start))) }
    ensures caused { IfErr result (IsCaused C.Store db.old db.new) }
    ensures left { IsLeft C.Store ⟦<Db<F, C, I, H, U, N> as LaidOut>⟧.layout.hashing db.old db.new }
{
    provable_from(db, start)?;
    let end = end_of(db.size().get(), start.get(), max);
    let (proof, chunks) = match proof_between(
        alloc,
        hasher,
        db,
        own,
        Location::new(start.get()),
        Location::new(end),
    ) {
        Ok(shown) => shown,
        Err(_) => return Err(Error::Memory),
    };
    let (_, operations) = db.proof(alloc, start, max)?;
    Ok((proof, operations, chunks))
}

// Where at most so many operations from a location on end.
fn end_of(size: u64, start: u64, max: NonZeroU64) -> u64
    requires { start < size }
    ensures exact { result ≡ start + proof_count size start (non_zero_u64_get max) }
    ensures some { start < result }
    ensures within { result ≤ size }
{
    start + max.get().min(size - start)
}

// The proof of the operations from a location up to, and without, another, and their chunks.
fn proof_between<
    F: Graftable,
    C: Store,
    I: qm_index::Unordered<Value = Location<F>>,
    H: Hasher,
    U: Update,
    N: Chunks,
>(
    alloc: Global,
    hasher: &mut StandardHasher<H>,
    db: &Db<F, C, I, H, U, N>,
    own: &Canonical<F, N, H::Digest>,
    start: Location<F>,
    end: Location<F>,
) -> Result<(RangeProof<H::Digest>, Vec<ChunkBytes<N>>), MerkleError>
    requires beside { HasEnds {C = C} {D = H.Digest} db.now own.now }
    requires order { start < end }
    requires within { end ≤ db.now.commitment.size }
    requires kept { C.start db.now.log.store ≤ start }
    requires bits { db.now.activity.pruned * 2 ^ grafting N.LEN ≤ start }
    ensures proof { AtBoth C.Store ⟦<Db<F, C, I, H, U, N> as LaidOut>⟧.layout db.now own.now
        (λ list. IfOk result (λ shown. range_view H.Digest.bytes shown.0
        ≡ range_proofs.range_proof H.hash F.shape (grafting N.LEN) U.form list start end)) }
    ensures chunks { AtBoth C.Store ⟦<Db<F, C, I, H, U, N> as LaidOut>⟧.layout db.now own.now
        (λ list. IfOk result (λ shown. chunk_views shown.1.items
        ≡ range_proofs.chunks_of (grafting N.LEN) list start end)) }
{
    // its clauses say that the tree starts where the store does
    db.bounds();
    // and that it is over as many operations
    db.tree();
    let root = db.root();
    let parts = parts(db, own, &root);
    let proof = parts.range_proof(
        alloc,
        hasher,
        Location::new(start.get()),
        Location::new(end.get()),
    )?;
    let chunks = parts.chunks(alloc, start, end)?;
    Ok((proof, chunks))
}
