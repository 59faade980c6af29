//! Proofs of operations in a row, of live updates and of the operations root, against the canonical root.

ghost use Rattle.std.specs.Prelude.{◌≡◌, ◌≤◌, ◌+◌, None, Some, length, map, take, drop, IfOk, IfErr, OnOk};
ghost use Rattle.std.specs.NonZero.{non_zero_u64_get};
ghost use Rattle.qm_model.specs.Live.{live, live_of};
ghost use Rattle.qm_model.specs.RangeProofs as range_proofs;
ghost use Rattle.qm_model.specs.Refusals.{lacking_refusal, proof_count};
ghost use Rattle.qm_graft.specs.Grafting.{grafting};
ghost use Rattle.qm_keyproofs.specs.Views.{chunk_views, operation_view, range_view, witness_view};
ghost use Rattle.qm_operations.specs.Views.{operation_views};
ghost use Rattle.qm_step.specs.Changes.{update_of};
ghost use Rattle.qm_store.specs.Refusals.{IsDue};
ghost use Rattle.qm_shown.specs.Refusals.{from_refusal, IsCaused};
ghost use Rattle.qm_current.specs.Making.{IsLeft};
ghost use Rattle.qm_current.specs.Shown.{AtList};

mod ordered;
mod unordered;

use crate::db::Db;
use qm_any::db as any;
use qm_any::db::LaidOut;
use qm_base::{ByteString, Digest, Error, Hasher, Location, Spelled};
use qm_bits::Chunks;
use qm_chunks::Graftable;
use qm_keyproofs::{ChunkBytes, OperationProof, OpsRootWitness, RangeProof};
use qm_merkle::{Family, StandardHasher};
use qm_operations::{Operation, Update, ValueEncoding};
use qm_shown::ShownRange;
use qm_store::Store;
use std::alloc::{AllocError, Global};
use std::num::NonZeroU64;

impl<
    F: Graftable,
    C: Store,
    I: qm_index::Unordered<Value = Location<F>>,
    H: Hasher,
    U: Update,
    N: Chunks,
> Db<F, C, I, H, U, N> {
    /// The operations from `start` on, at most `max`, with their chunks of activity bits, and their proof against the canonical root.
    /// It is refused for the first of these: `start` is past the end; its chunk is pruned; the store no longer has the operation there.
    pub fn range_proof(
        &mut self,
        alloc: Global,
        hasher: &mut StandardHasher<H>,
        start: Location<F>,
        max: NonZeroU64,
    ) -> Result<ShownRange<F, N, H::Digest, U>, Error>
        ensures offered { AtList C.Store ⟦<any::Db<F, C, I, H, U, N> as LaidOut>⟧.layout self.old
            (λ list. OnOk result (from_refusal C.Store N.LEN self.old.any list start ≡ None)) }
        ensures proof { AtList C.Store ⟦<any::Db<F, C, I, H, U, N> as LaidOut>⟧.layout self.old
            (λ list. IfOk result (λ shown. range_view H.Digest.bytes shown.0
            ≡ range_proofs.range_proof H.hash F.shape (grafting N.LEN) U.form list start
            (start + proof_count (length list) start (non_zero_u64_get max)))) }
        ensures operations { AtList C.Store ⟦<any::Db<F, C, I, H, U, N> as LaidOut>⟧.layout self.old
            (λ list. IfOk result (λ shown.
            operation_views U.view U.Key.bytes U.Value.bytes shown.1.items
            ≡ take (proof_count (length list) start (non_zero_u64_get max)) (drop start list))) }
        ensures chunks { AtList C.Store ⟦<any::Db<F, C, I, H, U, N> as LaidOut>⟧.layout self.old
            (λ list. IfOk result (λ shown. chunk_views shown.2.items
            ≡ range_proofs.chunks_of (grafting N.LEN) list start
            (start + proof_count (length list) start (non_zero_u64_get max)))) }
        ensures refused { AtList C.Store ⟦<any::Db<F, C, I, H, U, N> as LaidOut>⟧.layout self.old
            (λ list. IfErr result (λ e.
            IsDue e (from_refusal C.Store N.LEN self.old.any list start))) }
        ensures caused { IfErr result (IsCaused C.Store self.old.any self.new.any) }
        ensures left { IsLeft C.Store ⟦<any::Db<F, C, I, H, U, N> as LaidOut>⟧.layout self.old
            self.new }
    {
        qm_shown::range_proof(alloc, hasher, &mut self.any, &self.canonical, start, max)
    }

    /// Whether the proof shows that these operations stand at the locations from `start` on, in the list of this canonical root, and
    /// that these are the chunks of those locations. It takes no memory.
    pub fn verify_range_proof(
        hasher: &mut StandardHasher<H>,
        proof: &RangeProof<H::Digest>,
        start: Location<F>,
        operations: &[Operation<F, U>],
        chunks: &[ChunkBytes<N>],
        root: &H::Digest,
    ) -> bool
        ensures { result
            ≡ range_proofs.range_verdict H.hash F.shape (grafting N.LEN)
            (map ⟦<Operation<F, U> as Spelled>⟧.spelling operations.now) start
            (chunk_views chunks.now) (range_view H.Digest.bytes proof.now)
            (H.Digest.bytes root.now) }
    {
        proof.verify(hasher, operations, start, chunks, root)
    }

    /// The witness that the operations root belongs to the canonical root. Want of memory is the only error.
    pub fn ops_root_witness(
        &self,
        alloc: Global,
        hasher: &mut StandardHasher<H>,
    ) -> Result<OpsRootWitness<H::Digest>, AllocError>
        ensures { AtList C.Store ⟦<any::Db<F, C, I, H, U, N> as LaidOut>⟧.layout self.now (λ list.
            IfOk result (λ w. witness_view H.Digest.bytes w
            ≡ range_proofs.witness H.hash F.shape (grafting N.LEN) U.form list)) }
    {
        qm_shown::ops_root_witness(alloc, hasher, &self.any, &self.canonical)
    }

    /// The live update of a key, and the proof that it stands there and is active, of which the proofs of keys are made in either kind of
    /// databases. It is refused for a key that is not live, and for nothing else.
    pub fn update_proof(
        &mut self,
        alloc: Global,
        hasher: &mut StandardHasher<H>,
        key: &U::Key,
    ) -> Result<(U, OperationProof<F, N, H::Digest>), Error>
        ensures update { AtList C.Store ⟦<any::Db<F, C, I, H, U, N> as LaidOut>⟧.layout self.old
            (λ list. IfOk result (λ shown.
            update_of list (U.Key.bytes key.now) ≡ Some (shown.1.loc, U.view shown.0))) }
        ensures proof { AtList C.Store ⟦<any::Db<F, C, I, H, U, N> as LaidOut>⟧.layout self.old
            (λ list. IfOk result (λ shown. operation_view H.Digest.bytes shown.1
            ≡ range_proofs.operation_proof H.hash F.shape (grafting N.LEN) U.form list shown.1.loc)) }
        ensures refused { AtList C.Store ⟦<any::Db<F, C, I, H, U, N> as LaidOut>⟧.layout self.old
            (λ list. IfErr result (λ e.
            IsDue e (lacking_refusal (live_of (live list) (U.Key.bytes key.now))))) }
        ensures caused { IfErr result (IsCaused C.Store self.old.any self.new.any) }
        ensures left { IsLeft C.Store ⟦<any::Db<F, C, I, H, U, N> as LaidOut>⟧.layout self.old
            self.new }
    {
        qm_shown::update_proof(alloc, hasher, &mut self.any, &self.canonical, key)
    }
}
