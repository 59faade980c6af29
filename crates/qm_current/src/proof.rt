//! Proofs of a database's operations.

ghost use Rattle.std.specs.Prelude.{◌≡◌, ◌≤◌, ◌<◌, ◌+◌, None, map, take, drop, Err, IfOk, IfErr, OnOk};
ghost use Rattle.std.specs.NonZero.{non_zero_u64_get};
ghost use Rattle.qm_operations.specs.Views.{operation_views};
ghost use Rattle.qm_model.specs.Proofs.{ops_proof, pins_at};
ghost use Rattle.qm_model.specs.Refusals.{proof_refusal, proof_count, pins_refusal};
ghost use Rattle.qm_model.specs.Trees.{peak_positions};
ghost use Rattle.qm_merkle.specs.Mems.{node_at};
ghost use Rattle.qm_proofs.specs.Proofs.{proof_view, first_lacked};
ghost use Rattle.qm_any.specs.Reading.{AtList};
ghost use Rattle.qm_any.specs.Reasons.{IsPinsError, IsProofError};
ghost use Rattle.qm_store.specs.Refusals.{IsDue};
ghost use Rattle.qm_build.specs.Reasons.{proof_reasons};
ghost use Rattle.qm_current.specs.Making.{IsLeft};

use crate::db::Db;
use qm_any::db as any;
use qm_any::db::LaidOut;
use qm_base::{ByteString, Digest, Error, Hasher, Location, TreeRefused};
use qm_bits::Chunks;
use qm_chunks::Graftable;
use qm_merkle::Family;
use qm_operations::{Operation, Update, ValueEncoding};
use qm_proofs::Proof;
use qm_store::Store;
use std::alloc::Global;
use std::num::NonZeroU64;

impl<
    F: Graftable,
    C: Store,
    I: qm_index::Unordered<Value = Location<F>>,
    H: Hasher,
    U: Update,
    N: Chunks,
> Db<F, C, I, H, U, N> {
    /// The operations from `start` on, at most `max`, and their proof in the list of the first `size` operations, which
    /// has to end with a commit. It verifies against the operations root that the database had with these operations, and speaks of
    /// no bits. It is refused for the first of these: `size` is past the end; the store no longer has the last of them, or that is
    /// no commit; its floor is past it; `start` is past it, or before what the store has.
    pub fn ops_historical_proof(
        &mut self,
        alloc: Global,
        size: Location<F>,
        start: Location<F>,
        max: NonZeroU64,
    ) -> Result<(Proof<H::Digest>, Vec<Operation<F, U>>), Error>
        ensures offered { AtList C.Store ⟦<any::Db<F, C, I, H, U, N> as LaidOut>⟧.layout
            self.old.any (λ list. OnOk result
            (proof_refusal (C.start self.old.any.log.store) list size start ≡ None)) }
        ensures kept { OnOk result (C.start self.old.any.log.store ≤ start) }
        ensures proof { AtList C.Store ⟦<any::Db<F, C, I, H, U, N> as LaidOut>⟧.layout self.old.any
            (λ list. IfOk result (λ shown. proof_view H.Digest.bytes shown.0
            ≡ ops_proof H.hash F.shape U.form (take size list) start
            (start + proof_count size start (non_zero_u64_get max)))) }
        ensures operations { AtList C.Store ⟦<any::Db<F, C, I, H, U, N> as LaidOut>⟧.layout
            self.old.any (λ list. IfOk result (λ shown.
            operation_views U.view U.Key.bytes U.Value.bytes shown.1.items
            ≡ take (proof_count size start (non_zero_u64_get max)) (drop start list))) }
        ensures refused { AtList C.Store ⟦<any::Db<F, C, I, H, U, N> as LaidOut>⟧.layout
            self.old.any (λ list. IfErr result (λ e.
            IsDue e (proof_refusal (C.start self.old.any.log.store) list size start))) }
        ensures unproved { IfErr result
            (IsProofError C.Store (proof_reasons size start) self.old.any.log self.new.any.log) }
        ensures left { IsLeft C.Store ⟦<any::Db<F, C, I, H, U, N> as LaidOut>⟧.layout self.old
            self.new }
    {
        self.any.historical_proof(alloc, size, start, max)
    }

    /// The digests of the peaks of the operations' tree over the first `count` operations, from left to right. If the store has
    /// the operations from there on, or earlier ones, all digests are there.
    pub fn pinned_nodes_at(
        &self,
        alloc: Global,
        count: Location<F>,
    ) -> Result<Vec<H::Digest>, Error>
        ensures offered { AtList C.Store ⟦<any::Db<F, C, I, H, U, N> as LaidOut>⟧.layout
            self.now.any (λ list. OnOk result (pins_refusal list count ≡ None)) }
        ensures pins { AtList C.Store ⟦<any::Db<F, C, I, H, U, N> as LaidOut>⟧.layout self.now.any
            (λ list. IfOk result (λ pins.
            map H.Digest.bytes pins.items ≡ pins_at H.hash F.shape U.form list count)) }
        ensures refused { C.start self.now.any.log.store ≤ count
            → AtList C.Store ⟦<any::Db<F, C, I, H, U, N> as LaidOut>⟧.layout self.now.any
            (λ list. IfErr result (λ e. IsDue e (pins_refusal list count))) }
        ensures range { self.now.any.commitment.size < count
            → result ≡ Err (Error.Merkle (TreeRefused.RangeOutOfBounds count)) }
        ensures held { OnOk result (first_lacked (node_at F.shape self.now.any.log.tree)
            (peak_positions F.shape count)
            ≡ None) }
        ensures lacking { IfErr result (IsPinsError F.shape self.now.any.log.tree
            (C.start self.now.any.log.store) self.now.any.commitment.size count) }
    {
        self.any.pinned_nodes_at(alloc, count)
    }
}
