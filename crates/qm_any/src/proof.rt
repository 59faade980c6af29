//! Proofs of a database's operations.

ghost use Rattle.std.specs.Prelude.{◌≡◌, ◌≤◌, ◌<◌, ◌+◌, None, length, map, take, drop, Err, IfOk, IfErr, OnOk};
ghost use Rattle.std.specs.NonZero.{non_zero_u64_get};
ghost use Rattle.qm_operations.specs.Views.{operation_views};
ghost use Rattle.qm_model.specs.Proofs.{ops_proof, pins_at};
ghost use Rattle.qm_model.specs.Refusals.{proof_refusal, proof_count, pins_refusal};
ghost use Rattle.qm_model.specs.Trees.{peak_positions};
ghost use Rattle.qm_merkle.specs.Mems.{node_at};
ghost use Rattle.qm_proofs.specs.Proofs.{proof_view, first_lacked};
ghost use Rattle.qm_any.specs.Databases.{IsLeft};
ghost use Rattle.qm_any.specs.Reading.{AtList};
ghost use Rattle.qm_any.specs.Reasons.{IsPinsError, IsProofError};
ghost use Rattle.qm_store.specs.Refusals.{IsDue};
ghost use Rattle.qm_build.specs.Reasons.{proof_reasons};

use crate::db::{Db, LaidOut};
use qm_base::{Digest, Error, Hasher, Location, TreeRefused};
use qm_bits::Chunks;
use qm_build::proved_over;
use qm_merkle::Family;
use qm_operations::{Operation, Update};
use qm_proofs::Proof;
use qm_store::Store;
use std::alloc::Global;
use std::num::NonZeroU64;

impl<
    F: Family,
    C: Store,
    I: qm_index::Unordered<Value = Location<F>>,
    H: Hasher,
    U: Update,
    N: Chunks,
> Db<F, C, I, H, U, N> {
    /// The operations from `start` on, at most `max`, and their proof in the list of the first `size` operations, which
    /// has to end with a commit. It verifies against the root that the database had with these operations. It is refused
    /// for the first of these: `size` is past the end; the store no longer has the last of them, or that is
    /// no commit; its floor is past it; `start` is past it, or before what the store has.
    pub fn historical_proof(
        &mut self,
        alloc: Global,
        size: Location<F>,
        start: Location<F>,
        max: NonZeroU64,
    ) -> Result<(Proof<H::Digest>, Vec<Operation<F, U>>), Error>
        ensures offered { AtList C.Store ⟦<Self as LaidOut>⟧.layout self.old (λ list.
            OnOk result (proof_refusal (C.start self.old.log.store) list size start ≡ None)) }
        ensures kept { OnOk result (C.start self.old.log.store ≤ start) }
        ensures proof { AtList C.Store ⟦<Self as LaidOut>⟧.layout self.old (λ list.
            IfOk result (λ shown. proof_view H.Digest.bytes shown.0
            ≡ ops_proof H.hash F.shape U.form (take size list) start
            (start + proof_count size start (non_zero_u64_get max)))) }
        ensures operations { AtList C.Store ⟦<Self as LaidOut>⟧.layout self.old (λ list.
            IfOk result (λ shown. operation_views U.view U.Key.bytes U.Value.bytes shown.1.items
            ≡ take (proof_count size start (non_zero_u64_get max)) (drop start list))) }
        ensures refused { AtList C.Store ⟦<Self as LaidOut>⟧.layout self.old (λ list.
            IfErr result (λ e.
            IsDue e (proof_refusal (C.start self.old.log.store) list size start))) }
        ensures unproved { IfErr result
            (IsProofError C.Store (proof_reasons size start) self.old.log self.new.log) }
        ensures left { IsLeft C.Store ⟦<Self as LaidOut>⟧.layout.hashing self.old self.new }
    {
        proved_over(alloc, &mut self.log, size.get(), start.get(), max)
    }

    /// The operations from `start` on, at most `max`, and their proof in the whole list.
    pub fn proof(
        &mut self,
        alloc: Global,
        start: Location<F>,
        max: NonZeroU64,
    ) -> Result<(Proof<H::Digest>, Vec<Operation<F, U>>), Error>
        ensures offered { AtList C.Store ⟦<Self as LaidOut>⟧.layout self.old (λ list.
            OnOk result
            (proof_refusal (C.start self.old.log.store) list (length list) start ≡ None)) }
        ensures kept { OnOk result (C.start self.old.log.store ≤ start) }
        ensures proof { AtList C.Store ⟦<Self as LaidOut>⟧.layout self.old (λ list.
            IfOk result (λ shown. proof_view H.Digest.bytes shown.0
            ≡ ops_proof H.hash F.shape U.form list start
            (start + proof_count (length list) start (non_zero_u64_get max)))) }
        ensures operations { AtList C.Store ⟦<Self as LaidOut>⟧.layout self.old (λ list.
            IfOk result (λ shown. operation_views U.view U.Key.bytes U.Value.bytes shown.1.items
            ≡ take (proof_count (length list) start (non_zero_u64_get max)) (drop start list))) }
        ensures refused { AtList C.Store ⟦<Self as LaidOut>⟧.layout self.old (λ list.
            IfErr result (λ e.
            IsDue e (proof_refusal (C.start self.old.log.store) list (length list) start))) }
        ensures unproved { IfErr result (IsProofError C.Store
            (proof_reasons self.old.commitment.size start) self.old.log self.new.log) }
        ensures left { IsLeft C.Store ⟦<Self as LaidOut>⟧.layout.hashing self.old self.new }
    {
        let size = self.size();
        self.historical_proof(alloc, size, start, max)
    }

    /// The digests of the peaks over the first `count` operations, from left to right: what a node has to be given that
    /// starts with the operations from there on. If the store has these, or earlier ones, all digests are there.
    pub fn pinned_nodes_at(
        &self,
        alloc: Global,
        count: Location<F>,
    ) -> Result<Vec<H::Digest>, Error>
        ensures offered { AtList C.Store ⟦<Self as LaidOut>⟧.layout self.now (λ list.
            OnOk result (pins_refusal list count ≡ None)) }
        ensures pins { AtList C.Store ⟦<Self as LaidOut>⟧.layout self.now (λ list.
            IfOk result (λ pins.
            map H.Digest.bytes pins.items ≡ pins_at H.hash F.shape U.form list count)) }
        ensures refused { C.start self.now.log.store ≤ count
            → AtList C.Store ⟦<Self as LaidOut>⟧.layout self.now (λ list.
            IfErr result (λ e. IsDue e (pins_refusal list count))) }
        ensures range { self.now.commitment.size < count
            → result ≡ Err (Error.Merkle (TreeRefused.RangeOutOfBounds count)) }
        ensures held { OnOk result (first_lacked (node_at F.shape self.now.log.tree)
            (peak_positions F.shape count)
            ≡ None) }
        ensures lacking { IfErr result (IsPinsError F.shape self.now.log.tree
            (C.start self.now.log.store) self.now.commitment.size count) }
    {
        // The log is kept from where its store is.
        self.log.bounds();
        self.log.pinned_nodes_at(alloc, count.get())
    }
}
