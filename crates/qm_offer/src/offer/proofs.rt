//! Proofs and pins.

ghost use Rattle.std.specs.Prelude.{◌≡◌, ◌≢◌, ◌+◌, List, None, map, take, drop, length, IfOk, IfErr};
ghost use Rattle.std.specs.Int.NonZero.{non_zero_u64_get};
ghost use Rattle.qm_model.specs.Operations.{Operation};
ghost use Rattle.qm_model.specs.Batches.{IsKnown};
ghost use Rattle.qm_model.specs.Refusals.{proof_refusal, proof_count};
ghost use Rattle.qm_model.specs.Held.{pins_lacked, proof_lacked};
ghost use Rattle.qm_base.specs.Listed.{listed_view};
ghost use Rattle.qm_proofs.specs.Proofs.{proof_view};
ghost use Rattle.qm_store.specs.Refusals.{IsDue};
ghost use Rattle.qm_model.specs.Taken.{taken};
ghost use Rattle.qm_offer.specs.Words.{AtTip, CanRead, IsProofFailure, ReadsOnly};

use crate::offer::Common;
use qm_base::{Error, JournalError, Listed};
use qm_proofs::Proof;
use qm_store::Store;
use std::alloc::Global;
use std::num::NonZeroU64;

/// The calls for proofs and pins.
pub trait Proving<C: Store>: Common<C> {
    /// The proof of a merkleized batch's own operations in the list that it makes, and the digests of the peaks over its base
    /// list. It is refused if the database is at no state at which the batch can be read, and if a node was taken away
    /// with what stood before the store's start. A run asks it of no current database.
    fn proof(
        &self,
        alloc: Global,
        batch: &Self::Merkleized,
    ) -> Result<(Proof<Self::Digest>, Vec<Self::Digest>), Error>
        ensures readable { IfOk result (λ _. AtTip Self.Meaning self.now batch.now
            (λ list chain tip. CanRead Self.Meaning list chain tip)) }
        ensures proof { IfOk result (λ r.
            AtTip Self.Meaning self.now batch.now (λ list chain tip. IsKnown list chain tip
            → (proof_lacked Self.scheme.shape (C.start (Self.inside self.now)) list chain tip
            ≡ None)
            × (proof_view Self.Digest.bytes r.0
            ≡ Self.scheme.proof tip (length chain.base) (length tip))
            × (map Self.Digest.bytes r.1.items ≡ Self.scheme.pins tip (length chain.base)))) }
        ensures failure { IfErr result (λ e.
            AtTip Self.Meaning self.now batch.now (λ list chain tip.
            IsProofFailure Self.Meaning (C.start (Self.inside self.now)) list chain tip e)) }
        ensures never { IfErr result (λ e.
            (e ≢ Error.StaleBatch) × (e ≢ Error.Journal JournalError.Store)) };

    /// Operations from `start` on, at most `max`, and their proof in the list of the database's first `size`
    /// operations, which has to end with a commit. It is refused as the definition says.
    fn prove(
        &mut self,
        alloc: Global,
        size: u64,
        start: u64,
        max: NonZeroU64,
    ) -> Result<(Proof<Self::Digest>, Vec<Listed<Self::Key, Self::Value>>), Error>
        ensures offered { IfOk result (λ r. (list : List Operation) → Self.stands self.old list
            → proof_refusal (C.start (Self.inside self.old)) list size start ≡ None) }
        ensures proof { IfOk result (λ r. (list : List Operation) → Self.stands self.old list
            → proof_view Self.Digest.bytes r.0
            ≡ Self.scheme.proof (take size list) start
            (start + proof_count size start (non_zero_u64_get max))) }
        ensures ops { IfOk result (λ r. (list : List Operation) → Self.stands self.old list
            → map (listed_view Self.Key.bytes Self.Value.bytes) r.1.items
            ≡ take (proof_count size start (non_zero_u64_get max)) (drop start list)) }
        ensures refused { IfErr result (λ e. (list : List Operation) → Self.stands self.old list
            → IsDue e (proof_refusal (C.start (Self.inside self.old)) list size start)) }
        ensures reads { ReadsOnly Self.Meaning C.Store self.old self.new result }
        ensures never { IfErr result (λ e. e ≢ Error.StaleBatch) };

    /// The digests of the peaks over the first `at` operations, which a node that starts there has to keep. It is
    /// refused past the end, and if one was taken away with what stood before the store's start.
    fn pins(&self, alloc: Global, at: u64) -> Result<Vec<Self::Digest>, Error>
        ensures offered { IfOk result (λ digests.
            (list : List Operation) → Self.stands self.now list
            → pins_lacked Self.scheme.shape (C.start (Self.inside self.now)) list at ≡ None) }
        ensures digests { IfOk result (λ digests.
            (list : List Operation) → Self.stands self.now list
            → map Self.Digest.bytes digests.items ≡ Self.scheme.pins list at) }
        ensures refused { IfErr result (λ e. (list : List Operation) → Self.stands self.now list
            → IsDue e (pins_lacked Self.scheme.shape (C.start (Self.inside self.now)) list at)) }
        ensures never { IfErr result (λ e.
            (e ≢ Error.StaleBatch) × (e ≢ Error.Journal JournalError.Store)) };
}
