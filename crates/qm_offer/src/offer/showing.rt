//! Proofs of what a current database has now.

ghost use Rattle.std.specs.Prelude.{◌≡◌, ◌≢◌, ◌+◌, List, Some, None, option_map, is_some, length, IfOk, IfErr, IfSome, IsSome};
ghost use Rattle.std.specs.Int.NonZero.{non_zero_u64_get};
ghost use Rattle.qm_model.specs.Live.{live, live_of};
ghost use Rattle.qm_model.specs.Operations.{Operation};
ghost use Rattle.qm_model.specs.Refusals.{existing_refusal, lacking_refusal, proof_count, range_refusal};
ghost use Rattle.qm_model.specs.Taken.{counted_in};
ghost use Rattle.qm_store.specs.Refusals.{IsDue};
ghost use Rattle.qm_offer.specs.Words.{AtChecks, ReadsOnly};

use crate::offer::Common;
use qm_base::Error;
use qm_store::Store;
use std::alloc::Global;
use std::num::NonZeroU64;

/// What came of a proof of operations in a row.
#[derive(Clone, Copy)]
pub struct ShownRange {
    /// How many operations it shows.
    pub operations: u64,
    /// How many chunks of bits it has.
    pub chunks: u64,
    /// Whether it was accepted.
    pub is_accepted: bool,
}

/// The calls for proofs of keys, of absences, of ranges and of the operations root. Each makes its proof from what the database has,
/// checks it against the root, and tells what the check says. Only current databases are asked.
pub trait Showing<C: Store>: Common<C> {
    /// Proves the value of a key: where its live update stands, and whether the proof is accepted.
    fn held(&mut self, alloc: Global, key: &Self::Key) -> Result<(u64, bool), Error>
        ensures shown { IfOk result (λ r. (list : List Operation) → Self.stands self.old list
            → AtChecks Self.scheme (λ chunks checks.
            option_map (λ e. (e.location, checks.held list e))
            (live_of (live list) (Self.Key.bytes key.now)) ≡ Some r)) }
        ensures refused { IfErr result (λ e. (list : List Operation) → Self.stands self.old list
            → AtChecks Self.scheme (λ chunks checks.
            IsDue e (lacking_refusal (live_of (live list) (Self.Key.bytes key.now))))) }
        ensures reads { ReadsOnly Self.Meaning C.Store self.old self.new result }
        ensures never { IfErr result (λ e. e ≢ Error.StaleBatch) };

    /// In an ordered database proves that a key has no value: where the operation stands that shows it, and whether the proof is
    /// accepted. An unordered one proves nothing.
    fn absent(&mut self, alloc: Global, key: &Self::Key) -> Result<Option<(u64, bool)>, Error>
        ensures shown { IfOk result (λ r. (list : List Operation) → Self.stands self.old list
            → AtChecks Self.scheme (λ chunks checks.
            r ≡ option_map (λ check. check list (Self.Key.bytes key.now)) checks.absent)) }
        ensures absent { IfOk result (λ r. (list : List Operation) → Self.stands self.old list
            → AtChecks Self.scheme (λ chunks checks. IfSome checks.absent (λ check.
            live_of (live list) (Self.Key.bytes key.now) ≡ None))) }
        ensures refused { IfErr result (λ e. (list : List Operation) → Self.stands self.old list
            → AtChecks Self.scheme (λ chunks checks. IfSome checks.absent (λ check.
            IsDue e (existing_refusal (live_of (live list) (Self.Key.bytes key.now)))))) }
        ensures reads { ReadsOnly Self.Meaning C.Store self.old self.new result }
        ensures never { IfErr result (λ e. e ≢ Error.StaleBatch) };

    /// Proves operations from `start` on, at most `max`, and which of them are active.
    fn chunks(&mut self, alloc: Global, start: u64, max: NonZeroU64) -> Result<ShownRange, Error>
        ensures offered { IfOk result (λ r. (list : List Operation) → Self.stands self.old list
            → AtChecks Self.scheme (λ chunks checks.
            IfSome (C.told (Self.inside self.old)) (λ s.
            range_refusal chunks.height (counted_in Self.scheme s)
            (C.start (Self.inside self.old)) list start ≡ None))) }
        ensures shown { IfOk result (λ r. (list : List Operation) → Self.stands self.old list
            → AtChecks Self.scheme (λ chunks checks.
            let count = proof_count (length list) start (non_zero_u64_get max) in
            (r.operations ≡ count)
            × ((r.chunks, r.is_accepted) ≡ checks.range list start (start + count)))) }
        ensures refused { IfErr result (λ e. (list : List Operation) → Self.stands self.old list
            → AtChecks Self.scheme (λ chunks checks.
            IfSome (C.told (Self.inside self.old)) (λ s.
            IsDue e (range_refusal chunks.height (counted_in Self.scheme s)
            (C.start (Self.inside self.old)) list start)))) }
        ensures reads { ReadsOnly Self.Meaning C.Store self.old self.new result }
        ensures never { IfErr result (λ e. e ≢ Error.StaleBatch) };

    /// Proves that the operations root belongs to the root: whether the proof is accepted.
    fn witness(&self, alloc: Global) -> Result<bool, Error>
        ensures shown { IfOk result (λ accepted. (list : List Operation) → Self.stands self.now list
            → AtChecks Self.scheme (λ chunks checks. accepted ≡ checks.witness list)) }
        ensures refused { IfErr result (λ e. e ≡ Error.Memory) };

    /// A current database has checks of its proofs.
    ghost checked: { IfSome Self.scheme.grafts (λ g. IsSome g.checks) };

    /// An ordered one alone proves absences.
    ghost absences: { AtChecks Self.scheme (λ chunks checks. is_some checks.absent ≡ Self.scheme.form.ordered) };
}
